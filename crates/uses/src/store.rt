//! Filters that are prepared once, for the batches that come later.

ghost use Rattle.std.specs.Prelude.{◌≡◌, ◌↔◌, ◌≤◌, [], ◌∷◌, ◌++◌, Err, length, map, IfOk, OnOk, OnErr};
ghost use Rattle.std.specs.Prelude.{IsOkUnless};
ghost use Rattle.gevaindy.specs.Errors.ArgumentFault.{ArgumentFault};
ghost use Rattle.gevaindy.specs.Errors.Error.{Error};
ghost use Rattle.gevaindy.specs.Any.{any_array_rows};
ghost use Rattle.gevaindy.specs.Parts.{boolean_rows};
ghost use Rattle.gevaindy.specs.Rows.{joined, mask_of, select};
ghost use Rattle.uses.specs.Refused.{Refuses};
ghost use Rattle.uses.specs.Stored.{kept_in, rows_of_parts};

use gevaindy::array::{AnyArray, BooleanArray};
use gevaindy::compute::filter::{Filter, build_filter};
use gevaindy::error::{ArgumentFault, Error};
use std::alloc::Global;
use std::marker::Model;

/// Prepared filters, each under the number that it got. A contract sees their masks.
#[derive(Drop)]
pub struct FilterStore {
    alloc: Global,
    filters: Vec<Filter>,
}

impl Model for FilterStore {
    ghost use Rattle.std.specs.Prelude.{Bool, List};

    ghost Value = { List (List Bool) };

    ghost view = { λ store. store.filters.items };
}

impl FilterStore {
    /// A store without filters.
    pub fn new(alloc: Global) -> FilterStore
        ensures { result ≡ [] }
    {
        FilterStore {
            alloc,
            filters: Vec::new(alloc),
        }
    }

    /// Prepares a filter, and answers its number: how many came before it.
    ///
    /// # Errors
    /// `OutOfMemory` where memory is refused. The store is then as before.
    pub fn add(&mut self, predicate: &BooleanArray) -> Result<usize, Error>
        ensures number { IfOk result (λ number. number ≡ length self.old) }
        ensures ok { OnOk result (self.new ≡ self.old ++ mask_of (boolean_rows predicate.now) ∷ []) }
        ensures err { OnErr result (self.new ≡ self.old) }
        ensures others { IsOkUnless result Error.OutOfMemory }
    {
        let number = self.filters.len();
        let filter = build_filter(self.alloc, predicate)?;
        self.filters.push(filter)?;
        Ok(number)
    }

    /// The rows of a column that a filter keeps, as parts of it, none of which is copied: one for each of its
    /// ranges.
    ///
    /// # Errors
    /// `Caller(0)` exactly where no filter has the number; then `Lengths` where its mask has not as many rows as
    /// the column, and `OutOfMemory` where memory is refused.
    pub fn parts(&self, number: usize, column: &AnyArray) -> Result<Vec<AnyArray>, Error>
        ensures known { Refuses result (ArgumentFault.Caller 0)
            ↔ (length self.now ≤ number) }
        ensures rows { IfOk result (λ parts. rows_of_parts parts.items
            ≡ kept_in self.now number column.now) }
    {
        let Some(filter) = self.filters.get(number) else {
            return Err(Error::InvalidArgumentError(ArgumentFault::Caller(0)));
        };
        if filter.mask_len() != column.len() {
            return Err(Error::InvalidArgumentError(ArgumentFault::Lengths));
        }
        let mut parts = Vec::new(self.alloc);
        for &(start, len) in filter.ranges() {
            parts.push(column.clone()?.sliced(start, len))?;
        }
        Ok(parts)
    }
}
