//! A predicate that is prepared once, to be applied to any number of arrays.

ghost use Rattle.std.specs.Prelude.{◌≡◌, ◌≤◌, ◌+◌, Err, count_by, length, All, IfOk, IfErr, IsOkUnless, OnOk};
ghost use Rattle.arrow_types.specs.declared.error.Error.{Error};
ghost use Rattle.arrow_types.specs.Fits.{Fits};
ghost use Rattle.arrow_types.specs.Ranges.{IsShortest, named, true_rows};
ghost use Rattle.arrow_types.specs.Rows.{mask_of, select};
ghost use Rattle.arrow_memory.specs.Grown.{IsGrowthError};
ghost use Rattle.arrow_arrays.specs.Any.{any_array_type, any_array_rows};
ghost use Rattle.arrow_flat.specs.Parts.{boolean_rows};
ghost use Rattle.arrow_flat_growable.specs.Grown.{FitsItself, IsRefusal};
ghost use Rattle.arrow_select.specs.Extended.{BindsAt, RefusesRange, with_kept};

use crate::filter::any::{count_set, kept, mask_of_predicate};
use crate::filter::ranges::ranges_of;
use crate::filter::selection::Selection;
use arrow_arrays::array::AnyArray;
use arrow_flat::array::BooleanArray;
use arrow_growable::growable::Growable;
use arrow_types::error::Error;
use std::alloc::Global;
use std::marker::Model;

/// A predicate that was prepared once, to be applied to any number of arrays. A contract sees its mask: a truth value
/// for each row, true where the row is kept. It holds the runs of these rows, and the allocator that it was made with.
pub struct Filter {
    alloc: Global,
    ranges: Vec<(usize, usize)>,
    count: usize,
    mask_len: usize,
}

// by hand, so that a drop is a call, and is not written out wherever a value is dropped
impl Drop for Filter {
    fn drop(self) {
        let Filter {
            alloc: _,
            ranges: _,
            count: _,
            mask_len: _,
        } = self;
    }
}

impl Model for Filter {
    ghost use Rattle.std.specs.Prelude.{Bool, List};
    ghost use Rattle.arrow_types.specs.Ranges.{named};
    ghost use Rattle.arrow_select.specs.Ranges.{mask_at, IsPlan};

    ghost Value = { List Bool };

    ghost view = { λ filter. mask_at 0 filter.mask_len (named filter.ranges.items) };

    ghost invariant = { λ filter. IsPlan filter.ranges.items filter.count
        (mask_at 0 filter.mask_len (named filter.ranges.items)) };
}

/// The filter that keeps the rows at which the predicate is true. A null of the predicate counts as false, whatever is
/// stored beneath it. The runs of these rows are found a word of the mask at a time.
///
/// # Errors
/// `OutOfMemory` where memory is refused.
///
/// Source: arrow2's `build_filter`.
pub fn build_filter(alloc: Global, filter: &BooleanArray) -> Result<Filter, Error>
    ensures ok { IfOk result (λ prepared. prepared ≡ mask_of (boolean_rows filter.now)) }
    ensures err { IsOkUnless result Error.OutOfMemory }
{
    let mask = mask_of_predicate(alloc, filter)?;
    let ranges = ranges_of(alloc, &mask)?;
    Ok(Filter {
        alloc,
        ranges,
        count: count_set(&mask),
        mask_len: mask.len(),
    })
}

impl Filter {
    /// The rows that the filter keeps, in order, in an array of the same type. The filter is as it was, also where it
    /// refuses.
    ///
    /// # Requires
    /// The array has as many rows as the mask.
    ///
    /// # Errors
    /// `Overflow` where the rows do not fit the type, and `OutOfMemory` where memory is refused.
    ///
    /// Source: arrow2's `build_filter`, whose answer is a closure.
    pub fn apply(&self, array: &AnyArray) -> Result<AnyArray, Error>
        requires lengths { length self.now ≡ length (any_array_rows array.now) }
        ensures array_type { IfOk result (λ kept. any_array_type kept ≡ any_array_type array.now) }
        ensures rows { IfOk result (λ kept. any_array_rows kept
            ≡ select self.now (any_array_rows array.now)) }
        ensures fits { IfOk result (λ kept. Fits (any_array_type kept) (any_array_rows kept)) }
        ensures overflow { result ≡ Err Error.Overflow
            → Fits (any_array_type array.now) (select self.now (any_array_rows array.now)) → ⊥ }
        ensures others { IfErr result IsGrowthError }
    {
        kept(self.alloc, array, Selection::Ranges(self), self.count())
    }

    /// The ranges of rows that it keeps, each its first row and its length, in order. No list of ranges names the same rows
    /// with fewer members.
    ///
    /// Source: of our own; in arrow2 they are private.
    pub fn ranges(&self) -> &[(usize, usize)]
        ensures named { named result.now ≡ true_rows 0 self.now }
        ensures shortest { IsShortest result.now }
        ensures within { All (λ r. r.0 + r.1 ≤ length self.now) result.now }
    {
        &self.ranges
    }

    /// Appends the rows that the filter keeps of bound array `index` to a growable, a range of them by one `extend`, in
    /// order. Where it keeps none it calls nothing, and a growable that had failed is as it was.
    ///
    /// # Requires
    /// `index` is that of a bound array, which has as many rows as the mask. A growable that binds none takes any.
    ///
    /// # Errors
    /// As [`Growable::extend`] of a range. The growable then has failed, and counts the rows from before and those of the
    /// ranges before the one that was refused.
    ///
    /// Source: of our own.
    pub fn extend_into<'a, G: Growable<'a>>(
        &self,
        growable: &mut G,
        index: usize,
    ) -> Result<(), Error>
        requires { BindsAt (G.state growable.old) index self.now }
        ensures ok { OnOk result (G.state growable.new ≡ with_kept (G.state growable.old) index self.now) }
        ensures fits { OnOk result (FitsItself (G.state growable.old) → FitsItself (G.state growable.new)) }
        ensures err { IfErr result (RefusesRange self.now index (G.state growable.old)
            (G.state growable.new)) }
        ensures others { IfErr result IsRefusal }
    {
        for &(start, len) in self.ranges() {
            growable.extend(index, start, len)?;
        }
        Ok(())
    }

    /// How many rows it keeps.
    pub fn count(&self) -> usize
        ensures { result ≡ count_by (λ is_kept. is_kept) self.now }
    {
        self.count
    }

    /// How many rows the mask has, and so each array that the filter is applied to.
    pub fn mask_len(&self) -> usize
        ensures { result ≡ length self.now }
    {
        self.mask_len
    }
}
