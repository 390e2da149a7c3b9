//! Columns of one length, as of a batch of rows.

ghost use Rattle.std.specs.Prelude.{◌≡◌, ◌↔◌, map, Err, IsTrue, IfOk, IfErr};
ghost use Rattle.arrow_types.specs.declared.error.Error.{Error};
ghost use Rattle.arrow_types.specs.declared.error.ArgumentFault.{ArgumentFault};
ghost use Rattle.arrow_arrays.specs.Any.{layout_of};
ghost use Rattle.arrow_arrays.specs.StructParts.{AreColumns, row_count};

use crate::array::AnyArray;
use crate::array::struct_::have_rows;
use arrow_types::error::{ArgumentFault, Error};
use std::marker::Model;

/// Arrays of any types, all of one length: the columns of a batch. A contract sees the list of their layouts.
pub struct Chunk {
    arrays: Vec<AnyArray>,
}

// by hand, so that a drop is a call, and is not written out wherever a value is dropped
impl Drop for Chunk {
    fn drop(self) {
        let Chunk { arrays: _ } = self;
    }
}

impl Model for Chunk {
    ghost use Rattle.std.specs.Coded.{coded_list};
    ghost use Rattle.std.specs.Prelude.{List, map};
    ghost use Rattle.arrow_arrays.specs.Any.{layout_of};
    ghost use Rattle.arrow_arrays.specs.Layout.{Layout};
    ghost use Rattle.arrow_arrays.specs.StoredLayout.{layout_code};
    ghost use Rattle.arrow_arrays.specs.StructParts.{AreColumns};

    ghost Value = { List Layout };

    ghost coded = { coded_list layout_code };

    ghost view = { λ chunk. map layout_of chunk.arrays.items };

    ghost invariant = { λ chunk. AreColumns (map layout_of chunk.arrays.items) };
}

impl Chunk {
    /// The columns of a batch, where they are known to be of one length: nothing is tested.
    ///
    /// # Requires
    /// The arrays are all of one length.
    ///
    /// Source: arrow2's `Chunk::new`.
    pub fn new(arrays: Vec<AnyArray>) -> Chunk
        requires { AreColumns (map layout_of arrays.items) }
        ensures { result ≡ map layout_of arrays.items }
    {
        Chunk { arrays }
    }

    /// The columns of a batch. It takes no memory.
    ///
    /// # Errors
    /// `Lengths` exactly where the arrays are not all of one length.
    ///
    /// Source: arrow2's `Chunk::try_new`.
    pub fn try_new(arrays: Vec<AnyArray>) -> Result<Chunk, Error>
        ensures ok { IfOk result (λ chunk. chunk ≡ map layout_of arrays.items) }
        ensures lengths { (result ≡ Err (Error.InvalidArgumentError ArgumentFault.Lengths))
            ↔ (AreColumns (map layout_of arrays.items) → ⊥) }
        ensures others { IfErr result (λ e. e ≡ Error.InvalidArgumentError ArgumentFault.Lengths) }
    {
        if !are_columns(&arrays) {
            return Err(Error::InvalidArgumentError(ArgumentFault::Lengths));
        }
        Ok(Chunk::new(arrays))
    }

    /// The columns.
    pub fn arrays(&self) -> &[AnyArray]
        ensures same { map layout_of result.now ≡ self.now }
        ensures columns { AreColumns self.now }
    {
        &self.arrays
    }

    /// How many rows each column has, and 0 where there is none.
    pub fn len(&self) -> usize
        ensures { result ≡ row_count self.now }
    {
        match self.arrays.first() {
            Some(array) => array.len(),
            None => 0,
        }
    }

    /// Whether there is no row.
    pub fn is_empty(&self) -> bool
        ensures { IsTrue result ↔ (row_count self.now ≡ 0) }
    {
        self.len() == 0
    }

    /// The columns, no longer bound to one length.
    pub fn into_arrays(self) -> Vec<AnyArray>
        ensures same { map layout_of result.items ≡ self }
        ensures columns { AreColumns self }
    {
        let Chunk { arrays } = self;
        arrays
    }
}

// Whether all arrays are of one length.
fn are_columns(arrays: &[AnyArray]) -> bool
    ensures { IsTrue result ↔ AreColumns (map layout_of arrays.now) }
{
    match arrays.first() {
        Some(first) => have_rows(arrays, first.len()),
        None => true,
    }
}
