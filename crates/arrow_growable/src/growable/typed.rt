//! Growables over arrays with children, of one kind.

ghost use Rattle.std.specs.Prelude.{◌<◌, length, map};
ghost use Rattle.arrow_arrays.specs.Layout.{rows, type_of_layout};
ghost use Rattle.arrow_flat_growable.specs.Grown.{AreOfOneType, HandsOut, first_type};
ghost use Rattle.arrow_growable.specs.Made.{Makes};

use crate::growable::Growable;
use crate::growable::bound::NestedArray;
use crate::growable::nested::GrowableNested;
use arrow_arrays::array::{AnyArray, FixedSizeListArray, ListArray, MapArray, StructArray};
use arrow_types::error::Error;
use std::alloc::Global;
use std::marker::{Model, PhantomData};

/// An array of lists under construction, under offsets of either width.
pub type GrowableList<'a> = GrowableOf<'a, ListArray>;

/// An array of lists of a fixed size under construction.
pub type GrowableFixedSizeList<'a> = GrowableOf<'a, FixedSizeListArray>;

/// An array of maps under construction.
pub type GrowableMap<'a> = GrowableOf<'a, MapArray>;

/// An array of structs under construction.
pub type GrowableStruct<'a> = GrowableOf<'a, StructArray>;

/// An array with children under construction, over arrays of one kind.
#[derive(Drop)]
pub struct GrowableOf<'a, A: NestedArray> {
    nested: GrowableNested<'a>,
    kind: PhantomData<A>,
}

impl<'a, A: NestedArray> Model for GrowableOf<'a, A> {
    ghost use Rattle.std.specs.Prelude.{◌≡◌};
    ghost use Rattle.arrow_types.specs.Physical.{physical_type_of};
    ghost use Rattle.arrow_arrays.specs.Any.{kind_in};
    ghost use Rattle.arrow_flat_growable.specs.Grown.{Grown, grown_code};

    ghost Value = { Grown };

    ghost coded = { grown_code };

    ghost view = { λ a. a.nested };

    ghost invariant = { λ a. kind_in (physical_type_of a.nested.arrow_type) ≡ A.kind };
}

impl<'a, A: NestedArray> GrowableOf<'a, A> {
    /// A growable without rows, to which rows of these arrays, of one data type, can be appended, with
    /// room for `capacity` rows. With `use_validity` it keeps a validity from the first row on, and else
    /// once a row may be null; no row depends on that.
    ///
    /// # Requires
    /// There is an array at least, and all are of one data type.
    ///
    /// # Errors
    /// `Overflow` only where dictionaries in the arrays can't be joined, and never of one array alone;
    /// `OutOfMemory` where memory is refused, as for a capacity that is too great.
    ///
    /// Source: arrow2's `GrowableList::new` and its kin.
    pub fn new(
        alloc: Global,
        arrays: Vec<&'a A>,
        use_validity: bool,
        capacity: usize,
    ) -> Result<GrowableOf<'a, A>, Error>
        requires some { 0 < length arrays.items }
        requires one_type { AreOfOneType (map (λ r. A.layout_in r.now) arrays.items) }
        ensures { Makes (λ growable. growable) (map (λ r. A.layout_in r.now) arrays.entry.items) result }
    {
        // The kind of arrays follows from their data type.
        let first: &'a A = arrays[0];
        let _ = first.data_type();
        let nested = GrowableNested::new(alloc, A::bound(arrays), use_validity, capacity)?;
        Ok(GrowableOf {
            nested,
            kind: PhantomData,
        })
    }

    /// An array of all rows.
    ///
    /// # Errors
    /// `Failed` where an earlier call refused; `OutOfMemory` where memory is refused.
    pub fn into_array(self) -> Result<A, Error>
        ensures answer { HandsOut (λ array. type_of_layout (A.layout_in array))
            (λ array. rows (A.layout_in array)) self.entry result }
    {
        let GrowableOf { nested, kind: _ } = self;
        let mut nested = nested;
        let array = nested.as_box()?;
        // The kind of an array follows from its data type.
        let _ = array.data_type();
        Ok(A::from_any(array))
    }
}

impl<'a, A: NestedArray> Growable<'a> for GrowableOf<'a, A> {
    ghost state = { λ g. g };

    fn extend(&mut self, index: usize, start: usize, len: usize) -> Result<(), Error> {
        self.nested.extend(index, start, len)
    }

    fn extend_validity(&mut self, additional: usize) -> Result<(), Error> {
        self.nested.extend_validity(additional)
    }

    fn len(&self) -> usize {
        self.nested.len()
    }

    fn as_box(&mut self) -> Result<AnyArray, Error> {
        self.nested.as_box()
    }
}
