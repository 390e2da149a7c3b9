//! Where the rows of an array lie in its children.

ghost use Rattle.std.specs.Prelude.{◌≡◌, ◌+◌, ◌*◌, ◌≤◌, length, IsTrue};
ghost use Rattle.arrow_types.specs.Physical.{physical_type_of};
ghost use Rattle.arrow_memory.specs.Sliced.{sliced};
ghost use Rattle.arrow_arrays.specs.FixedListParts.{fixed_list_layout};
ghost use Rattle.arrow_arrays.specs.ListParts.{list_layout};
ghost use Rattle.arrow_arrays.specs.StructParts.{struct_layout};
ghost use Rattle.arrow_growable.specs.Child.{NoneBeneath};
ghost use Rattle.arrow_growable.specs.Lies.{Lies};
ghost use Rattle.arrow_growable.specs.Spans.{AreEven, AreSpans, span_count, span_nulls, span_place};

use arrow_arrays::array::{AnyOffsetsBuffer, FixedSizeListArray, ListArray, MapArray, StructArray};
use arrow_memory::bitmap::Bitmap;
use arrow_memory::offset::OffsetsBuffer;

/// Where the rows of an array lie in its children.
#[derive(Clone, Copy)]
pub enum Spans<'a> {
    /// Those of a list: from an offset to the next one.
    Small(&'a OffsetsBuffer<i32>),
    /// Those of a large list.
    Large(&'a OffsetsBuffer<i64>),
    /// Those of a map.
    Map(&'a OffsetsBuffer<i32>),
    /// Those of a fixed-size list: so many items each, of so many items.
    FixedSize(usize, usize),
    /// Those of a struct: a row of each child, of so many.
    Fields(usize),
}

impl<'a> Spans<'a> {
    /// Those of lists.
    pub(crate) fn of_lists(array: &'a ListArray) -> Spans<'a>
        ensures lies { Lies result (list_layout array.now) }
    {
        // Offsets lie inside the child, and there is a row and a bit for each but one of them.
        let _ = array.values();
        let _ = array.len();
        let _ = array.validity();
        match array.offsets() {
            AnyOffsetsBuffer::Small(offsets) => Spans::Small(offsets),
            AnyOffsetsBuffer::Large(offsets) => Spans::Large(offsets),
        }
    }

    /// Those of maps.
    pub(crate) fn of_maps(array: &'a MapArray) -> Spans<'a>
        ensures lies { Lies result (list_layout array.now) }
    {
        // The data type is a map's; the rest is as for lists.
        let _ = array.data_type();
        let _ = array.field();
        let _ = array.len();
        let _ = array.validity();
        Spans::Map(array.offsets())
    }

    /// Those of lists of a fixed size.
    pub(crate) fn of_fixed_size_lists(array: &'a FixedSizeListArray) -> Spans<'a>
        ensures lies { Lies result (fixed_list_layout array.now) }
    {
        // The data type is a fixed-size list's, and there is a bit for each row.
        let _ = array.data_type();
        let _ = array.len();
        let _ = array.validity();
        Spans::FixedSize(array.size(), array.values().len())
    }

    /// Those of structs.
    pub(crate) fn of_structs(array: &'a StructArray) -> Spans<'a>
        ensures lies { Lies result (struct_layout array.now) }
    {
        // The data type is a struct's, and there is a row of each child and a bit for each row.
        let _ = array.data_type();
        let _ = array.values();
        let _ = array.validity();
        Spans::Fields(array.len())
    }

    /// How many null slots so many null rows have in each child.
    pub(crate) fn nulls_of(&self, rows: usize) -> usize
        requires sound { AreSpans self.now }
        requires part { rows ≤ span_count self.now }
        ensures { result ≡ rows * span_nulls self.now }
    {
        // The counts are read by value: there each is known to fit a `usize`, and so do the products.
        match *self {
            Spans::Small(_) | Spans::Large(_) | Spans::Map(_) => 0,
            Spans::FixedSize(size, _items) => rows * size,
            Spans::Fields(_) => rows,
        }
    }

    /// Whether a null row has no null slot in a child.
    fn have_no_null_slots(&self) -> bool
        ensures { IsTrue result → span_nulls self.now ≡ 0 }
    {
        match self {
            Spans::Small(_) | Spans::Large(_) | Spans::Map(_) => true,
            Spans::FixedSize(_, _) | Spans::Fields(_) => false,
        }
    }

    /// Whether they are those of fixed-size lists.
    pub(crate) fn are_even(&self) -> bool
        ensures { IsTrue result → AreEven self.now }
    {
        match self {
            Spans::FixedSize(_, _) => true,
            _ => false,
        }
    }

    /// How many items each fixed-size list has.
    pub(crate) fn size(&self) -> usize
        requires { AreEven self.now }
        ensures { result ≡ span_nulls self.now }
    {
        match self {
            Spans::FixedSize(size, _) => *size,
            _ => unreachable!(),
        }
    }

    /// Whether those rows that are null have nothing in a child, of `len` rows from row `start` on: no null slot,
    /// and no row beneath.
    pub(crate) fn have_none_beneath(&self, validity: &Bitmap, start: usize, len: usize) -> bool
        requires sound { AreSpans self.now }
        requires part { start + len ≤ span_count self.now }
        requires covered { start + len ≤ length validity.now }
        ensures slots { IsTrue result → span_nulls self.now ≡ 0 }
        ensures rows { IsTrue result
            → NoneBeneath (sliced validity.now start len) (span_place self.now) start }
    {
        if !self.have_no_null_slots() {
            return false;
        }
        prove!(start <= validity.len());
        let mut left = validity.runs(start, len);
        let end = start + len;
        let mut row = start;
        while row < end {
            let (nulls, count) = left.next_set();
            let (first, behind) = self.range(row, nulls);
            if first < behind {
                return false;
            }
            row += nulls + count;
        }
        true
    }

    /// Where the first of `len` rows from row `start` on begins in each child, and the last of them ends.
    pub(crate) fn range(&self, start: usize, len: usize) -> (usize, usize)
        requires sound { AreSpans self.now }
        requires part { start + len ≤ span_count self.now }
        ensures start { result.0 ≡ span_place self.now start }
        ensures end { result.1 ≡ span_place self.now (start + len) }
        ensures rises { result.0 ≤ result.1 }
    {
        // The counts are read by value: there each is known to fit a `usize`, and so do the products.
        match *self {
            Spans::Small(offsets) => offsets.range(start, len),
            Spans::Large(offsets) => offsets.range(start, len),
            Spans::Map(offsets) => offsets.range(start, len),
            Spans::FixedSize(size, _items) => (start * size, (start + len) * size),
            Spans::Fields(_rows) => (start, start + len),
        }
    }
}
