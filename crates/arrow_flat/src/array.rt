//! Flat arrays: those without children.

ghost use Rattle.std.specs.Prelude.{◌≡◌, ◌+◌, ◌≤◌, ◌<◌, ◌↔◌, [], List, Option, Bool, ℕ, length, count_by, slice_index_or, option_copied, IsTrue, not};
ghost use Rattle.std.specs.List.{All};
ghost use Rattle.std.specs.Cmp.{partial_equiv_from_equiv, on_equiv};
ghost use Rattle.arrow_types.specs.ArrowType.{ArrowType};
ghost use Rattle.arrow_types.specs.Carried.{IsCarried};
ghost use Rattle.arrow_types.specs.Relation.{is_null};
ghost use Rattle.arrow_types.specs.SameTree.{same_by, same_by-equivalence};
ghost use Rattle.arrow_types.specs.Slot.{Slot, Null};
ghost use Rattle.arrow_types.specs.Rows.{mask, valid_at};
ghost use Rattle.arrow_types.specs.TypeOf.{type_of};
ghost use Rattle.arrow_memory.specs.Sliced.{sliced};
ghost use Rattle.arrow_flat.specs.Faults.{IsCarriedAs};
ghost use Rattle.arrow_flat.specs.Parts.{Parts, FitsRows, IsValue, bits_of_slice, MarksNulls, rows_by, meaning_by, meaning_code, slice_by, with_bits};

mod any_element;
mod any_primitive;
mod binary;
mod boolean;
mod byte_rows;
mod fixed_size_binary;
mod null;
mod primitive;
pub mod truths;
mod utf8;
pub mod validity;

pub use any_element::AnyElement;
pub use any_primitive::AnyPrimitive;
use arrow_memory::bitmap::Bitmap;
use arrow_types::datatypes::{DataType, PhysicalType};
pub use binary::{Binary, BinaryArray};
pub use boolean::BooleanArray;
pub use byte_rows::{ByteKind, ByteRows};
pub use fixed_size_binary::{FixedRows, FixedSizeBinaryArray};
pub use null::NullArray;
pub use primitive::PrimitiveArray;
use std::alloc::AllocError;
use std::marker::Model;
pub use utf8::{Text, Utf8Array};

/// What the rows of a flat array are stored in: bits, values of a fixed width, or bytes.
pub trait Values: Clone + Drop {
    // the rows, where none is null
    ghost slots: { Self → List Slot };

    // a data type whose rows are stored so
    ghost are_of: { Self → ArrowType → Type 0 };

    // what stores a part of the rows
    ghost slice: { Self → ℕ → ℕ → Self };

    /// How many rows are stored.
    fn len(&self) -> usize
        ensures { result ≡ length (slots self.now) };

    /// Keeps `len` rows from row `offset` on. Nothing is copied.
    ///
    /// # Requires
    /// `offset + len` is at most the count of rows.
    fn slice(&mut self, offset: usize, len: usize)
        requires { offset + len ≤ length (slots self.old) }
        ensures { self.new ≡ slice self.old offset len };

    /// Whether the same is stored in `len` rows from row `start` on as in those of the other from row
    /// `other_start` on.
    ///
    /// # Requires
    /// `start + len` is at most the count of rows, and `other_start + len` at most that of the other.
    fn equal_range(&self, start: usize, other: &Self, other_start: usize, len: usize) -> bool
        requires here { start + len ≤ length (slots self.now) }
        requires there { other_start + len ≤ length (slots other.now) }
        ensures { IsTrue result ↔ (sliced (slots self.now) start len
            ≡ sliced (slots other.now) other_start len) };

    ghost copies: { (x y : Self) → Self.is_clone x y → y ≡ x };

    // what is stored is no null
    ghost stored: { (x : Self) → All IsValue (slots x) };

    // a part has that part of the rows, and the same data types
    ghost slots_of_slice: { (x : Self) (offset len : ℕ) → offset + len ≤ length (slots x)
        → slots (slice x offset len) ≡ sliced (slots x) offset len };

    ghost slice_is_of: { (x : Self) (t : ArrowType) (offset len : ℕ) → are_of x t
        → are_of (slice x offset len) t };
}

/// An array of a data type whose rows are stored as `V`, null where its validity has a bit that is
/// not set.
pub struct FlatArray<V: Values> {
    data_type: DataType,
    values: V,
    validity: Option<Bitmap>,
}

// by hand, so that a drop is a call, and is not written out wherever a value is dropped
impl<V: Values> Drop for FlatArray<V> {
    fn drop(self) {
        let FlatArray {
            data_type: _,
            values: _,
            validity: _,
        } = self;
    }
}

impl<V: Values> Model for FlatArray<V> {
    ghost use Rattle.std.specs.Prelude.{length};
    ghost use Rattle.arrow_types.specs.TypeOf.{type_of};
    ghost use Rattle.arrow_flat.specs.Parts.{Parts, parts_code, IsArray};

    ghost Value = { Parts V };

    ghost coded = { parts_code V.code };

    ghost view = { λ a. record {
      arrow_type = type_of a.data_type;
      values = a.values;
      validity = a.validity;
    } };

    ghost invariant = { λ a. IsArray V.slots V.are_of
        (record { arrow_type = type_of a.data_type; values = a.values; validity = a.validity }) };
}

impl<V: Values> FlatArray<V> {
    /// The data type.
    pub fn data_type(&self) -> &DataType
        ensures same { type_of result.now ≡ self.now.arrow_type }
        ensures carried { IsCarried self.now.arrow_type }
        ensures kind { V.are_of self.now.values self.now.arrow_type }
    {
        &self.data_type
    }

    /// How many rows there are.
    pub fn len(&self) -> usize
        ensures rows { result ≡ length (rows_by V.slots self.now) }
        ensures values { result ≡ length (V.slots self.now.values) }
    {
        self.values.len()
    }

    /// Whether there is no row.
    pub fn is_empty(&self) -> bool
        ensures { IsTrue result ↔ (rows_by V.slots self.now ≡ []) }
    {
        self.len() == 0
    }

    /// The validity: a bit for each row, set where the row is valid. Without it no row is null.
    pub fn validity(&self) -> Option<&Bitmap>
        ensures same { option_copied result ≡ self.now.validity }
        ensures fits { FitsRows self.now.validity (length (V.slots self.now.values)) }
        ensures marks { MarksNulls (option_copied result) (rows_by V.slots self.now) }
    {
        self.validity.as_ref()
    }

    /// How many rows are null, counted a word of the validity at a time.
    pub fn null_count(&self) -> usize
        ensures { result ≡ count_by is_null (rows_by V.slots self.now) }
    {
        validity::unset_bits(&self.validity)
    }

    /// Keeps `len` rows from row `offset` on. Nothing is copied.
    ///
    /// # Requires
    /// `offset + len` is at most the count of rows.
    pub fn slice(&mut self, offset: usize, len: usize)
        requires { offset + len ≤ length (rows_by V.slots self.old) }
        ensures part { self.new ≡ slice_by V.slice self.old offset len }
        ensures rows { rows_by V.slots self.new ≡ sliced (rows_by V.slots self.old) offset len }
    {
        self.values.slice(offset, len);
        validity::slice(&mut self.validity, offset, len);
    }

    /// The `len` rows from row `offset` on. Nothing is copied.
    ///
    /// # Requires
    /// `offset + len` is at most the count of rows.
    pub fn sliced(self, offset: usize, len: usize) -> FlatArray<V>
        requires { offset + len ≤ length (rows_by V.slots self) }
        ensures part { result ≡ slice_by V.slice self offset len }
        ensures rows { rows_by V.slots result ≡ sliced (rows_by V.slots self) offset len }
    {
        let mut part = self;
        part.slice(offset, len);
        part
    }

    /// The same rows under another validity: what is stored is null where a bit is not set.
    ///
    /// # Requires
    /// A validity has a bit for each row.
    pub fn with_validity(self, validity: Option<Bitmap>) -> FlatArray<V>
        requires { FitsRows validity (length (V.slots self.values)) }
        ensures { result ≡ with_bits self validity }
    {
        let mut array = self;
        array.validity = validity;
        array
    }

    /// Whether row `i` is valid.
    ///
    /// # Requires
    /// `i` is below the count of rows.
    pub fn is_valid(&self, i: usize) -> bool
        requires { i < length (rows_by V.slots self.now) }
        ensures within { i < length (V.slots self.now.values) }
        ensures bit { result ≡ valid_at self.now.validity i }
        ensures row { result ≡ not (is_null (slice_index_or (rows_by V.slots self.now) i Null)) }
    {
        // there is a row for each of the values
        prove!(i < self.len());
        validity::is_valid(&self.validity, i)
    }

    /// Whether `len` rows from row `start` on are the same as those of the other from row
    /// `other_start` on, null or not: the same rows are null, and each run of rows that are not is
    /// compared at once.
    ///
    /// # Requires
    /// `start + len` is at most the count of rows, and `other_start + len` at most that of the other.
    pub fn equal_range(
        &self,
        start: usize,
        other: &FlatArray<V>,
        other_start: usize,
        len: usize,
    ) -> bool
        requires here { start + len ≤ length (rows_by V.slots self.now) }
        requires there { other_start + len ≤ length (rows_by V.slots other.now) }
        ensures { IsTrue result ↔ (sliced (rows_by V.slots self.now) start len
            ≡ sliced (rows_by V.slots other.now) other_start len) }
    {
        validity::equal_range(&self.validity, start, &other.validity, other_start, len)
            && equal_runs(
                &self.values,
                &self.validity,
                start,
                &other.values,
                other_start,
                len,
            )
    }

    /// Whether the rows are the same.
    fn equal_rows(&self, other: &FlatArray<V>) -> bool
        ensures { IsTrue result ↔ (rows_by V.slots self.now ≡ rows_by V.slots other.now) }
    {
        let len = self.len();
        len == other.len() && self.equal_range(0, other, 0, len)
    }
}

// Whether the same is stored in `len` rows from row `start` on as in others, but beneath nulls: each
// run of rows that are not null is compared at once.
fn equal_runs<V: Values>(
    values: &V,
    validity: &Option<Bitmap>,
    start: usize,
    others: &V,
    other_start: usize,
    len: usize,
) -> bool
    requires here { start + len ≤ length (V.slots values.now) }
    requires there { other_start + len ≤ length (V.slots others.now) }
    requires fits { FitsRows validity.now (length (V.slots values.now)) }
    ensures { IsTrue result ↔ (mask (bits_of_slice validity.now start len)
        (sliced (V.slots values.now) start len)
        ≡ mask (bits_of_slice validity.now start len) (sliced (V.slots others.now) other_start len)) }
{
    // Places are those of a `usize`, as the counts of rows are.
    let _ = (values.len(), others.len());
    let mut i = 0;
    while i < len {
        let (is_valid, run) = validity::run_at(validity, start + i, len - i);
        if is_valid && !values.equal_range(start + i, others, other_start + i, run) {
            return false;
        }
        i += run;
    }
    true
}

/// Whether a data type is carried and lies in memory so.
pub fn is_carried_as(data_type: &DataType, physical_type: PhysicalType) -> bool
    ensures { IsTrue result ↔ IsCarriedAs physical_type (type_of data_type.now) }
{
    data_type.is_carried() && data_type.to_physical_type() == physical_type
}

/// A clone shares what is stored and copies none of it. It takes the memory of the data type's names.
impl<V: Values> Clone for FlatArray<V> {
    ghost is_clone = { λ array copy. copy ≡ array };

    fn clone(&self) -> Result<FlatArray<V>, AllocError> {
        Ok(FlatArray {
            data_type: self.data_type.clone()?,
            values: self.values.clone()?,
            validity: self.validity.clone()?,
        })
    }
}

/// Two arrays are equal where their data types and their rows are, whatever is stored beneath nulls.
impl<V: Values> PartialEq for FlatArray<V> {
    ghost eq = { λ a b. same_by meaning_code (meaning_by V.slots a) (meaning_by V.slots b) };

    ghost laws = { partial_equiv_from_equiv
        (on_equiv (meaning_by V.slots) (same_by-equivalence meaning_code)) };

    fn eq(&self, other: &FlatArray<V>) -> bool
        ensures value { result ≡ same_by meaning_code (meaning_by V.slots self.now)
            (meaning_by V.slots other.now) }
        ensures rows { IsTrue result
            ↔ ((self.now.arrow_type ≡ other.now.arrow_type)
            × (rows_by V.slots self.now ≡ rows_by V.slots other.now)) }
    {
        self.data_type == other.data_type && self.equal_rows(other)
    }
}

impl<V: Values> Eq for FlatArray<V> {
    ghost laws = { on_equiv (meaning_by V.slots) (same_by-equivalence meaning_code) };
}
