//! Arrays of dictionaries.

ghost use Rattle.std.specs.Prelude.{◌≡◌, ◌+◌, ◌<◌, ◌≤◌, ◌↔◌, [], length, count_by, slice_index_or, option_copied, IsTrue, IfOk, IfErr, IfSome, OnOk, not};
ghost use Rattle.std.specs.Cmp.{partial_equiv_from_equiv, on_equiv};
ghost use Rattle.arrow_types.specs.Carried.{IsCarried};
ghost use Rattle.arrow_types.specs.Physical.{physical_type_of};
ghost use Rattle.arrow_types.specs.Relation.{is_null};
ghost use Rattle.arrow_types.specs.SameTree.{same_by, same_by-equivalence};
ghost use Rattle.arrow_types.specs.Slot.{Null};
ghost use Rattle.arrow_types.specs.TypeOf.{type_of};
ghost use Rattle.arrow_types.specs.declared.datatypes.physical_type.PhysicalType.TheVariants as physical;
ghost use Rattle.arrow_memory.specs.Sliced.{sliced};
ghost use Rattle.arrow_flat.specs.DictionaryScalar.{values_in};
ghost use Rattle.arrow_flat.specs.Faults.{IsCarriedAs};
ghost use Rattle.arrow_flat.specs.Parts.{MarksNulls, meaning_code};
ghost use Rattle.arrow_arrays.specs.Any.{layout_of, kind_in, dictionary_kind};
ghost use Rattle.arrow_arrays.specs.AnyKeys.{key_rows, key_type_of, keyed_of, keys_of};
ghost use Rattle.arrow_arrays.specs.KeyedParts.{IsKeyed, IsKeyedFault, HoldsKeyed, AreKeys, keyed_rows, keyed_meaning, keyed_slice};
ghost use Rattle.arrow_arrays.specs.Layout.{rows, type_of_layout};
ghost use Rattle.arrow_arrays.specs.Spans.{dict_row};

mod keys;

use crate::array::any::{clone_boxed, equal_spans};
use crate::array::{AnyArray, types};
use arrow_flat::array::{is_carried_as, validity};
use arrow_memory::bitmap::Bitmap;
use arrow_types::datatypes::{DataType, PhysicalType};
use arrow_types::error::{Error, SpecPart};
pub use keys::{AnyKeys, are_within};
use std::alloc::AllocError;
use std::marker::Model;

/// An array of dictionaries: a key for each row, which names a value ("Dictionary-encoded Layout").
#[cycle(arrays)]
pub struct DictionaryArray {
    data_type: DataType,
    keys: AnyKeys,
    values: Box<AnyArray>,
}

// by hand, so that a drop is a call, and is not written out wherever a value is dropped
impl Drop for DictionaryArray {
    #[cycle(arrays)]
    fn drop(self) {
        let DictionaryArray {
            data_type: _,
            keys: _,
            values: _,
        } = self;
    }
}

impl Model for DictionaryArray {
    ghost use Rattle.arrow_types.specs.TypeOf.{type_of};
    ghost use Rattle.arrow_arrays.specs.AnyKeys.{key_rows, key_type_of, keyed_of};
    ghost use Rattle.arrow_arrays.specs.Layout.{depth};
    ghost use Rattle.arrow_arrays.specs.KeyedParts.{KeyedParts, keyed_parts_code, keyed_layout, IsKeyed};

    ghost Value = { KeyedParts };

    ghost coded = { keyed_parts_code };

    ghost use Rattle.arrow_arrays.specs.Any.{layout_of};

    ghost view = { λ a. keyed_of (type_of a.data_type) a.keys (layout_of a.values.value) };

    ghost invariant = { λ a. IsKeyed (key_rows a.keys) (key_type_of a.keys)
        (keyed_of (type_of a.data_type) a.keys (layout_of a.values.value)) };

    ghost size = { λ p. depth (keyed_layout p) };

    ghost use Rattle.arrow_arrays.specs.Falls.{child_falls};

    ghost size_decreases = { λ a h. child_falls a.values.value };
}

impl DictionaryArray {
    /// The array that [`DictionaryArray::try_new`] makes of parts that are known to be sound: nothing is tested.
    ///
    /// # Requires
    /// The data type is carried and that of a dictionary with keys of this width, the values have the type that it
    /// names, and each key that is not null names one of them.
    pub fn new(data_type: DataType, keys: AnyKeys, values: Box<AnyArray>) -> DictionaryArray
        requires kind { IsCarriedAs (physical.Dictionary (key_type_of keys)) (type_of data_type) }
        requires child { type_of_layout (layout_of values.value) ≡ values_in (type_of data_type) }
        requires within { AreKeys (length (rows (layout_of values.value))) (key_rows keys) }
        ensures { result ≡ keyed_of (type_of data_type) keys (layout_of values.value) }
    {
        DictionaryArray {
            data_type,
            keys,
            values,
        }
    }

    /// An array of dictionaries: row `i` is the value that key `i` names, null where the key is. It
    /// takes no memory.
    ///
    /// # Errors
    /// `OutOfSpec` of the first that fails: `Kind` where the data type is not carried, or no dictionary
    /// with keys of this width; `Child` where the values have another type than it names; `Key` where a
    /// key that is not null names no value. The data type of the keys is not looked at.
    pub fn try_new(
        data_type: DataType,
        keys: AnyKeys,
        values: Box<AnyArray>,
    ) -> Result<DictionaryArray, Error>
        ensures ok { IfOk result (λ array. array
            ≡ keyed_of (type_of data_type) keys (layout_of values.value)) }
        ensures sound { OnOk result
            (IsKeyed (key_rows keys) (key_type_of keys)
            (keyed_of (type_of data_type) keys (layout_of values.value))) }
        ensures fault { IfErr result
            (IsKeyedFault (type_of data_type) (key_rows keys) (key_type_of keys) (layout_of values.value)) }
    {
        check_dictionary(&data_type, &keys, &values)?;
        Ok(DictionaryArray::new(data_type, keys, values))
    }

    /// The data type.
    pub fn data_type(&self) -> &DataType
        ensures same { type_of result.now ≡ self.now.arrow_type }
        ensures carried { IsCarried self.now.arrow_type }
        ensures kind { kind_in (physical_type_of self.now.arrow_type) ≡ dictionary_kind }
    {
        // The data type names the type of the keys, so it is a dictionary's.
        let _ = self.keys.key_type();
        &self.data_type
    }

    /// The keys, null where a row is: those of the rows alone, where the array is a slice.
    pub fn keys(&self) -> &AnyKeys
        ensures same { keys_of result.now ≡ self.now.keys }
        ensures width { physical_type_of self.now.arrow_type ≡ physical.Dictionary (key_type_of result.now) }
        ensures within { AreKeys (length (rows self.now.child)) (key_rows result.now) }
    {
        &self.keys
    }

    /// The values that the keys name, whole, where the array is a slice too.
    pub fn values(&self) -> &AnyArray
        ensures same { layout_of result.now ≡ self.now.child }
        ensures values { type_of_layout self.now.child ≡ values_in self.now.arrow_type }
    {
        &self.values
    }

    /// How many rows there are.
    pub fn len(&self) -> usize
        ensures rows { result ≡ length (keyed_rows self.now) }
        ensures keys { result ≡ length self.now.keys }
    {
        self.keys.len()
    }

    /// Whether there is no row.
    pub fn is_empty(&self) -> bool
        ensures { IsTrue result ↔ (keyed_rows self.now ≡ []) }
    {
        self.len() == 0
    }

    /// The validity: that of the keys. A key that names a null value is valid.
    pub fn validity(&self) -> Option<&Bitmap>
        ensures same { option_copied result ≡ self.now.validity }
        ensures marks { MarksNulls (option_copied result) (keyed_rows self.now) }
    {
        self.keys.validity()
    }

    /// Whether row `i` is valid: whether its key is no null. The value that it names may be null.
    ///
    /// # Requires
    /// `i` is below the count of rows.
    pub fn is_valid(&self, i: usize) -> bool
        requires { i < length (keyed_rows self.now) }
        ensures { result ≡ not (is_null (slice_index_or (keyed_rows self.now) i Null)) }
    {
        validity::row_is_valid(self.validity(), i)
    }

    /// How many rows are null: as many as keys are.
    pub fn null_count(&self) -> usize
        ensures { result ≡ count_by is_null (keyed_rows self.now) }
    {
        self.keys.null_count()
    }

    /// Keeps `len` rows from row `offset` on. Nothing is copied.
    ///
    /// # Requires
    /// `offset + len` is at most the count of rows.
    pub fn slice(&mut self, offset: usize, len: usize)
        requires { offset + len ≤ length (keyed_rows self.old) }
        ensures part { self.new ≡ keyed_slice self.old offset len }
        ensures rows { keyed_rows self.new ≡ sliced (keyed_rows self.old) offset len }
    {
        self.keys.slice(offset, len);
    }

    /// The `len` rows from row `offset` on. Nothing is copied.
    ///
    /// # Requires
    /// `offset + len` is at most the count of rows.
    pub fn sliced(self, offset: usize, len: usize) -> DictionaryArray
        requires { offset + len ≤ length (keyed_rows self) }
        ensures part { result ≡ keyed_slice self offset len }
        ensures rows { keyed_rows result ≡ sliced (keyed_rows self) offset len }
    {
        let mut part = self;
        part.slice(offset, len);
        part
    }

    /// The value that row `i` names, as one row of the values, if it is not null.
    fn span(&self, i: usize) -> Option<(usize, usize)>
        requires { i < length self.now.keys }
        ensures row { slice_index_or (keyed_rows self.now) i Null ≡ dict_row (rows self.now.child) result }
        ensures within { IfSome result (λ span. span.0 + span.1 ≤ length (rows self.now.child)) }
        ensures one { IfSome result (λ span. span.1 ≡ 1) }
    {
        let key = self.keys.key(i)?;
        Some((key, 1))
    }

    /// Whether row `i` is the same as row `j` of the other.
    #[cycle(equal)]
    fn equal_row(&self, i: usize, other: &DictionaryArray, j: usize) -> bool
        requires one_type { self.now.arrow_type ≡ other.now.arrow_type }
        requires here { i < length self.now.keys }
        requires there { j < length other.now.keys }
        ensures { IsTrue result ↔ (slice_index_or (keyed_rows self.now) i Null
            ≡ slice_index_or (keyed_rows other.now) j Null) }
    {
        equal_spans(self.span(i), &self.values, other.span(j), &other.values)
    }

    /// Whether `len` rows from row `start` on are the same as those of the other from row
    /// `other_start` on.
    #[cycle(equal)]
    pub(crate) fn equal_range(
        &self,
        start: usize,
        other: &DictionaryArray,
        other_start: usize,
        len: usize,
    ) -> bool
        requires one_type { self.now.arrow_type ≡ other.now.arrow_type }
        requires here { start + len ≤ length (keyed_rows self.now) }
        requires there { other_start + len ≤ length (keyed_rows other.now) }
        ensures { IsTrue result ↔ (sliced (keyed_rows self.now) start len
            ≡ sliced (keyed_rows other.now) other_start len) }
    {
        // lengths fit a `usize`, and so do the places below
        let (_rows, _other_rows) = (self.len(), other.len());
        for i in 0..len {
            if !self.equal_row(start + i, other, other_start + i) {
                return false;
            }
        }
        true
    }

    /// Whether the rows are the same, of two arrays of one data type.
    fn equal_rows(&self, other: &DictionaryArray) -> bool
        requires { self.now.arrow_type ≡ other.now.arrow_type }
        ensures { IsTrue result ↔ (keyed_rows self.now ≡ keyed_rows other.now) }
    {
        let len = self.len();
        len == other.len() && self.equal_range(0, other, 0, len)
    }
}

// Tests the parts of a dictionary in order.
fn check_dictionary(data_type: &DataType, keys: &AnyKeys, values: &AnyArray) -> Result<(), Error>
    ensures ok { OnOk result (HoldsKeyed (type_of data_type.now) (key_rows keys.now) (key_type_of keys.now)
        (layout_of values.now)) }
    ensures fault { IfErr result
        (IsKeyedFault (type_of data_type.now) (key_rows keys.now) (key_type_of keys.now)
        (layout_of values.now)) }
{
    if !is_carried_as(data_type, PhysicalType::Dictionary(keys.key_type())) {
        return Err(Error::OutOfSpec(SpecPart::Kind));
    }
    if values.data_type() != types::values_type(data_type) {
        return Err(Error::OutOfSpec(SpecPart::Child));
    }
    if !keys.are_within(values.len()) {
        return Err(Error::OutOfSpec(SpecPart::Key));
    }
    Ok(())
}

/// A clone shares what is stored and copies none of it. It takes the memory of the names of data types,
/// and of the boxes of children.
impl Clone for DictionaryArray {
    ghost is_clone = { λ array copy. copy ≡ array };

    #[cycle(clone)]
    fn clone(&self) -> Result<DictionaryArray, AllocError> {
        Ok(DictionaryArray {
            keys: self.keys.clone()?,
            values: clone_boxed(&self.values)?,
            data_type: self.data_type.clone()?,
        })
    }
}

/// Two arrays are equal where their data types and their rows are, whatever the layouts beneath.
impl PartialEq for DictionaryArray {
    ghost eq = { λ a b. same_by meaning_code (keyed_meaning a) (keyed_meaning b) };

    ghost laws = { partial_equiv_from_equiv (on_equiv keyed_meaning (same_by-equivalence meaning_code)) };

    fn eq(&self, other: &DictionaryArray) -> bool
        ensures value { result ≡ same_by meaning_code (keyed_meaning self.now) (keyed_meaning other.now) }
        ensures rows { IsTrue result
            ↔ ((self.now.arrow_type ≡ other.now.arrow_type)
            × (keyed_rows self.now ≡ keyed_rows other.now)) }
    {
        self.data_type == other.data_type && self.equal_rows(other)
    }
}

impl Eq for DictionaryArray {
    ghost laws = { on_equiv keyed_meaning (same_by-equivalence meaning_code) };
}
