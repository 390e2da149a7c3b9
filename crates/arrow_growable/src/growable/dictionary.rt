//! Arrays of dictionaries under construction.

ghost use Rattle.std.specs.Prelude.{◌≡◌, ◌<◌, ◌↔◌, true, Err, length, map, IfErr, IfOk, IsOkUnless, OnErr, OnOk};
ghost use Rattle.std.specs.List.{All};
ghost use Rattle.arrow_types.specs.declared.error.Error.{Error};
ghost use Rattle.arrow_memory.specs.Grown.{IsGrowthError};
ghost use Rattle.arrow_flat.specs.DictionaryScalar.{values_in};
ghost use Rattle.arrow_types.specs.Physical.{physical_type_of};
ghost use Rattle.arrow_arrays.specs.Any.{any_array_rows, any_array_type, dictionary_kind, kind_in, kind_of, layout_of};
ghost use Rattle.arrow_arrays.specs.Crowded.{Unjoined, child_of};
ghost use Rattle.arrow_arrays.specs.KeyedParts.{keyed_layout, keyed_rows};
ghost use Rattle.arrow_arrays.specs.Layout.{type_of_layout};
ghost use Rattle.arrow_flat_growable.specs.Grown.{AreOfOneType, CannotHold, FitsItself, HandsOut, HasFailed, IsFailedOrMemory, IsRefusal, NamesRows, appended, bound_to, empty_over, first_type, named_rows};
ghost use Rattle.arrow_growable.specs.Made.{Makes};
ghost use Rattle.arrow_growable.specs.Dictionary.{StartsAt, AreUncrowded, joined_values};

use crate::growable::join::join_arrays;
use crate::growable::{Growable, GrowableKeys, GrowableValidity};
use arrow_arrays::array::{AnyArray, DictionaryArray};
use arrow_types::datatypes::DataType;
use arrow_types::error::Error;
use std::alloc::Global;
use std::marker::Model;
use std::mem;

/// An array of dictionaries under construction. The dictionaries of its arrays are joined once, in order, when it
/// is made; the key of an array grows by the values of those before its own.
pub struct GrowableDictionary<'a> {
    alloc: Global,
    arrays: Vec<&'a DictionaryArray>,
    starts: Vec<usize>,
    data_type: DataType,
    values: AnyArray,
    keys: GrowableKeys,
    validity: GrowableValidity,
    len: usize,
    has_failed: bool,
}

// by hand, so that a drop is a call, and is not written out wherever a value is dropped
impl Drop for GrowableDictionary<'_> {
    fn drop(self) {
        let GrowableDictionary {
            alloc: _,
            arrays: _,
            starts: _,
            data_type: _,
            values: _,
            keys: _,
            validity: _,
            len: _,
            has_failed: _,
        } = self;
    }
}

impl<'a> Model for GrowableDictionary<'a> {
    ghost use Rattle.std.specs.Prelude.{Some, map};
    ghost use Rattle.arrow_types.specs.TypeOf.{type_of};
    ghost use Rattle.arrow_arrays.specs.Any.{any_array_rows, layout_of};
    ghost use Rattle.arrow_arrays.specs.KeyedParts.{keyed_layout};
    ghost use Rattle.arrow_flat_growable.specs.Grown.{Grown, grown_code};
    ghost use Rattle.arrow_flat_growable.specs.Flat.{BindsAll};
    ghost use Rattle.arrow_flat_growable.specs.Keys.{BindsKeys, grown_key_type, key_slots, key_sources};
    ghost use Rattle.arrow_growable.specs.Dictionary.{IsGrownDictionary, dictionary_rows};

    ghost Value = { Grown };

    ghost coded = { grown_code };

    ghost view = { λ a. record {
      arrow_type = type_of a.data_type;
      sources = Some (map (λ r. keyed_layout r.now) a.arrays.items);
      rows = dictionary_rows (any_array_rows a.values) a.validity (key_slots a.keys);
      count = a.len;
      failed = a.has_failed;
    } };

    ghost invariant = { λ a. IsGrownDictionary (grown_key_type a.keys) a.starts.items (layout_of a.values)
        a.validity (key_slots a.keys) a.len (map (λ r. keyed_layout r.now) a.arrays.items)
        (type_of a.data_type) a.has_failed × BindsAll (BindsKeys (key_sources a.keys)) a.arrays.items };
}

impl<'a> GrowableDictionary<'a> {
    /// A growable without rows, to which rows of these arrays, of one data type, can be appended, with
    /// room for `capacity` rows. With `use_validity` it keeps a validity from the first row on, and else
    /// once a row may be null; no row depends on that. The values of the arrays are joined, one dictionary behind
    /// the other; those of one array alone are shared as they are.
    ///
    /// # Requires
    /// There is an array at least, and all are of one data type.
    ///
    /// # Errors
    /// `Overflow` only where the dictionaries can't be joined, and never of one array alone; `OutOfMemory` where
    /// memory is refused, as for a capacity that is too great.
    ///
    /// Source: arrow2's `GrowableDictionary::new`.
    #[cycle(make)]
    pub fn new(
        alloc: Global,
        arrays: &[&'a DictionaryArray],
        use_validity: bool,
        capacity: usize,
    ) -> Result<GrowableDictionary<'a>, Error>
        requires some { 0 < length arrays.now }
        requires one_type { AreOfOneType (map (λ r. keyed_layout r.now) arrays.now) }
        ensures { Makes (λ growable. growable) (map (λ r. keyed_layout r.now) arrays.now) result }
    {
        let values = join_values(alloc, arrays)?;
        GrowableDictionary::over(alloc, arrays, values, use_validity, capacity)
    }

    /// The same over values that are joined.
    fn over(
        alloc: Global,
        arrays: &[&'a DictionaryArray],
        values: AnyArray,
        use_validity: bool,
        capacity: usize,
    ) -> Result<GrowableDictionary<'a>, Error>
        requires some { 0 < length arrays.now }
        requires one_type { AreOfOneType (map (λ r. keyed_layout r.now) arrays.now) }
        requires child { any_array_type values
            ≡ values_in (first_type (map (λ r. keyed_layout r.now) arrays.now)) }
        requires joined { any_array_rows values ≡ joined_values (map (λ r. keyed_layout r.now) arrays.now) }
        ensures ok { IfOk result (λ growable. growable
            ≡ bound_to (map (λ r. keyed_layout r.now) arrays.now)) }
        ensures err { IsOkUnless result Error.OutOfMemory }
    {
        let starts = starts_of(alloc, arrays, values.len())?;
        let first: &'a DictionaryArray = arrays[0];
        let keys = GrowableKeys::new(alloc, first.keys(), arrays, capacity)?;
        let validity = GrowableValidity::new(alloc, use_validity, capacity)?;
        let mut bound: Vec<&'a DictionaryArray> = Vec::with_capacity(alloc, arrays.len())?;
        bound.extend_from_slice(arrays)?;
        Ok(GrowableDictionary {
            alloc,
            arrays: bound,
            starts,
            data_type: first.data_type().clone()?,
            values,
            keys,
            validity,
            len: 0,
            has_failed: false,
        })
    }

    /// Hands out an array of all rows so far, and is left without rows.
    fn take_array(&mut self) -> Result<DictionaryArray, Error>
        ensures ok { IfOk result (λ array. (array.arrow_type ≡ self.old.arrow_type)
            × (keyed_rows array ≡ self.old.rows)) }
        ensures left { OnOk result (self.new ≡ empty_over self.old.arrow_type self.old.sources) }
        ensures err { OnErr result (HasFailed self.old self.new) }
        ensures failed { (result ≡ Err Error.Failed) ↔ (self.old.failed ≡ true) }
        ensures others { IfErr result IsFailedOrMemory }
    {
        if self.has_failed {
            return Err(Error::Failed);
        }
        self.has_failed = true;
        let data_type = self.data_type.clone()?;
        let values = Box::new(self.alloc, self.values.clone()?)?;
        let fresh = self.validity.fresh()?;
        let validity = mem::replace(&mut self.validity, fresh).into_validity()?;
        let fresh = self.keys.fresh()?;
        let keys = mem::replace(&mut self.keys, fresh).into_keys(self.alloc, validity)?;
        let array = DictionaryArray::new(data_type, keys, values);
        self.len = 0;
        self.has_failed = false;
        Ok(array)
    }

    /// An array of all rows.
    ///
    /// # Errors
    /// `Failed` where an earlier call refused; `OutOfMemory` where memory is refused.
    pub fn into_array(self) -> Result<DictionaryArray, Error>
        ensures answer { HandsOut (λ array. array.arrow_type) keyed_rows self.entry result }
    {
        let mut growable = self;
        growable.take_array()
    }
}

// Arrays of any type as arrays of dictionaries.
pub(crate) fn bind<'a>(
    alloc: Global,
    arrays: &[&'a AnyArray],
) -> Result<Vec<&'a DictionaryArray>, Error>
    requires one_type { AreOfOneType (map (λ a. layout_of a.now) arrays.now) }
    requires kind { kind_in (physical_type_of (first_type (map (λ a. layout_of a.now) arrays.now)))
        ≡ dictionary_kind }
    ensures ok { IfOk result (λ bound. map (λ r. keyed_layout r.now) bound.items
        ≡ map (λ a. layout_of a.now) arrays.now) }
    ensures err { IsOkUnless result Error.OutOfMemory }
{
    let mut bound: Vec<&'a DictionaryArray> = Vec::with_capacity(alloc, arrays.len())?;
    for array in arrays {
        // The kind of each array follows from its data type.
        let _ = array.data_type();
        bound.push(as_dictionary(*array))?;
    }
    Ok(bound)
}

// An array of any type as one of dictionaries.
fn as_dictionary(array: &AnyArray) -> &DictionaryArray
    requires { kind_of array.now ≡ dictionary_kind }
    ensures { keyed_layout result.now ≡ layout_of array.now }
{
    match array {
        AnyArray::Dictionary(array) => array,
        _ => unreachable!(),
    }
}

// The values of all arrays, one dictionary behind the other; of one array alone they are shared.
#[cycle(make)]
fn join_values(alloc: Global, arrays: &[&DictionaryArray]) -> Result<AnyArray, Error>
    requires some { 0 < length arrays.now }
    requires one_type { AreOfOneType (map (λ r. keyed_layout r.now) arrays.now) }
    ensures child { IfOk result (λ values. any_array_type values
        ≡ values_in (first_type (map (λ r. keyed_layout r.now) arrays.now))) }
    ensures joined { IfOk result (λ values. any_array_rows values
        ≡ joined_values (map (λ r. keyed_layout r.now) arrays.now)) }
    ensures overflow { result ≡ Err Error.Overflow → Unjoined (map (λ r. keyed_layout r.now) arrays.now) }
    ensures alone { length arrays.now ≡ 1 → IsOkUnless result Error.OutOfMemory }
    ensures others { IfErr result IsGrowthError }
{
    let first = arrays[0];
    // The data type is a dictionary's.
    let _ = first.data_type();
    if arrays.len() == 1 {
        return Ok(first.values().clone()?);
    }
    let values = values_of(alloc, arrays)?;
    join_arrays(alloc, &values)
}

// The values of each array.
fn values_of<'a>(alloc: Global, arrays: &[&'a DictionaryArray]) -> Result<Vec<&'a AnyArray>, Error>
    ensures ok { IfOk result (λ values. map (λ a. layout_of a.now) values.items
        ≡ map child_of (map (λ r. keyed_layout r.now) arrays.now)) }
    ensures types { OnOk result (All
        (λ r. type_of_layout r.now.child ≡ values_in r.now.arrow_type) arrays.now) }
    ensures err { IsOkUnless result Error.OutOfMemory }
{
    let mut values: Vec<&'a AnyArray> = Vec::with_capacity(alloc, arrays.len())?;
    for array in arrays {
        let array: &'a DictionaryArray = *array;
        values.push(array.values())?;
    }
    Ok(values)
}

// Where the values of each array begin among so many.
fn starts_of(alloc: Global, arrays: &[&DictionaryArray], count: usize) -> Result<Vec<usize>, Error>
    requires { length (joined_values (map (λ r. keyed_layout r.now) arrays.now)) ≡ count }
    ensures ok { IfOk result (λ starts. StartsAt starts.items (map (λ r. keyed_layout r.now) arrays.now)) }
    ensures err { IsOkUnless result Error.OutOfMemory }
{
    let mut starts = Vec::with_capacity(alloc, arrays.len())?;
    let mut start = 0;
    for array in arrays {
        starts.push(start)?;
        start += array.values().len();
    }
    Ok(starts)
}

impl<'a> Growable<'a> for GrowableDictionary<'a> {
    ghost state = { λ g. g };

    /// The same as of each growable ([`Growable::extend`]), and more: `Ok` only where each key of these rows that is not
    /// null, grown by the values of the arrays before its own, is at most the greatest of its type.
    #[inline(never)]
    fn extend(&mut self, index: usize, start: usize, len: usize) -> Result<(), Error>
        requires { NamesRows self.old index start len }
        ensures ok { OnOk result (self.new ≡ appended self.old (named_rows self.old index start len)) }
        ensures fits { OnOk result (FitsItself self.new) }
        ensures keys { OnOk result (AreUncrowded self.old.sources index start len) }
        ensures err { OnErr result (HasFailed self.old self.new) }
        ensures failed { (result ≡ Err Error.Failed) ↔ (self.old.failed ≡ true) }
        ensures overflow { result ≡ Err Error.Overflow → CannotHold self.old index start len }
        ensures others { IfErr result IsRefusal }
    {
        if self.has_failed {
            return Err(Error::Failed);
        }
        self.has_failed = true;
        let Some(total) = self.len.checked_add(len) else {
            return Err(Error::Overflow);
        };
        let array: &'a DictionaryArray = self.arrays[index];
        let keys = array.keys();
        let count = array.values().len();
        self.validity.extend_from(array.validity(), start, len)?;
        self.keys
            .extend_within(index, keys, start, len, self.starts[index], count)?;
        self.len = total;
        self.has_failed = false;
        Ok(())
    }

    fn extend_validity(&mut self, additional: usize) -> Result<(), Error> {
        if self.has_failed {
            return Err(Error::Failed);
        }
        self.has_failed = true;
        let Some(total) = self.len.checked_add(additional) else {
            return Err(Error::Overflow);
        };
        self.validity.extend_nulls(additional)?;
        self.keys.extend_nulls(additional)?;
        self.len = total;
        self.has_failed = false;
        Ok(())
    }

    fn len(&self) -> usize {
        self.len
    }

    fn as_box(&mut self) -> Result<AnyArray, Error> {
        Ok(AnyArray::Dictionary(self.take_array()?))
    }
}
