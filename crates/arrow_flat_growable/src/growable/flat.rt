//! Flat arrays under construction.

ghost use Rattle.std.specs.Prelude.{◌≡◌, ◌+◌, ◌<◌, ◌≤◌, ◌++◌, ◌↔◌, ◌^◌, [], Bool, List, ℕ, Option, length, map, replicate, true, false, Err, Some, IfOk, IfErr, OnErr, OnOk, IsOkUnless, option_copied};
ghost use Rattle.arrow_types.specs.declared.error.Error.{Error};
ghost use Rattle.arrow_types.specs.ArrowType.{ArrowType};
ghost use Rattle.arrow_types.specs.Carried.{IsCarried};
ghost use Rattle.arrow_types.specs.Fits.{Fits};
ghost use Rattle.arrow_types.specs.Rows.{mask, masked};
ghost use Rattle.arrow_types.specs.Slot.{Slot, Null, null_slot};
ghost use Rattle.arrow_types.specs.TypeOf.{type_of};
ghost use Rattle.arrow_memory.specs.Grown.{IsGrowthError};
ghost use Rattle.arrow_memory.specs.Sliced.{sliced};
ghost use Rattle.arrow_flat.specs.Parts.{FitsRows, bits_of_slice};
ghost use Rattle.arrow_arrays.specs.Any.{Kind, kind_of, layout_of};
ghost use Rattle.arrow_arrays.specs.Layout.{flat};
ghost use Rattle.arrow_flat_growable.specs.Flat.{BindsAll, Covers, KeepsBound, flat_layout};
ghost use Rattle.arrow_flat_growable.specs.Grown.{Grown, AreOfOneType, Binds, FitsItself, FitsWith, HandsOut, HasFailed, IsRefusal, NamesRows, appended, named_rows};

use crate::growable::Growable;
use crate::growable::validity::GrowableValidity;
use arrow_arrays::array::AnyArray;
use arrow_memory::bitmap::{Bitmap, Mask};
use arrow_types::datatypes::DataType;
use arrow_types::error::Error;
use std::alloc::Global;
use std::marker::Model;
use std::mem;

/// What the rows of a flat array are stored in while it grows.
pub trait GrowableValues: Drop {
    /// The array that they become.
    type Array: Drop;

    // of an array: its type, its validity, and what is stored for each row, null rows too
    ghost type_in: { Self.Array → ArrowType };

    ghost bits_in: { Self.Array → Option (List Bool) };

    ghost stored_in: { Self.Array → List Slot };

    // the rows so far, where none is null
    ghost slots: { Self → List Slot };

    // a data type whose rows are stored so
    ghost are_of: { Self → ArrowType → Type 0 };

    // the kind of arrays that are stored so
    ghost kind: { Kind };

    // the array that is bound under a number
    ghost binds: { Self → ℕ → Self.Array → Type 0 };

    // what is stored here of rows start to start + len of an array, null where a bit is not set
    ghost stored_slice: { Self.Array → List Bool → ℕ → ℕ → List Slot };

    // what is stored beneath so many nulls
    ghost blanks: { Self → ℕ → List Slot };

    // nothing that counts is stored beneath nulls
    ghost spares: { List Bool → List Slot → Type 0 };

    /// The data type of an array.
    fn data_type(array: &Self::Array) -> &DataType
        ensures same { type_of result.now ≡ type_in array.now }
        ensures carried { IsCarried (type_in array.now) };

    /// The validity of an array.
    fn validity(array: &Self::Array) -> Option<&Bitmap>
        ensures same { option_copied result ≡ bits_in array.now }
        ensures fits { FitsRows (bits_in array.now) (length (stored_in array.now)) };

    /// No rows, and room for so many, stored as those of an array, which is one of those that are bound.
    fn with_capacity(
        alloc: Global,
        array: &Self::Array,
        arrays: &[&Self::Array],
        capacity: usize,
    ) -> Result<Self, Error>
        ensures empty { IfOk result (λ values. slots values ≡ []) }
        ensures kind { IfOk result (λ values. are_of values (type_in array.now)) }
        ensures bound { IfOk result (λ values. BindsAll (binds values) arrays.now) }
        ensures err { IsOkUnless result Error.OutOfMemory };

    /// No rows, stored in the same way.
    fn fresh(&self) -> Result<Self, Error>
        ensures empty { IfOk result (λ values. slots values ≡ []) }
        ensures kind { IfOk result (λ values. (t : ArrowType) → are_of self.now t → are_of values t) }
        ensures bound { IfOk result (λ values. KeepsBound (binds self.now) (binds values)) }
        ensures err { IsOkUnless result Error.OutOfMemory };

    /// Appends what is stored of `len` rows of bound array `index` from row `start` on.
    ///
    /// # Requires
    /// The array is the one bound under `index`, its data type is stored so, `start + len` is at most the count of its rows, and
    /// there are fewer than 2^64 rows then.
    fn extend(
        &mut self,
        index: usize,
        array: &Self::Array,
        start: usize,
        len: usize,
    ) -> Result<(), Error>
        requires kind { are_of self.old (type_in array.now) }
        requires bound { binds self.old index array.now }
        requires within { start + len ≤ length (stored_in array.now) }
        requires room { length (slots self.old) + len < 2 ^ 64 }
        ensures ok { OnOk result (slots self.new ≡ slots self.old
            ++ stored_slice array.now (bits_of_slice (bits_in array.now) start len) start len) }
        ensures kind { (t : ArrowType) → are_of self.old t → are_of self.new t }
        ensures bound { KeepsBound (binds self.old) (binds self.new) }
        ensures fits { (t : ArrowType) → are_of self.old t → OnOk result (Fits t (slots self.new)) }
        ensures overflow { (t : ArrowType) → are_of self.old t → result ≡ Err Error.Overflow
            → Fits t (slots self.old
            ++ stored_slice array.now (bits_of_slice (bits_in array.now) start len) start len) → ⊥ }
        ensures others { IfErr result IsGrowthError };

    /// The same of rows that are null where a bit is not set, a row for each bit.
    ///
    /// # Requires
    /// As of `extend`.
    fn extend_under(
        &mut self,
        index: usize,
        array: &Self::Array,
        start: usize,
        bits: &Mask,
    ) -> Result<(), Error>
        requires kind { are_of self.old (type_in array.now) }
        requires bound { binds self.old index array.now }
        requires within { start + length bits.now ≤ length (stored_in array.now) }
        requires room { length (slots self.old) + length bits.now < 2 ^ 64 }
        ensures ok { OnOk result (slots self.new
            ≡ slots self.old ++ stored_slice array.now bits.now start (length bits.now)) }
        ensures kind { (t : ArrowType) → are_of self.old t → are_of self.new t }
        ensures bound { KeepsBound (binds self.old) (binds self.new) }
        ensures fits { (t : ArrowType) → are_of self.old t → OnOk result (Fits t (slots self.new)) }
        ensures overflow { (t : ArrowType) → are_of self.old t → result ≡ Err Error.Overflow
            → Fits t (slots self.old ++ stored_slice array.now bits.now start (length bits.now)) → ⊥ }
        ensures others { IfErr result IsGrowthError };

    /// Appends what is stored beneath so many nulls.
    ///
    /// # Requires
    /// There are fewer than 2^64 rows then.
    fn extend_nulls(&mut self, additional: usize) -> Result<(), Error>
        requires { length (slots self.old) + additional < 2 ^ 64 }
        ensures ok { OnOk result (slots self.new ≡ slots self.old ++ blanks self.old additional) }
        ensures kind { (t : ArrowType) → are_of self.old t → are_of self.new t }
        ensures bound { KeepsBound (binds self.old) (binds self.new) }
        ensures fits { (t : ArrowType) → are_of self.old t → OnOk result (Fits t (slots self.new)) }
        ensures overflow { (t : ArrowType) → are_of self.old t → result ≡ Err Error.Overflow
            → Fits t (slots self.old ++ blanks self.old additional) → ⊥ }
        ensures others { IfErr result IsGrowthError };

    /// An array of these rows under a validity.
    ///
    /// # Requires
    /// The data type is carried, and its rows are stored so; a validity has a bit for each row.
    fn into_array(self, data_type: DataType, validity: Option<Bitmap>) -> Result<Self::Array, Error>
        requires carried { IsCarried (type_of data_type) }
        requires kind { are_of self (type_of data_type) }
        requires fits { FitsRows validity (length (slots self)) }
        ensures kind { IfOk result (λ array. type_in array ≡ type_of data_type) }
        ensures rows { IfOk result (λ array. masked (bits_in array) (stored_in array)
            ≡ masked validity (slots self)) }
        ensures err { IsOkUnless result Error.OutOfMemory };

    /// An array of any type as one whose rows are stored so.
    ///
    /// # Requires
    /// The array's rows are stored so.
    fn of_any(array: &AnyArray) -> &Self::Array
        requires { kind_of array.now ≡ kind }
        ensures { flat_layout type_in bits_in stored_in result.now ≡ layout_of array.now };

    /// The array as one of any type.
    ///
    /// # Errors
    /// `OutOfMemory` where memory is refused.
    fn into_any(array: Self::Array) -> Result<AnyArray, Error>
        ensures ok { IfOk result (λ any. layout_of any ≡ flat_layout type_in bits_in stored_in array) }
        ensures err { IsOkUnless result Error.OutOfMemory };

    // a part under bits has the rows of that part under them
    ghost rows_of_slice: { (array : Self.Array) (bits : List Bool) (start len : ℕ) → length bits ≡ len
        → start + len ≤ length (stored_in array)
        → mask bits (stored_slice array bits start len) ≡ mask bits (sliced (stored_in array) start len) };

    // as many
    ghost length_of_slice: { (array : Self.Array) (bits : List Bool) (start len : ℕ) → length bits ≡ len
        → start + len ≤ length (stored_in array) → length (stored_slice array bits start len) ≡ len };

    ghost length_of_blanks: { (x : Self) (n : ℕ) → length (blanks x n) ≡ n };

    // a null slot of such a type is null
    ghost null_of: { (x : Self) (t : ArrowType) → are_of x t → null_slot t ≡ Null };

    // nothing that counts comes beneath nulls
    ghost spares_none: { spares [] [] };

    ghost spares_slice: { (bits : List Bool) (stored : List Slot) (array : Self.Array) (more : List Bool)
        (start len : ℕ) → length more ≡ len → start + len ≤ length (stored_in array) → spares bits stored
        → length bits ≡ length stored → spares (bits ++ more) (stored ++ stored_slice array more start len) };

    ghost spares_blanks: { (bits : List Bool) (stored : List Slot) (x : Self) (n : ℕ) → spares bits stored
        → length bits ≡ length stored → spares (bits ++ replicate n false) (stored ++ blanks x n) };

    // so what is stored fits where the rows do, and the other way round
    ghost fits_stored: { (x : Self) (t : ArrowType) (bits : List Bool) (stored : List Slot) → are_of x t
        → spares bits stored → length bits ≡ length stored → Fits t (mask bits stored) → Fits t stored };

    ghost fits_rows: { (x : Self) (t : ArrowType) (bits : List Bool) (stored : List Slot) → are_of x t
        → length bits ≡ length stored → Fits t stored → Fits t (mask bits stored) };
}

/// A flat array under construction.
pub struct FlatGrowable<'a, G: GrowableValues> {
    arrays: Vec<&'a G::Array>,
    data_type: DataType,
    values: G,
    validity: GrowableValidity,
    len: usize,
    has_failed: bool,
}

// by hand, so that a drop is a call, and is not written out wherever a value is dropped
impl<'a, G: GrowableValues> Drop for FlatGrowable<'a, G> {
    fn drop(self) {
        let FlatGrowable {
            arrays: _,
            data_type: _,
            values: _,
            validity: _,
            len: _,
            has_failed: _,
        } = self;
    }
}

impl<'a, G: GrowableValues> Model for FlatGrowable<'a, G> {
    ghost use Rattle.std.specs.Prelude.{Some, map};
    ghost use Rattle.arrow_types.specs.Rows.{mask};
    ghost use Rattle.arrow_types.specs.TypeOf.{type_of};
    ghost use Rattle.arrow_flat_growable.specs.Flat.{flat_layout, IsGrownFlat};
    ghost use Rattle.arrow_flat_growable.specs.Grown.{Grown, grown_code};

    ghost Value = { Grown };

    ghost coded = { grown_code };

    ghost view = { λ a. record {
      arrow_type = type_of a.data_type;
      sources = Some (map (λ r. flat_layout G.type_in G.bits_in G.stored_in r.now) a.arrays.items);
      rows = mask a.validity (G.slots a.values);
      count = a.len;
      failed = a.has_failed;
    } };

    ghost invariant = { λ a. IsGrownFlat G.slots G.are_of G.spares (G.binds a.values) a.values a.validity a.len
        a.arrays.items (map (λ r. flat_layout G.type_in G.bits_in G.stored_in r.now) a.arrays.items)
        (type_of a.data_type) a.has_failed };
}

impl<'a, G: GrowableValues> FlatGrowable<'a, G> {
    /// A growable without rows, to which rows of these arrays, of one data type, can be appended, with
    /// room for `capacity` rows. With `use_validity` it keeps a validity from the first row on, and else
    /// once a row may be null; no row depends on that.
    ///
    /// # Requires
    /// There is an array at least, and all are of one data type.
    ///
    /// # Errors
    /// `OutOfMemory` where memory is refused, as for a capacity that is too great.
    pub fn new(
        alloc: Global,
        arrays: Vec<&'a G::Array>,
        use_validity: bool,
        capacity: usize,
    ) -> Result<FlatGrowable<'a, G>, Error>
        requires some { 0 < length arrays.items }
        requires one_type { AreOfOneType
            (map (λ r. flat_layout G.type_in G.bits_in G.stored_in r.now) arrays.items) }
        ensures { Binds (map (λ r. flat_layout G.type_in G.bits_in G.stored_in r.now) arrays.entry.items)
            result }
    {
        let first: &'a G::Array = arrays[0];
        let data_type = G::data_type(first).clone()?;
        let values = G::with_capacity(alloc, first, &arrays, capacity)?;
        let validity = GrowableValidity::new(alloc, use_validity, capacity)?;
        Ok(FlatGrowable {
            arrays,
            data_type,
            values,
            validity,
            len: 0,
            has_failed: false,
        })
    }

    /// An array of all rows.
    ///
    /// # Errors
    /// `Failed` where an earlier call refused; `OutOfMemory` where memory is refused.
    pub fn into_array(self) -> Result<G::Array, Error>
        ensures answer { HandsOut G.type_in (λ array. masked (G.bits_in array) (G.stored_in array))
            self.entry result }
    {
        if self.has_failed {
            return Err(Error::Failed);
        }
        let FlatGrowable {
            arrays: _,
            data_type,
            values,
            validity,
            len: _,
            has_failed: _,
        } = self;
        finish(data_type, values, validity)
    }

    /// Appends rows of bound array `index` from row `start` on, a row for each bit of a mask: null where the bit is not set.
    ///
    /// # Requires
    /// `index` is that of a bound array, and `start` and the count of bits are at most the count of its rows.
    ///
    /// # Errors
    /// `Failed` where an earlier call refused; `Overflow` only where the rows do not fit the type; `OutOfMemory` where
    /// memory is refused.
    pub fn extend_masked(&mut self, index: usize, start: usize, own: &Mask) -> Result<(), Error>
        requires { NamesRows self.old index start (length own.now) }
        ensures ok { OnOk result (self.new
            ≡ appended self.old (mask own.now (named_rows self.old index start (length own.now)))) }
        ensures fits { OnOk result (FitsItself self.new) }
        ensures err { OnErr result (HasFailed self.old self.new) }
        ensures failed { (result ≡ Err Error.Failed) ↔ (self.old.failed ≡ true) }
        ensures overflow { result ≡ Err Error.Overflow → FitsWith self.old
            (mask own.now (named_rows self.old index start (length own.now))) → ⊥ }
        ensures null { null_slot self.old.arrow_type ≡ Null }
        ensures others { IfErr result IsRefusal }
    {
        if self.has_failed {
            return Err(Error::Failed);
        }
        let array: &'a G::Array = self.arrays[index];
        self.has_failed = true;
        let len = own.len();
        let Some(total) = self.len.checked_add(len) else {
            return Err(Error::Overflow);
        };
        append_masked(
            &mut self.values,
            &mut self.validity,
            index,
            array,
            start,
            own,
        )?;
        self.len = total;
        self.has_failed = false;
        Ok(())
    }
}

// An array of the rows that are stored, null where a bit is not set.
fn finish<G: GrowableValues>(
    data_type: DataType,
    values: G,
    validity: GrowableValidity,
) -> Result<G::Array, Error>
    requires carried { IsCarried (type_of data_type) }
    requires kind { G.are_of values (type_of data_type) }
    requires covered { length validity ≡ length (G.slots values) }
    ensures ok { IfOk result (λ array. (G.type_in array ≡ type_of data_type)
        × (masked (G.bits_in array) (G.stored_in array) ≡ mask validity (G.slots values))) }
    ensures err { IsOkUnless result Error.OutOfMemory }
{
    let validity = validity.into_validity()?;
    values.into_array(data_type, validity)
}

// Appends `len` rows of an array from row `start` on: their bits, and what is stored of them.
fn append<G: GrowableValues>(
    values: &mut G,
    validity: &mut GrowableValidity,
    index: usize,
    array: &G::Array,
    start: usize,
    len: usize,
) -> Result<(), Error>
    requires within { start + len ≤ length (masked (G.bits_in array.now) (G.stored_in array.now)) }
    requires room { length validity.old + len < 2 ^ 64 }
    requires kind { G.are_of values.old (G.type_in array.now) }
    requires bound { G.binds values.old index array.now }
    requires covers { Covers G.spares validity.old (G.slots values.old) }
    ensures covers { OnOk result (Covers G.spares validity.new (G.slots values.new)) }
    ensures count { OnOk result (length validity.new ≡ length validity.old + len) }
    ensures rows { OnOk result (mask validity.new (G.slots values.new)
        ≡ mask validity.old (G.slots values.old)
        ++ sliced (masked (G.bits_in array.now) (G.stored_in array.now)) start len) }
    ensures kind { (t : ArrowType) → G.are_of values.old t → G.are_of values.new t }
    ensures bound { KeepsBound (G.binds values.old) (G.binds values.new) }
    ensures fits { (t : ArrowType) → G.are_of values.old t → OnOk result (Fits t (G.slots values.new)) }
    ensures overflow { (t : ArrowType) → G.are_of values.old t → result ≡ Err Error.Overflow
        → Fits t (mask validity.old (G.slots values.old)
        ++ sliced (masked (G.bits_in array.now) (G.stored_in array.now)) start len) → ⊥ }
    ensures others { IfErr result IsGrowthError }
{
    validity.extend_from(G::validity(array), start, len)?;
    values.extend(index, array, start, len)
}

// The same of rows that are null where a bit of a mask is not set either, a row for each bit.
fn append_masked<G: GrowableValues>(
    values: &mut G,
    validity: &mut GrowableValidity,
    index: usize,
    array: &G::Array,
    start: usize,
    own: &Mask,
) -> Result<(), Error>
    requires within { start + length own.now
        ≤ length (masked (G.bits_in array.now) (G.stored_in array.now)) }
    requires room { length validity.old + length own.now < 2 ^ 64 }
    requires kind { G.are_of values.old (G.type_in array.now) }
    requires bound { G.binds values.old index array.now }
    requires covers { Covers G.spares validity.old (G.slots values.old) }
    ensures covers { OnOk result (Covers G.spares validity.new (G.slots values.new)) }
    ensures count { OnOk result (length validity.new ≡ length validity.old + length own.now) }
    ensures rows { OnOk result (mask validity.new (G.slots values.new)
        ≡ mask validity.old (G.slots values.old)
        ++ mask own.now (sliced (masked (G.bits_in array.now) (G.stored_in array.now)) start
        (length own.now))) }
    ensures kind { (t : ArrowType) → G.are_of values.old t → G.are_of values.new t }
    ensures bound { KeepsBound (G.binds values.old) (G.binds values.new) }
    ensures fits { (t : ArrowType) → G.are_of values.old t → OnOk result (Fits t (G.slots values.new)) }
    ensures overflow { (t : ArrowType) → G.are_of values.old t → result ≡ Err Error.Overflow
        → Fits t (mask validity.old (G.slots values.old)
        ++ mask own.now (sliced (masked (G.bits_in array.now) (G.stored_in array.now)) start
        (length own.now))) → ⊥ }
    ensures others { IfErr result IsGrowthError }
{
    match G::validity(array) {
        None => append_under(values, validity, index, array, start, own),
        Some(bits) => {
            let both = own.and_part(validity.allocator(), bits, start)?;
            append_under(values, validity, index, array, start, &both)
        }
    }
}

// The same of rows of which the bits alone say which are null.
fn append_under<G: GrowableValues>(
    values: &mut G,
    validity: &mut GrowableValidity,
    index: usize,
    array: &G::Array,
    start: usize,
    bits: &Mask,
) -> Result<(), Error>
    requires within { start + length bits.now ≤ length (G.stored_in array.now) }
    requires room { length validity.old + length bits.now < 2 ^ 64 }
    requires kind { G.are_of values.old (G.type_in array.now) }
    requires bound { G.binds values.old index array.now }
    requires covers { Covers G.spares validity.old (G.slots values.old) }
    ensures covers { OnOk result (Covers G.spares validity.new (G.slots values.new)) }
    ensures count { OnOk result (length validity.new ≡ length validity.old + length bits.now) }
    ensures rows { OnOk result (mask validity.new (G.slots values.new)
        ≡ mask validity.old (G.slots values.old)
        ++ mask bits.now (sliced (G.stored_in array.now) start (length bits.now))) }
    ensures kind { (t : ArrowType) → G.are_of values.old t → G.are_of values.new t }
    ensures bound { KeepsBound (G.binds values.old) (G.binds values.new) }
    ensures fits { (t : ArrowType) → G.are_of values.old t → OnOk result (Fits t (G.slots values.new)) }
    ensures overflow { (t : ArrowType) → G.are_of values.old t → result ≡ Err Error.Overflow
        → Fits t (mask validity.old (G.slots values.old)
        ++ mask bits.now (sliced (G.stored_in array.now) start (length bits.now))) → ⊥ }
    ensures others { IfErr result IsGrowthError }
{
    validity.extend_from_mask(bits)?;
    values.extend_under(index, array, start, bits)
}

// Appends so many nulls.
fn append_nulls<G: GrowableValues>(
    values: &mut G,
    validity: &mut GrowableValidity,
    additional: usize,
) -> Result<(), Error>
    requires room { length validity.old + additional < 2 ^ 64 }
    requires covers { Covers G.spares validity.old (G.slots values.old) }
    ensures covers { OnOk result (Covers G.spares validity.new (G.slots values.new)) }
    ensures count { OnOk result (length validity.new ≡ length validity.old + additional) }
    ensures rows { OnOk result (mask validity.new (G.slots values.new)
        ≡ mask validity.old (G.slots values.old) ++ replicate additional Null) }
    ensures kind { (t : ArrowType) → G.are_of values.old t → G.are_of values.new t }
    ensures bound { KeepsBound (G.binds values.old) (G.binds values.new) }
    ensures fits { (t : ArrowType) → G.are_of values.old t → OnOk result (Fits t (G.slots values.new)) }
    ensures overflow { (t : ArrowType) → G.are_of values.old t → result ≡ Err Error.Overflow
        → Fits t (mask validity.old (G.slots values.old) ++ replicate additional Null) → ⊥ }
    ensures others { IfErr result IsGrowthError }
{
    validity.extend_nulls(additional)?;
    values.extend_nulls(additional)
}

impl<'a, G: GrowableValues> Growable<'a> for FlatGrowable<'a, G> {
    ghost state = { λ g. g };

    // a call, so that one on a growable of any type is a jump to it, and saves registers for no other kind
    #[inline(never)]
    fn extend(&mut self, index: usize, start: usize, len: usize) -> Result<(), Error> {
        if self.has_failed {
            return Err(Error::Failed);
        }
        let array: &'a G::Array = self.arrays[index];
        self.has_failed = true;
        let Some(total) = self.len.checked_add(len) else {
            return Err(Error::Overflow);
        };
        append(
            &mut self.values,
            &mut self.validity,
            index,
            array,
            start,
            len,
        )?;
        self.len = total;
        self.has_failed = false;
        Ok(())
    }

    fn extend_validity(&mut self, additional: usize) -> Result<(), Error> {
        if self.has_failed {
            return Err(Error::Failed);
        }
        self.has_failed = true;
        let Some(total) = self.len.checked_add(additional) else {
            return Err(Error::Overflow);
        };
        append_nulls(&mut self.values, &mut self.validity, additional)?;
        self.len = total;
        self.has_failed = false;
        Ok(())
    }

    fn len(&self) -> usize {
        self.len
    }

    fn as_box(&mut self) -> Result<AnyArray, Error> {
        if self.has_failed {
            return Err(Error::Failed);
        }
        self.has_failed = true;
        let data_type = self.data_type.clone()?;
        let values = self.values.fresh()?;
        let validity = self.validity.fresh()?;
        let values = mem::replace(&mut self.values, values);
        let validity = mem::replace(&mut self.validity, validity);
        let array = G::into_any(finish(data_type, values, validity)?)?;
        self.len = 0;
        self.has_failed = false;
        Ok(array)
    }
}
