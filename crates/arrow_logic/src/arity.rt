//! Arrays of what a closure answers to the stored values of one array of numbers or intervals, or of two row by row. It
//! is called at each row, also at what lies beneath a null.

ghost use Rattle.std.specs.Prelude.{◌≡◌, ◌<◌, ◌≢◌, ◌⊎◌, Err, length, map, not, IfErr, IfOk, IsOkUnless, OnOk};
ghost use Rattle.std.specs.List.{All, AllZip, zip};
ghost use Rattle.arrow_types.specs.declared.datatypes.physical_type.PhysicalType.TheVariants as physical;
ghost use Rattle.arrow_types.specs.declared.error.ArgumentFault.{ArgumentFault};
ghost use Rattle.arrow_types.specs.declared.error.Error.{Error};
ghost use Rattle.arrow_types.specs.Physical.{physical_type_of};
ghost use Rattle.arrow_types.specs.TypeOf.{type_of};
ghost use Rattle.arrow_memory.specs.Bits.{either_bits};
ghost use Rattle.arrow_flat.specs.Parts.{FitsRows, rows_by};
ghost use Rattle.arrow_logic.specs.Answers.{AnswersSome, RefusesFirst, answers_ok, nulls, to_pair};
ghost use Rattle.arrow_logic.specs.Gathered.{answers_at, answers_parts, parts_of};

mod gather;

use arrow_flat::array::PrimitiveArray;
use arrow_flat::array::validity::combine_validities;
use arrow_memory::bitmap::Bitmap;
use arrow_memory::buffer::Buffer;
use arrow_types::datatypes::DataType;
use arrow_types::error::{ArgumentFault, Error};
use arrow_types::types::NativeType;
use gather::{gather, gather_with_bits, try_gather};
use std::alloc::Global;

/// What `op` answers to each stored value, null where the array is.
///
/// # Requires
/// Arrays of the data type store values of `O` (`DataType::to_physical_type`). `op` may be called on each stored value,
/// also beneath a null.
///
/// # Errors
/// `OutOfMemory` where memory is refused.
///
/// Source: arrow2's `arity::unary`.
pub fn unary<I: NativeType, F: Fn(I) -> O, O: NativeType>(
    alloc: Global,
    array: &PrimitiveArray<I>,
    op: F,
    data_type: DataType,
) -> Result<PrimitiveArray<O>, Error>
    requires layout { physical_type_of (type_of data_type) ≡ physical.Primitive O.PRIMITIVE }
    requires callable { All (F.pre op) array.now.values }
    ensures array_type { IfOk result (λ made. made.arrow_type ≡ type_of data_type) }
    ensures answers { IfOk result (λ made. AllZip (F.post op) array.now.values made.values) }
    ensures null_rows { IfOk result (λ made. nulls (rows_by (map O.slot) made)
        ≡ nulls (rows_by (map I.slot) array.now)) }
    ensures err { IsOkUnless result Error.OutOfMemory }
{
    let stored = array.values().as_slice();
    let values = gather(alloc, stored.len(), |row| answer_at(&op, stored, row))?;
    make_of_one(alloc, data_type, values, array)
}

/// The same where `op` may answer an error: the first one ends it.
///
/// # Requires
/// As of [`unary`].
///
/// # Errors
/// The first that `op` answers to a stored value, also beneath a null. `OutOfMemory` where memory is refused.
///
/// Source: arrow2's `arity::try_unary`.
pub fn try_unary<I: NativeType, F: Fn(I) -> Result<O, Error>, O: NativeType>(
    alloc: Global,
    array: &PrimitiveArray<I>,
    op: F,
    data_type: DataType,
) -> Result<PrimitiveArray<O>, Error>
    requires layout { physical_type_of (type_of data_type) ≡ physical.Primitive O.PRIMITIVE }
    requires callable { All (F.pre op) array.now.values }
    ensures array_type { IfOk result (λ made. made.arrow_type ≡ type_of data_type) }
    ensures answers { IfOk result (λ made. AllZip (answers_ok (F.post op)) array.now.values made.values) }
    ensures null_rows { IfOk result (λ made. nulls (rows_by (map O.slot) made)
        ≡ nulls (rows_by (map I.slot) array.now)) }
    ensures failed { IfErr result (λ error. (error ≡ Error.OutOfMemory)
        ⊎ RefusesFirst (F.post op) array.now.values error) }
{
    let stored = array.values().as_slice();
    let values = try_gather(alloc, stored.len(), |row| answer_at(&op, stored, row))?;
    make_of_one(alloc, data_type, values, array)
}

/// The same where `op` answers a value and a bit: an array of the values, and a bit for each row, null rows too.
///
/// # Requires
/// As of [`unary`].
///
/// # Errors
/// `OutOfMemory` where memory is refused.
///
/// Source: arrow2's `arity::unary_with_bitmap`.
pub fn unary_with_bitmap<I: NativeType, F: Fn(I) -> (O, bool), O: NativeType>(
    alloc: Global,
    array: &PrimitiveArray<I>,
    op: F,
    data_type: DataType,
) -> Result<(PrimitiveArray<O>, Bitmap), Error>
    requires layout { physical_type_of (type_of data_type) ≡ physical.Primitive O.PRIMITIVE }
    requires callable { All (F.pre op) array.now.values }
    ensures array_type { IfOk result (λ made. made.0.arrow_type ≡ type_of data_type) }
    ensures answers { IfOk result (λ made. AllZip (F.post op) array.now.values (zip made.0.values made.1)) }
    ensures count { IfOk result (λ made. length made.0.values ≡ length array.now.values) }
    ensures bits { IfOk result (λ made. length made.1 ≡ length array.now.values) }
    ensures null_rows { IfOk result (λ made. nulls (rows_by (map O.slot) made.0)
        ≡ nulls (rows_by (map I.slot) array.now)) }
    ensures err { IsOkUnless result Error.OutOfMemory }
{
    let stored = array.values().as_slice();
    let (values, bits) = gather_with_bits(alloc, stored.len(), |row| answer_at(&op, stored, row))?;
    Ok((make_of_one(alloc, data_type, values, array)?, bits))
}

/// The same where `op` may answer nothing: such a row is null, and the default lies beneath it.
///
/// # Requires
/// As of [`unary`].
///
/// # Errors
/// `OutOfMemory` where memory is refused.
///
/// Source: arrow2's `arity::unary_checked`.
pub fn unary_checked<I: NativeType, F: Fn(I) -> Option<O>, O: NativeType>(
    alloc: Global,
    array: &PrimitiveArray<I>,
    op: F,
    data_type: DataType,
) -> Result<PrimitiveArray<O>, Error>
    requires layout { physical_type_of (type_of data_type) ≡ physical.Primitive O.PRIMITIVE }
    requires callable { All (F.pre op) array.now.values }
    ensures array_type { IfOk result (λ made. made.arrow_type ≡ type_of data_type) }
    ensures answers { IfOk result (λ made.
        AnswersSome (F.post op) O.zero array.now.values (nulls (rows_by (map I.slot) array.now)) made.values
        (rows_by (map O.slot) made)) }
    ensures err { IsOkUnless result Error.OutOfMemory }
{
    let stored = array.values().as_slice();
    let (values, bits) = gather_with_bits(
        alloc,
        stored.len(),
        |row| parts(answer_at(&op, stored, row)),
    )?;
    let made = make_of_one(alloc, data_type, values, array)?;
    valid_where_set(alloc, made, &bits)
}

/// What `op` answers to the stored values of two arrays row by row, null where one of them is.
///
/// # Requires
/// Arrays of the data type store values of `T` (`DataType::to_physical_type`). The arrays have as many rows. `op` may be
/// called on the stored values of each row, also beneath nulls.
///
/// # Errors
/// `OutOfMemory` where memory is refused.
///
/// Source: arrow2's `arity::binary`.
pub fn binary<T: NativeType, D: NativeType, F: Fn(T, D) -> T>(
    alloc: Global,
    lhs: &PrimitiveArray<T>,
    rhs: &PrimitiveArray<D>,
    data_type: DataType,
    op: F,
) -> Result<PrimitiveArray<T>, Error>
    requires layout { physical_type_of (type_of data_type) ≡ physical.Primitive T.PRIMITIVE }
    requires lengths { length lhs.now.values ≡ length rhs.now.values }
    requires callable { All (λ pair. F.pre op pair.0 pair.1) (zip lhs.now.values rhs.now.values) }
    ensures array_type { IfOk result (λ made. made.arrow_type ≡ type_of data_type) }
    ensures answers { IfOk result (λ made.
        AllZip (to_pair (F.post op)) (zip lhs.now.values rhs.now.values) made.values) }
    ensures null_rows { IfOk result (λ made. nulls (rows_by (map T.slot) made)
        ≡ either_bits (nulls (rows_by (map T.slot) lhs.now)) (nulls (rows_by (map D.slot) rhs.now))) }
    ensures err { IsOkUnless result Error.OutOfMemory }
{
    let left = lhs.values().as_slice();
    let right = rhs.values().as_slice();
    let values = gather(
        alloc,
        left.len(),
        |row: usize| -> T
            requires lengths { length left.now ≡ length right.now }
            requires within { row < length left.now }
            requires callable { All (λ pair. F.pre op pair.0 pair.1) (zip left.now right.now) }
            ensures { answers_at (to_pair (F.post op)) (zip left.entry.now right.entry.now) row result }
        { answer_at_both(&op, left, right, row) },
    )?;
    make_of_two(alloc, data_type, values, lhs, rhs)
}

/// The same where `op` may answer an error: the first one ends it.
///
/// # Requires
/// Arrays of the data type store values of `T` (`DataType::to_physical_type`). `op` may be called on the stored values
/// of each row, also beneath nulls.
///
/// # Errors
/// `Lengths` where the arrays differ in length. Else the first that `op` answers to the stored values of a row, also
/// beneath nulls. `OutOfMemory` where memory is refused.
///
/// Source: arrow2's `arity::try_binary`.
pub fn try_binary<T: NativeType, D: NativeType, F: Fn(T, D) -> Result<T, Error>>(
    alloc: Global,
    lhs: &PrimitiveArray<T>,
    rhs: &PrimitiveArray<D>,
    data_type: DataType,
    op: F,
) -> Result<PrimitiveArray<T>, Error>
    requires layout { physical_type_of (type_of data_type) ≡ physical.Primitive T.PRIMITIVE }
    requires callable { All (λ pair. F.pre op pair.0 pair.1) (zip lhs.now.values rhs.now.values) }
    ensures lengths { length lhs.now.values ≢ length rhs.now.values
        → result ≡ Err (Error.InvalidArgumentError ArgumentFault.Lengths) }
    ensures equal_lengths { OnOk result (length lhs.now.values ≡ length rhs.now.values) }
    ensures array_type { IfOk result (λ made. made.arrow_type ≡ type_of data_type) }
    ensures answers { IfOk result (λ made.
        AllZip (answers_ok (to_pair (F.post op))) (zip lhs.now.values rhs.now.values) made.values) }
    ensures null_rows { IfOk result (λ made. nulls (rows_by (map T.slot) made)
        ≡ either_bits (nulls (rows_by (map T.slot) lhs.now)) (nulls (rows_by (map D.slot) rhs.now))) }
    ensures failed { length lhs.now.values ≡ length rhs.now.values
        → IfErr result (λ error. (error ≡ Error.OutOfMemory)
        ⊎ RefusesFirst (to_pair (F.post op)) (zip lhs.now.values rhs.now.values) error) }
{
    if lhs.len() != rhs.len() {
        return Err(Error::InvalidArgumentError(ArgumentFault::Lengths));
    }
    let left = lhs.values().as_slice();
    let right = rhs.values().as_slice();
    let values = try_gather(
        alloc,
        left.len(),
        |row: usize| -> Result<T, Error>
            requires lengths { length left.now ≡ length right.now }
            requires within { row < length left.now }
            requires callable { All (λ pair. F.pre op pair.0 pair.1) (zip left.now right.now) }
            ensures { answers_at (to_pair (F.post op)) (zip left.entry.now right.entry.now) row result }
        { answer_at_both(&op, left, right, row) },
    )?;
    make_of_two(alloc, data_type, values, lhs, rhs)
}

/// The same where `op` answers a value and a bit: an array of the values, and a bit for each row, null rows too.
///
/// # Requires
/// As of [`binary`].
///
/// # Errors
/// `OutOfMemory` where memory is refused.
///
/// Source: arrow2's `arity::binary_with_bitmap`.
pub fn binary_with_bitmap<T: NativeType, D: NativeType, F: Fn(T, D) -> (T, bool)>(
    alloc: Global,
    lhs: &PrimitiveArray<T>,
    rhs: &PrimitiveArray<D>,
    data_type: DataType,
    op: F,
) -> Result<(PrimitiveArray<T>, Bitmap), Error>
    requires layout { physical_type_of (type_of data_type) ≡ physical.Primitive T.PRIMITIVE }
    requires lengths { length lhs.now.values ≡ length rhs.now.values }
    requires callable { All (λ pair. F.pre op pair.0 pair.1) (zip lhs.now.values rhs.now.values) }
    ensures array_type { IfOk result (λ made. made.0.arrow_type ≡ type_of data_type) }
    ensures answers { IfOk result (λ made.
        AllZip (to_pair (F.post op)) (zip lhs.now.values rhs.now.values) (zip made.0.values made.1)) }
    ensures count { IfOk result (λ made. length made.0.values ≡ length lhs.now.values) }
    ensures bits { IfOk result (λ made. length made.1 ≡ length lhs.now.values) }
    ensures null_rows { IfOk result (λ made. nulls (rows_by (map T.slot) made.0)
        ≡ either_bits (nulls (rows_by (map T.slot) lhs.now)) (nulls (rows_by (map D.slot) rhs.now))) }
    ensures err { IsOkUnless result Error.OutOfMemory }
{
    let left = lhs.values().as_slice();
    let right = rhs.values().as_slice();
    let (values, bits) = gather_with_bits(
        alloc,
        left.len(),
        |row: usize| -> (T, bool)
            requires lengths { length left.now ≡ length right.now }
            requires within { row < length left.now }
            requires callable { All (λ pair. F.pre op pair.0 pair.1) (zip left.now right.now) }
            ensures { answers_at (to_pair (F.post op)) (zip left.entry.now right.entry.now) row result }
        { answer_at_both(&op, left, right, row) },
    )?;
    Ok((make_of_two(alloc, data_type, values, lhs, rhs)?, bits))
}

/// The same where `op` may answer nothing: such a row is null, and the default lies beneath it.
///
/// # Requires
/// As of [`binary`].
///
/// # Errors
/// `OutOfMemory` where memory is refused.
///
/// Source: arrow2's `arity::binary_checked`.
pub fn binary_checked<T: NativeType, D: NativeType, F: Fn(T, D) -> Option<T>>(
    alloc: Global,
    lhs: &PrimitiveArray<T>,
    rhs: &PrimitiveArray<D>,
    data_type: DataType,
    op: F,
) -> Result<PrimitiveArray<T>, Error>
    requires layout { physical_type_of (type_of data_type) ≡ physical.Primitive T.PRIMITIVE }
    requires lengths { length lhs.now.values ≡ length rhs.now.values }
    requires callable { All (λ pair. F.pre op pair.0 pair.1) (zip lhs.now.values rhs.now.values) }
    ensures array_type { IfOk result (λ made. made.arrow_type ≡ type_of data_type) }
    ensures answers { IfOk result (λ made.
        AnswersSome (to_pair (F.post op)) T.zero (zip lhs.now.values rhs.now.values)
        (either_bits (nulls (rows_by (map T.slot) lhs.now))
        (nulls (rows_by (map D.slot) rhs.now))) made.values (rows_by (map T.slot) made)) }
    ensures err { IsOkUnless result Error.OutOfMemory }
{
    let left = lhs.values().as_slice();
    let right = rhs.values().as_slice();
    let (values, bits) = gather_with_bits(
        alloc,
        left.len(),
        |row: usize| -> (T, bool)
            requires lengths { length left.now ≡ length right.now }
            requires within { row < length left.now }
            requires callable { All (λ pair. F.pre op pair.0 pair.1) (zip left.now right.now) }
            ensures { answers_at (answers_parts (to_pair (F.post op)) T.zero)
                (zip left.entry.now right.entry.now) row result }
        { parts(answer_at_both(&op, left, right, row)) },
    )?;
    let made = make_of_two(alloc, data_type, values, lhs, rhs)?;
    valid_where_set(alloc, made, &bits)
}

// What the closure answers to the stored value of a row.
fn answer_at<I: NativeType, R, F: Fn(I) -> R>(op: &F, stored: &[I], row: usize) -> R
    requires within { row < length stored.now }
    requires callable { All (F.pre op.now) stored.now }
    ensures { answers_at (F.post op.now) stored.now row result }
{
    op(stored[row])
}

// What the closure answers to the stored values of a row of two arrays.
fn answer_at_both<T: NativeType, D: NativeType, R, F: Fn(T, D) -> R>(
    op: &F,
    left: &[T],
    right: &[D],
    row: usize,
) -> R
    requires lengths { length left.now ≡ length right.now }
    requires within { row < length left.now }
    requires callable { All (λ pair. F.pre op.now pair.0 pair.1) (zip left.now right.now) }
    ensures { answers_at (to_pair (F.post op.now)) (zip left.now right.now) row result }
{
    op(left[row], right[row])
}

// The value of an answer, the default where there is none, and whether there is one.
fn parts<O: NativeType>(answer: Option<O>) -> (O, bool)
    ensures { result ≡ parts_of O.zero answer }
{
    match answer {
        Some(value) => (value, true),
        None => (O::default(), false),
    }
}

// An array of these values, null where another array is.
fn make_of_one<I: NativeType, O: NativeType>(
    alloc: Global,
    data_type: DataType,
    values: Vec<O>,
    array: &PrimitiveArray<I>,
) -> Result<PrimitiveArray<O>, Error>
    requires layout { physical_type_of (type_of data_type) ≡ physical.Primitive O.PRIMITIVE }
    requires lengths { length values.items ≡ length array.now.values }
    ensures array_type { IfOk result (λ made. made.arrow_type ≡ type_of data_type) }
    ensures values { IfOk result (λ made. made.values ≡ values.items) }
    ensures null_rows { IfOk result (λ made. nulls (rows_by (map O.slot) made)
        ≡ nulls (rows_by (map I.slot) array.now)) }
    ensures err { IsOkUnless result Error.OutOfMemory }
{
    let validity = combine_validities(alloc, array.validity(), None)?;
    make(alloc, data_type, values, validity)
}

// An array of these values, null where one of two others is.
fn make_of_two<T: NativeType, D: NativeType>(
    alloc: Global,
    data_type: DataType,
    values: Vec<T>,
    lhs: &PrimitiveArray<T>,
    rhs: &PrimitiveArray<D>,
) -> Result<PrimitiveArray<T>, Error>
    requires layout { physical_type_of (type_of data_type) ≡ physical.Primitive T.PRIMITIVE }
    requires left { length values.items ≡ length lhs.now.values }
    requires right { length values.items ≡ length rhs.now.values }
    ensures array_type { IfOk result (λ made. made.arrow_type ≡ type_of data_type) }
    ensures values { IfOk result (λ made. made.values ≡ values.items) }
    ensures null_rows { IfOk result (λ made. nulls (rows_by (map T.slot) made)
        ≡ either_bits (nulls (rows_by (map T.slot) lhs.now)) (nulls (rows_by (map D.slot) rhs.now))) }
    ensures err { IsOkUnless result Error.OutOfMemory }
{
    let validity = combine_validities(alloc, lhs.validity(), rhs.validity())?;
    make(alloc, data_type, values, validity)
}

// The same array, null also where a bit is not set.
fn valid_where_set<O: NativeType>(
    alloc: Global,
    array: PrimitiveArray<O>,
    bits: &Bitmap,
) -> Result<PrimitiveArray<O>, Error>
    requires { length bits.now ≡ length array.values }
    ensures array_type { IfOk result (λ made. made.arrow_type ≡ array.arrow_type) }
    ensures values { IfOk result (λ made. made.values ≡ array.values) }
    ensures null_rows { IfOk result (λ made. nulls (rows_by (map O.slot) made)
        ≡ either_bits (nulls (rows_by (map O.slot) array)) (map not bits.now)) }
    ensures err { IsOkUnless result Error.OutOfMemory }
{
    let validity = combine_validities(alloc, array.validity(), Some(bits))?;
    Ok(array.with_validity(validity))
}

// An array of these values. It takes the memory of one shared owner.
fn make<O: NativeType>(
    alloc: Global,
    data_type: DataType,
    values: Vec<O>,
    validity: Option<Bitmap>,
) -> Result<PrimitiveArray<O>, Error>
    requires layout { physical_type_of (type_of data_type) ≡ physical.Primitive O.PRIMITIVE }
    requires fits { FitsRows validity (length values.items) }
    ensures ok { IfOk result (λ made. made
        ≡ record { arrow_type = type_of data_type; values = values.items; validity = validity }) }
    ensures err { IsOkUnless result Error.OutOfMemory }
{
    let values = Buffer::from_vec(alloc, values)?;
    Ok(PrimitiveArray::new(data_type, values, validity))
}
