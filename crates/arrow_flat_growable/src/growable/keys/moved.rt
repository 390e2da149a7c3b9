//! Keys that are moved behind the values of other dictionaries, many at a time.

ghost use Rattle.std.specs.Prelude.{◌≡◌, ◌+◌, ◌-◌, ◌%◌, ◌^◌, ◌≤◌, ◌<◌, ◌+ℤ◌, ◌≤ℤ◌, ◌++◌, ◌==◌, ℕ, pos, length, map, option_copied, unsigned_abs, if◌then◌else◌, IfSome};
ghost use Rattle.std.specs.Int.{bit_at};
ghost use Rattle.std.specs.Vec.{vec_len, vec_capacity};
ghost use Rattle.arrow_types.specs.Rows.{mask, masked, valid_at};
ghost use Rattle.arrow_types.specs.Slot.{Null};
ghost use Rattle.arrow_memory.specs.Sliced.{sliced};
ghost use Rattle.arrow_memory.specs.Words.{low_bits};
ghost use Rattle.arrow_flat.specs.Parts.{FitsRows, rows_by};
ghost use Rattle.arrow_arrays.specs.AnyKeys.{key_rows, key_type_of};
ghost use Rattle.arrow_arrays.specs.KeyedParts.{AreKeys, IsKey};
ghost use Rattle.arrow_flat_growable.specs.Keys.{grown_key, fitting_keys};

use arrow_arrays::array::AnyKeys;
use arrow_flat::array::PrimitiveArray;
use arrow_memory::bitmap::{Bitmap, WORD_BITS};
use arrow_types::types::DictionaryKey;

/// How many rows the half of a word has a bit for.
const HALF_BITS: usize = 32;

/// A key that can be moved, and that keys of any type may be of.
pub(crate) trait MovedKey: DictionaryKey {
    /// Keys of any type as those of this one.
    ///
    /// # Requires
    /// They are of this type.
    fn of_keys(keys: &AnyKeys) -> &PrimitiveArray<Self>
        requires { key_type_of keys.now ≡ Self.KEY_TYPE }
        ensures { rows_by (map Self.slot) result.now ≡ key_rows keys.now };

    /// The key behind so many values more.
    ///
    /// # Requires
    /// Neither number is negative, and their sum is at most the greatest of the type.
    fn moved(self, by: Self) -> Self
        requires not_negative { pos 0 ≤ℤ Self.number self }
        requires onward { pos 0 ≤ℤ Self.number by }
        requires fits { (Self.number self +ℤ Self.number by) ≤ℤ pos Self.greatest }
        ensures { Self.number result ≡ Self.number self +ℤ Self.number by };
}

impl MovedKey for i8 {
    fn of_keys(keys: &AnyKeys) -> &PrimitiveArray<i8> {
        match keys {
            AnyKeys::Int8(keys) => keys,
            _ => unreachable!(),
        }
    }

    fn moved(self, by: i8) -> i8 {
        self + by
    }
}

impl MovedKey for i16 {
    fn of_keys(keys: &AnyKeys) -> &PrimitiveArray<i16> {
        match keys {
            AnyKeys::Int16(keys) => keys,
            _ => unreachable!(),
        }
    }

    fn moved(self, by: i16) -> i16 {
        self + by
    }
}

impl MovedKey for i32 {
    fn of_keys(keys: &AnyKeys) -> &PrimitiveArray<i32> {
        match keys {
            AnyKeys::Int32(keys) => keys,
            _ => unreachable!(),
        }
    }

    fn moved(self, by: i32) -> i32 {
        self + by
    }
}

impl MovedKey for i64 {
    fn of_keys(keys: &AnyKeys) -> &PrimitiveArray<i64> {
        match keys {
            AnyKeys::Int64(keys) => keys,
            _ => unreachable!(),
        }
    }

    fn moved(self, by: i64) -> i64 {
        self + by
    }
}

impl MovedKey for u8 {
    fn of_keys(keys: &AnyKeys) -> &PrimitiveArray<u8> {
        match keys {
            AnyKeys::UInt8(keys) => keys,
            _ => unreachable!(),
        }
    }

    fn moved(self, by: u8) -> u8 {
        self + by
    }
}

impl MovedKey for u16 {
    fn of_keys(keys: &AnyKeys) -> &PrimitiveArray<u16> {
        match keys {
            AnyKeys::UInt16(keys) => keys,
            _ => unreachable!(),
        }
    }

    fn moved(self, by: u16) -> u16 {
        self + by
    }
}

impl MovedKey for u32 {
    fn of_keys(keys: &AnyKeys) -> &PrimitiveArray<u32> {
        match keys {
            AnyKeys::UInt32(keys) => keys,
            _ => unreachable!(),
        }
    }

    fn moved(self, by: u32) -> u32 {
        self + by
    }
}

impl MovedKey for u64 {
    fn of_keys(keys: &AnyKeys) -> &PrimitiveArray<u64> {
        match keys {
            AnyKeys::UInt64(keys) => keys,
            _ => unreachable!(),
        }
    }

    fn moved(self, by: u64) -> u64 {
        self + by
    }
}

// How far keys move, as a key: where `by` values stand before those of a dictionary of so many, and none of its keys
// passes the greatest of the type by that.
pub(super) fn step_of<K: MovedKey>(by: usize, count: usize) -> Option<K>
    ensures step { IfSome result (λ step. K.number step ≡ pos by) }
    ensures fits { IfSome result (λ step. count ≤ fitting_keys K.greatest by) }
{
    let end = by.checked_add(count)?;
    let _ = K::from_usize(end.saturating_sub(1))?;
    K::from_usize(by)
}

// Appends `len` keys from row `start` on, each greater by `by`, and 0 where one is null: as many at a time as the half of a
// word has bits. There is room for them, and none passes the greatest of its type.
pub(super) fn append_moved<K: MovedKey>(
    keys: &mut Vec<K>,
    stored: &[K],
    validity: Option<&Bitmap>,
    start: usize,
    len: usize,
    by: K,
)
    requires fits { FitsRows (option_copied validity) (length stored.now) }
    requires part { start + len ≤ length stored.now }
    requires room { vec_len keys.old + len ≤ vec_capacity keys.old }
    requires onward { pos 0 ≤ℤ K.number by }
    requires within { AreKeys (fitting_keys K.greatest (unsigned_abs (K.number by)))
        (masked (option_copied validity) (map K.slot stored.now)) }
    ensures { map K.slot keys.new.items
        ≡ map K.slot keys.old.items
        ++ map (grown_key (unsigned_abs (K.number by)))
        (sliced (masked (option_copied validity.entry) (map K.slot stored.now)) start len) }
{
    let end = start + len;
    let mut row = start;
    while row < end {
        let count = (HALF_BITS - row % HALF_BITS).min(end - row);
        let half = valid_half(validity, row);
        append_half(keys, &stored[row..row + count], half, by);
        row += count;
    }
}

// Which of the rows from row `row` on are valid, a bit each: as far as their bits are in one half of a word.
fn valid_half(validity: Option<&Bitmap>, row: usize) -> u32
    ensures { (k : ℕ) → row % 32 + k < 32
        → IfSome (option_copied validity.entry) (λ bits. row + k < length bits)
        → (bit_at result k == 1) ≡ valid_at (option_copied validity.entry) (row + k) }
{
    match validity {
        Some(bits) => low_half(bits.word(row / WORD_BITS) >> (row % WORD_BITS)),
        None => u32::MAX,
    }
}

// The low half of a word.
fn low_half(word: u64) -> u32
    ensures { result ≡ word % 2 ^ 32 }
{
    (word % (1 << HALF_BITS)) as u32
}

// Appends keys, each greater by `by`, and 0 where the bit of its row is not set. There is room for them.
fn append_half<K: MovedKey>(keys: &mut Vec<K>, stored: &[K], half: u32, by: K)
    requires in_half { length stored.now ≤ 32 }
    requires room { vec_len keys.old + length stored.now ≤ vec_capacity keys.old }
    requires onward { pos 0 ≤ℤ K.number by }
    requires within { AreKeys (fitting_keys K.greatest (unsigned_abs (K.number by)))
        (mask (low_bits half (length stored.now)) (map K.slot stored.now)) }
    ensures slots { map K.slot keys.new.items
        ≡ map K.slot keys.old.items
        ++ map (grown_key (unsigned_abs (K.number by)))
        (mask (low_bits half (length stored.now)) (map K.slot stored.now)) }
    ensures len { vec_len keys.new ≡ vec_len keys.old + length stored.now }
    ensures capacity { vec_capacity keys.old ≤ vec_capacity keys.new }
{
    let done = keys.len();
    let Ok(()) = keys.extend_from_slice(stored) else {
        unreachable!();
    };
    move_half(keys.slice_mut(done..), half, by);
}

// Makes each key greater by `by`, and 0 where the bit of its row is not set. Of a whole half the count is known when the
// program is compiled, so that several keys are moved at once.
fn move_half<K: MovedKey>(keys: &mut [K], half: u32, by: K)
    requires in_half { length keys.old ≤ 32 }
    requires onward { pos 0 ≤ℤ K.number by }
    requires within { AreKeys (fitting_keys K.greatest (unsigned_abs (K.number by)))
        (mask (low_bits half (length keys.old)) (map K.slot keys.old)) }
    ensures len { length keys.new ≡ length keys.old }
    ensures slots { map K.slot keys.new
        ≡ map (grown_key (unsigned_abs (K.number by)))
        (mask (low_bits half (length keys.old)) (map K.slot keys.old)) }
{
    if keys.len() == HALF_BITS {
        move_each(keys, HALF_BITS, half, by);
    } else {
        let count = keys.len();
        move_each(keys, count, half, by);
    }
}

// The same of so many keys as there are. No branch depends on a key or a bit.
#[inline(always)]
fn move_each<K: MovedKey>(keys: &mut [K], count: usize, half: u32, by: K)
    requires count { count ≡ length keys.old }
    requires in_half { count ≤ 32 }
    requires onward { pos 0 ≤ℤ K.number by }
    requires within { AreKeys (fitting_keys K.greatest (unsigned_abs (K.number by)))
        (mask (low_bits half count) (map K.slot keys.old)) }
    ensures len { length keys.new ≡ length keys.old }
    ensures slots { map K.slot keys.new
        ≡ map (grown_key (unsigned_abs (K.number by))) (mask (low_bits half count) (map K.slot keys.old)) }
{
    for k in 0..count {
        keys[k] = moved_key(keys[k], by, half >> k & 1 == 1);
    }
}

// A key that is greater by `by`, and 0 where it is not valid.
fn moved_key<K: MovedKey>(key: K, by: K, is_valid: bool) -> K
    requires onward { pos 0 ≤ℤ K.number by }
    requires within { IsKey (fitting_keys K.greatest (unsigned_abs (K.number by)))
        (if is_valid then K.slot key else Null) }
    ensures { K.slot result ≡ grown_key (unsigned_abs (K.number by)) (if is_valid then K.slot key else Null) }
{
    if is_valid {
        key.moved(by)
    } else {
        K::default()
    }
}
