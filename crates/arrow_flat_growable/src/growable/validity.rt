//! The validity of an array under construction.

ghost use Rattle.std.specs.Prelude.{◌≡◌, ◌+◌, ◌≤◌, ◌^◌, [], ◌++◌, length, replicate, true, false, Err, Some, IfOk, IfErr, IfSome, IsSomeAnd, option_map, OnOk, OnErr, IsOkUnless, option_copied};
ghost use Rattle.arrow_types.specs.declared.error.Error.{Error};
ghost use Rattle.arrow_memory.specs.Sliced.{sliced};
ghost use Rattle.arrow_memory.specs.Grown.{IsGrowthError};
ghost use Rattle.arrow_flat.specs.Parts.{bits_of_slice};
ghost use Rattle.arrow_flat_growable.specs.Validity.{AppendsValidity, AreSameBits, IsValidityOf, bits_by};

use arrow_memory::bitmap::{Bitmap, Mask, MutableBitmap, WORD_BITS};
use arrow_types::error::Error;
use std::alloc::Global;
use std::marker::Model;

/// A bit for each row, set where the row is valid. No bitmap is kept until one is asked for or some row
/// may be null.
#[derive(Drop)]
pub struct GrowableValidity {
    alloc: Global,
    bits: Option<MutableBitmap>,
    len: usize,
}

impl Model for GrowableValidity {
    ghost use Rattle.std.specs.Prelude.{◌≡◌, Bool, List, length, IfSome};
    ghost use Rattle.arrow_flat_growable.specs.Validity.{bits_by};

    ghost Value = { List Bool };

    ghost view = { λ a. bits_by a.bits a.len };

    ghost invariant = { λ a. IfSome a.bits (λ bits. length bits ≡ a.len) };
}

impl GrowableValidity {
    /// No bits. With `is_kept` a bitmap is there from the first row on, with room for `capacity` bits.
    ///
    /// # Errors
    /// `OutOfMemory` where memory is refused, as for a capacity that is too great.
    pub fn new(alloc: Global, is_kept: bool, capacity: usize) -> Result<GrowableValidity, Error>
        ensures ok { IfOk result (λ validity. validity ≡ []) }
        ensures err { IsOkUnless result Error.OutOfMemory }
    {
        let bits = if is_kept {
            Some(MutableBitmap::with_capacity(alloc, capacity)?)
        } else {
            None
        };
        Ok(GrowableValidity {
            alloc,
            bits,
            len: 0,
        })
    }

    /// The allocator of its bits.
    pub fn allocator(&self) -> Global {
        self.alloc
    }

    /// Appends the bits of `len` rows of an array from row `start` on, a word at a time: all set where it
    /// has no validity.
    ///
    /// # Requires
    /// A validity has a bit for each of these rows.
    ///
    /// # Errors
    /// `Overflow` where there are to be more than 2^64 - 1 bits, `OutOfMemory` where memory is refused.
    #[inline(always)]
    pub fn extend_from(
        &mut self,
        validity: Option<&Bitmap>,
        start: usize,
        len: usize,
    ) -> Result<(), Error>
        requires { IfSome validity (λ bits. start + len ≤ length bits.now) }
        ensures ok { OnOk result (self.new
            ≡ self.old ++ bits_of_slice (option_copied validity.entry) start len) }
        ensures overflow { result ≡ Err Error.Overflow → 2 ^ 64 ≤ length self.old + len }
        ensures others { IfErr result IsGrowthError }
    {
        let Some(total) = self.len.checked_add(len) else {
            return Err(Error::Overflow);
        };
        append(self.alloc, &mut self.bits, self.len, validity, start, len)?;
        self.len = total;
        Ok(())
    }

    /// Appends the bits of a mask.
    ///
    /// # Errors
    /// As of [`GrowableValidity::extend_from`].
    #[inline(always)]
    pub fn extend_from_mask(&mut self, mask: &Mask) -> Result<(), Error>
        ensures ok { OnOk result (self.new ≡ self.old ++ mask.now) }
        ensures overflow { result ≡ Err Error.Overflow → 2 ^ 64 ≤ length self.old + length mask.now }
        ensures others { IfErr result IsGrowthError }
    {
        let Some(total) = self.len.checked_add(mask.len()) else {
            return Err(Error::Overflow);
        };
        append_mask(self.alloc, &mut self.bits, self.len, mask)?;
        self.len = total;
        Ok(())
    }

    /// Appends so many bits that are not set.
    ///
    /// # Errors
    /// As of [`GrowableValidity::extend_from`].
    pub fn extend_nulls(&mut self, count: usize) -> Result<(), Error>
        ensures ok { OnOk result (self.new ≡ self.old ++ replicate count false) }
        ensures overflow { result ≡ Err Error.Overflow → 2 ^ 64 ≤ length self.old + count }
        ensures others { IfErr result IsGrowthError }
    {
        let Some(total) = self.len.checked_add(count) else {
            return Err(Error::Overflow);
        };
        append_nulls(self.alloc, &mut self.bits, self.len, count)?;
        self.len = total;
        Ok(())
    }

    /// No bits, kept from the first row on where these are.
    ///
    /// # Errors
    /// `OutOfMemory` where memory is refused.
    pub fn fresh(&self) -> Result<GrowableValidity, Error>
        ensures ok { IfOk result (λ validity. validity ≡ []) }
        ensures err { IsOkUnless result Error.OutOfMemory }
    {
        GrowableValidity::new(self.alloc, self.bits.is_some(), 0)
    }

    /// The validity of an array of these rows: none where every bit is set.
    ///
    /// # Errors
    /// `OutOfMemory` where memory is refused.
    pub fn into_validity(self) -> Result<Option<Bitmap>, Error>
        ensures ok { IfOk result (λ validity. IsValidityOf self validity) }
        ensures err { IsOkUnless result Error.OutOfMemory }
    {
        let Some(bits) = self.bits else {
            return Ok(None);
        };
        let bits = bits.into_bitmap()?;
        if bits.unset_bits() == 0 {
            return Ok(None);
        }
        Ok(Some(bits))
    }
}

// Appends the bits of a part of an array to those of so many rows.
#[inline(always)]
fn append(
    alloc: Global,
    bits: &mut Option<MutableBitmap>,
    rows: usize,
    validity: Option<&Bitmap>,
    start: usize,
    len: usize,
) -> Result<(), Error>
    requires within { IfSome validity (λ part. start + len ≤ length part.now) }
    requires counted { IfSome bits.old (λ bits. length bits ≡ rows) }
    ensures ok { OnOk result (AppendsValidity bits.old bits.new rows
        (bits_of_slice (option_copied validity.entry) start len)) }
    ensures overflow { result ≡ Err Error.Overflow → 2 ^ 64 ≤ rows + len }
    ensures others { IfErr result IsGrowthError }
    ensures unchanged { OnErr result (AreSameBits bits.old bits.new rows) }
{
    match validity {
        None => append_set(bits, len),
        Some(validity) => append_part(alloc, bits, rows, validity, start, len),
    }
}

// Appends so many bits that are set, where bits are kept.
#[inline(always)]
fn append_set(bits: &mut Option<MutableBitmap>, len: usize) -> Result<(), Error>
    ensures ok { OnOk result (bits.new ≡ option_map (λ bits. bits ++ replicate len true) bits.old) }
    ensures overflow { result ≡ Err Error.Overflow → IsSomeAnd bits.old (λ bits. 2 ^ 64 ≤ length bits + len) }
    ensures others { IfErr result IsGrowthError }
    ensures unchanged { OnErr result (bits.new ≡ bits.old) }
{
    match bits {
        None => Ok(()),
        Some(bits) => bits.extend_constant(len, true),
    }
}

// Appends a part of a bitmap to the bits of so many rows.
#[inline(never)]
fn append_part(
    alloc: Global,
    bits: &mut Option<MutableBitmap>,
    rows: usize,
    validity: &Bitmap,
    start: usize,
    len: usize,
) -> Result<(), Error>
    requires within { start + len ≤ length validity.now }
    requires counted { IfSome bits.old (λ bits. length bits ≡ rows) }
    ensures ok { OnOk result (AppendsValidity bits.old bits.new rows (sliced validity.now start len)) }
    ensures overflow { result ≡ Err Error.Overflow → 2 ^ 64 ≤ rows + len }
    ensures others { IfErr result IsGrowthError }
    ensures unchanged { OnErr result (AreSameBits bits.old bits.new rows) }
{
    match bits {
        None => keep_part(alloc, bits, rows, validity, start, len),
        Some(bits) => bits.extend_from_bitmap(validity, start, len),
    }
}

// The same where no bits may be kept so far.
#[inline(never)]
fn keep_part(
    alloc: Global,
    bits: &mut Option<MutableBitmap>,
    rows: usize,
    validity: &Bitmap,
    start: usize,
    len: usize,
) -> Result<(), Error>
    requires within { start + len ≤ length validity.now }
    requires counted { IfSome bits.old (λ bits. length bits ≡ rows) }
    ensures ok { OnOk result (AppendsValidity bits.old bits.new rows (sliced validity.now start len)) }
    ensures overflow { result ≡ Err Error.Overflow → 2 ^ 64 ≤ rows + len }
    ensures others { IfErr result IsGrowthError }
    ensures unchanged { OnErr result (AreSameBits bits.old bits.new rows) }
{
    keep(alloc, bits, rows)?;
    match bits {
        None => unreachable!(),
        Some(bits) => bits.extend_from_bitmap(validity, start, len),
    }
}

// Appends the bits of a mask to those of so many rows.
fn append_mask(
    alloc: Global,
    bits: &mut Option<MutableBitmap>,
    rows: usize,
    mask: &Mask,
) -> Result<(), Error>
    requires { IfSome bits.old (λ bits. length bits ≡ rows) }
    ensures ok { OnOk result (AppendsValidity bits.old bits.new rows mask.now) }
    ensures overflow { result ≡ Err Error.Overflow → 2 ^ 64 ≤ rows + length mask.now }
    ensures others { IfErr result IsGrowthError }
    ensures unchanged { OnErr result (AreSameBits bits.old bits.new rows) }
{
    keep(alloc, bits, rows)?;
    match bits {
        None => unreachable!(),
        Some(bits) => push_mask(alloc, bits, mask),
    }
}

// Appends the bits of a mask, those of a word as a word.
fn push_mask(alloc: Global, bits: &mut MutableBitmap, mask: &Mask) -> Result<(), Error>
    ensures ok { OnOk result (bits.new ≡ bits.old ++ mask.now) }
    ensures overflow { result ≡ Err Error.Overflow → 2 ^ 64 ≤ length bits.old + length mask.now }
    ensures others { IfErr result IsGrowthError }
    ensures unchanged { OnErr result (bits.new ≡ bits.old) }
{
    let len = mask.len();
    if len <= WORD_BITS {
        return bits.push_word(mask.word(), len);
    }
    let more = mask.to_bitmap(alloc)?;
    bits.extend_from_bitmap(&more, 0, len)
}

// Appends so many bits that are not set to those of so many rows.
fn append_nulls(
    alloc: Global,
    bits: &mut Option<MutableBitmap>,
    rows: usize,
    additional: usize,
) -> Result<(), Error>
    requires { IfSome bits.old (λ bits. length bits ≡ rows) }
    ensures ok { OnOk result (AppendsValidity bits.old bits.new rows (replicate additional false)) }
    ensures overflow { result ≡ Err Error.Overflow → 2 ^ 64 ≤ rows + additional }
    ensures others { IfErr result IsGrowthError }
    ensures unchanged { OnErr result (AreSameBits bits.old bits.new rows) }
{
    keep(alloc, bits, rows)?;
    match bits {
        None => unreachable!(),
        Some(bits) => bits.extend_constant(additional, false),
    }
}

// Keeps a bitmap from now on: so many bits are set so far, where there was none.
fn keep(alloc: Global, bits: &mut Option<MutableBitmap>, len: usize) -> Result<(), Error>
    ensures ok { OnOk result (bits.new ≡ Some (bits_by bits.old len)) }
    ensures err { IsOkUnless result Error.OutOfMemory }
    ensures unchanged { OnErr result (bits.new ≡ bits.old) }
{
    if bits.is_none() {
        let mut set = MutableBitmap::new(alloc);
        set.extend_constant(len, true)?;
        *bits = Some(set);
    }
    Ok(())
}
