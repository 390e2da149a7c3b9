//! Where the rows of an array under construction lie in its children.

ghost use Rattle.std.specs.Prelude.{◌≡◌, ◌+◌, ◌<◌, ◌≤◌, Err, length, IfOk, IfErr, IfSome, OnOk, IsOkUnless, option_copied};
ghost use Rattle.arrow_types.specs.declared.error.Error.{Error};
ghost use Rattle.arrow_memory.specs.Grown.{IsGrowthError};
ghost use Rattle.arrow_memory.specs.Offsets.{IsOffsets, last_of, valid_items, with_valid_rows};
ghost use Rattle.arrow_flat.specs.Parts.{bits_of_slice};
ghost use Rattle.arrow_growable.specs.Form.{null_slots_by};
ghost use Rattle.arrow_growable.specs.GrowableSpans.{IsSoundForm, PassesGreatest, emptied, form_of, form_with, form_with_nulls, grown_arrays};
ghost use Rattle.arrow_growable.specs.Spans.{AreSpans, span_arrays, span_count, span_form, span_offsets};

use crate::growable::spans::Spans;
use arrow_memory::bitmap::Bitmap;
use arrow_memory::offset::{Offsets, OffsetsBuffer};
use arrow_types::error::Error;
use arrow_types::types::{Index, Offset};
use std::alloc::Global;

/// Where the rows of an array under construction lie in its children.
#[derive(Drop)]
pub(crate) enum GrowableSpans {
    /// Those of lists: from an offset to the next one.
    Small(Offsets<i32>),
    /// Those of large lists.
    Large(Offsets<i64>),
    /// Those of maps.
    Map(Offsets<i32>),
    /// Those of fixed-size lists: so many items each.
    FixedSize(usize),
    /// Those of structs: a row of each child.
    Fields,
}

impl GrowableSpans {
    /// Those of no row, as others lie, with room for so many.
    pub(crate) fn new(
        alloc: Global,
        others: &Spans,
        capacity: usize,
    ) -> Result<GrowableSpans, Error>
        ensures ok { IfOk result (λ spans. form_of spans ≡ emptied (span_form others.now)) }
        ensures arrays { IfOk result (λ spans. grown_arrays spans ≡ span_arrays others.now) }
        ensures err { IsOkUnless result Error.OutOfMemory }
    {
        match others {
            Spans::Small(_) => Ok(GrowableSpans::Small(Offsets::with_capacity(alloc, capacity)?)),
            Spans::Large(_) => Ok(GrowableSpans::Large(Offsets::with_capacity(alloc, capacity)?)),
            Spans::Map(_) => Ok(GrowableSpans::Map(Offsets::with_capacity(alloc, capacity)?)),
            Spans::FixedSize(size, _) => Ok(GrowableSpans::FixedSize(*size)),
            Spans::Fields(_) => Ok(GrowableSpans::Fields),
        }
    }

    /// Those of no row, of the same arrays.
    pub(crate) fn fresh(&self, alloc: Global) -> Result<GrowableSpans, Error>
        ensures ok { IfOk result (λ spans. form_of spans ≡ emptied (form_of self.now)) }
        ensures arrays { IfOk result (λ spans. grown_arrays spans ≡ grown_arrays self.now) }
        ensures err { IsOkUnless result Error.OutOfMemory }
    {
        match self {
            GrowableSpans::Small(_) => Ok(GrowableSpans::Small(Offsets::with_capacity(alloc, 0)?)),
            GrowableSpans::Large(_) => Ok(GrowableSpans::Large(Offsets::with_capacity(alloc, 0)?)),
            GrowableSpans::Map(_) => Ok(GrowableSpans::Map(Offsets::with_capacity(alloc, 0)?)),
            GrowableSpans::FixedSize(size) => Ok(GrowableSpans::FixedSize(*size)),
            GrowableSpans::Fields => Ok(GrowableSpans::Fields),
        }
    }

    /// How many null slots a null row has in each child.
    pub(crate) fn null_slots(&self) -> usize
        ensures count { result ≡ null_slots_by (form_of self.now) }
        ensures sound { IsSoundForm (grown_arrays self.now) (form_of self.now) }
    {
        match self {
            GrowableSpans::Small(offsets) => no_slots(offsets),
            GrowableSpans::Large(offsets) => no_slots(offsets),
            GrowableSpans::Map(offsets) => no_slots(offsets),
            GrowableSpans::FixedSize(size) => *size,
            GrowableSpans::Fields => 1,
        }
    }

    /// Appends `len` rows of others that lie so, from row `start` on: those that are null without items, where they
    /// lie by offsets.
    pub(crate) fn extend(
        &mut self,
        others: &Spans,
        validity: Option<&Bitmap>,
        start: usize,
        len: usize,
    ) -> Result<(), Error>
        requires arrays { span_arrays others.now ≡ grown_arrays self.old }
        requires sound { AreSpans others.now }
        requires part { start + len ≤ span_count others.now }
        requires covered { IfSome validity (λ bits. start + len ≤ length bits.now) }
        ensures ok { OnOk result (form_of self.new
            ≡ form_with (form_of self.old) (bits_of_slice (option_copied validity.entry) start len)
            (span_offsets others.now) start) }
        ensures arrays { grown_arrays self.new ≡ grown_arrays self.old }
        ensures form { emptied (form_of self.new) ≡ emptied (form_of self.old) }
        ensures overflow { result ≡ Err Error.Overflow
            → PassesGreatest (grown_arrays self.old) (form_of self.old)
            (bits_of_slice (option_copied validity.entry) start len) (span_offsets others.now) start }
        ensures others { IfErr result IsGrowthError }
    {
        match (self, others) {
            (GrowableSpans::Small(offsets), Spans::Small(others)) => {
                extend(offsets, *others, validity, start, len)
            }
            (GrowableSpans::Large(offsets), Spans::Large(others)) => {
                extend(offsets, *others, validity, start, len)
            }
            (GrowableSpans::Map(offsets), Spans::Map(others)) => {
                extend(offsets, *others, validity, start, len)
            }
            (GrowableSpans::FixedSize(_), Spans::FixedSize(_, _)) => Ok(()),
            (GrowableSpans::Fields, Spans::Fields(_)) => Ok(()),
            _ => unreachable!(),
        }
    }

    /// Appends so many null rows: without items, where they lie by offsets.
    pub(crate) fn extend_nulls(&mut self, additional: usize) -> Result<(), Error>
        ensures ok { OnOk result (form_of self.new ≡ form_with_nulls (form_of self.old) additional) }
        ensures arrays { grown_arrays self.new ≡ grown_arrays self.old }
        ensures form { emptied (form_of self.new) ≡ emptied (form_of self.old) }
        ensures err { IsOkUnless result Error.OutOfMemory }
    {
        match self {
            GrowableSpans::Small(offsets) => offsets.extend_constant(additional),
            GrowableSpans::Large(offsets) => offsets.extend_constant(additional),
            GrowableSpans::Map(offsets) => offsets.extend_constant(additional),
            GrowableSpans::FixedSize(_) | GrowableSpans::Fields => Ok(()),
        }
    }
}

// A row by offsets has none where it is null.
fn no_slots<O: Offset>(offsets: &Offsets<O>) -> usize
    ensures none { result ≡ 0 }
    ensures sound { IsOffsets offsets.now }
    ensures fits { last_of offsets.now ≤ O.greatest }
{
    // Offsets rise, and the last is at most the greatest.
    let _ = offsets.len();
    let _ = offsets.last().to_usize();
    0
}

// Appends `len` rows of others from row `start` on: those that are null without items.
fn extend<O: Offset>(
    offsets: &mut Offsets<O>,
    others: &OffsetsBuffer<O>,
    validity: Option<&Bitmap>,
    start: usize,
    len: usize,
) -> Result<(), Error>
    requires part { start + len < length others.now }
    requires covered { IfSome validity (λ bits. start + len ≤ length bits.now) }
    ensures ok { OnOk result (offsets.new
        ≡ with_valid_rows offsets.old
        (bits_of_slice (option_copied validity.entry) start len) others.now start) }
    ensures overflow { result ≡ Err Error.Overflow
        → O.greatest < last_of offsets.old + valid_items
        (bits_of_slice (option_copied validity.entry) start len) others.now start }
    ensures others { IfErr result IsGrowthError }
{
    // Offsets rise.
    let _ = others.len();
    match validity {
        None => offsets.try_extend_from_slice(others, start, len),
        Some(validity) => offsets.try_extend_from_valid(others, validity, start, len),
    }
}
