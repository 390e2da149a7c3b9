//! Values that grow by parts of others.

ghost use Rattle.std.specs.Prelude.{◌≡◌, ◌+◌, ◌<◌, ◌≤◌, ◌^◌, ◌++◌, [], length, replicate, slice_index_or, take, All, IfOk, IsOkUnless, OnErr, OnOk};
ghost use Rattle.arrow_types.specs.declared.error.Error.{Error};
ghost use Rattle.arrow_memory.specs.Sliced.{sliced};
ghost use Rattle.arrow_flat_growable.specs.GrownParts.{LiesIn, part_values, with_parts};

use arrow_memory::buffer::Buffer;
use arrow_types::error::Error;
use arrow_types::types::NativeType;
use std::alloc::Global;
use std::marker::Model;

/// How many parts wait to be copied, at most.
const PARTS: usize = 64;

/// Values that grow by parts of others, their sources. Parts wait until there are some, and are then copied one behind the
/// other: a processor reads many of them at once, where it waits for few at a time between calls.
#[derive(Drop)]
pub struct GrowableParts<T> {
    pub(super) sources: Vec<Buffer<T>>,
    pub(super) values: Vec<T>,
    pub(super) parts: Vec<Part<T>>,
}

/// Values of a source, or one value so many times.
#[derive(Clone, Copy)]
pub(crate) enum Part<T> {
    /// So many of the source with a number, from a place on.
    Of(usize, usize, usize),
    Repeated(T, usize),
}

impl<T> Model for GrowableParts<T> {
    ghost use Rattle.std.specs.Prelude.{List};
    ghost use Rattle.std.specs.Coded.{coded_list, coded×};
    ghost use Rattle.std.specs.List.{All};
    ghost use Rattle.arrow_flat_growable.specs.GrownParts.{LiesIn, with_parts};

    // the sources, and the values
    ghost Value = { List (List T) × List T };

    ghost coded = { coded× (coded_list (coded_list T.code)) (coded_list T.code) };

    ghost view = { λ a. (a.sources.items, with_parts a.sources.items a.values.items a.parts.items) };

    ghost invariant = { λ a. All (LiesIn a.sources.items) a.parts.items };
}

impl<T: NativeType> GrowableParts<T> {
    /// No values, and room for so many, that grow by parts of these sources.
    ///
    /// # Errors
    /// `OutOfMemory` where memory is refused, as for a capacity that is too great.
    pub fn with_capacity(
        alloc: Global,
        sources: Vec<Buffer<T>>,
        capacity: usize,
    ) -> Result<GrowableParts<T>, Error>
        ensures ok { IfOk result (λ values. values ≡ (sources.items, [])) }
        ensures err { IsOkUnless result Error.OutOfMemory }
    {
        Ok(GrowableParts {
            sources,
            values: Vec::with_capacity(alloc, capacity)?,
            parts: Vec::new(alloc),
        })
    }

    /// No values, that grow by parts of the same sources.
    ///
    /// # Errors
    /// `OutOfMemory` where memory is refused.
    pub fn without_values(&self) -> Result<GrowableParts<T>, Error>
        ensures ok { IfOk result (λ values. values ≡ (self.now.0, [])) }
        ensures err { IsOkUnless result Error.OutOfMemory }
    {
        let alloc = self.allocator();
        GrowableParts::with_capacity(alloc, self.sources.clone()?, 0)
    }

    /// The allocator of its values.
    pub fn allocator(&self) -> Global {
        *self.values.allocator()
    }

    /// Appends `len` values of a source, from place `start` on.
    ///
    /// # Requires
    /// There is such a source, and `start + len` is at most the count of its values.
    ///
    /// # Errors
    /// `OutOfMemory` where memory is refused.
    #[inline(always)]
    pub fn append_part(&mut self, source: usize, start: usize, len: usize) -> Result<(), Error>
        requires there { source < length self.old.0 }
        requires part { start + len ≤ length (slice_index_or self.old.0 source []) }
        ensures same { self.new.0 ≡ self.old.0 }
        ensures ok { OnOk result (self.new.1
            ≡ self.old.1 ++ sliced (slice_index_or self.old.0 source []) start len) }
        ensures err { IsOkUnless result Error.OutOfMemory }
    {
        self.push(Part::Of(source, start, len))
    }

    /// Appends so many zeros.
    ///
    /// # Errors
    /// `OutOfMemory` where memory is refused.
    pub fn append_zeros(&mut self, count: usize) -> Result<(), Error>
        ensures same { self.new.0 ≡ self.old.0 }
        ensures ok { OnOk result (self.new.1 ≡ self.old.1 ++ replicate count T.zero) }
        ensures err { IsOkUnless result Error.OutOfMemory }
    {
        self.push(Part::Repeated(T::default(), count))
    }

    /// All of them.
    ///
    /// # Errors
    /// `OutOfMemory` where memory is refused.
    pub fn into_vec(self) -> Result<Vec<T>, Error>
        ensures ok { IfOk result (λ values. values.items ≡ self.1) }
        ensures err { IsOkUnless result Error.OutOfMemory }
    {
        let GrowableParts {
            sources,
            values,
            parts,
        } = self;
        let mut values = values;
        copy_parts(&mut values, sources.as_slice(), parts.as_slice())?;
        Ok(values)
    }

    // Appends a part, once those that wait are copied where there are many.
    #[inline(always)]
    fn push(&mut self, part: Part<T>) -> Result<(), Error>
        requires { LiesIn self.old.0 part }
        ensures same { self.new.0 ≡ self.old.0 }
        ensures ok { OnOk result (self.new.1 ≡ self.old.1 ++ part_values self.old.0 part) }
        ensures err { IsOkUnless result Error.OutOfMemory }
    {
        self.copy_many()?;
        self.parts.push(part)?;
        Ok(())
    }

    // Copies the parts that wait, where there are many. Where that is refused, all is as before.
    #[inline(always)]
    pub(super) fn copy_many(&mut self) -> Result<(), Error>
        ensures same { self.new ≡ self.old }
        ensures err { IsOkUnless result Error.OutOfMemory }
    {
        if self.parts.len() < PARTS {
            return Ok(());
        }
        self.copy()
    }

    // Copies the parts that wait. Where that is refused, all is as before.
    #[inline(never)]
    fn copy(&mut self) -> Result<(), Error>
        ensures same { self.new ≡ self.old }
        ensures err { IsOkUnless result Error.OutOfMemory }
    {
        copy_all(&mut self.values, self.sources.as_slice(), &mut self.parts)
    }
}

// Copies all parts. Where that is refused, all is as before.
pub(super) fn copy_all<T: NativeType>(
    values: &mut Vec<T>,
    sources: &[Buffer<T>],
    parts: &mut Vec<Part<T>>,
) -> Result<(), Error>
    requires { All (LiesIn sources.now) parts.old.items }
    ensures ok { OnOk result ((values.new.items
        ≡ with_parts sources.now values.old.items parts.old.items)
        × (parts.new.items ≡ [])) }
    ensures unchanged { OnErr result ((values.new.items ≡ values.old.items)
        × (parts.new.items ≡ parts.old.items)) }
    ensures err { IsOkUnless result Error.OutOfMemory }
{
    let done = values.len();
    let copied = copy_parts(values, sources, parts.as_slice());
    if copied.is_err() {
        values.truncate(done);
        return copied;
    }
    parts.clear();
    Ok(())
}

// Appends parts, one behind the other. Where that is refused, some may be there.
fn copy_parts<T: NativeType>(
    values: &mut Vec<T>,
    sources: &[Buffer<T>],
    parts: &[Part<T>],
) -> Result<(), Error>
    requires { All (LiesIn sources.now) parts.now }
    ensures ok { OnOk result (values.new.items
        ≡ with_parts sources.now values.old.items parts.now) }
    ensures before { take (length values.old.items) values.new.items ≡ values.old.items }
    ensures err { IsOkUnless result Error.OutOfMemory }
{
    for part in parts {
        copy_part(values, sources, *part)?;
    }
    Ok(())
}

// Appends a part.
#[inline(always)]
fn copy_part<T: NativeType>(
    values: &mut Vec<T>,
    sources: &[Buffer<T>],
    part: Part<T>,
) -> Result<(), Error>
    requires { LiesIn sources.now part }
    ensures ok { OnOk result (values.new.items
        ≡ values.old.items ++ part_values sources.now part) }
    ensures unchanged { OnErr result (values.new.items ≡ values.old.items) }
    ensures err { IsOkUnless result Error.OutOfMemory }
{
    match part {
        Part::Of(source, start, len) => {
            append_part(values, sources[source].as_slice(), start, len)
        }
        Part::Repeated(value, count) => append_repeated(values, value, count),
    }
}

// Appends `len` of some values, from place `start` on.
#[inline(always)]
pub(super) fn append_part<T: Copy>(
    values: &mut Vec<T>,
    from: &[T],
    start: usize,
    len: usize,
) -> Result<(), Error>
    requires { start + len ≤ length from.now }
    ensures ok { OnOk result (values.new.items ≡ values.old.items ++ sliced from.now start len) }
    ensures counted { OnOk result (length values.new.items < 2 ^ 64) }
    ensures err { IsOkUnless result Error.OutOfMemory }
    ensures unchanged { OnErr result (values.new.items ≡ values.old.items) }
{
    // one value is a store, and no call that copies
    if len == 1 {
        values.push(from[start])?;
    } else {
        values.extend_from_slice(&from[start..start + len])?;
    }
    Ok(())
}

// Appends a value so many times.
fn append_repeated<T: NativeType>(values: &mut Vec<T>, value: T, count: usize) -> Result<(), Error>
    ensures ok { OnOk result (values.new.items ≡ values.old.items ++ replicate count value) }
    ensures unchanged { OnErr result (values.new.items ≡ values.old.items) }
    ensures err { IsOkUnless result Error.OutOfMemory }
{
    // No memory holds more than can be counted.
    let Some(total) = values.len().checked_add(count) else {
        return Err(Error::OutOfMemory);
    };
    values.resize(total, value)?;
    Ok(())
}
