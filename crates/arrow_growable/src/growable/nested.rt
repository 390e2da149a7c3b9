//! Arrays with children under construction.

ghost use Rattle.std.specs.Prelude.{◌≡◌, ◌<◌, Err, Some, length, map, IfErr, IfOk, IsOkUnless};
ghost use Rattle.arrow_types.specs.declared.error.Error.{Error};
ghost use Rattle.arrow_memory.specs.Grown.{IsGrowthError};
ghost use Rattle.arrow_flat_growable.specs.Grown.{AreOfOneType, bound_to, first_type};
ghost use Rattle.arrow_growable.specs.AnyGrowable.{grown_of};
ghost use Rattle.arrow_growable.specs.Bound.{bound_layouts};
ghost use Rattle.arrow_growable.specs.Form.{child_types};
ghost use Rattle.arrow_growable.specs.GrowableSpans.{IsFresh};
ghost use Rattle.arrow_growable.specs.Made.{Makes};
ghost use Rattle.arrow_growable.specs.Nested.{SomeUnjoined, fresh_children};

use crate::growable::any::AnyGrowable;
use crate::growable::bound::BoundNested;
use crate::growable::children::{box_children, extend_all_nulls, extend_children};
use crate::growable::finish::finish;
use crate::growable::grown_spans::GrowableSpans;
use crate::growable::spans::Spans;
use crate::growable::{Growable, GrowableValidity, make_growable};
use arrow_arrays::array::AnyArray;
use arrow_memory::bitmap::Bitmap;
use arrow_types::datatypes::DataType;
use arrow_types::error::Error;
use std::alloc::Global;
use std::marker::Model;
use std::mem;

/// An array with children under construction, whichever kind its arrays are: lists, under offsets of either
/// width or of a fixed size, maps, or structs.
#[cycle(growables)]
pub struct GrowableNested<'a> {
    alloc: Global,
    arrays: BoundNested<'a>,
    data_type: DataType,
    spans: GrowableSpans,
    children: Vec<AnyGrowable<'a>>,
    validity: GrowableValidity,
    len: usize,
    has_failed: bool,
}

// by hand, so that a drop is a call, and is not written out wherever a value is dropped
impl Drop for GrowableNested<'_> {
    #[cycle(growables)]
    fn drop(self) {
        let GrowableNested {
            alloc: _,
            arrays: _,
            data_type: _,
            spans: _,
            children: _,
            validity: _,
            len: _,
            has_failed: _,
        } = self;
    }
}

impl<'a> Model for GrowableNested<'a> {
    ghost use Rattle.std.specs.Prelude.{Some, map};
    ghost use Rattle.arrow_types.specs.TypeOf.{type_of};
    ghost use Rattle.arrow_arrays.specs.TypeDepth.{type_depth};
    ghost use Rattle.arrow_flat_growable.specs.Grown.{Grown, grown_code};
    ghost use Rattle.arrow_growable.specs.Bound.{bound_layouts};
    ghost use Rattle.arrow_growable.specs.Form.{nested_rows};
    ghost use Rattle.arrow_growable.specs.GrowableSpans.{form_of, grown_arrays};
    ghost use Rattle.arrow_growable.specs.Nested.{IsGrownNested};

    ghost Value = { Grown };

    ghost coded = { grown_code };

    ghost use Rattle.arrow_growable.specs.AnyGrowable.{grown_of};

    ghost view = { λ a. record {
      arrow_type = type_of a.data_type;
      sources = Some (bound_layouts a.arrays);
      rows = nested_rows (form_of a.spans) a.validity (map (λ g. g.rows) (map grown_of a.children.items));
      count = a.len;
      failed = a.has_failed;
    } };

    ghost invariant = { λ a. IsGrownNested (grown_arrays a.spans) (form_of a.spans)
        (map grown_of a.children.items) a.validity a.len (bound_layouts a.arrays) (type_of a.data_type)
        a.has_failed };

    ghost size = { λ g. type_depth g.arrow_type };

    ghost use Rattle.arrow_growable.specs.Falls.{children_fall};

    ghost size_decreases = { λ a h. children_fall a.children.items (type_of a.data_type) h.types };
}

impl<'a> GrowableNested<'a> {
    /// A growable without rows, to which rows of these arrays, of one data type, can be appended, with
    /// room for `capacity` rows. With `use_validity` it keeps a validity from the first row on, and else
    /// once a row may be null; no row depends on that.
    ///
    /// # Requires
    /// There is an array at least, and all are of one data type.
    ///
    /// # Errors
    /// `Overflow` only where dictionaries in the arrays can't be joined, and never of one array alone;
    /// `OutOfMemory` where memory is refused, as for a capacity that is too great.
    #[cycle(make)]
    pub(crate) fn new(
        alloc: Global,
        arrays: BoundNested<'a>,
        use_validity: bool,
        capacity: usize,
    ) -> Result<GrowableNested<'a>, Error>
        requires some { 0 < length (bound_layouts arrays) }
        requires one_type { AreOfOneType (bound_layouts arrays) }
        ensures { Makes (λ growable. growable) (bound_layouts arrays.entry) result }
    {
        let spans = arrays.grown_spans(alloc, capacity)?;
        let room = capacity.saturating_mul(spans.null_slots());
        let children = make_children(alloc, &arrays, use_validity, room)?;
        GrowableNested::over(alloc, arrays, spans, children, use_validity, capacity)
    }

    /// A growable without rows, to which rows of these arrays, of one data type, can be appended, with
    /// growables without rows over their children.
    ///
    /// # Errors
    /// `OutOfMemory` where memory is refused.
    fn over(
        alloc: Global,
        arrays: BoundNested<'a>,
        spans: GrowableSpans,
        children: Vec<AnyGrowable<'a>>,
        use_validity: bool,
        capacity: usize,
    ) -> Result<GrowableNested<'a>, Error>
        requires some { 0 < length (bound_layouts arrays) }
        requires one_type { AreOfOneType (bound_layouts arrays) }
        requires fresh { IsFresh spans (bound_layouts arrays) }
        requires children { map grown_of children.items ≡ fresh_children (bound_layouts arrays) }
        requires types { map (λ g. g.arrow_type) (map grown_of children.items)
            ≡ child_types (first_type (bound_layouts arrays)) }
        ensures ok { IfOk result (λ growable. growable ≡ bound_to (bound_layouts arrays.entry)) }
        ensures err { IsOkUnless result Error.OutOfMemory }
    {
        let data_type = arrays.data_type().clone()?;
        let validity = GrowableValidity::new(alloc, use_validity, capacity)?;
        Ok(GrowableNested {
            alloc,
            arrays,
            data_type,
            spans,
            children,
            validity,
            len: 0,
            has_failed: false,
        })
    }
}

// Growables without rows over each child of arrays, with room for so many rows.
#[cycle(make)]
fn make_children<'a>(
    alloc: Global,
    arrays: &BoundNested<'a>,
    use_validity: bool,
    capacity: usize,
) -> Result<Vec<AnyGrowable<'a>>, Error>
    requires some { 0 < length (bound_layouts arrays.now) }
    requires one_type { AreOfOneType (bound_layouts arrays.now) }
    ensures ok { IfOk result (λ children. map grown_of children.items
        ≡ fresh_children (bound_layouts arrays.now)) }
    ensures types { IfOk result (λ children. map (λ g. g.arrow_type) (map grown_of children.items)
        ≡ child_types (first_type (bound_layouts arrays.now))) }
    ensures overflow { result ≡ Err Error.Overflow → SomeUnjoined (bound_layouts arrays.now) }
    ensures alone { length (bound_layouts arrays.now) ≡ 1 → IsOkUnless result Error.OutOfMemory }
    ensures others { IfErr result IsGrowthError }
{
    let width = arrays.width();
    let mut children: Vec<AnyGrowable<'a>> = Vec::with_capacity(alloc, width)?;
    for f in 0..width {
        let column = arrays.column(alloc, f)?;
        children.push(make_growable(alloc, &column, use_validity, capacity)?)?;
    }
    Ok(children)
}

impl<'a> Growable<'a> for GrowableNested<'a> {
    ghost state = { λ g. g };

    #[cycle(extend)]
    #[inline(never)]
    fn extend(&mut self, index: usize, start: usize, len: usize) -> Result<(), Error> {
        if self.has_failed {
            return Err(Error::Failed);
        }
        let rows: Spans<'a> = self.arrays.spans(index);
        let validity: Option<&'a Bitmap> = self.arrays.validity(index);
        self.has_failed = true;
        let Some(total) = self.len.checked_add(len) else {
            return Err(Error::Overflow);
        };
        // Offsets, where rows lie by them, rise, and the last is at most the greatest: before and behind what
        // is appended.
        let _old = self.spans.null_slots();
        self.validity.extend_from(validity, start, len)?;
        self.spans.extend(&rows, validity, start, len)?;
        extend_children(
            self.alloc,
            &mut self.children,
            &rows,
            validity,
            index,
            start,
            len,
        )?;
        let _new = self.spans.null_slots();
        self.len = total;
        self.has_failed = false;
        Ok(())
    }

    #[cycle(extend_validity)]
    fn extend_validity(&mut self, additional: usize) -> Result<(), Error> {
        if self.has_failed {
            return Err(Error::Failed);
        }
        self.has_failed = true;
        let Some(total) = self.len.checked_add(additional) else {
            return Err(Error::Overflow);
        };
        // Offsets, where rows lie by them, rise, and the last is at most the greatest: before and behind what
        // is appended.
        let Some(slots) = additional.checked_mul(self.spans.null_slots()) else {
            return Err(Error::Overflow);
        };
        self.validity.extend_nulls(additional)?;
        self.spans.extend_nulls(additional)?;
        extend_all_nulls(&mut self.children, slots)?;
        let _new = self.spans.null_slots();
        self.len = total;
        self.has_failed = false;
        Ok(())
    }

    fn len(&self) -> usize {
        self.len
    }

    #[cycle(as_box)]
    fn as_box(&mut self) -> Result<AnyArray, Error> {
        if self.has_failed {
            return Err(Error::Failed);
        }
        self.has_failed = true;
        let data_type = self.data_type.clone()?;
        let spans = self.spans.fresh(self.alloc)?;
        let validity = self.validity.fresh()?;
        let values = box_children(self.alloc, &mut self.children)?;
        let spans = mem::replace(&mut self.spans, spans);
        let validity = mem::replace(&mut self.validity, validity);
        let array = finish(self.alloc, data_type, spans, values, validity)?;
        self.len = 0;
        self.has_failed = false;
        Ok(array)
    }
}
