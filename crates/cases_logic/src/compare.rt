//! Comparisons, of rows of any type and of one kind.

mod any;

use crate::typed;
use crate::typed::primitive;
use arrow_arrays::array::AnyArray;
use arrow_flat::scalar::AnyScalar;
use arrow_relate::relation::Relation;
use arrow_text::call::Call;
use arrow_text::fault::Fault;
use arrow_text::types::find;
use std::alloc::Global;

/// The module whose comparison is asked: that of arrays of any type, or of one kind.
#[derive(Clone, Copy)]
enum Kind {
    Any,
    Boolean,
    Primitive,
    Utf8,
    Binary,
}

/// The modules.
const KINDS: [(&str, Kind); 5] = [
    ("comparison", Kind::Any),
    ("comparison::boolean", Kind::Boolean),
    ("comparison::primitive", Kind::Primitive),
    ("comparison::utf8", Kind::Utf8),
    ("comparison::binary", Kind::Binary),
];

/// What is asked of each pair of rows.
#[derive(Clone, Copy)]
pub(crate) enum Asked {
    Eq,
    Neq,
    Lt,
    LtEq,
    Gt,
    GtEq,
    /// Whether both are the same, nulls too.
    Same,
    /// Whether they differ, nulls too.
    Differing,
    /// A relation, by the call that takes it as a value.
    Given(Relation),
}

/// The calls of each module, by the right side: an array, or a scalar.
#[derive(Clone, Copy)]
enum Named {
    Arrays(Asked),
    Scalar(Asked),
    Relate,
    RelateScalar,
}

/// Their names.
const NAMES: [(&str, Named); 18] = [
    ("eq", Named::Arrays(Asked::Eq)),
    ("eq_and_validity", Named::Arrays(Asked::Same)),
    ("eq_scalar", Named::Scalar(Asked::Eq)),
    ("eq_scalar_and_validity", Named::Scalar(Asked::Same)),
    ("gt", Named::Arrays(Asked::Gt)),
    ("gt_eq", Named::Arrays(Asked::GtEq)),
    ("gt_eq_scalar", Named::Scalar(Asked::GtEq)),
    ("gt_scalar", Named::Scalar(Asked::Gt)),
    ("lt", Named::Arrays(Asked::Lt)),
    ("lt_eq", Named::Arrays(Asked::LtEq)),
    ("lt_eq_scalar", Named::Scalar(Asked::LtEq)),
    ("lt_scalar", Named::Scalar(Asked::Lt)),
    ("neq", Named::Arrays(Asked::Neq)),
    ("neq_and_validity", Named::Arrays(Asked::Differing)),
    ("neq_scalar", Named::Scalar(Asked::Neq)),
    ("neq_scalar_and_validity", Named::Scalar(Asked::Differing)),
    ("relate", Named::Relate),
    ("relate_scalar", Named::RelateScalar),
];

/// The relations, for the calls that take one as a value.
const RELATIONS: [(&str, Relation); 6] = [
    ("eq", Relation::Eq),
    ("neq", Relation::Neq),
    ("lt", Relation::Lt),
    ("lt_eq", Relation::LtEq),
    ("gt", Relation::Gt),
    ("gt_eq", Relation::GtEq),
];

// Answers a comparison; `false` where the call is none.
pub(crate) fn answer(alloc: Global, call: &Call<'_>, out: &mut String) -> Result<bool, Fault> {
    let Some((kind, named)) = kind_and_call(call.name) else {
        return Ok(false);
    };
    match named {
        Named::Arrays(asked) => answer_arrays(alloc, kind, asked, 0, call, out),
        Named::Scalar(asked) => answer_scalar(alloc, kind, asked, 0, call, out),
        Named::Relate => answer_arrays(alloc, kind, given(call)?, 1, call, out),
        Named::RelateScalar => answer_scalar(alloc, kind, given(call)?, 1, call, out),
    }?;
    Ok(true)
}

// The module and the call of a name. No call of the module for arrays of any type takes a relation as a value.
fn kind_and_call(name: &str) -> Option<(Kind, Named)> {
    let (module, name) = name.rsplit_once("::")?;
    match (*find(&KINDS, module)?, *find(&NAMES, name)?) {
        (Kind::Any, Named::Relate | Named::RelateScalar) => None,
        found => Some(found),
    }
}

// The relation that the first argument says.
fn given(call: &Call<'_>) -> Result<Asked, Fault> {
    let piece = call.argument(0)?;
    match find(&RELATIONS, piece.text()) {
        Some(relation) => Ok(Asked::Given(*relation)),
        None => Err(piece.fault()),
    }
}

// Appends what is asked of the rows of two arrays, arguments `first` and the one behind it. `Usage` unless both are of the
// kind that is asked, and of one layout.
fn answer_arrays(
    alloc: Global,
    kind: Kind,
    asked: Asked,
    first: usize,
    call: &Call<'_>,
    out: &mut String,
) -> Result<(), Fault> {
    let pair = call.pair(alloc, first)?;
    match (kind, &*pair.left, &*pair.right) {
        (Kind::Any, lhs, rhs) => any::relate(alloc, asked, lhs, rhs, out),
        (Kind::Boolean, AnyArray::Boolean(lhs), AnyArray::Boolean(rhs)) => {
            typed::of_truths(alloc, asked, lhs, rhs, out)
        }
        (Kind::Primitive, AnyArray::Primitive(lhs), AnyArray::Primitive(rhs)) => {
            primitive::of_arrays(alloc, asked, lhs, rhs, out)
        }
        (Kind::Utf8, AnyArray::Utf8(lhs), AnyArray::Utf8(rhs)) => {
            typed::of_texts(alloc, asked, lhs, rhs, out)
        }
        (Kind::Utf8, AnyArray::LargeUtf8(lhs), AnyArray::LargeUtf8(rhs)) => {
            typed::of_texts(alloc, asked, lhs, rhs, out)
        }
        (Kind::Binary, AnyArray::Binary(lhs), AnyArray::Binary(rhs)) => {
            typed::of_bytes(alloc, asked, lhs, rhs, out)
        }
        (Kind::Binary, AnyArray::LargeBinary(lhs), AnyArray::LargeBinary(rhs)) => {
            typed::of_bytes(alloc, asked, lhs, rhs, out)
        }
        _ => Err(Fault::Usage),
    }
}

// Appends what is asked of the rows of an array and a scalar. `Usage` unless both are of the kind that is asked, and of one
// layout, and where the scalar is null and the call is for one kind.
fn answer_scalar(
    alloc: Global,
    kind: Kind,
    asked: Asked,
    first: usize,
    call: &Call<'_>,
    out: &mut String,
) -> Result<(), Fault> {
    let (left, right) = call.array_and_scalar(alloc, first)?;
    match (kind, &*left.array, &*right.scalar) {
        (Kind::Any, lhs, rhs) => any::relate_scalar(alloc, asked, lhs, rhs, out),
        (Kind::Boolean, AnyArray::Boolean(lhs), AnyScalar::Boolean(rhs)) => {
            typed::of_truth(alloc, asked, lhs, rhs.value(), out)
        }
        (Kind::Primitive, AnyArray::Primitive(lhs), AnyScalar::Primitive(rhs)) => {
            primitive::of_scalar(alloc, asked, lhs, rhs, out)
        }
        (Kind::Utf8, AnyArray::Utf8(lhs), AnyScalar::Utf8(rhs)) => {
            typed::of_text(alloc, asked, lhs, rhs.value(), out)
        }
        (Kind::Utf8, AnyArray::LargeUtf8(lhs), AnyScalar::LargeUtf8(rhs)) => {
            typed::of_text(alloc, asked, lhs, rhs.value(), out)
        }
        (Kind::Binary, AnyArray::Binary(lhs), AnyScalar::Binary(rhs)) => {
            typed::of_row(alloc, asked, lhs, rhs.value(), out)
        }
        (Kind::Binary, AnyArray::LargeBinary(lhs), AnyScalar::LargeBinary(rhs)) => {
            typed::of_row(alloc, asked, lhs, rhs.value(), out)
        }
        _ => Err(Fault::Usage),
    }
}
