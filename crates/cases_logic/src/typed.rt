//! Comparisons of rows of one kind: by the calls for truth values, primitives, texts and bytes.

/// What is asked of two arrays, by the calls of a module.
macro_rules! of_arrays {
    ($asked:expr, $module:ident($alloc:expr, $lhs:expr, $rhs:expr)) => {
        match $asked {
            Asked::Eq => $module::eq($alloc, $lhs, $rhs),
            Asked::Neq => $module::neq($alloc, $lhs, $rhs),
            Asked::Lt => $module::lt($alloc, $lhs, $rhs),
            Asked::LtEq => $module::lt_eq($alloc, $lhs, $rhs),
            Asked::Gt => $module::gt($alloc, $lhs, $rhs),
            Asked::GtEq => $module::gt_eq($alloc, $lhs, $rhs),
            Asked::Same => $module::eq_and_validity($alloc, $lhs, $rhs),
            Asked::Differing => $module::neq_and_validity($alloc, $lhs, $rhs),
            Asked::Given(relation) => $module::relate($alloc, relation, $lhs, $rhs),
        }
    };
}

/// What is asked of an array and a scalar, by the calls of a module.
macro_rules! of_scalar {
    ($asked:expr, $module:ident($alloc:expr, $lhs:expr, $rhs:expr)) => {
        match $asked {
            Asked::Eq => $module::eq_scalar($alloc, $lhs, $rhs),
            Asked::Neq => $module::neq_scalar($alloc, $lhs, $rhs),
            Asked::Lt => $module::lt_scalar($alloc, $lhs, $rhs),
            Asked::LtEq => $module::lt_eq_scalar($alloc, $lhs, $rhs),
            Asked::Gt => $module::gt_scalar($alloc, $lhs, $rhs),
            Asked::GtEq => $module::gt_eq_scalar($alloc, $lhs, $rhs),
            Asked::Same => $module::eq_scalar_and_validity($alloc, $lhs, $rhs),
            Asked::Differing => $module::neq_scalar_and_validity($alloc, $lhs, $rhs),
            Asked::Given(relation) => $module::relate_scalar($alloc, relation, $lhs, $rhs),
        }
    };
}

pub(crate) mod primitive;

use crate::compare::Asked;
use arrow_flat::array::{BinaryArray, BooleanArray, Utf8Array};
use arrow_relate::comparison::{binary, boolean, utf8};
use arrow_text::fault::Fault;
use arrow_text::write::write_truths;
use arrow_types::types::Offset;
use std::alloc::Global;

// Appends what is asked of two arrays of truth values. `Usage` unless both have as many rows.
pub(crate) fn of_truths(
    alloc: Global,
    asked: Asked,
    lhs: &BooleanArray,
    rhs: &BooleanArray,
    out: &mut String,
) -> Result<(), Fault> {
    if lhs.len() != rhs.len() {
        return Err(Fault::Usage);
    }
    write_truths(out, of_arrays!(asked, boolean(alloc, lhs, rhs)))
}

// Appends what is asked of truth values and one of them. `Usage` where it is null.
pub(crate) fn of_truth(
    alloc: Global,
    asked: Asked,
    lhs: &BooleanArray,
    rhs: Option<bool>,
    out: &mut String,
) -> Result<(), Fault> {
    let rhs = rhs.ok_or(Fault::Usage)?;
    write_truths(out, of_scalar!(asked, boolean(alloc, lhs, rhs)))
}

// Appends what is asked of two arrays of texts. `Usage` unless both have as many rows.
pub(crate) fn of_texts<O: Offset>(
    alloc: Global,
    asked: Asked,
    lhs: &Utf8Array<O>,
    rhs: &Utf8Array<O>,
    out: &mut String,
) -> Result<(), Fault> {
    if lhs.len() != rhs.len() {
        return Err(Fault::Usage);
    }
    write_truths(out, of_arrays!(asked, utf8(alloc, lhs, rhs)))
}

// Appends what is asked of texts and one of them. `Usage` where it is null.
pub(crate) fn of_text<O: Offset>(
    alloc: Global,
    asked: Asked,
    lhs: &Utf8Array<O>,
    rhs: Option<&str>,
    out: &mut String,
) -> Result<(), Fault> {
    let rhs = rhs.ok_or(Fault::Usage)?;
    write_truths(out, of_scalar!(asked, utf8(alloc, lhs, rhs)))
}

// Appends what is asked of two arrays of bytes. `Usage` unless both have as many rows.
pub(crate) fn of_bytes<O: Offset>(
    alloc: Global,
    asked: Asked,
    lhs: &BinaryArray<O>,
    rhs: &BinaryArray<O>,
    out: &mut String,
) -> Result<(), Fault> {
    if lhs.len() != rhs.len() {
        return Err(Fault::Usage);
    }
    write_truths(out, of_arrays!(asked, binary(alloc, lhs, rhs)))
}

// Appends what is asked of rows of bytes and one of them. `Usage` where it is null.
pub(crate) fn of_row<O: Offset>(
    alloc: Global,
    asked: Asked,
    lhs: &BinaryArray<O>,
    rhs: Option<&[u8]>,
    out: &mut String,
) -> Result<(), Fault> {
    let rhs = rhs.ok_or(Fault::Usage)?;
    write_truths(out, of_scalar!(asked, binary(alloc, lhs, rhs)))
}
