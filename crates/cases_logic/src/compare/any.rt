//! Comparisons of rows of any type, where their data types have them.

ghost use Rattle.std.specs.Prelude.{◌≡◌, ◌↔◌, IsTrue};
ghost use Rattle.arrow_types.specs.Physical.{physical_type_of};
ghost use Rattle.arrow_types.specs.TypeOf.{type_of};
ghost use Rattle.arrow_compare.specs.Compared.{HasEquality, HasOrder, type_through};

use super::Asked;
use arrow_arrays::array::AnyArray;
use arrow_compare::comparison;
use arrow_flat::scalar::AnyScalar;
use arrow_text::fault::Fault;
use arrow_text::write::write_truths;
use arrow_types::datatypes::{DataType, PhysicalType};
use arrow_types::types::PrimitiveType;
use std::alloc::Global;

// Appends what is asked of the rows of two arrays. `Usage` unless both have as many rows and one data type, extensions around
// each apart, whose rows compare.
pub(super) fn relate(
    alloc: Global,
    asked: Asked,
    lhs: &AnyArray,
    rhs: &AnyArray,
    out: &mut String,
) -> Result<(), Fault> {
    let are_alike = *lhs.data_type().to_logical_type() == *rhs.data_type().to_logical_type();
    let layout = lhs.data_type().to_physical_type();
    if !are_alike || lhs.len() != rhs.len() || !has_equality(layout) {
        return Err(Fault::Usage);
    }
    let truths = match asked {
        Asked::Eq => comparison::eq(alloc, lhs, rhs),
        Asked::Neq => comparison::neq(alloc, lhs, rhs),
        Asked::Same => comparison::eq_and_validity(alloc, lhs, rhs),
        Asked::Differing => comparison::neq_and_validity(alloc, lhs, rhs),
        _ if !has_order(layout) => return Err(Fault::Usage),
        Asked::Lt => comparison::lt(alloc, lhs, rhs),
        Asked::LtEq => comparison::lt_eq(alloc, lhs, rhs),
        Asked::Gt => comparison::gt(alloc, lhs, rhs),
        Asked::GtEq => comparison::gt_eq(alloc, lhs, rhs),
        Asked::Given(_) => return Err(Fault::Usage),
    };
    write_truths(out, truths)
}

// Appends what is asked of the rows of an array and a scalar. `Usage` unless both have one data type, extensions around each
// apart, whose rows compare, through dictionaries at any depth.
pub(super) fn relate_scalar(
    alloc: Global,
    asked: Asked,
    lhs: &AnyArray,
    rhs: &AnyScalar,
    out: &mut String,
) -> Result<(), Fault> {
    let are_alike = *lhs.data_type().to_logical_type() == *rhs.data_type().to_logical_type();
    let layout = layout_through(lhs.data_type());
    if !are_alike || !has_equality(layout) {
        return Err(Fault::Usage);
    }
    let truths = match asked {
        Asked::Eq => comparison::eq_scalar(alloc, lhs, rhs),
        Asked::Neq => comparison::neq_scalar(alloc, lhs, rhs),
        Asked::Same => comparison::eq_scalar_and_validity(alloc, lhs, rhs),
        Asked::Differing => comparison::neq_scalar_and_validity(alloc, lhs, rhs),
        _ if !has_order(layout) => return Err(Fault::Usage),
        Asked::Lt => comparison::lt_scalar(alloc, lhs, rhs),
        Asked::LtEq => comparison::lt_eq_scalar(alloc, lhs, rhs),
        Asked::Gt => comparison::gt_scalar(alloc, lhs, rhs),
        Asked::GtEq => comparison::gt_eq_scalar(alloc, lhs, rhs),
        Asked::Given(_) => return Err(Fault::Usage),
    };
    write_truths(out, truths)
}

// Whether rows that lie so in memory are equal or not.
fn has_equality(layout: PhysicalType) -> bool
    ensures { IsTrue result ↔ HasEquality layout }
{
    match layout {
        PhysicalType::Boolean
        | PhysicalType::Primitive(_)
        | PhysicalType::Utf8
        | PhysicalType::LargeUtf8
        | PhysicalType::Binary
        | PhysicalType::LargeBinary => true,
        _ => false,
    }
}

// Whether they stand in an order.
fn has_order(layout: PhysicalType) -> bool
    ensures { IsTrue result ↔ HasOrder layout }
{
    match layout {
        PhysicalType::Primitive(PrimitiveType::DaysMs | PrimitiveType::MonthDayNano) => false,
        _ => has_equality(layout),
    }
}

// How the rows of a type lie in memory, through dictionaries at any depth.
fn layout_through(data_type: &DataType) -> PhysicalType
    ensures { result ≡ physical_type_of (type_through (type_of data_type.now)) }
{
    match data_type {
        DataType::Dictionary(_, values, _) => layout_through(values),
        DataType::Extension(_, inner, _) => layout_through(inner),
        _ => data_type.to_physical_type(),
    }
}
