//! The kinds of arrays and scalars that are given together, shown by their data types.

ghost use Rattle.std.specs.Prelude.{◌≡◌};
ghost use Rattle.arrow_types.specs.ArrowType.{logical};
ghost use Rattle.arrow_types.specs.Physical.{physical_type_of};
ghost use Rattle.arrow_flat.specs.AnyScalar.{meaning_of};
ghost use Rattle.arrow_arrays.specs.Any.{any_array_type, kind_in, kind_of};
ghost use Rattle.arrow_relate.specs.Related.{relation_of};
ghost use Rattle.arrow_compare.specs.Compared.{HasRelation};
ghost use Rattle.arrow_compare.specs.Kinds.{KindHasRelation, scalar_kind};

use arrow_arrays::array::AnyArray;
use arrow_flat::scalar::AnyScalar;
use arrow_relate::relation::Relation;

// Shows that arrays of logically one type are of one kind, and that a relation compares it if it does the type.
pub(crate) fn have_one_kind(by: Relation, lhs: &AnyArray, rhs: &AnyArray)
    ensures kinds { logical (any_array_type lhs.now) ≡ logical (any_array_type rhs.now)
        → kind_of lhs.now ≡ kind_of rhs.now }
    ensures has_relation { HasRelation (relation_of by) (physical_type_of (any_array_type lhs.now))
        → KindHasRelation (relation_of by) (kind_of lhs.now) }
{
    // The kind of each follows from its data type.
    let _ = lhs.data_type();
    let _ = rhs.data_type();
}

// Shows that the kind of a scalar follows from its data type.
pub(crate) fn scalar_has_kind(scalar: &AnyScalar)
    ensures { kind_in (physical_type_of (meaning_of scalar.now).0) ≡ scalar_kind scalar.now }
{
    match scalar {
        AnyScalar::Boolean(scalar) => {
            let _ = scalar.data_type();
        }
        AnyScalar::Primitive(scalar) => {
            let _ = scalar.data_type();
        }
        AnyScalar::Utf8(scalar) => {
            let _ = scalar.data_type();
        }
        AnyScalar::LargeUtf8(scalar) => {
            let _ = scalar.data_type();
        }
        AnyScalar::Binary(scalar) => {
            let _ = scalar.data_type();
        }
        AnyScalar::LargeBinary(scalar) => {
            let _ = scalar.data_type();
        }
        AnyScalar::Dictionary(scalar) => {
            let _ = scalar.data_type();
        }
    }
}
