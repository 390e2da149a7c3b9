//! The laws: each is called at a concrete type, where its conditions are met by what was tested or answered. What a law says
//! stands in its contract.

ghost use Rattle.std.specs.Prelude.{◌≡◌, IfOk, IsTrue, length};
ghost use Rattle.arrow_arrays.specs.Any.{any_array_meaning, any_array_rows, any_array_type};
ghost use Rattle.arrow_choice.specs.Keys.{HasNoDictionary};
ghost use Rattle.arrow_select.specs.Laws.{IsStructOrUnion, selected_of};
ghost use Rattle.arrow_types.specs.TypeOf.{type_of};

use arrow_arrays::array::{AnyArray, are_within};
use arrow_arrays::chunk::Chunk;
use arrow_compare::comparison::{can_eq, eq_and_validity};
use arrow_compare::laws as compared;
use arrow_logic::laws as logical;
use arrow_relate::relation::Relation;
use arrow_select::concatenate::concatenate;
use arrow_select::filter::{Filter, build_filter, filter, filter_chunk};
use arrow_select::if_then_else::if_then_else;
use arrow_select::laws as selected;
use arrow_select::laws::batches;
use arrow_select::take::take;
use arrow_select::window::shift;
use arrow_text::fault::Fault;
use arrow_text::given::{Array, Scalar};
use arrow_text::piece::Piece;
use arrow_text::scalar::read_scalar;
use arrow_types::datatypes::DataType;
use arrow_types::error::Error;
use arrow_types::laws::{equals_both_ways, equals_itself, equals_through};
use std::alloc::Global;
use test_lines::arrays::{numbers, truths};
use test_lines::lines::{Answer, Line, PLAIN, wrong_line};

/// The laws, by a name for those that are called together.
const ANSWERS: [(&str, Answer); 14] = [
    ("logic", logic),
    ("types", types),
    ("comparisons", comparisons),
    ("scalar", scalar),
    ("selection", selection),
    ("concatenate", concatenated),
    ("shift", shifted),
    ("filter", filtered),
    ("take", taken),
    ("choice", chosen),
    ("chunk", of_columns),
    ("batches", batched),
    ("equal", equality),
    ("different", equality),
];

// The laws of both logics, of three arrays that are one.
fn logic(_alloc: Global, _name: &str, arrays: &[AnyArray]) -> Result<bool, Fault> {
    let [array] = arrays else {
        return Err(Fault::Usage);
    };
    let left = truths(array)?;
    let (middle, right) = (left, left);
    logical::both_is_commutative(left, right);
    logical::either_is_commutative(left, right);
    logical::kleene_both_is_commutative(left, right);
    logical::kleene_either_is_commutative(left, right);
    logical::both_is_associative(left, middle, right);
    logical::either_is_associative(left, middle, right);
    logical::kleene_both_is_associative(left, middle, right);
    logical::kleene_either_is_associative(left, middle, right);
    logical::negated_kleene_both(left, right);
    logical::negated_kleene_either(left, right);
    logical::negated_twice(left);
    logical::row_by_row_goes_by_rows(left, right, left, right);
    logical::each_row_goes_by_rows(left, right);
    Ok(true)
}

// Those of nulls, of parts and of the types that calls named `can_` list.
fn types(_alloc: Global, _name: &str, arrays: &[AnyArray]) -> Result<bool, Fault> {
    let [array] = arrays else {
        return Err(Fault::Usage);
    };
    let data_type = array.data_type();
    logical::valid_is_negated_null(array);
    logical::part_of_part_of_text("a text", 1, Some(4), 2, None);
    logical::part_of_part_of_bytes(b"bytes", 1, None, 2, Some(1));
    logical::can_length_is_supported(data_type);
    logical::can_substring_is_supported(data_type);
    logical::can_nullif_is_supported(data_type, data_type);
    compared::can_eq_has_equality(data_type);
    compared::can_lt_has_order(data_type);
    compared::can_eq_scalar_has_equality(data_type);
    compared::can_lt_scalar_has_order(data_type);
    selected::dense_union_holds(5);
    selected::dense_union_edge();
    if is_struct_or_union(data_type) {
        selected::can_take_goes_by_fields(data_type);
    }
    Ok(true)
}

// Those of comparisons, of two arrays whose rows are the same where those of the third one are true.
fn comparisons(alloc: Global, _name: &str, arrays: &[AnyArray]) -> Result<bool, Fault> {
    let [lhs, rhs, wanted] = arrays else {
        return Err(Fault::Usage);
    };
    let are_same = truths(wanted)?;
    compared::differs_is_negated_same(lhs, rhs);
    compared::same_is_no_null(lhs, rhs);
    compared::same_is_symmetric(lhs, rhs);
    compared::lt_is_gt_of_the_other_side(lhs, rhs);
    compared::neq_is_negated_eq(lhs, rhs);
    compared::lt_eq_is_negated_gt(lhs, rhs);
    compared::gt_eq_is_negated_lt(lhs, rhs);
    compared::nulled_by_itself(lhs);
    compared::chosen_by_negated(are_same, lhs, rhs);
    let (left, right) = (lhs.data_type(), rhs.data_type());
    compared::can_eq_has_equality(left);
    let are_alike = *left == *right;
    if !are_alike || lhs.len() != rhs.len() || !can_eq(left) {
        return Err(Fault::Usage);
    }
    Ok(eq_and_validity(alloc, lhs, rhs)? == *are_same)
}

// That of a scalar, beside numbers.
fn scalar(alloc: Global, _name: &str, arrays: &[AnyArray]) -> Result<bool, Fault> {
    let [lhs] = arrays else {
        return Err(Fault::Usage);
    };
    let scalar = read_scalar(alloc, Piece::new(0, "i32(3)"))?;
    let three = Scalar { scalar };
    let (left, right) = (lhs.data_type(), three.scalar.data_type());
    compared::can_eq_has_equality(left);
    let are_alike = *left == *right;
    if !are_alike || !can_eq(left) {
        return Err(Fault::Usage);
    }
    compared::scalar_is_repeated(Relation::Lt, lhs, &three.scalar);
    Ok(true)
}

// Those of rows that are selected, taken and joined.
fn selection(_alloc: Global, _name: &str, arrays: &[AnyArray]) -> Result<bool, Fault> {
    let [array, predicate, indices] = arrays else {
        return Err(Fault::Usage);
    };
    let (filter, places) = (truths(predicate)?, numbers(indices)?);
    let len = array.len();
    if filter.len() != len || len < 1 || !are_within(places, places.len()) {
        return Err(Fault::Usage);
    }
    selected::select_is_gather(array, filter);
    selected::joined_is_associative(array, array, array);
    selected::joined_of_cut(array, 1);
    selected::gather_of_gather(array, places, places);
    Ok(true)
}

// Whether two arrays are equal.
fn are_equal(array: &AnyArray, other: &AnyArray) -> bool
    ensures { IsTrue result → any_array_meaning other.now ≡ any_array_meaning array.now }
{
    *array == *other
}

// Whether a type is a struct or a union.
fn is_struct_or_union(data_type: &DataType) -> bool
    ensures { IsTrue result → IsStructOrUnion (type_of data_type.now) }
{
    match data_type {
        DataType::Struct(_) | DataType::Union(_, _, _) => true,
        _ => false,
    }
}

// Whether an array is of numbers of 32 bits, a type that holds no dictionary.
fn is_of_numbers(array: &AnyArray) -> bool
    ensures { IsTrue result → HasNoDictionary (any_array_type array.now) }
{
    match array.data_type() {
        DataType::Int32 => true,
        _ => false,
    }
}

// Arrays of the same rows are concatenated to the same rows, and where they hold no dictionary refused alike.
fn concatenated(alloc: Global, _name: &str, arrays: &[AnyArray]) -> Result<bool, Fault> {
    match arrays {
        [array, other] if are_equal(array, other) => {
            let (left, right) = ([array, other], [other, array]);
            let all = Array::new(alloc, concatenate(alloc, &left)?)?;
            if is_of_numbers(array) {
                selected::concatenate_fits_alike(&left, &all.array, &right);
            }
            let other_all = Array::new(alloc, concatenate(alloc, &right)?)?;
            selected::concatenate_goes_by_rows(&left, &all.array, &right, &other_all.array);
            Ok(true)
        }
        _ => Err(Fault::Usage),
    }
}

// They are shifted to the same rows, and refused alike; and what is given of each row, or of each two, is the same.
fn shifted(alloc: Global, _name: &str, arrays: &[AnyArray]) -> Result<bool, Fault> {
    match arrays {
        [array, other] if are_equal(array, other) => {
            logical::row_by_row_goes_by_rows(array, array, other, other);
            logical::each_row_goes_by_rows(array, other);
            let moved = Array::new(alloc, shift(alloc, array, 1)?)?;
            selected::shift_fits_alike(array, &moved.array, other, 1);
            let other_moved = Array::new(alloc, shift(alloc, other, 1)?)?;
            selected::shift_goes_by_rows(array, &moved.array, other, &other_moved.array, 1);
            Ok(true)
        }
        _ => Err(Fault::Usage),
    }
}

// The rows that a prepared filter keeps, asked for once more where memory is refused: the filter is then as it was.
fn applied(prepared: &Filter, array: &AnyArray) -> Result<AnyArray, Error>
    requires { length prepared.now ≡ length (any_array_rows array.now) }
    ensures { IfOk result (λ kept. any_array_meaning kept ≡ selected_of prepared.now array.now) }
{
    match prepared.apply(array) {
        Err(Error::OutOfMemory) => prepared.apply(array),
        outcome => outcome,
    }
}

// They are filtered to the same rows, by a predicate and by a filter that was prepared of it, and refused alike; what is kept
// can be filtered again.
fn filtered(alloc: Global, _name: &str, arrays: &[AnyArray]) -> Result<bool, Fault> {
    let [array, other, predicate] = arrays else {
        return Err(Fault::Usage);
    };
    let mask = truths(predicate)?;
    if !are_equal(array, other) || mask.len() != array.len() {
        return Err(Fault::Usage);
    }
    let prepared = build_filter(alloc, mask)?;
    let kept = Array::new(alloc, filter(alloc, array, mask)?)?;
    selected::kept_rows_fit(&kept.array);
    selected::filter_fits_alike(array, mask, &kept.array, other, mask);
    selected::apply_fits_alike(&prepared, array, &kept.array, &prepared, other);
    let other_kept = Array::new(alloc, applied(&prepared, other)?)?;
    selected::filter_goes_by_rows(array, mask, &kept.array, other, mask, &other_kept.array);
    selected::apply_goes_by_rows(
        &prepared,
        array,
        &kept.array,
        &prepared,
        other,
        &other_kept.array,
    );
    Ok(*other == *array && *other_kept.array == *kept.array)
}

// They are taken to the same rows, those that are wanted, and refused alike.
fn taken(alloc: Global, _name: &str, arrays: &[AnyArray]) -> Result<bool, Fault> {
    let [array, other, indices, wanted] = arrays else {
        return Err(Fault::Usage);
    };
    let places = numbers(indices)?;
    if !are_equal(array, other) || !are_within(places, array.len()) {
        return Err(Fault::Usage);
    }
    let taken = Array::new(alloc, take(alloc, array, places)?)?;
    selected::take_fits_alike(array, places, &taken.array, other, places);
    let other_taken = Array::new(alloc, take(alloc, other, places)?)?;
    selected::take_goes_by_rows(
        array,
        places,
        &taken.array,
        other,
        places,
        &other_taken.array,
    );
    Ok(*taken.array == *wanted)
}

// The same rows are chosen of them, and they are refused alike where they hold no dictionary.
fn chosen(alloc: Global, _name: &str, arrays: &[AnyArray]) -> Result<bool, Fault> {
    let [array, other, predicate] = arrays else {
        return Err(Fault::Usage);
    };
    let mask = truths(predicate)?;
    if !are_equal(array, other) {
        return Err(Fault::Usage);
    }
    let all = Array::new(alloc, if_then_else(alloc, mask, array, other)?)?;
    if is_of_numbers(array) {
        selected::choice_fits_alike(mask, array, other, &all.array, mask, other, array);
    }
    let other_all = Array::new(alloc, if_then_else(alloc, mask, other, array)?)?;
    selected::choice_goes_by_rows(
        mask,
        array,
        other,
        &all.array,
        mask,
        other,
        array,
        &other_all.array,
    );
    Ok(*other_all.array == *all.array)
}

// A batch is filtered to the same columns as itself.
fn of_columns(alloc: Global, _name: &str, arrays: &[AnyArray]) -> Result<bool, Fault> {
    let [array, predicate] = arrays else {
        return Err(Fault::Usage);
    };
    let mask = truths(predicate)?;
    let columns = Chunk::try_new(vec![in alloc; array.clone()?]?)?;
    if mask.len() != columns.len() {
        return Err(Fault::Usage);
    }
    let kept = filter_chunk(alloc, &columns, mask)?;
    selected::chunk_fits_alike(&columns, mask, &kept, &columns, mask);
    selected::chunk_goes_by_rows(&columns, mask, &kept, &columns, mask, &kept);
    Ok(true)
}

// The laws over batches, of two batches of one length, a predicate and indices of each; what is kept of both is what is kept of
// them as one.
fn batched(alloc: Global, _name: &str, arrays: &[AnyArray]) -> Result<bool, Fault> {
    let [array, other, predicate, indices] = arrays else {
        return Err(Fault::Usage);
    };
    let (mask, places) = (truths(predicate)?, numbers(indices)?);
    let len = mask.len();
    if array.len() != len || other.len() != len || len < 1 || !are_within(places, len) {
        return Err(Fault::Usage);
    }
    let data_type = array.data_type();
    logical::row_by_row_goes_by_batches(&[array, other], &[other, array]);
    logical::each_row_goes_by_batches(&[array, other]);
    batches::filter_goes_by_batches(&[mask, mask], &[array, other]);
    batches::choice_goes_by_batches(&[mask, mask], &[array, other], &[other, array], data_type);
    batches::take_goes_by_batches(array, &[places, places], data_type);
    batches::take_goes_by_parts(&[array, other], &[places, places], data_type);
    batches::shift_goes_by_edge(array, other, 1, data_type);
    let prepared = build_filter(alloc, mask)?;
    batches::ranges_go_by_batches(&prepared, prepared.ranges(), &prepared, prepared.ranges());
    is_kept_by_batches(alloc, [array, other], predicate)
}

// Whether what is kept of two batches by one predicate is what is kept of them as one.
fn is_kept_by_batches(
    alloc: Global,
    batches: [&AnyArray; 2],
    predicate: &AnyArray,
) -> Result<bool, Fault> {
    let [array, other] = batches;
    let mask = truths(predicate)?;
    let whole = Array::new(alloc, concatenate(alloc, &batches)?)?;
    let predicates = Array::new(alloc, concatenate(alloc, &[predicate, predicate])?)?;
    let masks = truths(&predicates.array)?;
    if mask.len() != array.len() || mask.len() != other.len() || masks.len() != whole.array.len() {
        return Err(Fault::Usage);
    }
    let kept = Array::new(alloc, filter(alloc, &whole.array, masks)?)?;
    let first = Array::new(alloc, filter(alloc, array, mask)?)?;
    let second = Array::new(alloc, filter(alloc, other, mask)?)?;
    let parts = Array::new(alloc, concatenate(alloc, &[&first.array, &second.array])?)?;
    Ok(*kept.array == *parts.array)
}

// Whether two arrays are equal, as the name says, by the laws of equality: each is equal to itself, the left one to the right
// one as the right one to the left one, and through a third one.
fn equality(_alloc: Global, name: &str, arrays: &[AnyArray]) -> Result<bool, Fault> {
    match arrays {
        [array, other] if equals_itself(array) && equals_itself(other) => {
            let found = [
                equals_both_ways(array, other),
                equals_through(array, other, other),
            ];
            Ok(found == [name == "equal"; 2])
        }
        _ => Err(Fault::Usage),
    }
}

/// An array, one of the same rows, and one of others; predicates and indices; rows that are wanted.
const LINES: [Line; 24] = [
    ["equal i32[1,_2,3] i32[9,1,_,3]@1+3", ""],
    ["different i32[1,_2,3] i32[3,2,_1]", ""],
    ["logic bool[t,_,f]", ""],
    ["types i32[1,_2,3]", ""],
    ["types union_sparse<i8,struct<fsb<1>>>[0:1,1:(x00)]", ""],
    ["comparisons i32[1,_2,3,_] i32[1,2,_3,_9] bool[t,f,f,t]", ""],
    [
        r#"comparisons utf8["a",_,"","bc",_] utf8["z","a","",_"","bd",_"x"]@1+5 bool[t,f,f,f,t]"#,
        "",
    ],
    ["scalar i32[1,_2,3]", ""],
    ["selection i32[1,_2,3] bool[t,_,f] i32[2,_9,0]", ""],
    ["concatenate i32[1,_2,3] i32[9,1,_,3]@1+3", ""],
    ["shift i32[1,_2,3] i32[9,1,_,3]@1+3", ""],
    ["filter i32[1,_2,3] i32[9,1,_,3]@1+3 bool[t,_,f]", ""],
    [
        "take i32[1,_2,3] i32[9,1,_,3]@1+3 i32[2,_9,0] i32[3,_,1]",
        "",
    ],
    [
        r#"take map<struct<utf8,i8>>[[("a",1)],_,[("b",2),("c",_)]] map<struct<utf8,i8>>[[],[("a",1)],_[("z",9)],[("b",2),("c",_3)]]@1+3 i32[1,2,_9,0,0] map<struct<utf8,i8>>[_,[("b",2),("c",_)],_,[("a",1)],[("a",1)]]"#,
        "",
    ],
    [
        r#"concatenate struct<list<utf8>,dict<i8,utf8>>[(["a",_,"bc"],"x"),_,([],_),(_,&_)] struct<list<utf8>,dict<i8,utf8>>{validity=ttftt;values=list<utf8>{validity=ttttf;offsets=0,1,4,5,5,7;values=utf8["q","a",_"b","bc","d","e","f"]}|dict<i8,utf8>{keys=i8[0,2,1,_77,3];values=utf8["y","y","x",_"v"]}}@1+4"#,
        "",
    ],
    [
        r#"shift struct<list<utf8>,dict<i8,utf8>>[(["a",_,"bc"],"x"),_,([],_),(_,&_)] struct<list<utf8>,dict<i8,utf8>>{validity=ttftt;values=list<utf8>{validity=ttttf;offsets=0,1,4,5,5,7;values=utf8["q","a",_"b","bc","d","e","f"]}|dict<i8,utf8>{keys=i8[0,2,1,_77,3];values=utf8["y","y","x",_"v"]}}@1+4"#,
        "",
    ],
    [
        r#"filter struct<list<utf8>,dict<i8,utf8>>[(["a",_,"bc"],"x"),_,([],_),(_,&_)] struct<list<utf8>,dict<i8,utf8>>{validity=ttftt;values=list<utf8>{validity=ttttf;offsets=0,1,4,5,5,7;values=utf8["q","a",_"b","bc","d","e","f"]}|dict<i8,utf8>{keys=i8[0,2,1,_77,3];values=utf8["y","y","x",_"v"]}}@1+4 bool[t,_t,f,t]"#,
        "",
    ],
    [
        r#"take struct<list<utf8>,dict<i8,utf8>>[(["a",_,"bc"],"x"),_,([],_),(_,&_)] struct<list<utf8>,dict<i8,utf8>>{validity=ttftt;values=list<utf8>{validity=ttttf;offsets=0,1,4,5,5,7;values=utf8["q","a",_"b","bc","d","e","f"]}|dict<i8,utf8>{keys=i8[0,2,1,_77,3];values=utf8["y","y","x",_"v"]}}@1+4 i32[3,_9,0,1] struct<list<utf8>,dict<i8,utf8>>[(_,&_),_,(["a",_,"bc"],"x"),_]"#,
        "",
    ],
    ["choice i32[1,_2,3] i32[9,1,_,3]@1+3 bool[t,_,f]", ""],
    [
        r#"choice struct<list<utf8>,dict<i8,utf8>>[(["a",_,"bc"],"x"),_,([],_),(_,&_)] struct<list<utf8>,dict<i8,utf8>>{validity=ttftt;values=list<utf8>{validity=ttttf;offsets=0,1,4,5,5,7;values=utf8["q","a",_"b","bc","d","e","f"]}|dict<i8,utf8>{keys=i8[0,2,1,_77,3];values=utf8["y","y","x",_"v"]}}@1+4 bool[t,_t,f,t]"#,
        "",
    ],
    ["chunk i32[1,_2,3] bool[t,_,f]", ""],
    [
        "batches i32[1,_2,3] i32[9,4,5,_]@1+3 bool[t,_t,t] i32[2,_9,0]",
        "",
    ],
    [
        r#"batches dict<i8,utf8>{keys=i8[1,_77,0];values=utf8["a","b"]} dict<i8,utf8>["b","a",_] bool[f,t,t] i32[0,0,_]"#,
        "",
    ],
    [
        r#"chunk struct<list<utf8>,dict<i8,utf8>>{validity=ttftt;values=list<utf8>{validity=ttttf;offsets=0,1,4,5,5,7;values=utf8["q","a",_"b","bc","d","e","f"]}|dict<i8,utf8>{keys=i8[0,2,1,_77,3];values=utf8["y","y","x",_"v"]}}@1+4 bool[t,_t,f,t]"#,
        "",
    ],
];

#[test]
fn laws(rt: HostRuntime) {
    assert_eq!(rt; wrong_line(rt.alloc(), &ANSWERS, &LINES, &PLAIN), None);
}
