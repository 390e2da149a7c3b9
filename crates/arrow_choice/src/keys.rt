//! Arrays that hold no dictionary.

ghost use Rattle.std.specs.Prelude.{map, All};
ghost use Rattle.arrow_arrays.specs.Any.{any_array_type, layout_of};
ghost use Rattle.arrow_choice.specs.Keys.{HasNoDictionary, HasNoKeys};

use arrow_arrays::array::AnyArray;

/// Shows that each of several arrays holds no dictionary, if its type holds none.
pub fn show_all_no_keys(arrays: &[&AnyArray])
    ensures { All (λ array. HasNoDictionary (any_array_type array.now)
        → HasNoKeys (layout_of array.now)) arrays.now }
{
    for array in arrays {
        show_no_keys(array);
    }
}

// Shows that an array holds no dictionary, if its type holds none, by a walk down to the arrays without
// children: what kind of array each child is follows from its data type.
#[cycle(keys)]
fn show_no_keys(array: &AnyArray)
    ensures { HasNoDictionary (any_array_type array.now) → HasNoKeys (layout_of array.now) }
{
    // The kind of the array follows from its data type.
    let _ = array.data_type();
    match array {
        AnyArray::List(lists) => {
            // The data type is that of lists.
            let _ = lists.data_type();
            show_no_keys(lists.values());
        }
        AnyArray::FixedSizeList(lists) => {
            // The data type is that of fixed-size lists.
            let _ = lists.data_type();
            show_no_keys(lists.values());
        }
        AnyArray::Map(maps) => {
            // The data type is that of maps.
            let _ = maps.data_type();
            show_no_keys(maps.field());
        }
        AnyArray::Struct(structs) => {
            // The data type is that of structs.
            let _ = structs.data_type();
            show_no_keys_in(structs.values());
        }
        AnyArray::Union(unions) => {
            // The data type is that of unions.
            let _ = unions.data_type();
            show_no_keys_in(unions.fields());
        }
        _ => {}
    }
}

// Shows the same of the children of an array.
#[cycle(keys)]
fn show_no_keys_in(children: &[AnyArray])
    ensures { All (λ child. HasNoDictionary (any_array_type child)
        → HasNoKeys (layout_of child)) children.now }
{
    for child in children {
        show_no_keys(child);
    }
}
