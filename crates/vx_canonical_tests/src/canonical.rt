// Arrays in plain layout, and arrays one after another.

use vx_canonical::ToCanonical;
use vx_canonical::laws::concats_of_concats_are_concats;
use vx_test_help::rows::is_number;
use vx_test_help::samples::dictionary;
use vx_tree::Layout;

mod joined_arrays;
mod many_values;
mod no_values;
mod null_lists;
mod plain_constants;

#[test]
fn a_dictionary_in_plain_layout(rt: HostRuntime) {
    let array = dictionary(rt.alloc())
        .expect(&rt, "made")
        .to_canonical(rt.alloc())
        .expect(&rt, "made");
    assert!(rt; matches!(array.layout(), Layout::Primitive { .. }));
    assert!(rt; array.len() == 5 && is_number(&array, 0, None));
    assert!(rt; is_number(&array, 2, Some(9)) && is_number(&array, 4, Some(6)));
}

// ---- laws

#[test]
fn laws() {
    concats_of_concats_are_concats();
}
