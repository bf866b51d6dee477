// Dictionaries without values in plain layout: rows of null over the elements and the buffers that
// the values have.

ghost use Rattle.std.specs.Prelude.{◌≡◌, true, IfOk};
ghost use Rattle.vx_base.specs.Kinds.{integers};
ghost use Rattle.vx_base.specs.Rows.{null};
ghost use Rattle.vx_base.specs.declared.ptypes.PType.TheVariants.{U8};
ghost use Rattle.vx_tree.specs.Tree.{constant};

use std::alloc::Global;
use std::process::Abort;
use vx_base::{DType, Nullability, PType, Scalar, VortexError};
use vx_canonical::{Concatenate, ToCanonical};
use vx_test_help::samples::{lists, pairs, texts};
use vx_tree::{ArrayRef, Layout, Validity};

// Two null codes.
fn null_codes(alloc: Global) -> Result<ArrayRef, VortexError>
    ensures { IfOk result (λ a. a ≡ constant (integers U8 true) null 2) }
{
    let null = Scalar::null(DType::Primitive(PType::U8, Nullability::Nullable));
    ArrayRef::constant(alloc, null, 2)
}

// Two rows of null, by these codes.
fn null_rows(alloc: Global, values: ArrayRef) -> Result<ArrayRef, VortexError> {
    ArrayRef::dictionary(alloc, null_codes(alloc)?, values, false)
}

#[test]
fn texts_keep_their_buffers(rt: HostRuntime) {
    let alloc = rt.alloc();
    let values = texts(alloc)
        .expect(&rt, "made")
        .slice(alloc, 0..0)
        .expect(&rt, "made");
    let array = null_rows(alloc, values).expect(&rt, "made");
    let joined = ArrayRef::concat(alloc, std::slice::from_ref(&array)).expect(&rt, "made");
    let Layout::VarBinView { buffers, .. } = joined.layout() else {
        panic!(rt; "no texts");
    };
    assert!(rt; joined.len() == 2 && buffers.len() == 1);
    assert!(rt;
        !joined.is_valid(alloc, 0).expect(&rt, "made")
            && !joined.is_valid(alloc, 1).expect(&rt, "made")
    );
}

#[test]
fn lists_keep_their_elements(rt: HostRuntime) {
    let alloc = rt.alloc();
    let values = lists(alloc)
        .expect(&rt, "made")
        .slice(alloc, 0..0)
        .expect(&rt, "made");
    let array = null_rows(alloc, values).expect(&rt, "made");
    let joined = ArrayRef::concat(alloc, std::slice::from_ref(&array)).expect(&rt, "made");
    let Layout::ListView { elements, .. } = joined.layout() else {
        panic!(rt; "no list view");
    };
    assert!(rt; joined.len() == 2 && elements.len() == 4);
    assert!(rt;
        !joined.is_valid(alloc, 0).expect(&rt, "made")
            && !joined.is_valid(alloc, 1).expect(&rt, "made")
    );
}

#[test]
fn lists_of_one_size_have_elements_for_each_row(rt: HostRuntime) {
    let alloc = rt.alloc();
    let values = pairs(alloc)
        .expect(&rt, "made")
        .slice(alloc, 0..0)
        .expect(&rt, "made");
    let array = null_rows(alloc, values).expect(&rt, "made");
    let plain = array.to_canonical(alloc).expect(&rt, "made");
    let Layout::FixedSizeList { elements, .. } = plain.layout() else {
        panic!(rt; "no lists of one size");
    };
    assert!(rt; plain.len() == 2 && elements.len() == 4);
    assert!(rt; matches!(elements.layout(), Layout::Primitive { .. }));
}

#[test]
fn lists_within_lists_keep_their_elements(rt: HostRuntime) {
    let alloc = rt.alloc();
    let none = lists(alloc)
        .expect(&rt, "made")
        .slice(alloc, 0..0)
        .expect(&rt, "made");
    let values = ArrayRef::fixed_size_list(alloc, none, 3, Validity::NonNullable, 0).expect(
        &rt, "made",
    );
    let array = null_rows(alloc, values).expect(&rt, "made");
    let plain = array.to_canonical(alloc).expect(&rt, "made");
    let Layout::FixedSizeList { elements, .. } = plain.layout() else {
        panic!(rt; "no lists of one size");
    };
    let Layout::ListView {
        elements: within,
        ..
    } = elements.layout()
    else {
        panic!(rt; "no list view");
    };
    assert!(rt; elements.len() == 6 && within.len() == 4);
}
