// Validities that are made of others, on values worked out by hand.

use super::validities::{expect_valid, not_of_booleans, valid};
use vx_base::{Mask, Nullability, Scalar, VortexError};
use vx_tree::{ArrayRef, Layout, Validity};

// ---- joined

#[test]
fn states_are_joined(rt: HostRuntime) {
    let alloc = rt.alloc();
    let parts = vec![in alloc; (Validity::AllValid, 2), (Validity::AllInvalid, 1)].expect(
        &rt, "made",
    );
    match Validity::concat(alloc, parts).expect(&rt, "made") {
        Some(joined) => expect_valid(&rt, alloc, &joined, &[true, true, false]).expect(&rt, "made"),
        None => assert!(rt; false, "nothing is joined"),
    }
}

#[test]
fn nothing_is_joined_of_none(rt: HostRuntime) {
    let joined = Validity::concat(rt.alloc(), Vec::new(rt.alloc())).expect(&rt, "made");
    assert!(rt; joined.is_none());
}

#[test]
fn one_state_alone_stays(rt: HostRuntime) {
    let alloc = rt.alloc();
    let most = usize::MAX;
    let parts = vec![in alloc; (Validity::AllInvalid, most), (Validity::AllInvalid, most)].expect(
        &rt, "made",
    );
    match Validity::concat(alloc, parts).expect(&rt, "made") {
        Some(joined) => assert!(rt; joined.definitely_all_null()),
        None => assert!(rt; false, "nothing is joined"),
    }
}

#[test]
fn arrays_and_states_are_joined(rt: HostRuntime) {
    let alloc = rt.alloc();
    let some = valid(alloc, &[true, false, true]).expect(&rt, "made");
    let parts = vec![in alloc;
        (some, 3),
        (Validity::NonNullable, 1),
        (Validity::AllInvalid, 2),
    ]
    .expect(&rt, "made");
    match Validity::concat(alloc, parts).expect(&rt, "made") {
        Some(joined) => {
            expect_valid(
                &rt,
                alloc,
                &joined,
                &[true, false, true, true, false, false],
            )
            .expect(&rt, "made");
        }
        None => assert!(rt; false, "nothing is joined"),
    }
}

#[test]
fn joined_types_are_refused_first(rt: HostRuntime) {
    let alloc = rt.alloc();
    let most = usize::MAX;
    let wrong = not_of_booleans(alloc).expect(&rt, "made");
    let parts = vec![in alloc;
        (Validity::AllValid, most),
        (Validity::AllInvalid, most),
        (wrong, 2),
    ]
    .expect(&rt, "made");
    let joined = Validity::concat(alloc, parts);
    assert!(rt; matches!(joined, Err(VortexError::MismatchedTypes)));
}

#[test]
fn too_many_joined_rows_are_refused(rt: HostRuntime) {
    let alloc = rt.alloc();
    let parts = vec![in alloc;
        (Validity::AllValid, usize::MAX),
        (Validity::NonNullable, 1),
    ]
    .expect(&rt, "made");
    let joined = Validity::concat(alloc, parts);
    assert!(rt; matches!(joined, Err(VortexError::Overflow)));
}

// ---- of iterators

#[test]
fn booleans_of_an_iterator(rt: HostRuntime) {
    let some = Validity::from_iter(rt.alloc(), [true, false, true].into_iter()).expect(&rt, "made");
    expect_valid(&rt, rt.alloc(), &some, &[true, false, true]).expect(&rt, "made");
}

#[test]
fn even_booleans_of_an_iterator(rt: HostRuntime) {
    let all = Validity::from_iter(rt.alloc(), [true, true].into_iter()).expect(&rt, "made");
    assert!(rt; all.definitely_no_nulls() && all.nullability() == Nullability::Nullable);
    let none = Validity::from_iter(rt.alloc(), [false].into_iter()).expect(&rt, "made");
    assert!(rt; none.definitely_all_null());
}

#[test]
fn no_booleans_of_an_iterator(rt: HostRuntime) {
    let empty = Validity::from_iter(rt.alloc(), [true; 0].into_iter()).expect(&rt, "made");
    assert!(rt; empty.definitely_no_nulls());
}

#[test]
fn masks_of_an_iterator(rt: HostRuntime) {
    let masks = vec![in rt.alloc(); Mask::new_true(1), Mask::new_false(2)].expect(&rt, "made");
    let some = Validity::from_mask_iter(rt.alloc(), masks.into_iter()).expect(&rt, "made");
    expect_valid(&rt, rt.alloc(), &some, &[true, false, false]).expect(&rt, "made");
}

#[test]
fn too_many_masks_of_an_iterator(rt: HostRuntime) {
    let masks = vec![in rt.alloc(); Mask::new_true(usize::MAX), Mask::new_true(1)].expect(
        &rt, "made",
    );
    let many = Validity::from_mask_iter(rt.alloc(), masks.into_iter());
    assert!(rt; matches!(many, Err(VortexError::Overflow)));
}

// ---- executed

#[test]
fn a_constant_array_is_executed(rt: HostRuntime) {
    let alloc = rt.alloc();
    let scalar = Scalar::bool(false, Nullability::NonNullable);
    let none = Validity::Array(ArrayRef::constant(alloc, scalar, 2).expect(&rt, "made"));
    let plain = none.execute(alloc).expect(&rt, "made");
    expect_valid(&rt, alloc, &plain, &[false, false]).expect(&rt, "made");
    match plain.as_array() {
        Some(array) => assert!(rt; matches!(array.layout(), Layout::Bool { .. })),
        None => assert!(rt; false, "no array"),
    }
}

#[test]
fn a_state_is_executed(rt: HostRuntime) {
    let alloc = rt.alloc();
    let state = Validity::AllInvalid.execute(alloc).expect(&rt, "made");
    assert!(rt; state.definitely_all_null());
    let wrong = not_of_booleans(alloc).expect(&rt, "made").execute(alloc);
    assert!(rt; matches!(wrong, Err(VortexError::MismatchedTypes)));
}

// ---- shown

#[test]
fn states_are_shown(rt: HostRuntime) {
    let alloc = rt.alloc();
    let array = valid(alloc, &[true, false]).expect(&rt, "made");
    assert_eq!(rt;
        format!(in alloc; "{:?}", Validity::NonNullable)
            .expect(&rt, "made")
            .as_str(),
        "NonNullable"
    );
    assert_eq!(rt;
        format!(in alloc; "{:?}", Validity::AllValid)
            .expect(&rt, "made")
            .as_str(),
        "AllValid"
    );
    assert_eq!(rt;
        format!(in alloc; "{:?}", Validity::AllInvalid)
            .expect(&rt, "made")
            .as_str(),
        "AllInvalid"
    );
    assert_eq!(rt;
        format!(in alloc; "{array:?}").expect(&rt, "made").as_str(),
        "Array(..)"
    );
}
