// Rows under masks.

use vx_base::{BitBuffer, Mask, Nullability, PType, Scalar, VortexError};
use vx_test_help::bools;
use vx_test_help::rows::{is_list, is_number};
use vx_test_help::samples::{dictionary, indices, lists};
use vx_tree::{ArrayRef, Layout};

#[test]
fn filter_of_lists(rt: HostRuntime) {
    let bits = BitBuffer::from_bools(rt.alloc(), &[true, false, true]).expect(&rt, "made");
    let mask = Mask::from_buffer(rt.alloc(), bits).expect(&rt, "made");
    let left = lists(rt.alloc())
        .expect(&rt, "made")
        .filter(rt.alloc(), &mask)
        .expect(&rt, "made");
    assert_eq!(rt; left.len(), 2);
    assert!(rt; is_list(rt.alloc(), &left, 0, Some(&[3, 4])).expect(&rt, "made"));
    assert!(rt; is_list(rt.alloc(), &left, 1, Some(&[2, 3])).expect(&rt, "made"));
}

#[test]
fn filter_of_a_dictionary(rt: HostRuntime) {
    let bits = BitBuffer::from_bools(rt.alloc(), &[false, true, true, false, true]).expect(
        &rt, "made",
    );
    let mask = Mask::from_buffer(rt.alloc(), bits).expect(&rt, "made");
    let left = dictionary(rt.alloc())
        .expect(&rt, "made")
        .filter(rt.alloc(), &mask)
        .expect(&rt, "made");
    assert!(rt; left.len() == 3 && is_number(&left, 0, None));
    assert!(rt; is_number(&left, 1, Some(9)) && is_number(&left, 2, Some(6)));
}

#[test]
fn filter_of_a_huge_constant(rt: HostRuntime) {
    let len = 1 << 60;
    let scalar = Scalar::int(7, PType::I32, Nullability::NonNullable);
    let array = ArrayRef::constant(rt.alloc(), scalar, len).expect(&rt, "made");
    assert_eq!(rt;
        array
            .filter(rt.alloc(), &Mask::new_true(len))
            .expect(&rt, "made")
            .len(),
        len
    );
    assert!(rt;
        array
            .filter(rt.alloc(), &Mask::new_false(len))
            .expect(&rt, "made")
            .is_empty()
    );
}

#[test]
fn filter_of_a_constant(rt: HostRuntime) {
    let scalar = Scalar::int(7, PType::I32, Nullability::NonNullable);
    let array = ArrayRef::constant(rt.alloc(), scalar, 5).expect(&rt, "made");
    let bits = BitBuffer::from_bools(rt.alloc(), &[true, false, true, true, false]).expect(
        &rt, "made",
    );
    let left = array
        .filter(
            rt.alloc(),
            &Mask::from_buffer(rt.alloc(), bits).expect(&rt, "made"),
        )
        .expect(&rt, "made");
    assert!(rt; left.len() == 3 && matches!(left.layout(), Layout::Constant { .. }));
    assert!(rt; is_number(&left, 2, Some(7)));
}

#[test]
fn filter_by_a_longer_mask(rt: HostRuntime) {
    let found = match lists(rt.alloc())
        .expect(&rt, "made")
        .filter(rt.alloc(), &Mask::new_true(4))
    {
        Err(
            VortexError::LengthMismatch {
                expected: 3,
                found: 4,
            },
        ) => true,
        _ => false,
    };
    assert!(rt; found);
}

#[test]
fn mask_of_lists(rt: HostRuntime) {
    let mask = bools(rt.alloc(), &[true, false, true]).expect(&rt, "made");
    let masked = lists(rt.alloc())
        .expect(&rt, "made")
        .mask(rt.alloc(), &mask)
        .expect(&rt, "made");
    assert!(rt; masked.len() == 3 && masked.dtype().is_nullable());
    assert!(rt; is_list(rt.alloc(), &masked, 0, Some(&[3, 4])).expect(&rt, "made"));
    assert!(rt; is_list(rt.alloc(), &masked, 1, None).expect(&rt, "made"));
    assert!(rt; is_list(rt.alloc(), &masked, 2, Some(&[2, 3])).expect(&rt, "made"));
}

#[test]
fn mask_of_a_constant(rt: HostRuntime) {
    let scalar = Scalar::int(7, PType::I32, Nullability::NonNullable);
    let array = ArrayRef::constant(rt.alloc(), scalar, 2).expect(&rt, "made");
    let masked = array
        .mask(
            rt.alloc(),
            &bools(rt.alloc(), &[false, true]).expect(&rt, "made"),
        )
        .expect(&rt, "made");
    assert!(rt; masked.len() == 2 && matches!(masked.layout(), Layout::Dict { .. }));
    assert!(rt; is_number(&masked, 0, None) && is_number(&masked, 1, Some(7)));
}

#[test]
fn mask_by_numbers(rt: HostRuntime) {
    let found = match lists(rt.alloc())
        .expect(&rt, "made")
        .mask(rt.alloc(), &indices(rt.alloc()).expect(&rt, "made"))
    {
        Err(VortexError::MismatchedTypes) => true,
        _ => false,
    };
    assert!(rt; found);
}

#[test]
fn mask_by_a_shorter_array(rt: HostRuntime) {
    let found = match lists(rt.alloc()).expect(&rt, "made").mask(
        rt.alloc(),
        &bools(rt.alloc(), &[true]).expect(&rt, "made"),
    ) {
        Err(VortexError::LengthMismatch { .. }) => true,
        _ => false,
    };
    assert!(rt; found);
}
