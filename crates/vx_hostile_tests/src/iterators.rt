// Iterators that promise more items than memory has, and give three: each call that takes an
// iterator takes these.

mod records;
mod texts;

use std::test::Fail;
use vx_base::{BitBuffer, Mask, Nullability};
use vx_leaves::{BoolArray, BoolArrayExt, PrimitiveArray, PrimitiveArrayExt};
use vx_test_help::Boasting;
use vx_tree::Validity;

#[test]
fn numbers(rt: HostRuntime) {
    let items = [7u8, 8, 9];
    let items = Boasting {
        items: items.iter().copied(),
    };
    let array = PrimitiveArray::from_iter(rt.alloc(), items).expect(&rt, "made");
    assert!(rt; array.buffer_handle().as_slice() == [7u8, 8, 9].as_slice());
    assert_eq!(rt; array.nullability(), Nullability::NonNullable);
}

#[test]
fn numbers_that_may_be_none(rt: HostRuntime) {
    let items = [Some(7u8), None, Some(9)];
    let items = Boasting {
        items: items.iter().copied(),
    };
    let array = PrimitiveArray::from_option_iter(rt.alloc(), items).expect(&rt, "made");
    assert!(rt; array.buffer_handle().as_slice() == [7u8, 0, 9].as_slice());
    let valid = array.validity(rt.alloc()).expect(&rt, "made");
    assert!(rt;
        valid.is_valid(rt.alloc(), 0).expect(&rt, "made")
            && !valid.is_valid(rt.alloc(), 1).expect(&rt, "made")
    );
}

#[test]
fn places(rt: HostRuntime) {
    let items = [2usize, 0, 2];
    let items = Boasting {
        items: items.iter().copied(),
    };
    let array = BoolArray::from_indices(rt.alloc(), 3, items, Validity::NonNullable).expect(
        &rt, "made",
    );
    let bits = array.to_bit_buffer(rt.alloc()).expect(&rt, "made");
    assert!(rt;
        bits == BitBuffer::from_bools(rt.alloc(), &[true, false, true]).expect(&rt, "made")
    );
}

#[test]
fn truth_values(rt: HostRuntime) {
    let items = [true, false, true];
    let items = Boasting {
        items: items.iter().copied(),
    };
    let array = BoolArray::from_iter(rt.alloc(), items).expect(&rt, "made");
    let bits = array.to_bit_buffer(rt.alloc()).expect(&rt, "made");
    assert!(rt;
        bits == BitBuffer::from_bools(rt.alloc(), &[true, false, true]).expect(&rt, "made")
    );
}

#[test]
fn truth_values_that_may_be_none(rt: HostRuntime) {
    let items = [Some(true), None, Some(true)];
    let items = Boasting {
        items: items.iter().copied(),
    };
    let array = BoolArray::from_option_iter(rt.alloc(), items).expect(&rt, "made");
    let bits = array.to_bit_buffer(rt.alloc()).expect(&rt, "made");
    assert!(rt;
        bits == BitBuffer::from_bools(rt.alloc(), &[true, false, true]).expect(&rt, "made")
    );
    let valid = array.validity(rt.alloc()).expect(&rt, "made");
    assert!(rt;
        valid.is_valid(rt.alloc(), 0).expect(&rt, "made")
            && !valid.is_valid(rt.alloc(), 1).expect(&rt, "made")
    );
}

#[test]
fn rows_that_are_valid(rt: HostRuntime) {
    let items = [true, false, true];
    let items = Boasting {
        items: items.iter().copied(),
    };
    let valid = Validity::from_iter(rt.alloc(), items).expect(&rt, "made");
    assert_eq!(rt; valid.maybe_len(), Some(3));
    assert!(rt;
        valid.is_valid(rt.alloc(), 0).expect(&rt, "made")
            && !valid.is_valid(rt.alloc(), 1).expect(&rt, "made")
    );
}

#[test]
fn masks(rt: HostRuntime) {
    let masks = [Mask::new_true(1), Mask::new_false(1), Mask::new_true(1)];
    let items = Boasting {
        items: Vec::from_array(rt.alloc(), masks)
            .expect(&rt, "made")
            .into_iter(),
    };
    let valid = Validity::from_mask_iter(rt.alloc(), items).expect(&rt, "made");
    assert_eq!(rt; valid.maybe_len(), Some(3));
    assert!(rt;
        valid.is_valid(rt.alloc(), 0).expect(&rt, "made")
            && !valid.is_valid(rt.alloc(), 1).expect(&rt, "made")
    );
}
