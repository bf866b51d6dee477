// Lists of one size.

ghost use Rattle.std.specs.Prelude.{◌≡◌, ◌*◌, IfOk};
ghost use Rattle.vx_tree.specs.Meaning.{tree_len};

use std::alloc::Global;
use vx_base::{DType, Nullability, PType, Scalar, VortexError};
use vx_test_help::rows::has_elements;
use vx_test_help::samples::{huge_list, indices, pairs};
use vx_test_help::{bools, numbers};
use vx_tree::{ArrayRef, Validity, fewer_rows_are_countable};

// So many lists of no elements.
pub(crate) fn no_elements(alloc: Global, size: u32, len: usize) -> Result<ArrayRef, VortexError>
    requires { len * size ≡ 0 }
    ensures { IfOk result (λ a. tree_len a ≡ len) }
{
    let elements = numbers(alloc, PType::U8, &[], Validity::NonNullable)?;
    ArrayRef::fixed_size_list(alloc, elements, size, Validity::NonNullable, len)
}

#[test]
fn rows_of_pairs(rt: HostRuntime) {
    let array = pairs(rt.alloc()).expect(&rt, "made");
    fewer_rows_are_countable(&array);
    assert!(rt; array.len() == 3 && array.is_valid(rt.alloc(), 2).expect(&rt, "made"));
    assert!(rt;
        matches!(
            array.dtype(),
            DType::FixedSizeList(_, 2, Nullability::NonNullable)
        )
    );
    assert!(rt; has_elements(&array, 0, &[1, 2, 3, 4, 5, 6]));
}

#[test]
fn rows_of_no_elements(rt: HostRuntime) {
    let array = no_elements(rt.alloc(), 0, 3).expect(&rt, "made");
    assert!(rt; array.len() == 3 && array.is_valid(rt.alloc(), 2).expect(&rt, "made"));
    let taken = array
        .take(rt.alloc(), &indices(rt.alloc()).expect(&rt, "made"))
        .expect(&rt, "made");
    assert!(rt; taken.len() == 3 && !taken.is_valid(rt.alloc(), 1).expect(&rt, "made"));
    assert_eq!(rt; taken.slice(rt.alloc(), 1..3).expect(&rt, "made").len(), 2);
}

#[test]
fn slice_of_pairs(rt: HostRuntime) {
    let part = pairs(rt.alloc())
        .expect(&rt, "made")
        .slice(rt.alloc(), 1..3)
        .expect(&rt, "made");
    assert_eq!(rt; part.len(), 2);
    assert!(rt; has_elements(&part, 0, &[3, 4, 5, 6]));
}

#[test]
fn take_of_pairs(rt: HostRuntime) {
    let taken = pairs(rt.alloc())
        .expect(&rt, "made")
        .take(rt.alloc(), &indices(rt.alloc()).expect(&rt, "made"))
        .expect(&rt, "made");
    assert!(rt; taken.len() == 3 && !taken.is_valid(rt.alloc(), 1).expect(&rt, "made"));
    assert!(rt;
        taken.is_valid(rt.alloc(), 0).expect(&rt, "made")
            && taken.is_valid(rt.alloc(), 2).expect(&rt, "made")
    );
    assert!(rt; has_elements(&taken, 0, &[5, 6]));
    assert!(rt; has_elements(&taken, 4, &[1, 2]));
}

// No position of their elements is written out.
#[test]
fn take_of_one_pair_again_and_again(rt: HostRuntime) {
    let seven = Scalar::int(7, PType::U8, Nullability::NonNullable);
    let elements = ArrayRef::constant(rt.alloc(), seven, 6).expect(&rt, "made");
    let lists = ArrayRef::fixed_size_list(rt.alloc(), elements, 2, Validity::NonNullable, 3).expect(
        &rt, "made",
    );
    let one = Scalar::int(1, PType::U8, Nullability::NonNullable);
    let indices = ArrayRef::constant(rt.alloc(), one, 1099511627776).expect(&rt, "made");
    let taken = lists.take(rt.alloc(), &indices).expect(&rt, "made");
    assert_eq!(rt; taken.len(), 1099511627776);
    assert!(rt; has_elements(&taken, 2199023255550, &[7, 7]));
    let indices = indices.slice(rt.alloc(), 0..3).expect(&rt, "made");
    let taken = pairs(rt.alloc())
        .expect(&rt, "made")
        .take(rt.alloc(), &indices)
        .expect(&rt, "made");
    assert!(rt; has_elements(&taken, 0, &[3, 4, 3, 4, 3, 4]));
}

#[test]
fn mask_of_pairs(rt: HostRuntime) {
    let mask = bools(rt.alloc(), &[true, false, true]).expect(&rt, "made");
    let masked = pairs(rt.alloc())
        .expect(&rt, "made")
        .mask(rt.alloc(), &mask)
        .expect(&rt, "made");
    assert!(rt;
        masked.is_valid(rt.alloc(), 0).expect(&rt, "made")
            && !masked.is_valid(rt.alloc(), 1).expect(&rt, "made")
    );
    assert!(rt; has_elements(&masked, 0, &[1, 2, 3, 4, 5, 6]));
}

#[test]
fn nulls_taken_from_no_pairs(rt: HostRuntime) {
    let nulls = ArrayRef::constant(
        rt.alloc(),
        Scalar::null(DType::Primitive(PType::U8, Nullability::Nullable)),
        2,
    )
    .expect(&rt, "made");
    let taken = no_elements(rt.alloc(), 2, 0)
        .expect(&rt, "made")
        .take(rt.alloc(), &nulls)
        .expect(&rt, "made");
    assert!(rt; taken.len() == 2 && !taken.is_valid(rt.alloc(), 0).expect(&rt, "made"));
    assert!(rt;
        matches!(
            taken.dtype(),
            DType::FixedSizeList(_, 2, Nullability::Nullable)
        )
    );
}

#[test]
fn take_of_a_huge_list(rt: HostRuntime) {
    let list = huge_list(rt.alloc()).expect(&rt, "made");
    let zero = Scalar::int(0, PType::U8, Nullability::NonNullable);
    let indices = ArrayRef::constant(rt.alloc(), zero, 8192).expect(&rt, "made");
    let refused = match list.take(rt.alloc(), &indices) {
        Err(VortexError::Overflow) => true,
        _ => false,
    };
    assert!(rt; refused);
    let fewer = indices.slice(rt.alloc(), 1..8192).expect(&rt, "made");
    assert_eq!(rt;
        list.take(rt.alloc(), &fewer).expect(&rt, "made").len(),
        8191
    );
}
