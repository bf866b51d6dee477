// Rows in runs.

use std::alloc::Global;
use std::process::Abort;
use vx_base::{Nullability, PType, Scalar, VortexError};
use vx_test_help::bools;
use vx_test_help::rows::{is_list, is_truth};
use vx_test_help::samples::lists;
use vx_tree::{ArrayRef, Layout};

// 2 to the 60, and half of what can be counted.
const HUGE: usize = 1152921504606846976;

const HALF: usize = 9223372036854775808;

// The rows of two runs, that are to lie within.
fn two_runs(
    rt: &impl Abort,
    alloc: Global,
    array: &ArrayRef,
    first: (usize, usize),
    second: (usize, usize),
) -> Result<ArrayRef, VortexError> {
    assert!(rt; first.0 <= first.1 && first.1 <= array.len());
    assert!(rt; second.0 <= second.1 && second.1 <= array.len());
    array.take_runs(alloc, &[first, second])
}

#[test]
fn booleans_in_runs(rt: HostRuntime) {
    let array = bools(rt.alloc(), &[true, true, false, true]).expect(&rt, "made");
    let taken = two_runs(&rt, rt.alloc(), &array, (2, 4), (0, 1)).expect(&rt, "made");
    assert_eq!(rt; taken.len(), 3);
    assert!(rt; is_truth(rt.alloc(), &taken, 0, Some(false)).expect(&rt, "made"));
    assert!(rt; is_truth(rt.alloc(), &taken, 1, Some(true)).expect(&rt, "made"));
    assert!(rt; is_truth(rt.alloc(), &taken, 2, Some(true)).expect(&rt, "made"));
}

#[test]
fn lists_in_runs(rt: HostRuntime) {
    let taken = two_runs(
        &rt,
        rt.alloc(),
        &lists(rt.alloc()).expect(&rt, "made"),
        (1, 3),
        (3, 3),
    )
    .expect(&rt, "made");
    assert_eq!(rt; taken.len(), 2);
    assert!(rt; is_list(rt.alloc(), &taken, 0, Some(&[1])).expect(&rt, "made"));
    assert!(rt; is_list(rt.alloc(), &taken, 1, Some(&[2, 3])).expect(&rt, "made"));
}

// The number 7 so many times.
fn sevens(alloc: Global, len: usize) -> Result<ArrayRef, VortexError> {
    ArrayRef::constant(
        alloc,
        Scalar::int(7, PType::I32, Nullability::NonNullable),
        len,
    )
}

#[test]
fn runs_of_a_huge_constant(rt: HostRuntime) {
    let array = sevens(rt.alloc(), HUGE).expect(&rt, "made");
    let taken = two_runs(&rt, rt.alloc(), &array, (0, HUGE), (5, 7)).expect(&rt, "made");
    assert!(rt; taken.len() == HUGE + 2 && matches!(taken.layout(), Layout::Constant { .. }));
}

#[test]
fn runs_that_cannot_be_counted(rt: HostRuntime) {
    let array = sevens(rt.alloc(), HALF).expect(&rt, "made");
    let found = match two_runs(&rt, rt.alloc(), &array, (0, HALF), (0, HALF)) {
        Err(VortexError::Overflow) => true,
        _ => false,
    };
    assert!(rt; found);
}
