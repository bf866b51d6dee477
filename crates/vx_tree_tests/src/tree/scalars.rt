// Rows as scalars.

use std::alloc::Global;
use vx_base::{Scalar, ScalarValue, VortexError};
use vx_test_help::samples::{dictionary, indices, lists};
use vx_tree::ArrayRef;

// The numbers of a row that is a list: none of another row.
fn numbers_of(alloc: Global, row: &Scalar) -> Result<Vec<Option<i128>>, VortexError> {
    let mut numbers = Vec::new(alloc);
    if let Some(ScalarValue::List(rows)) = row.value() {
        for row in rows.as_slice() {
            numbers.push(match row {
                Some(ScalarValue::Int(number)) => Some(*number),
                _ => None,
            })?;
        }
    }
    Ok(numbers)
}

#[test]
fn list_as_scalar(rt: HostRuntime) {
    let row = lists(rt.alloc())
        .expect(&rt, "made")
        .execute_scalar(rt.alloc(), 2)
        .expect(&rt, "made");
    let want = [Some(2), Some(3)];
    assert_eq!(rt;
        numbers_of(rt.alloc(), &row).expect(&rt, "made").as_slice(),
        want.as_slice()
    );
    assert!(rt; !row.dtype().is_nullable());
}

#[test]
fn dictionary_rows_as_scalars(rt: HostRuntime) {
    let array = dictionary(rt.alloc()).expect(&rt, "made");
    let row = array.execute_scalar(rt.alloc(), 4).expect(&rt, "made");
    assert!(rt; row.as_int() == Some(6) && row.dtype().is_nullable());
    assert!(rt;
        array
            .execute_scalar(rt.alloc(), 0)
            .expect(&rt, "made")
            .is_null()
    );
    assert!(rt;
        array
            .execute_scalar(rt.alloc(), 1)
            .expect(&rt, "made")
            .is_null()
    );
}

#[test]
fn scalar_past_the_end(rt: HostRuntime) {
    let array: ArrayRef = indices(rt.alloc()).expect(&rt, "made");
    let found = match array.execute_scalar(rt.alloc(), 3) {
        Err(VortexError::OutOfBounds { index: 3, len: 3 }) => true,
        _ => false,
    };
    assert!(rt; found);
}
