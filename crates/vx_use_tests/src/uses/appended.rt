// Arrays that are joined in two steps.

use std::test::Fail;
use vx_base::VortexError;
use vx_test_help::{bools, has_numbers, ints};
use vx_uses::appended::appended;

#[test]
fn a_later_array_is_appended(rt: HostRuntime) -> Result<(), Fail> {
    let alloc = rt.alloc();
    let first = [ints::<u8>(alloc, &[1, 2])?, ints::<u8>(alloc, &[3])?];
    let joined = appended(alloc, &first, &ints::<u8>(alloc, &[4])?)?;
    assert!(rt; has_numbers(&joined, &[1, 2, 3, 4]));
    Ok(())
}

#[test]
fn appending_is_refused_as_joining_is(rt: HostRuntime) -> Result<(), Fail> {
    let alloc = rt.alloc();
    let first = [ints::<u8>(alloc, &[1, 2])?];
    let refused = appended(alloc, &first, &bools(alloc, &[true])?);
    assert!(rt; matches!(refused, Err(VortexError::DifferingDtypes)));
    let refused = appended(alloc, &[], &ints::<u8>(alloc, &[4])?);
    assert!(rt; matches!(refused, Err(VortexError::EmptyInput)));
    Ok(())
}
