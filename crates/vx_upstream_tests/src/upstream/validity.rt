// The tests of `validity.rs`.

use super::numbers;
use std::alloc::Global;
use vx_base::VortexError;
use vx_test_help::{ints, valid_where};
use vx_tree::{ArrayRef, Validity};

// Whether five rows, patched at 2 and 4, are valid as is wanted.
fn patches_to(
    alloc: Global,
    rows: Validity,
    patches: &Validity,
    wanted: &Validity,
) -> Result<bool, VortexError> {
    let places = ints::<u64>(alloc, &[2, 4])?;
    patches.check(2)?;
    rows.check(5)?;
    let patched = rows.patch(alloc, 5, 0, &places, patches)?;
    patched.check(5)?;
    wanted.check(5)?;
    patched.mask_eq(alloc, wanted, 5)
}

#[test]
fn patch_validity_of_valid_rows(rt: HostRuntime) {
    let alloc = rt.alloc();
    let valid = Validity::AllValid;
    assert!(rt; patches_to(alloc, Validity::AllValid, &valid, &valid).expect(&rt, "made"));
    let wanted = valid_where(alloc, &[true, true, false, true, false]).expect(&rt, "made");
    assert!(rt;
        patches_to(alloc, Validity::AllValid, &Validity::AllInvalid, &wanted).expect(&rt, "made")
    );
    let patches = valid_where(alloc, &[true, false]).expect(&rt, "made");
    let wanted = valid_where(alloc, &[true, true, true, true, false]).expect(&rt, "made");
    assert!(rt; patches_to(alloc, Validity::AllValid, &patches, &wanted).expect(&rt, "made"));
}

#[test]
fn patch_validity_of_null_rows(rt: HostRuntime) {
    let alloc = rt.alloc();
    let wanted = valid_where(alloc, &[false, false, true, false, true]).expect(&rt, "made");
    assert!(rt;
        patches_to(alloc, Validity::AllInvalid, &Validity::AllValid, &wanted).expect(&rt, "made")
    );
    let null = Validity::AllInvalid;
    assert!(rt; patches_to(alloc, Validity::AllInvalid, &null, &null).expect(&rt, "made"));
    let patches = valid_where(alloc, &[true, false]).expect(&rt, "made");
    let wanted = valid_where(alloc, &[false, false, true, false, false]).expect(&rt, "made");
    assert!(rt; patches_to(alloc, Validity::AllInvalid, &patches, &wanted).expect(&rt, "made"));
}

#[test]
fn patch_validity_of_some_rows(rt: HostRuntime) {
    let alloc = rt.alloc();
    let rows = valid_where(alloc, &[false, true, false, true, false]).expect(&rt, "made");
    let wanted = valid_where(alloc, &[false, true, true, true, true]).expect(&rt, "made");
    assert!(rt;
        patches_to(
            alloc,
            rows.try_clone(alloc).expect(&rt, "made"),
            &Validity::AllValid,
            &wanted
        )
        .expect(&rt, "made")
    );
    let wanted = valid_where(alloc, &[false, true, false, true, false]).expect(&rt, "made");
    assert!(rt;
        patches_to(
            alloc,
            rows.try_clone(alloc).expect(&rt, "made"),
            &Validity::AllInvalid,
            &wanted
        )
        .expect(&rt, "made")
    );
    let patches = valid_where(alloc, &[true, false]).expect(&rt, "made");
    let wanted = valid_where(alloc, &[false, true, true, true, false]).expect(&rt, "made");
    assert!(rt; patches_to(alloc, rows, &patches, &wanted).expect(&rt, "made"));
}

#[test]
fn rejects_invalid_patch(rt: HostRuntime) {
    let alloc = rt.alloc();
    let first = ints::<u64>(alloc, &[1]).expect(&rt, "made");
    let refused = Validity::NonNullable.patch(alloc, 2, 0, &first, &Validity::AllInvalid);
    assert!(rt; matches!(refused, Err(VortexError::NullabilityMismatch)));
    let past = ints::<u64>(alloc, &[4]).expect(&rt, "made");
    let refused = Validity::AllValid.patch(alloc, 2, 0, &past, &Validity::AllInvalid);
    assert!(rt; matches!(refused, Err(VortexError::PatchOutOfRange { row: 0 })));
}

// Whether rows that are taken are nullable and valid as is wanted.
fn takes_to(
    alloc: Global,
    rows: &Validity,
    indices: &ArrayRef,
    wanted: &Validity,
) -> Result<bool, VortexError> {
    let taken = rows.take(alloc, indices)?;
    taken.check(2)?;
    wanted.check(2)?;
    Ok(taken.nullability() == wanted.nullability() && taken.mask_eq(alloc, wanted, 2)?)
}

#[test]
fn validity_take(rt: HostRuntime) {
    let alloc = rt.alloc();
    let plain = ints::<i32>(alloc, &[0, 1]).expect(&rt, "made");
    let some = numbers(
        alloc,
        &[0i32, 1],
        valid_where(alloc, &[true, false]).expect(&rt, "made"),
    )
    .expect(&rt, "made");
    let none = numbers(alloc, &[0i32, 1], Validity::AllInvalid).expect(&rt, "made");
    let first = valid_where(alloc, &[true, false]).expect(&rt, "made");
    for rows in [Validity::AllValid, Validity::NonNullable] {
        assert!(rt; takes_to(alloc, &rows, &some, &first).expect(&rt, "made"));
        assert!(rt; takes_to(alloc, &rows, &plain, &rows).expect(&rt, "made"));
        assert!(rt; takes_to(alloc, &rows, &none, &Validity::AllInvalid).expect(&rt, "made"));
    }
}

// Whether two validities of three rows have equal masks.
fn are_equal(alloc: Global, one: &Validity, other: &Validity) -> Result<bool, VortexError> {
    one.check(3)?;
    other.check(3)?;
    one.mask_eq(alloc, other, 3)
}

#[test]
fn mask_eq_mixed_variants(rt: HostRuntime) {
    let alloc = rt.alloc();
    let plain = Validity::NonNullable;
    let valid = Validity::AllValid;
    let null = Validity::AllInvalid;
    assert!(rt;
        are_equal(alloc, &plain, &valid).expect(&rt, "made")
            && are_equal(alloc, &valid, &plain).expect(&rt, "made")
    );
    assert!(rt;
        !are_equal(alloc, &valid, &null).expect(&rt, "made")
            && !are_equal(alloc, &plain, &null).expect(&rt, "made")
    );
    let set = valid_where(alloc, &[true, true, true]).expect(&rt, "made");
    assert!(rt;
        are_equal(alloc, &set, &valid).expect(&rt, "made")
            && are_equal(alloc, &plain, &set).expect(&rt, "made")
    );
    let unset = valid_where(alloc, &[false, false, false]).expect(&rt, "made");
    assert!(rt; are_equal(alloc, &unset, &null).expect(&rt, "made"));
    let mixed = valid_where(alloc, &[true, false, true]).expect(&rt, "made");
    assert!(rt;
        !are_equal(alloc, &mixed, &valid).expect(&rt, "made")
            && !are_equal(alloc, &mixed, &null).expect(&rt, "made")
    );
}
