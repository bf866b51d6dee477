// Validities, on values worked out by hand.

ghost use Rattle.std.specs.Prelude.{◌≡◌, ◌≤◌, IfOk};
ghost use Rattle.vx_tree.specs.Formed.{IsLenOf};
ghost use Rattle.vx_tree.specs.Parts.{valid_of};
ghost use Rattle.vx_tree.specs.Tree.{bools, by_array, non_nullable};

use std::alloc::Global;
use std::process::Abort;
use vx_base::{BitBuffer, ByteBuffer, Mask, Nullability, PType, Scalar, VortexError};
use vx_test_help::{bools, numbers};
use vx_tree::{
    ArrayRef, IntoArray, Layout, Validity, and_associates, and_commutes, and_has_a_unit,
    and_repeats, trivial_casts_are_casts,
};

// ---- validities and indices

// Valid where the boolean is true.
pub(crate) fn valid(alloc: Global, values: &[bool]) -> Result<Validity, VortexError>
    ensures { IfOk result (λ v. valid_of v ≡ by_array (bools 0 values.now non_nullable)) }
{
    Ok(Validity::Array(bools(alloc, values)?))
}

// A validity array of two rows of another data type.
pub(crate) fn not_of_booleans(alloc: Global) -> Result<Validity, VortexError>
    ensures { IfOk result (λ v. IsLenOf (valid_of v) 2) }
{
    let scalar = Scalar::int(1, PType::U8, Nullability::NonNullable);
    Ok(Validity::Array(ArrayRef::constant(alloc, scalar, 2)?))
}

// The numbers 2, 4.
fn two_and_four(alloc: Global) -> Result<ArrayRef, VortexError> {
    numbers(alloc, PType::U8, &[2, 4], Validity::NonNullable)
}

// The numbers 0, 1.
fn zero_and_one(alloc: Global) -> Result<ArrayRef, VortexError> {
    numbers(alloc, PType::U8, &[0, 1], Validity::NonNullable)
}

// Stops unless the rows are valid where this is true.
pub(crate) fn expect_valid(
    rt: &impl Abort,
    alloc: Global,
    validity: &Validity,
    want: &[bool],
) -> Result<(), VortexError> {
    validity.check(want.len())?;
    for (i, valid) in want.iter().enumerate() {
        assert_eq!(rt; validity.is_valid(alloc, i)?, *valid, "at {i}");
    }
    Ok(())
}

// ---- patches

// Stops unless five rows, patched at the places 2 and 4, are valid where this is true.
fn expect_patched(
    rt: &impl Abort,
    alloc: Global,
    rows: Validity,
    patches: &Validity,
    want: &[bool],
) -> Result<(), VortexError> {
    let patched = rows.patch(alloc, 5, 0, &two_and_four(alloc)?, patches)?;
    expect_valid(rt, alloc, &patched, want)
}

#[test]
fn places_of_patches_are_counted_from_an_offset(rt: HostRuntime) {
    let alloc = rt.alloc();
    let rows = Validity::AllInvalid;
    let patched = rows
        .patch(
            alloc,
            3,
            2,
            &two_and_four(alloc).expect(&rt, "made"),
            &Validity::AllValid,
        )
        .expect(&rt, "made");
    expect_valid(&rt, alloc, &patched, &[true, false, true]).expect(&rt, "made");
}

// Five rows that are all valid, by a constant.
fn five_valid(alloc: Global) -> Result<Validity, VortexError> {
    let scalar = Scalar::bool(true, Nullability::NonNullable);
    Ok(Validity::Array(ArrayRef::constant(alloc, scalar, 5)?))
}

#[test]
fn rows_of_a_constant_are_patched(rt: HostRuntime) {
    let alloc = rt.alloc();
    let rows = five_valid(alloc).expect(&rt, "made");
    expect_patched(&rt, alloc, rows, &Validity::AllValid, &[true; 5]).expect(&rt, "made");
    let want = [true, true, false, true, false];
    expect_patched(
        &rt,
        alloc,
        five_valid(alloc).expect(&rt, "made"),
        &Validity::AllInvalid,
        &want,
    )
    .expect(&rt, "made");
}

#[test]
fn no_row_is_patched(rt: HostRuntime) {
    let alloc = rt.alloc();
    let none = two_and_four(alloc)
        .expect(&rt, "made")
        .slice(alloc, 0..0)
        .expect(&rt, "made");
    let patched = five_valid(alloc)
        .expect(&rt, "made")
        .patch(alloc, 5, 0, &none, &Validity::AllInvalid)
        .expect(&rt, "made");
    expect_valid(&rt, alloc, &patched, &[true; 5]).expect(&rt, "made");
    let patched = Validity::AllInvalid
        .patch(alloc, 5, 0, &none, &Validity::AllValid)
        .expect(&rt, "made");
    expect_valid(&rt, alloc, &patched, &[false; 5]).expect(&rt, "made");
}

#[test]
fn last_of_equal_positions_wins(rt: HostRuntime) {
    let scalar = Scalar::int(1, PType::U8, Nullability::NonNullable);
    let places = ArrayRef::constant(rt.alloc(), scalar, 2).expect(&rt, "made");
    let patches = valid(rt.alloc(), &[false, true]).expect(&rt, "made");
    let patched = Validity::AllValid
        .patch(rt.alloc(), 3, 0, &places, &patches)
        .expect(&rt, "made");
    expect_valid(&rt, rt.alloc(), &patched, &[true, true, true]).expect(&rt, "made");
}

// ---- rows

// Two numbers that are null.
fn two_nulls(alloc: Global) -> Result<ArrayRef, VortexError> {
    zero_and_one(alloc)?.mask(alloc, &bools(alloc, &[false, false])?)
}

// Stops unless the rows at these places are valid where this is true, and can be null.
fn expect_taken(
    rt: &impl Abort,
    alloc: Global,
    rows: Validity,
    places: &ArrayRef,
    want: &[bool],
) -> Result<(), VortexError> {
    let taken = rows.take(alloc, places)?;
    assert!(rt; taken.nullability() == Nullability::Nullable);
    expect_valid(rt, alloc, &taken, want)
}

#[test]
fn rows_at_indices_that_are_all_null(rt: HostRuntime) {
    let alloc = rt.alloc();
    let places = two_nulls(alloc).expect(&rt, "made");
    expect_taken(&rt, alloc, Validity::AllValid, &places, &[false, false]).expect(&rt, "made");
    expect_taken(&rt, alloc, Validity::NonNullable, &places, &[false, false]).expect(&rt, "made");
    let rows = valid(alloc, &[true, true]).expect(&rt, "made");
    expect_taken(&rt, alloc, rows, &places, &[false, false]).expect(&rt, "made");
}

#[test]
fn rows_of_an_array_at_indices(rt: HostRuntime) {
    let alloc = rt.alloc();
    let places = two_and_four(alloc)
        .expect(&rt, "made")
        .mask(alloc, &bools(alloc, &[false, true]).expect(&rt, "made"))
        .expect(&rt, "made");
    let rows = valid(alloc, &[false, false, true, false, true]).expect(&rt, "made");
    expect_valid(
        &rt,
        alloc,
        &rows.take(alloc, &places).expect(&rt, "made"),
        &[false, true],
    )
    .expect(&rt, "made");
}

#[test]
fn rows_in_a_range(rt: HostRuntime) {
    let rows = valid(rt.alloc(), &[false, true, true]).expect(&rt, "made");
    expect_valid(
        &rt,
        rt.alloc(),
        &rows.slice(rt.alloc(), 0..2).expect(&rt, "made"),
        &[false, true],
    )
    .expect(&rt, "made");
    assert!(rt;
        Validity::AllInvalid
            .slice(rt.alloc(), 7..3)
            .expect(&rt, "made")
            .definitely_all_null()
    );
}

#[test]
fn rows_under_a_mask(rt: HostRuntime) {
    let bits = BitBuffer::from_bools(rt.alloc(), &[true, false, true]).expect(&rt, "made");
    let mask = Mask::from_buffer(rt.alloc(), bits).expect(&rt, "made");
    let rows = valid(rt.alloc(), &[false, true, true]).expect(&rt, "made");
    expect_valid(
        &rt,
        rt.alloc(),
        &rows.filter(rt.alloc(), &mask).expect(&rt, "made"),
        &[false, true],
    )
    .expect(&rt, "made");
}

#[test]
fn rows_the_other_way(rt: HostRuntime) {
    let rows = valid(rt.alloc(), &[false, true, true]).expect(&rt, "made");
    expect_valid(
        &rt,
        rt.alloc(),
        &rows.not(rt.alloc()).expect(&rt, "made"),
        &[true, false, false],
    )
    .expect(&rt, "made");
    assert!(rt;
        Validity::AllValid
            .not(rt.alloc())
            .expect(&rt, "made")
            .definitely_all_null()
    );
    assert!(rt;
        Validity::NonNullable
            .not(rt.alloc())
            .expect(&rt, "made")
            .definitely_no_nulls()
    );
}

#[test]
fn row_of_another_data_type(rt: HostRuntime) {
    let found = match not_of_booleans(rt.alloc())
        .expect(&rt, "made")
        .is_null(rt.alloc(), 7)
    {
        Err(VortexError::MismatchedTypes) => true,
        _ => false,
    };
    assert!(rt;
        found
            && Validity::AllInvalid
                .is_null(rt.alloc(), 7)
                .expect(&rt, "made")
    );
}

// ---- two of them

// Stops unless the rows that are valid in both are those where this is true.
fn expect_both(
    rt: &impl Abort,
    alloc: Global,
    first: Validity,
    second: Validity,
    want: &[bool],
) -> Result<(), VortexError> {
    expect_valid(rt, alloc, &first.and(alloc, second)?, want)
}

// Valid where the bits of a byte are set, from bit `offset` on, for three rows.
fn three_of(alloc: Global, byte: u8, offset: usize) -> Result<Validity, VortexError>
    requires { offset ≤ 5 }
{
    let bytes = ByteBuffer::copy_from(alloc, &[byte])?;
    let bits = BitBuffer::new_with_offset(alloc, bytes, 3, offset)?;
    Ok(Validity::Array(bits.into_array(alloc)?))
}

// The last byte of the bits that tell which rows are valid, where an array does.
fn last_byte(alloc: Global, validity: &Validity) -> Result<Option<u8>, VortexError> {
    let Validity::Array(array) = validity else {
        return Ok(None);
    };
    let Layout::Bool { bits, .. } = array.layout() else {
        return Ok(None);
    };
    let (_, _, bytes) = bits.try_clone(alloc)?.into_inner();
    Ok(bytes.as_slice().last().copied())
}

#[test]
fn bits_past_the_last_row_are_cleared(rt: HostRuntime) {
    let alloc = rt.alloc();
    let first = three_of(alloc, 0xff, 0).expect(&rt, "made");
    let second = three_of(alloc, 0xfd, 0).expect(&rt, "made");
    let both = first.and(alloc, second).expect(&rt, "joined");
    assert!(rt; last_byte(alloc, &both).expect(&rt, "copied") == Some(0x05));
}

#[test]
fn bits_past_the_last_row_are_cleared_at_an_offset(rt: HostRuntime) {
    let alloc = rt.alloc();
    let first = three_of(alloc, 0xff, 2).expect(&rt, "made");
    let second = three_of(alloc, 0xee, 1).expect(&rt, "made");
    let both = first.and(alloc, second).expect(&rt, "joined");
    assert!(rt; last_byte(alloc, &both).expect(&rt, "copied") == Some(0x07));
}

#[test]
fn rows_valid_in_both(rt: HostRuntime) {
    let alloc = rt.alloc();
    let (first, second) = ([true, true, false], [true, false, false]);
    expect_both(
        &rt,
        alloc,
        valid(alloc, &first).expect(&rt, "made"),
        valid(alloc, &second).expect(&rt, "made"),
        &second,
    )
    .expect(&rt, "made");
    let some = valid(alloc, &[true, false]).expect(&rt, "made");
    expect_both(&rt, alloc, some, Validity::NonNullable, &[true, false]).expect(&rt, "made");
}

#[test]
fn states_of_both(rt: HostRuntime) {
    let both = Validity::AllValid
        .and(rt.alloc(), Validity::NonNullable)
        .expect(&rt, "made");
    assert!(rt; both.definitely_no_nulls() && both.nullability() == Nullability::Nullable);
    let none = valid(rt.alloc(), &[true, false])
        .expect(&rt, "made")
        .and(rt.alloc(), Validity::AllInvalid)
        .expect(&rt, "made");
    assert!(rt; none.definitely_all_null());
}

#[test]
fn arrays_of_other_lengths(rt: HostRuntime) {
    let rows = valid(rt.alloc(), &[true, true, false]).expect(&rt, "made");
    let found = match rows.and(rt.alloc(), valid(rt.alloc(), &[true]).expect(&rt, "made")) {
        Err(VortexError::LengthMismatch { .. }) => true,
        _ => false,
    };
    assert!(rt; found);
}

// ---- the same rows

#[test]
fn arrays_that_are_true_as_often(rt: HostRuntime) {
    let first = valid(rt.alloc(), &[true, false]).expect(&rt, "made");
    let second = valid(rt.alloc(), &[false, true]).expect(&rt, "made");
    assert!(rt; !first.mask_eq(rt.alloc(), &second, 2).expect(&rt, "made"));
    assert!(rt; first.mask_eq(rt.alloc(), &first, 2).expect(&rt, "made"));
}

#[test]
fn masks_as_validities(rt: HostRuntime) {
    let bits = BitBuffer::from_bools(rt.alloc(), &[true, false]).expect(&rt, "made");
    let mask = Mask::from_buffer(rt.alloc(), bits).expect(&rt, "made");
    let some = Validity::from_mask(rt.alloc(), mask, Nullability::Nullable).expect(&rt, "made");
    expect_valid(&rt, rt.alloc(), &some, &[true, false]).expect(&rt, "made");
}

#[test]
fn even_masks_as_validities(rt: HostRuntime) {
    let none = Validity::from_mask(rt.alloc(), Mask::new_false(9), Nullability::Nullable).expect(
        &rt, "made",
    );
    assert!(rt; none.definitely_all_null());
}

// ---- booleans

#[test]
fn arrays_of_states(rt: HostRuntime) {
    let array = Validity::AllInvalid
        .to_array(rt.alloc(), 3)
        .expect(&rt, "made");
    let validity = Validity::Array(array);
    expect_valid(&rt, rt.alloc(), &validity, &[false, false, false]).expect(&rt, "made");
    assert!(rt; validity.as_array().is_some() && Validity::AllValid.as_array().is_none());
    assert!(rt; validity.into_array().is_some());
}

#[test]
fn booleans_as_a_validity(rt: HostRuntime) {
    let bits = BitBuffer::from_bools(rt.alloc(), &[true, false]).expect(&rt, "made");
    let some = Validity::from_buffer(rt.alloc(), bits).expect(&rt, "made");
    expect_valid(&rt, rt.alloc(), &some, &[true, false]).expect(&rt, "made");
}

#[test]
fn even_booleans_as_a_validity(rt: HostRuntime) {
    let none = Validity::from_buffer(
        rt.alloc(),
        BitBuffer::new_unset(rt.alloc(), 2).expect(&rt, "made"),
    )
    .expect(&rt, "made");
    assert!(rt; none.definitely_all_null());
    let all = BitBuffer::new_set(rt.alloc(), 2).expect(&rt, "made");
    let all = Validity::from_bit_buffer(rt.alloc(), all, Nullability::NonNullable).expect(
        &rt, "made",
    );
    assert!(rt; all.nullability() == Nullability::NonNullable);
}

#[test]
fn no_booleans_as_a_validity(rt: HostRuntime) {
    let empty = Validity::from_buffer(
        rt.alloc(),
        BitBuffer::new_set(rt.alloc(), 0).expect(&rt, "made"),
    )
    .expect(&rt, "made");
    assert!(rt; empty.definitely_no_nulls() && empty.nullability() == Nullability::Nullable);
}

#[test]
fn states_of_a_nullability(rt: HostRuntime) {
    let plain = Validity::from(Nullability::NonNullable);
    assert!(rt; matches!(plain, Validity::NonNullable));
    let nullable = Validity::from(&Nullability::Nullable);
    assert!(rt; matches!(nullable, Validity::AllValid));
    assert!(rt; Validity::DTYPE.is_plain_bool());
}

// ---- casts

#[test]
fn casts_to_plain(rt: HostRuntime) {
    let alloc = rt.alloc();
    assert!(rt;
        Validity::AllInvalid
            .into_non_nullable(alloc, 0)
            .expect(&rt, "made")
            .is_some()
    );
    assert!(rt;
        Validity::AllInvalid
            .into_non_nullable(alloc, 2)
            .expect(&rt, "made")
            .is_none()
    );
    assert!(rt;
        Validity::AllInvalid
            .trivial_into_non_nullable(0)
            .expect(&rt, "made")
            .is_some()
    );
    assert!(rt;
        Validity::AllValid
            .trivial_into_non_nullable(2)
            .expect(&rt, "made")
            .is_some()
    );
    assert!(rt;
        valid(alloc, &[true])
            .expect(&rt, "made")
            .trivial_into_non_nullable(1)
            .expect(&rt, "made")
            .is_none()
    );
    assert!(rt;
        Validity::AllValid
            .execute_no_nulls(alloc, 3)
            .expect(&rt, "made")
    );
}

#[test]
fn casts_of_nulls(rt: HostRuntime) {
    let cast = Validity::AllInvalid.cast_nullability(rt.alloc(), Nullability::NonNullable, 2);
    let found = match cast {
        Err(VortexError::HasNulls) => true,
        _ => false,
    };
    assert!(rt; found);
    let known = Validity::AllInvalid.trivially_cast_nullability(Nullability::NonNullable, 2);
    let found = match known {
        Err(VortexError::HasNulls) => true,
        _ => false,
    };
    assert!(rt; found);
}

#[test]
fn casts_to_nullable(rt: HostRuntime) {
    let cast = Validity::NonNullable
        .cast_nullability(rt.alloc(), Nullability::Nullable, 2)
        .expect(&rt, "made");
    assert!(rt; cast.nullability() == Nullability::Nullable);
    let united = Validity::NonNullable.union_nullability(Nullability::Nullable);
    assert!(rt; united.nullability() == Nullability::Nullable);
    assert!(rt; matches!(Validity::NonNullable.into_nullable(), Validity::AllValid));
    assert!(rt; matches!(Validity::AllInvalid.into_nullable(), Validity::AllInvalid));
}

// ---- the simplest

#[test]
fn states_are_the_simplest(rt: HostRuntime) -> Result<(), VortexError> {
    let alloc = rt.alloc();
    let (plain, null_count) = Validity::NonNullable.simplest(alloc, 3)?;
    assert!(rt; matches!(plain, Validity::NonNullable) && null_count == 0);
    let (full, null_count) = Validity::AllValid.simplest(alloc, 3)?;
    assert!(rt; matches!(full, Validity::AllValid) && null_count == 0);
    let (none, null_count) = Validity::AllInvalid.simplest(alloc, 3)?;
    assert!(rt; matches!(none, Validity::AllInvalid) && null_count == 3);
    let (empty, null_count) = Validity::AllInvalid.simplest(alloc, 0)?;
    assert!(rt; matches!(empty, Validity::AllInvalid) && null_count == 0);
    Ok(())
}

#[test]
fn arrays_of_one_truth_are_states(rt: HostRuntime) -> Result<(), VortexError> {
    let alloc = rt.alloc();
    let (full, null_count) = valid(alloc, &[true, true])?.simplest(alloc, 2)?;
    assert!(rt; matches!(full, Validity::AllValid) && null_count == 0);
    let (none, null_count) = valid(alloc, &[false, false, false])?.simplest(alloc, 3)?;
    assert!(rt; matches!(none, Validity::AllInvalid) && null_count == 3);
    let (empty, null_count) = valid(alloc, &[])?.simplest(alloc, 0)?;
    assert!(rt; matches!(empty, Validity::AllValid) && null_count == 0);
    Ok(())
}

#[test]
fn mixed_arrays_stay(rt: HostRuntime) -> Result<(), VortexError> {
    let alloc = rt.alloc();
    let mixed = valid(alloc, &[true, false, false, true, false])?;
    let (made, null_count) = mixed.simplest(alloc, 5)?;
    assert!(rt; matches!(made, Validity::Array(_)) && null_count == 3);
    expect_valid(&rt, alloc, &made, &[true, false, false, true, false])
}

#[test]
fn other_arrays_are_not_made_simpler(rt: HostRuntime) -> Result<(), VortexError> {
    let alloc = rt.alloc();
    let found = match not_of_booleans(alloc)?.simplest(alloc, 2) {
        Err(VortexError::MismatchedTypes) => true,
        _ => false,
    };
    assert!(rt; found);
    Ok(())
}

// ---- laws

#[test]
fn laws_of_validities() {
    and_commutes();
    and_associates();
    and_repeats();
    and_has_a_unit();
    trivial_casts_are_casts();
}
