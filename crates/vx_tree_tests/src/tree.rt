// Each public call once, on values from outside.

use vx_base::{BitBuffer, DType, Nullability, PType, Scalar, Selection, VortexError};
use vx_test_help::rows::{is_list, is_number, is_truth};
use vx_test_help::samples::{dictionary, indices, lists};
use vx_test_help::{bools, numbers, some_bools};
use vx_tree::{
    ArrayRef, Layout, Validity, dictionaries_keep_their_values, faults_of_worked_arrays,
    rows_fit_their_dtype, rows_fit_their_kind, rows_of_worked_arrays,
    selections_of_selections_are_selections, slices_of_slices_are_slices, worked_arrays_are_formed,
};

mod fixed_size_lists;
mod into_array;
mod joined_bits;
mod joined_validities;
mod masks;
mod null_indices;
mod records;
mod runs;
mod scalars;
mod validities;
mod views;

// ---- arrays

#[test]
fn lengths(rt: HostRuntime) {
    assert_eq!(rt; lists(rt.alloc()).expect(&rt, "made").len(), 3);
    assert!(rt; bools(rt.alloc(), &[]).expect(&rt, "made").is_empty());
}

#[test]
fn data_types(rt: HostRuntime) {
    let indices = indices(rt.alloc()).expect(&rt, "made");
    assert!(rt; indices.dtype().is_int() && indices.dtype().is_nullable());
    assert!(rt;
        bools(rt.alloc(), &[])
            .expect(&rt, "made")
            .dtype()
            .is_plain_bool()
    );
}

#[test]
fn parts_of_lists(rt: HostRuntime) {
    let lists = lists(rt.alloc()).expect(&rt, "made");
    let found = match lists.layout() {
        Layout::ListView { elements, flag, .. } => elements.len() == 4 && !*flag,
        _ => false,
    };
    assert!(rt; found);
}

#[test]
fn parts_of_booleans(rt: HostRuntime) {
    let array = some_bools(rt.alloc(), &[true, false], &[false, true]).expect(&rt, "made");
    assert!(rt; is_truth(rt.alloc(), &array, 0, None).expect(&rt, "made"));
    assert!(rt; is_truth(rt.alloc(), &array, 1, Some(false)).expect(&rt, "made"));
}

#[test]
fn shared_array(rt: HostRuntime) {
    let lists = lists(rt.alloc()).expect(&rt, "made");
    assert!(rt;
        is_list(
            rt.alloc(),
            &lists.try_clone(rt.alloc()).expect(&rt, "made"),
            0,
            Some(&[3, 4])
        )
        .expect(&rt, "made")
    );
}

// ---- rows

#[test]
fn valid_rows(rt: HostRuntime) {
    let indices = indices(rt.alloc()).expect(&rt, "made");
    assert!(rt;
        indices.is_valid(rt.alloc(), 0).expect(&rt, "made")
            && !indices.is_valid(rt.alloc(), 1).expect(&rt, "made")
    );
}

#[test]
fn valid_row_past_the_end(rt: HostRuntime) {
    let found = match indices(rt.alloc())
        .expect(&rt, "made")
        .is_valid(rt.alloc(), 3)
    {
        Err(VortexError::OutOfBounds { index: 3, len: 3 }) => true,
        _ => false,
    };
    assert!(rt; found);
}

#[test]
fn number_of_a_row(rt: HostRuntime) {
    let indices = indices(rt.alloc()).expect(&rt, "made");
    assert!(rt; is_number(&indices, 0, Some(2)) && is_number(&indices, 1, None));
}

// ---- parts

#[test]
fn slice_of_lists(rt: HostRuntime) {
    let part = lists(rt.alloc())
        .expect(&rt, "made")
        .slice(rt.alloc(), 1..3)
        .expect(&rt, "made");
    assert_eq!(rt; part.len(), 2);
    assert!(rt; is_list(rt.alloc(), &part, 0, Some(&[1])).expect(&rt, "made"));
    assert!(rt; is_list(rt.alloc(), &part, 1, Some(&[2, 3])).expect(&rt, "made"));
}

#[test]
fn slice_of_booleans(rt: HostRuntime) {
    let array = some_bools(rt.alloc(), &[true, false, true], &[true, true, false]).expect(
        &rt, "made",
    );
    let part = array.slice(rt.alloc(), 1..3).expect(&rt, "made");
    assert!(rt; is_truth(rt.alloc(), &part, 0, Some(false)).expect(&rt, "made"));
    assert!(rt; is_truth(rt.alloc(), &part, 1, None).expect(&rt, "made"));
}

#[test]
fn slice_of_numbers(rt: HostRuntime) {
    let part = indices(rt.alloc())
        .expect(&rt, "made")
        .slice(rt.alloc(), 1..3)
        .expect(&rt, "made");
    assert!(rt; is_number(&part, 0, None) && is_number(&part, 1, Some(0)));
}

#[test]
fn slice_of_a_constant(rt: HostRuntime) {
    let scalar = Scalar::int(-7, PType::I16, Nullability::Nullable);
    let part = ArrayRef::constant(rt.alloc(), scalar, 5)
        .expect(&rt, "made")
        .slice(rt.alloc(), 1..3)
        .expect(&rt, "made");
    rows_fit_their_dtype(&part);
    assert!(rt; part.len() == 2 && part.is_valid(rt.alloc(), 1).expect(&rt, "made"));
    assert!(rt; is_number(&part, 1, Some(-7)));
}

#[test]
fn constant_taken_by_plain_indices(rt: HostRuntime) {
    let scalar = Scalar::int(-7, PType::I16, Nullability::Nullable);
    let array = ArrayRef::constant(rt.alloc(), scalar, 5).expect(&rt, "made");
    let indices = numbers(rt.alloc(), PType::U8, &[4, 0, 4], Validity::NonNullable).expect(
        &rt, "made",
    );
    let taken = array.take(rt.alloc(), &indices).expect(&rt, "made");
    assert!(rt; taken.len() == 3 && matches!(taken.layout(), Layout::Constant { .. }));
    assert!(rt; is_number(&taken, 2, Some(-7)));
}

#[test]
fn constant_taken_by_nullable_indices(rt: HostRuntime) {
    let scalar = Scalar::int(7, PType::I32, Nullability::NonNullable);
    let array = ArrayRef::constant(rt.alloc(), scalar, 3).expect(&rt, "made");
    let taken = array
        .take(rt.alloc(), &indices(rt.alloc()).expect(&rt, "made"))
        .expect(&rt, "made");
    assert!(rt; taken.len() == 3 && matches!(taken.layout(), Layout::Dict { .. }));
    assert!(rt; taken.dtype().is_nullable() && !taken.is_valid(rt.alloc(), 1).expect(&rt, "made"));
    assert!(rt; is_number(&taken, 0, Some(7)) && is_number(&taken, 1, None));
    assert!(rt; is_number(&taken, 2, Some(7)));
}

#[test]
fn rows_of_a_dictionary(rt: HostRuntime) {
    let array = dictionary(rt.alloc()).expect(&rt, "made");
    rows_fit_their_dtype(&array);
    assert!(rt; array.len() == 5 && array.dtype().is_nullable());
    assert!(rt; is_number(&array, 0, None) && is_number(&array, 1, None));
    assert!(rt; is_number(&array, 2, Some(9)) && is_number(&array, 3, None));
    assert!(rt;
        is_number(&array, 4, Some(6)) && !array.is_valid(rt.alloc(), 0).expect(&rt, "made")
    );
    assert!(rt;
        array.is_valid(rt.alloc(), 4).expect(&rt, "made")
            && !array.is_valid(rt.alloc(), 3).expect(&rt, "made")
    );
}

#[test]
fn slice_of_a_dictionary(rt: HostRuntime) {
    let part = dictionary(rt.alloc())
        .expect(&rt, "made")
        .slice(rt.alloc(), 2..5)
        .expect(&rt, "made");
    assert!(rt; part.len() == 3 && is_number(&part, 0, Some(9)));
    assert!(rt; is_number(&part, 1, None) && is_number(&part, 2, Some(6)));
}

#[test]
fn take_of_a_dictionary(rt: HostRuntime) {
    let taken = dictionary(rt.alloc())
        .expect(&rt, "made")
        .take(rt.alloc(), &indices(rt.alloc()).expect(&rt, "made"))
        .expect(&rt, "made");
    assert!(rt; taken.len() == 3 && is_number(&taken, 0, Some(9)));
    assert!(rt; is_number(&taken, 1, None) && is_number(&taken, 2, None));
}

#[test]
fn indices_that_are_constant(rt: HostRuntime) {
    let scalar = Scalar::int(1, PType::U64, Nullability::NonNullable);
    let indices = ArrayRef::constant(rt.alloc(), scalar, 2).expect(&rt, "made");
    let taken = lists(rt.alloc())
        .expect(&rt, "made")
        .take(rt.alloc(), &indices)
        .expect(&rt, "made");
    assert_eq!(rt; taken.len(), 2);
    assert!(rt; is_list(rt.alloc(), &taken, 1, Some(&[1])).expect(&rt, "made"));
}

#[test]
fn numbers_taken_from_no_rows(rt: HostRuntime) {
    let empty = numbers(rt.alloc(), PType::I32, &[], Validity::NonNullable).expect(&rt, "made");
    let nulls = numbers(rt.alloc(), PType::U8, &[9, 9], Validity::AllInvalid).expect(&rt, "made");
    let taken = empty.take(rt.alloc(), &nulls).expect(&rt, "made");
    assert!(rt; taken.len() == 2 && !taken.is_valid(rt.alloc(), 1).expect(&rt, "made"));
}

#[test]
fn many_null_lists_taken_from_no_rows(rt: HostRuntime) {
    let none = lists(rt.alloc())
        .expect(&rt, "made")
        .slice(rt.alloc(), 0..0)
        .expect(&rt, "made");
    let null = Scalar::null(DType::Primitive(PType::U8, Nullability::Nullable));
    let nulls = ArrayRef::constant(rt.alloc(), null, 1099511627776).expect(&rt, "made");
    let taken = none.take(rt.alloc(), &nulls).expect(&rt, "made");
    assert_eq!(rt; taken.len(), 1099511627776);
    assert!(rt; is_list(rt.alloc(), &taken, 1099511627775, None).expect(&rt, "made"));
}

#[test]
fn validity_by_a_constant(rt: HostRuntime) {
    let scalar = Scalar::bool(true, Nullability::NonNullable);
    let validity = Validity::Array(ArrayRef::constant(rt.alloc(), scalar, 2).expect(&rt, "made"));
    let bits = BitBuffer::from_bools(rt.alloc(), &[true, false]).expect(&rt, "made");
    let part = ArrayRef::bools(rt.alloc(), bits, validity)
        .expect(&rt, "made")
        .slice(rt.alloc(), 1..2)
        .expect(&rt, "made");
    assert!(rt; is_truth(rt.alloc(), &part, 0, Some(false)).expect(&rt, "made"));
}

#[test]
fn slice_past_the_end(rt: HostRuntime) {
    let found = match lists(rt.alloc())
        .expect(&rt, "made")
        .slice(rt.alloc(), 5..4)
    {
        Err(VortexError::OutOfBounds { index: 4, len: 3 }) => true,
        _ => false,
    };
    assert!(rt; found);
}

#[test]
fn take_of_lists(rt: HostRuntime) {
    let taken = lists(rt.alloc())
        .expect(&rt, "made")
        .take(rt.alloc(), &indices(rt.alloc()).expect(&rt, "made"))
        .expect(&rt, "made");
    assert_eq!(rt; taken.len(), 3);
    assert!(rt; is_list(rt.alloc(), &taken, 0, Some(&[2, 3])).expect(&rt, "made"));
    assert!(rt; is_list(rt.alloc(), &taken, 1, None).expect(&rt, "made"));
    assert!(rt; is_list(rt.alloc(), &taken, 2, Some(&[3, 4])).expect(&rt, "made"));
}

#[test]
fn take_of_booleans(rt: HostRuntime) {
    let array = some_bools(rt.alloc(), &[true, false, false], &[true, true, false]).expect(
        &rt, "made",
    );
    let taken = array
        .take(rt.alloc(), &indices(rt.alloc()).expect(&rt, "made"))
        .expect(&rt, "made");
    assert!(rt; is_truth(rt.alloc(), &taken, 1, None).expect(&rt, "made"));
    assert!(rt; is_truth(rt.alloc(), &taken, 2, Some(true)).expect(&rt, "made"));
}

#[test]
fn take_by_booleans(rt: HostRuntime) {
    let found = match lists(rt.alloc()).expect(&rt, "made").take(
        rt.alloc(),
        &bools(rt.alloc(), &[true]).expect(&rt, "made"),
    ) {
        Err(VortexError::MismatchedTypes) => true,
        _ => false,
    };
    assert!(rt; found);
}

#[test]
fn take_at_positions(rt: HostRuntime) {
    let array = bools(rt.alloc(), &[true, false, true]).expect(&rt, "made");
    assert_eq!(rt; array.len(), 3);
    let taken = array
        .select(rt.alloc(), &Selection::at_positions(&[1, 1, 0]))
        .expect(&rt, "made");
    assert!(rt; is_truth(rt.alloc(), &taken, 1, Some(false)).expect(&rt, "made"));
    assert!(rt; is_truth(rt.alloc(), &taken, 2, Some(true)).expect(&rt, "made"));
}

// ---- validities

#[test]
fn nullability_of_validities(rt: HostRuntime) {
    assert!(rt; Validity::NonNullable.nullability() == Nullability::NonNullable);
    assert!(rt; Validity::AllInvalid.nullability() == Nullability::Nullable);
}

#[test]
fn lengths_of_validities(rt: HostRuntime) {
    let validity = Validity::Array(bools(rt.alloc(), &[true, false]).expect(&rt, "made"));
    assert!(rt; validity.maybe_len() == Some(2) && Validity::AllValid.maybe_len() == None);
}

#[test]
fn check_of_validities(rt: HostRuntime) {
    let validity = Validity::Array(bools(rt.alloc(), &[true, false]).expect(&rt, "made"));
    assert!(rt; validity.check(2).is_ok() && Validity::AllValid.check(7).is_ok());
    let found = match validity.check(3) {
        Err(
            VortexError::LengthMismatch {
                expected: 3,
                found: 2,
            },
        ) => true,
        _ => false,
    };
    assert!(rt; found);
}

#[test]
fn shared_validity(rt: HostRuntime) {
    let validity = Validity::Array(bools(rt.alloc(), &[true, false]).expect(&rt, "made"));
    assert_eq!(rt;
        validity
            .try_clone(rt.alloc())
            .expect(&rt, "made")
            .maybe_len(),
        Some(2)
    );
}

#[test]
fn mask_of_an_array(rt: HostRuntime) {
    let mask = Validity::Array(bools(rt.alloc(), &[true, false]).expect(&rt, "made"))
        .execute_mask(rt.alloc(), 2)
        .expect(&rt, "made");
    assert_eq!(rt; mask.len(), 2);
    assert!(rt; mask.value(0) && !mask.value(1));
}

#[test]
fn mask_of_nulls(rt: HostRuntime) {
    let mask = Validity::AllInvalid
        .execute_mask(rt.alloc(), 4)
        .expect(&rt, "made");
    assert!(rt; mask.len() == 4 && mask.all_false());
}

// ---- laws

#[test]
fn laws() {
    rows_fit_their_kind();
    rows_of_worked_arrays();
    worked_arrays_are_formed();
    slices_of_slices_are_slices();
    selections_of_selections_are_selections();
    dictionaries_keep_their_values();
    faults_of_worked_arrays();
}
