// Lists of steps on records.

use crate::step_arrays::{has_record, names, one_of_two_records, taken};
use std::alloc::Global;
use std::test::Fail;
use vx_base::{FieldName, VortexError};
use vx_run::{Step, run};
use vx_structs::{StructArray, StructArrayExt};
use vx_test_help::{has_numbers_or_nulls, ints, one_column};
use vx_tree::{ArrayRef, TypedArray};

// More levels than the stack of `rt try` has room for, where each is let go by the one above it.
const LEVELS: usize = 10_000;

// Records with a column more, named b.
fn with_b(alloc: Global, array: usize, column: usize) -> Result<Step, VortexError> {
    let name = FieldName::try_new(alloc, "b")?;
    Ok(Step::WithColumn {
        array,
        name,
        column,
    })
}

// Records without a column.
fn without(alloc: Global, array: usize, name: &str) -> Result<Step, VortexError> {
    let name = FieldName::try_new(alloc, name)?;
    Ok(Step::RemoveColumn { array, name })
}

// Records with the columns of these names alone.
fn chosen(alloc: Global, array: usize, texts: &[&str]) -> Result<Step, VortexError> {
    let names = names(alloc, texts)?;
    Ok(Step::Project { array, names })
}

// The column a of records.
fn column_a(alloc: Global, array: ArrayRef) -> Result<ArrayRef, VortexError> {
    let Ok(records) = StructArray::try_from_array(array) else {
        return Err(VortexError::MismatchedTypes);
    };
    let column = records.unmasked_field_by_name("a")?;
    column.try_clone(alloc)
}

#[test]
fn columns_are_chosen_twice(rt: HostRuntime) {
    let alloc = rt.alloc();
    let records = taken(alloc, chosen(alloc, 3, &["a", "a"]).expect(&rt, "made")).expect(
        &rt, "made",
    );
    let wanted = [("a", Some(1)), ("a", Some(1))];
    assert!(rt; has_record(alloc, &records, 0, Some(&wanted)).expect(&rt, "made"));
    assert!(rt; has_record(alloc, &records, 1, None).expect(&rt, "made"));
}

#[test]
fn columns_are_added_and_removed(rt: HostRuntime) {
    let alloc = rt.alloc();
    let wider = taken(alloc, with_b(alloc, 3, 4).expect(&rt, "made")).expect(&rt, "made");
    let wanted = [("a", Some(1)), ("b", Some(1))];
    assert!(rt; has_record(alloc, &wider, 0, Some(&wanted)).expect(&rt, "made"));
    assert!(rt; has_record(alloc, &wider, 1, None).expect(&rt, "made"));
    let narrower = taken(alloc, without(alloc, 3, "a").expect(&rt, "made")).expect(&rt, "made");
    assert!(rt; has_record(alloc, &narrower, 0, Some(&[])).expect(&rt, "made"));
    assert!(rt; has_record(alloc, &narrower, 1, None).expect(&rt, "made"));
}

#[test]
fn null_records_become_records_of_nulls(rt: HostRuntime) {
    let alloc = rt.alloc();
    let remove = Step::PushValidity {
        array: 3,
        remove: true,
    };
    let pushed = taken(alloc, remove).expect(&rt, "made");
    assert!(rt; has_record(alloc, &pushed, 0, Some(&[("a", Some(1))])).expect(&rt, "made"));
    assert!(rt; has_record(alloc, &pushed, 1, Some(&[("a", None)])).expect(&rt, "made"));
    assert!(rt; !pushed.dtype().is_nullable());
    assert!(rt;
        column_a(alloc, pushed)
            .expect(&rt, "made")
            .dtype()
            .is_nullable()
    );
    let keep = Step::PushValidity {
        array: 3,
        remove: false,
    };
    let kept = taken(alloc, keep).expect(&rt, "made");
    assert!(rt; has_record(alloc, &kept, 1, None).expect(&rt, "made"));
    assert!(rt; has_numbers_or_nulls(&column_a(alloc, kept).expect(&rt, "made"), &[Some(1), None]));
}

#[test]
fn steps_on_records_are_refused(rt: HostRuntime) {
    let alloc = rt.alloc();
    let unknown = taken(alloc, without(alloc, 3, "z").expect(&rt, "made"));
    assert!(rt; matches!(unknown, Err(VortexError::UnknownField)));
    let unknown = taken(alloc, chosen(alloc, 3, &["a", "z"]).expect(&rt, "made"));
    assert!(rt; matches!(unknown, Err(VortexError::UnknownField)));
    let no_records = taken(alloc, chosen(alloc, 0, &["a"]).expect(&rt, "made"));
    assert!(rt; matches!(no_records, Err(VortexError::MismatchedTypes)));
    let longer = taken(alloc, with_b(alloc, 3, 0).expect(&rt, "made"));
    assert!(rt; matches!(longer, Err(VortexError::LengthMismatch { .. })));
    let no_records = Step::PushValidity {
        array: 1,
        remove: false,
    };
    assert!(rt; matches!(taken(alloc, no_records), Err(VortexError::MismatchedTypes)));
}

#[test]
fn positions_come_before_layouts(rt: HostRuntime) -> Result<(), Fail> {
    let alloc = rt.alloc();
    for (array, index) in [(7usize, 7usize), (0, 9)] {
        let numbers = one_column(alloc, ints(alloc, &[5u8])?)?;
        let Err(fault) = run(alloc, numbers, &[with_b(alloc, array, 9)?]) else {
            assert!(rt; false);
            return Ok(());
        };
        assert_eq!(rt; fault.error, VortexError::OutOfBounds { index, len: 1 });
    }
    Ok(())
}

#[test]
fn refused_step_gives_the_records_back(rt: HostRuntime) -> Result<(), Fail> {
    let alloc = rt.alloc();
    let mut arrays = one_column(alloc, one_of_two_records(alloc)?)?;
    arrays.push(ints(alloc, &[8i32, 9])?)?;
    let steps = [with_b(alloc, 0, 1)?, without(alloc, 2, "z")?];
    let Err(fault) = run(alloc, arrays, &steps) else {
        assert!(rt; false);
        return Ok(());
    };
    assert_eq!(rt; fault.step, 1);
    assert_eq!(rt; fault.error, VortexError::UnknownField);
    assert_eq!(rt; fault.arrays.len(), 3);
    assert!(rt; has_numbers_or_nulls(&fault.arrays[1], &[Some(8), Some(9)]));
    let wanted = [("a", Some(1)), ("b", Some(8))];
    assert!(rt; has_record(alloc, &fault.arrays[2], 0, Some(&wanted))?);
    assert!(rt; has_record(alloc, &fault.arrays[0], 0, Some(&[("a", Some(1))]))?);
    Ok(())
}

#[test]
fn records_that_are_nested_deeply_are_let_go(rt: HostRuntime) -> Result<(), Fail> {
    let alloc = rt.alloc();
    let mut steps = Vec::new(alloc);
    for column in 0..LEVELS {
        steps.push(with_b(alloc, 0, column)?)?;
    }
    steps.push(without(alloc, 0, "z")?)?;
    let Err(fault) = run(
        alloc,
        one_column(alloc, one_of_two_records(alloc)?)?,
        &steps,
    ) else {
        assert!(rt; false);
        return Ok(());
    };
    assert_eq!(rt; fault.error, VortexError::UnknownField);
    assert_eq!(rt; fault.step, LEVELS);
    assert_eq!(rt; fault.arrays.len(), LEVELS + 1);
    Ok(())
}
