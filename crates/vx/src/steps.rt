// Lists of steps on arrays.

use crate::step_arrays::{
    has_record, is_one_list, names, of_each_kind, positions, shared_lists, taken,
};
use std::alloc::Global;
use std::test::Fail;
use vx_base::{DType, FieldName, PType, VortexError};
use vx_lists::{ListViewArray, ListViewRebuildMode};
use vx_run::{Step, run};
use vx_test_help::{bools, has_numbers_or_nulls, ints, one_column};
use vx_tree::{ArrayRef, TypedArray};

// Whether an array has these numbers after one step on two arrays, of which it comes last.
fn makes(
    alloc: Global,
    first: ArrayRef,
    second: ArrayRef,
    step: Step,
    wanted: &[Option<i128>],
) -> Result<bool, VortexError> {
    let mut arrays = one_column(alloc, first)?;
    arrays.push(second)?;
    match run(alloc, arrays, &[step]) {
        Ok(results) => Ok(results.len() == 3 && has_numbers_or_nulls(&results[2], wanted)),
        Err(fault) => Err(fault.error),
    }
}

#[test]
fn refused_step_gives_the_arrays_back(rt: HostRuntime) -> Result<(), Fail> {
    let alloc = rt.alloc();
    let steps = [
        Step::Rebuild {
            array: 0,
            mode: ListViewRebuildMode::MakeZeroCopyToList,
        },
        Step::Slice {
            array: 1,
            start: 1,
            end: 2,
        },
        Step::Narrow { array: 0 },
    ];
    let Err(fault) = run(alloc, one_column(alloc, shared_lists(alloc)?)?, &steps) else {
        assert!(rt; false);
        return Ok(());
    };
    assert_eq!(rt; fault.step, 2);
    assert_eq!(rt; fault.error, VortexError::MismatchedTypes);
    let mut arrays = fault.into_arrays();
    assert_eq!(rt; arrays.len(), 3);
    if let Some(last) = arrays.pop() {
        assert!(rt; is_one_list(alloc, last, &[Some(2), Some(3)])?);
    }
    Ok(())
}

#[test]
fn no_steps_leave_the_arrays(rt: HostRuntime) -> Result<(), Fail> {
    let alloc = rt.alloc();
    let Ok(results) = run(alloc, one_column(alloc, ints(alloc, &[7u8, 8])?)?, &[]) else {
        assert!(rt; false);
        return Ok(());
    };
    assert_eq!(rt; results.len(), 1);
    assert!(rt; has_numbers_or_nulls(&results[0], &[Some(7), Some(8)]));
    Ok(())
}

#[test]
fn position_without_an_array_is_refused(rt: HostRuntime) -> Result<(), Fail> {
    let alloc = rt.alloc();
    let step = Step::Slice {
        array: 5,
        start: 0,
        end: 0,
    };
    let Err(fault) = run(alloc, one_column(alloc, ints(alloc, &[7u8, 8])?)?, &[step]) else {
        assert!(rt; false);
        return Ok(());
    };
    assert_eq!(rt; fault.error, VortexError::OutOfBounds { index: 5, len: 1 });
    assert_eq!(rt; (fault.step, fault.arrays.len()), (0, 1));
    Ok(())
}

#[test]
fn steps_pick_rows(rt: HostRuntime) {
    let alloc = rt.alloc();
    let step = Step::Take {
        array: 0,
        indices: 1,
    };
    let numbers = ints(alloc, &[5i32, 6, 7]).expect(&rt, "made");
    let indices = ints(alloc, &[2u8, 0]).expect(&rt, "made");
    assert!(rt; makes(alloc, numbers, indices, step, &[Some(7), Some(5)]).expect(&rt, "made"));
    let step = Step::Filter { array: 0, mask: 1 };
    let numbers = ints(alloc, &[5i32, 6, 7]).expect(&rt, "made");
    let mask = bools(alloc, &[true, false, true]).expect(&rt, "made");
    assert!(rt; makes(alloc, numbers, mask, step, &[Some(5), Some(7)]).expect(&rt, "made"));
}

#[test]
fn a_step_by_itself(rt: HostRuntime) -> Result<(), Fail> {
    let alloc = rt.alloc();
    let arrays = of_each_kind(alloc)?;
    let step = Step::Take {
        array: 0,
        indices: 4,
    };
    let made = step.apply(alloc, &arrays)?;
    assert!(rt; has_numbers_or_nulls(&made, &[Some(6), Some(5)]));
    assert!(rt;
        arrays.len() == 5 && has_numbers_or_nulls(&arrays[0], &[Some(5), Some(6), Some(7)])
    );
    let refused = Step::Narrow { array: 2 }.apply(alloc, &arrays);
    assert!(rt; matches!(refused, Err(VortexError::MismatchedTypes)));
    let missing = Step::Canonical { array: 5 }.apply(alloc, &arrays);
    assert!(rt; matches!(missing, Err(VortexError::OutOfBounds { index: 5, len: 5 })));
    Ok(())
}

#[test]
fn steps_null_rows(rt: HostRuntime) {
    let alloc = rt.alloc();
    let step = Step::Mask { array: 0, mask: 1 };
    let numbers = ints(alloc, &[5i32, 6, 7]).expect(&rt, "made");
    let mask = bools(alloc, &[true, false, true]).expect(&rt, "made");
    assert!(rt; makes(alloc, numbers, mask, step, &[Some(5), None, Some(7)]).expect(&rt, "made"));
}

#[test]
fn steps_join_rows(rt: HostRuntime) {
    let alloc = rt.alloc();
    let mut positions = Vec::new(alloc);
    positions
        .extend_from_slice(&[1usize, 0])
        .expect(&rt, "made");
    let step = Step::Concat { arrays: positions };
    let first = ints(alloc, &[5u8, 6]).expect(&rt, "made");
    let second = ints(alloc, &[7u8]).expect(&rt, "made");
    assert!(rt;
        makes(alloc, first, second, step, &[Some(7), Some(5), Some(6)]).expect(&rt, "made")
    );
}

#[test]
fn steps_keep_rows(rt: HostRuntime) {
    let alloc = rt.alloc();
    let step = Step::Canonical { array: 1 };
    let first = ints(alloc, &[5u8]).expect(&rt, "made");
    let second = ints(alloc, &[7u8, 8]).expect(&rt, "made");
    assert!(rt; makes(alloc, first, second, step, &[Some(7), Some(8)]).expect(&rt, "made"));
    let step = Step::Narrow { array: 1 };
    let first = ints(alloc, &[5u8]).expect(&rt, "made");
    let second = ints(alloc, &[1i32, 300]).expect(&rt, "made");
    assert!(rt; makes(alloc, first, second, step, &[Some(1), Some(300)]).expect(&rt, "made"));
}

#[test]
fn mask_of_numbers_is_refused(rt: HostRuntime) -> Result<(), Fail> {
    let alloc = rt.alloc();
    let step = Step::Filter { array: 0, mask: 0 };
    let Err(fault) = run(alloc, one_column(alloc, ints(alloc, &[7u8, 8])?)?, &[step]) else {
        assert!(rt; false);
        return Ok(());
    };
    assert_eq!(rt; fault.error, VortexError::MismatchedTypes);
    Ok(())
}

#[test]
fn steps_that_pick_rows_are_refused(rt: HostRuntime) {
    let alloc = rt.alloc();
    let past_the_end = Step::Slice {
        array: 0,
        start: 2,
        end: 9,
    };
    let refused = taken(alloc, past_the_end);
    assert!(rt; matches!(refused, Err(VortexError::OutOfBounds { index: 9, len: 3 })));
    let by_truth_values = Step::Take {
        array: 0,
        indices: 1,
    };
    assert!(rt;
        matches!(
            taken(alloc, by_truth_values),
            Err(VortexError::MismatchedTypes)
        )
    );
    let by_numbers = Step::Mask { array: 0, mask: 0 };
    assert!(rt; matches!(taken(alloc, by_numbers), Err(VortexError::MismatchedTypes)));
    let shorter = Step::Filter { array: 3, mask: 1 };
    assert!(rt;
        matches!(
            taken(alloc, shorter),
            Err(VortexError::LengthMismatch { .. })
        )
    );
}

#[test]
fn steps_that_make_rows_anew_are_refused(rt: HostRuntime) {
    let alloc = rt.alloc();
    let nowhere = Step::Canonical { array: 5 };
    let refused = taken(alloc, nowhere);
    assert!(rt; matches!(refused, Err(VortexError::OutOfBounds { index: 5, len: 5 })));
    let of_two_types = Step::Concat {
        arrays: positions(alloc, &[0, 1]).expect(&rt, "made"),
    };
    assert!(rt;
        matches!(
            taken(alloc, of_two_types),
            Err(VortexError::DifferingDtypes)
        )
    );
    let of_none = Step::Concat {
        arrays: positions(alloc, &[]).expect(&rt, "made"),
    };
    assert!(rt; matches!(taken(alloc, of_none), Err(VortexError::EmptyInput)));
    let no_lists = Step::Rebuild {
        array: 0,
        mode: ListViewRebuildMode::MakeZeroCopyToList,
    };
    assert!(rt; matches!(taken(alloc, no_lists), Err(VortexError::MismatchedTypes)));
    let not_built = Step::Rebuild {
        array: 2,
        mode: ListViewRebuildMode::OverlapCompression,
    };
    assert!(rt; matches!(taken(alloc, not_built), Err(VortexError::NotImplemented)));
    let no_numbers = Step::Narrow { array: 1 };
    assert!(rt; matches!(taken(alloc, no_numbers), Err(VortexError::MismatchedTypes)));
}

// A step of each kind, on the arrays of each kind and the results of the steps before.
fn a_step_of_each_kind(alloc: Global) -> Result<Vec<Step>, VortexError> {
    let mut steps = array_steps(alloc)?;
    steps.push(Step::Rebuild {
        array: 2,
        mode: ListViewRebuildMode::MakeZeroCopyToList,
    })?;
    steps.push(Step::WithColumn {
        array: 3,
        name: FieldName::try_new(alloc, "b")?,
        column: 6,
    })?;
    steps.push(Step::Project {
        array: 13,
        names: names(alloc, &["b", "a", "b"])?,
    })?;
    steps.push(Step::RemoveColumn {
        array: 14,
        name: FieldName::try_new(alloc, "b")?,
    })?;
    steps.push(Step::PushValidity {
        array: 15,
        remove: true,
    })?;
    Ok(steps)
}

// The first seven of them, which make arrays 5 to 11 of numbers.
fn array_steps(alloc: Global) -> Result<Vec<Step>, VortexError> {
    let mut steps = Vec::new(alloc);
    steps.push(Step::Slice {
        array: 0,
        start: 1,
        end: 3,
    })?;
    steps.push(Step::Take {
        array: 5,
        indices: 4,
    })?;
    steps.push(Step::Filter { array: 0, mask: 1 })?;
    steps.push(Step::Concat {
        arrays: positions(alloc, &[7, 6])?,
    })?;
    steps.push(Step::Mask { array: 0, mask: 1 })?;
    steps.push(Step::Canonical { array: 9 })?;
    steps.push(Step::Narrow { array: 10 })?;
    Ok(steps)
}

// Whether the results of the first seven steps have the numbers that they should have.
fn are_array_results(results: &[ArrayRef]) -> bool {
    results.len() > 11
        && has_numbers_or_nulls(&results[5], &[Some(6), Some(7)])
        && has_numbers_or_nulls(&results[6], &[Some(7), Some(6)])
        && has_numbers_or_nulls(&results[7], &[Some(5), Some(7)])
        && has_numbers_or_nulls(&results[8], &[Some(5), Some(7), Some(7), Some(6)])
        && has_numbers_or_nulls(&results[9], &[Some(5), None, Some(7)])
        && has_numbers_or_nulls(&results[10], &[Some(5), None, Some(7)])
        && has_numbers_or_nulls(&results[11], &[Some(5), None, Some(7)])
}

#[test]
fn a_list_of_twelve_steps_of_all_kinds(rt: HostRuntime) -> Result<(), Fail> {
    let alloc = rt.alloc();
    let steps = a_step_of_each_kind(alloc)?;
    assert_eq!(rt; steps.len(), 12);
    let Ok(results) = run(alloc, of_each_kind(alloc)?, &steps) else {
        assert!(rt; false);
        return Ok(());
    };
    assert_eq!(rt; results.len(), 17);
    assert!(rt; are_array_results(&results));
    assert!(rt; matches!(results[11].dtype(), DType::Primitive(PType::U8, _)));
    let Ok(lists) = ListViewArray::try_from_array(results[12].try_clone(alloc)?) else {
        assert!(rt; false);
        return Ok(());
    };
    let elements = [Some(1), Some(2), Some(3), Some(2), Some(3)];
    assert!(rt; has_numbers_or_nulls(lists.elements(), &elements));
    let wide = [("a", Some(1)), ("b", Some(7))];
    assert!(rt; has_record(alloc, &results[13], 0, Some(&wide))?);
    assert!(rt; has_record(alloc, &results[13], 1, None)?);
    let chosen = [("b", Some(7)), ("a", Some(1)), ("b", Some(7))];
    assert!(rt; has_record(alloc, &results[14], 0, Some(&chosen))?);
    let rest = [("a", Some(1)), ("b", Some(7))];
    assert!(rt; has_record(alloc, &results[15], 0, Some(&rest))?);
    assert!(rt; has_record(alloc, &results[16], 0, Some(&rest))?);
    assert!(rt; has_record(alloc, &results[16], 1, Some(&[("a", None), ("b", None)]))?);
    Ok(())
}
