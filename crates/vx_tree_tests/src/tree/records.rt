// Records.

ghost use Rattle.std.specs.Prelude.{◌≡◌, IfOk};
ghost use Rattle.vx_tree.specs.Meaning.{tree_len};

use super::fixed_size_lists::no_elements;
use std::alloc::Global;
use std::process::Abort;
use vx_base::{BitBuffer, FieldNames, Mask, PType, VortexError};
use vx_test_help::rows::{has_elements, is_record, is_truth};
use vx_test_help::samples::{indices, records};
use vx_test_help::{bools, columns_of, numbers};
use vx_tree::{ArrayRef, Layout, Validity};

#[test]
fn rows_of_records(rt: HostRuntime) {
    let array = records(rt.alloc()).expect(&rt, "made");
    assert!(rt; array.len() == 3 && array.dtype().is_nullable());
    assert!(rt; is_record(rt.alloc(), &array, 0, Some((1, true))).expect(&rt, "made"));
    assert!(rt; is_record(rt.alloc(), &array, 1, None).expect(&rt, "made"));
    assert!(rt; is_record(rt.alloc(), &array, 2, Some((3, true))).expect(&rt, "made"));
}

#[test]
fn records_of_no_columns(rt: HostRuntime) {
    let names = FieldNames::try_new(rt.alloc(), &[]).expect(&rt, "made");
    let columns = Vec::new(rt.alloc());
    let array = ArrayRef::structure(rt.alloc(), names, columns, Validity::NonNullable, 2).expect(
        &rt, "made",
    );
    let part = array.slice(rt.alloc(), 1..2).expect(&rt, "made");
    assert!(rt;
        array.len() == 2 && part.len() == 1 && part.is_valid(rt.alloc(), 0).expect(&rt, "made")
    );
}

#[test]
fn records_of_one_name_twice(rt: HostRuntime) {
    let first = numbers(rt.alloc(), PType::U8, &[1, 2], Validity::NonNullable).expect(&rt, "made");
    let second = bools(rt.alloc(), &[false, true]).expect(&rt, "made");
    let array = columns_of(
        rt.alloc(),
        &["a", "a"],
        first,
        second,
        Validity::AllValid,
        2,
    )
    .expect(&rt, "made");
    assert!(rt; is_record(rt.alloc(), &array, 0, Some((1, false))).expect(&rt, "made"));
    assert!(rt; is_record(rt.alloc(), &array, 1, Some((2, true))).expect(&rt, "made"));
}

#[test]
fn slice_of_records(rt: HostRuntime) {
    let part = records(rt.alloc())
        .expect(&rt, "made")
        .slice(rt.alloc(), 1..3)
        .expect(&rt, "made");
    assert_eq!(rt; part.len(), 2);
    assert!(rt; is_record(rt.alloc(), &part, 0, None).expect(&rt, "made"));
    assert!(rt; is_record(rt.alloc(), &part, 1, Some((3, true))).expect(&rt, "made"));
}

// Records of the truth values of the numbers 3, 1, 2 and 0, the bit of 2 first, and between the last
// two of them a null record.
fn five_records(alloc: Global) -> Result<ArrayRef, VortexError>
    ensures { IfOk result (λ a. tree_len a ≡ 5) }
{
    let first = bools(alloc, &[true, false, true, true, false])?;
    let second = bools(alloc, &[true, true, false, true, false])?;
    let valid = bools(alloc, &[true, true, true, false, true])?;
    columns_of(alloc, &["a", "b"], first, second, Validity::Array(valid), 5)
}

// Whether row `i` of records is that of the five at a place.
fn is_one_of_five(
    alloc: Global,
    records: &ArrayRef,
    i: usize,
    place: usize,
) -> Result<bool, VortexError> {
    let is_valid = records.is_valid(alloc, i)?;
    let Layout::Struct { columns, .. } = records.layout() else {
        return Ok(false);
    };
    if place == 3 || columns.len() != 2 {
        return Ok(!is_valid && place == 3);
    }
    let first = matches!(place, 0 | 2);
    let second = matches!(place, 0 | 1);
    Ok(
        is_valid
            && is_truth(alloc, &columns[0], i, Some(first))?
            && is_truth(alloc, &columns[1], i, Some(second))?,
    )
}

// Whether a mask keeps of the five records those at these places.
fn keeps(alloc: Global, bits: &[bool], places: &[usize]) -> Result<bool, VortexError> {
    let mask = Mask::from_buffer(alloc, BitBuffer::from_bools(alloc, bits)?)?;
    let kept = five_records(alloc)?.filter(alloc, &mask)?;
    if kept.len() != places.len() {
        return Ok(false);
    }
    for i in 0..places.len() {
        if !is_one_of_five(alloc, &kept, i, places[i])? {
            return Ok(false);
        }
    }
    Ok(true)
}

// Of two columns of truth values, runs of fewer than three rows in the mean are gathered by
// positions, and longer ones run by run.
#[test]
fn filter_of_records(rt: HostRuntime) {
    let (t, f) = (true, false);
    assert!(rt; keeps(rt.alloc(), &[t, f, t, f, t], &[0, 2, 4]).expect(&rt, "made"));
    assert!(rt; keeps(rt.alloc(), &[f, t, f, t, t], &[1, 3, 4]).expect(&rt, "made"));
    assert!(rt; keeps(rt.alloc(), &[f, f, t, f, f], &[2]).expect(&rt, "made"));
    assert!(rt; keeps(rt.alloc(), &[t, t, f, t, t], &[0, 1, 3, 4]).expect(&rt, "made"));
    assert!(rt; keeps(rt.alloc(), &[f, f, t, t, f], &[2, 3]).expect(&rt, "made"));
    assert!(rt; keeps(rt.alloc(), &[f, t, t, t, f], &[1, 2, 3]).expect(&rt, "made"));
    assert!(rt; keeps(rt.alloc(), &[f, f, f, f, f], &[]).expect(&rt, "made"));
}

#[test]
fn take_of_records(rt: HostRuntime) {
    let taken = records(rt.alloc())
        .expect(&rt, "made")
        .take(rt.alloc(), &indices(rt.alloc()).expect(&rt, "made"))
        .expect(&rt, "made");
    assert_eq!(rt; taken.len(), 3);
    assert!(rt; is_record(rt.alloc(), &taken, 0, Some((3, true))).expect(&rt, "made"));
    assert!(rt; is_record(rt.alloc(), &taken, 1, None).expect(&rt, "made"));
    assert!(rt; is_record(rt.alloc(), &taken, 2, Some((1, true))).expect(&rt, "made"));
}

#[test]
fn records_taken_from_no_rows(rt: HostRuntime) {
    let first = numbers(rt.alloc(), PType::U8, &[], Validity::NonNullable).expect(&rt, "made");
    let second = bools(rt.alloc(), &[]).expect(&rt, "made");
    let empty = columns_of(
        rt.alloc(),
        &["a", "b"],
        first,
        second,
        Validity::NonNullable,
        0,
    )
    .expect(&rt, "made");
    let nulls = numbers(rt.alloc(), PType::U8, &[9], Validity::AllInvalid).expect(&rt, "made");
    let taken = empty.take(rt.alloc(), &nulls).expect(&rt, "made");
    assert!(rt; taken.len() == 1 && !taken.is_valid(rt.alloc(), 0).expect(&rt, "made"));
    let Layout::Struct { columns, .. } = taken.layout() else {
        panic!(rt; "no records");
    };
    assert!(rt; columns.len() == 2 && columns[0].len() == 1);
    assert!(rt; !columns[0].dtype().is_nullable());
}

// The column has one list of 2147483648 zeroes, which are a constant.
#[test]
fn records_of_huge_lists_taken_from_no_rows(rt: HostRuntime) {
    let lists = no_elements(rt.alloc(), 2147483648, 0).expect(&rt, "made");
    let second = bools(rt.alloc(), &[]).expect(&rt, "made");
    let names = &["a", "b"];
    let empty = columns_of(rt.alloc(), names, lists, second, Validity::NonNullable, 0).expect(
        &rt, "made",
    );
    let nulls = numbers(rt.alloc(), PType::U8, &[9], Validity::AllInvalid).expect(&rt, "made");
    let taken = empty.take(rt.alloc(), &nulls).expect(&rt, "made");
    let Layout::Struct { columns, .. } = taken.layout() else {
        panic!(rt; "no records");
    };
    assert!(rt; columns.len() == 2 && columns[0].len() == 1);
    assert!(rt; has_elements(&columns[0], 2147483647, &[0]));
}
