// Arrays nested three deep, of three rows each, through every operation: each row is compared with
// one written by hand, and so are data types.

use layouts::{
    counts, lists_by_codes, pairs_by_codes, parcels, records_of, same_parcels, some_counts,
};
use std::alloc::Global;
use std::process::Abort;
use std::rc::Rc;
use vx_base::{BitBuffer, DType, Mask, Nullability, PType, ScalarValue, VortexError};
use vx_canonical::{Concatenate, ToCanonical};
use vx_test_help::{bools, has_numbers_or_nulls};
use vx_tree::{ArrayRef, Layout};

mod layouts;

const LONG: &[u8] = b"this value is definitely long";

// What the three rows of an array are.
trait Rows {
    // The data type of the array.
    fn dtype(&self, alloc: Global) -> Result<DType, VortexError>;

    // Whether this is the row at that place, or null where there is no place.
    fn is_row(&self, row: &Option<ScalarValue>, place: Option<usize>) -> bool;
}

// ---- what is wanted of an array

// Stops unless the array has the wanted data type, with null where there is a row of no place.
fn expect_dtype(
    rt: &impl Abort,
    alloc: Global,
    rows: &impl Rows,
    array: &ArrayRef,
    places: &[Option<usize>],
) -> Result<(), VortexError> {
    let mut dtype = rows.dtype(alloc)?;
    if places.contains(&None) {
        dtype = dtype.with_nullability(Nullability::Nullable);
    }
    assert!(rt; *array.dtype() == dtype);
    Ok(())
}

// Stops unless the validity of the array tells which rows are null.
fn expect_validity(
    rt: &impl Abort,
    alloc: Global,
    rows: &impl Rows,
    array: &ArrayRef,
    places: &[Option<usize>],
) -> Result<(), VortexError> {
    let validity = array.validity(alloc)?;
    for (i, place) in places.iter().enumerate() {
        let is_valid = !rows.is_row(&None, *place);
        assert_eq!(rt; validity.is_valid(alloc, i)?, is_valid, "at {i}");
        assert_eq!(rt; array.is_valid(alloc, i)?, is_valid, "at {i}");
    }
    Ok(())
}

// Stops unless the array is that of the rows at these places.
fn expect_rows(
    rt: &impl Abort,
    alloc: Global,
    rows: &impl Rows,
    array: &ArrayRef,
    places: &[Option<usize>],
) -> Result<(), VortexError> {
    assert_eq!(rt; array.len(), places.len());
    assert_eq!(rt; array.is_empty(), places.is_empty());
    for (i, place) in places.iter().enumerate() {
        let row = array.execute_scalar(alloc, i)?;
        assert!(rt; rows.is_row(row.value(), *place), "at {i}");
    }
    expect_validity(rt, alloc, rows, array, places)?;
    expect_dtype(rt, alloc, rows, array, places)
}

// ---- the operations

// Stops unless a copy, and cuts of the array, have the rows that they should.
fn cut(
    rt: &impl Abort,
    alloc: Global,
    rows: &impl Rows,
    array: &ArrayRef,
) -> Result<(), VortexError> {
    let places = [Some(0), Some(1), Some(2)];
    expect_rows(rt, alloc, rows, array, &places)?;
    expect_rows(rt, alloc, rows, &array.try_clone(alloc)?, &places)?;
    expect_rows(rt, alloc, rows, &array.slice(alloc, 1..3)?, &places[1..])?;
    expect_rows(rt, alloc, rows, &array.slice(alloc, 2..2)?, &[])
}

// Stops unless rows that are taken, by indices without null and with null, are those that they
// should be.
fn taken(
    rt: &impl Abort,
    alloc: Global,
    rows: &impl Rows,
    array: &ArrayRef,
) -> Result<(), VortexError> {
    let places = [Some(2), Some(0), Some(1), Some(2)];
    let taken = array.take(alloc, &counts(alloc, &[2, 0, 1, 2])?)?;
    expect_rows(rt, alloc, rows, &taken, &places)?;
    let places = [Some(2), None, Some(0)];
    expect_rows(rt, alloc, rows, &with_null(alloc, array)?, &places)
}

// Stops unless the rows that a filter leaves are those that they should be.
fn filtered(
    rt: &impl Abort,
    alloc: Global,
    rows: &impl Rows,
    array: &ArrayRef,
) -> Result<(), VortexError> {
    let mask = Mask::from_buffer(alloc, BitBuffer::from_bools(alloc, &[true, false, true])?)?;
    let left = array.filter(alloc, &mask)?;
    expect_rows(rt, alloc, rows, &left, &[Some(0), Some(2)])
}

// The last row of the array, null, and the first row.
fn with_null(alloc: Global, array: &ArrayRef) -> Result<ArrayRef, VortexError> {
    let indices = some_counts(alloc, &[2, 9, 0], &[true, false, true])?;
    array.take(alloc, &indices)
}

// The array without its first row.
fn without_first(alloc: Global, array: &ArrayRef) -> Result<ArrayRef, VortexError> {
    array.mask(alloc, &bools(alloc, &[false, true, true])?)
}

// Stops unless rows under a mask, and those taken of them, are those that they should be.
fn nulled(
    rt: &impl Abort,
    alloc: Global,
    rows: &impl Rows,
    array: &ArrayRef,
) -> Result<(), VortexError> {
    let masked = without_first(alloc, array)?;
    expect_rows(rt, alloc, rows, &masked, &[None, Some(1), Some(2)])?;
    let taken = with_null(alloc, &masked)?;
    expect_rows(rt, alloc, rows, &taken, &[Some(2), None, None])
}

// The rows of two arrays.
fn both(alloc: Global, first: ArrayRef, second: ArrayRef) -> Result<ArrayRef, VortexError> {
    ArrayRef::concat(alloc, &vec![in alloc; first, second]?)
}

// Stops unless rows of two arrays are those that they should be.
fn joined(
    rt: &impl Abort,
    alloc: Global,
    rows: &impl Rows,
    array: &ArrayRef,
) -> Result<(), VortexError> {
    let twice = both(alloc, array.slice(alloc, 1..3)?, array.try_clone(alloc)?)?;
    let places = [Some(1), Some(2), Some(0), Some(1), Some(2)];
    expect_rows(rt, alloc, rows, &twice, &places)
}

// Stops unless rows of two arrays, with null in them, are those that they should be.
fn joined_with_null(
    rt: &impl Abort,
    alloc: Global,
    rows: &impl Rows,
    array: &ArrayRef,
) -> Result<(), VortexError> {
    let nulls = both(
        alloc,
        with_null(alloc, array)?,
        without_first(alloc, array)?,
    )?;
    let places = [Some(2), None, Some(0), None, Some(1), Some(2)];
    expect_rows(rt, alloc, rows, &nulls, &places)
}

// Stops unless the plain layout of the array, and that of its rows under a mask, have the same rows.
fn made_plain(
    rt: &impl Abort,
    alloc: Global,
    rows: &impl Rows,
    array: &ArrayRef,
) -> Result<(), VortexError> {
    let plain = array.to_canonical(alloc)?;
    expect_rows(rt, alloc, rows, &plain, &[Some(0), Some(1), Some(2)])?;
    let plain = without_first(alloc, array)?.to_canonical(alloc)?;
    expect_rows(rt, alloc, rows, &plain, &[None, Some(1), Some(2)])
}

// Stops unless each operation gives the rows that it should.
fn through_all(
    rt: &impl Abort,
    alloc: Global,
    rows: &impl Rows,
    array: &ArrayRef,
) -> Result<(), VortexError> {
    cut(rt, alloc, rows, array)?;
    taken(rt, alloc, rows, array)?;
    filtered(rt, alloc, rows, array)?;
    nulled(rt, alloc, rows, array)?;
    joined(rt, alloc, rows, array)?;
    joined_with_null(rt, alloc, rows, array)?;
    made_plain(rt, alloc, rows, array)
}

// ---- a dictionary of list views of records of texts and truth values

// Whether this is the text, or null where there is none.
fn is_text(row: Option<&Option<ScalarValue>>, text: Option<&[u8]>) -> bool {
    match (row, text) {
        (Some(None), None) => true,
        (Some(Some(ScalarValue::Text(found))), Some(text)) => found.as_slice() == text,
        _ => false,
    }
}

// Whether this is the truth value, or null where there is none.
fn is_truth(row: Option<&Option<ScalarValue>>, truth: Option<bool>) -> bool {
    match (row, truth) {
        (Some(None), None) => true,
        (Some(Some(ScalarValue::Bool(found))), Some(truth)) => *found == truth,
        _ => false,
    }
}

// Whether this is the record of that name and of that truth value, each of which may be null.
fn is_record(row: Option<&Option<ScalarValue>>, name: Option<&[u8]>, done: Option<bool>) -> bool {
    let Some(Some(ScalarValue::Record(fields))) = row else {
        return false;
    };
    let fields = fields.as_slice();
    fields.len() == 2 && is_text(fields.first(), name) && is_truth(fields.last(), done)
}

// The rows of a list; none where it is null.
fn rows_of(row: &Option<ScalarValue>) -> &[Option<ScalarValue>] {
    match row {
        Some(ScalarValue::List(rows)) => rows.as_slice(),
        _ => &[],
    }
}

struct Lists;

impl Rows for Lists {
    fn dtype(&self, alloc: Global) -> Result<DType, VortexError> {
        let nullable = Nullability::Nullable;
        let (name, done) = (DType::Utf8(nullable), DType::Bool(nullable));
        let record = records_of(alloc, &["name", "done"], name, done, nullable)?;
        Ok(DType::List(Rc::new(alloc, record)?, nullable))
    }

    fn is_row(&self, row: &Option<ScalarValue>, place: Option<usize>) -> bool {
        match (place, rows_of(row)) {
            (Some(0), [first, second, last]) => {
                is_record(Some(first), Some(b"\xC3\xA9".as_slice()), None)
                    && is_record(Some(second), Some(LONG), Some(true))
                    && last.is_none()
            }
            (Some(2), [first, last]) => {
                is_record(Some(first), Some(b"hi".as_slice()), Some(true))
                    && is_record(Some(last), None, Some(false))
            }
            (Some(0), _) | (Some(2), _) => false,
            _ => row.is_none(),
        }
    }
}

#[test]
fn lists_through_all(rt: HostRuntime) {
    through_all(
        &rt,
        rt.alloc(),
        &Lists,
        &lists_by_codes(rt.alloc()).expect(&rt, "made"),
    )
    .expect(&rt, "made");
}

// ---- lists of one size of a dictionary

// Whether this is the number, or null where there is none.
fn is_number(row: &Option<ScalarValue>, number: Option<i128>) -> bool {
    match (row, number) {
        (None, None) => true,
        (Some(ScalarValue::Int(found)), Some(number)) => *found == number,
        _ => false,
    }
}

// Whether this is the list of those two numbers.
fn is_pair(row: &Option<ScalarValue>, first: Option<i128>, last: Option<i128>) -> bool {
    match rows_of(row) {
        [found, other] => is_number(found, first) && is_number(other, last),
        _ => false,
    }
}

struct Pairs;

impl Rows for Pairs {
    fn dtype(&self, alloc: Global) -> Result<DType, VortexError> {
        let number = Rc::new(alloc, DType::Primitive(PType::I16, Nullability::Nullable))?;
        Ok(DType::FixedSizeList(number, 2, Nullability::NonNullable))
    }

    fn is_row(&self, row: &Option<ScalarValue>, place: Option<usize>) -> bool {
        match place {
            Some(0) => is_pair(row, Some(7), None),
            Some(1) => is_pair(row, Some(-9), None),
            Some(2) => is_pair(row, None, Some(7)),
            _ => row.is_none(),
        }
    }
}

// Stops unless these are the numbers of the elements of lists of one size.
fn expect_numbers(rt: &impl Abort, array: &ArrayRef, numbers: &[Option<i128>]) {
    let Layout::FixedSizeList { elements, .. } = array.layout() else {
        panic!(rt; "no lists of one size");
    };
    assert!(rt; has_numbers_or_nulls(elements, numbers));
}

#[test]
fn numbers_of_pairs(rt: HostRuntime) {
    let array = pairs_by_codes(rt.alloc()).expect(&rt, "made");
    expect_numbers(&rt, &array, &[Some(7), None, Some(-9), None, None, Some(7)]);
    let taken = array
        .take(rt.alloc(), &counts(rt.alloc(), &[2, 1]).expect(&rt, "made"))
        .expect(&rt, "made");
    expect_numbers(&rt, &taken, &[None, Some(7), Some(-9), None]);
    let plain = taken.to_canonical(rt.alloc()).expect(&rt, "made");
    expect_numbers(&rt, &plain, &[None, Some(7), Some(-9), None]);
}

#[test]
fn pairs_through_all(rt: HostRuntime) {
    through_all(
        &rt,
        rt.alloc(),
        &Pairs,
        &pairs_by_codes(rt.alloc()).expect(&rt, "made"),
    )
    .expect(&rt, "made");
}

// ---- a constant record of a text and a list

struct Parcels;

impl Rows for Parcels {
    fn dtype(&self, alloc: Global) -> Result<DType, VortexError> {
        parcels(alloc)
    }

    fn is_row(&self, row: &Option<ScalarValue>, place: Option<usize>) -> bool {
        let Some(ScalarValue::Record(fields)) = row else {
            return place.is_none() && row.is_none();
        };
        match fields.as_slice() {
            [name, sizes] => {
                place.is_some() && is_text(Some(name), Some(LONG)) && is_pair(sizes, Some(-3), None)
            }
            _ => false,
        }
    }
}

#[test]
fn parcels_through_all(rt: HostRuntime) {
    through_all(
        &rt,
        rt.alloc(),
        &Parcels,
        &same_parcels(rt.alloc()).expect(&rt, "made"),
    )
    .expect(&rt, "made");
}
