// Constants of lists and records in plain layout.

use std::alloc::Global;
use std::process::Abort;
use std::rc::Rc;
use vx_base::{
    ByteBuffer, DType, FieldNames, Nullability, PType, Scalar, ScalarValue, ScalarValues,
    StructFields, VortexError,
};
use vx_canonical::ToCanonical;
use vx_test_help::rows::{is_list, is_number};
use vx_test_help::samples::LONG;
use vx_tree::{ArrayRef, Layout};

// The value of a list of numbers, null where there is none.
fn list_value(alloc: Global, numbers: &[Option<i128>]) -> Result<ScalarValue, VortexError> {
    let mut values = Vec::new(alloc);
    for number in numbers {
        values.push(match number {
            Some(number) => Some(ScalarValue::Int(*number)),
            None => None,
        })?;
    }
    Ok(ScalarValue::List(ScalarValues::from_vec(alloc, values)?))
}

// Lists of nullable numbers.
fn lists(alloc: Global) -> Result<DType, VortexError> {
    let items = Rc::new(alloc, DType::Primitive(PType::I16, Nullability::Nullable))?;
    Ok(DType::List(items, Nullability::Nullable))
}

// Lists of two nullable numbers.
fn pairs(alloc: Global) -> Result<DType, VortexError> {
    let items = Rc::new(alloc, DType::Primitive(PType::I16, Nullability::Nullable))?;
    Ok(DType::FixedSizeList(items, 2, Nullability::Nullable))
}

// Records of a text `a` and a pair `b`.
fn records(alloc: Global) -> Result<DType, VortexError> {
    let names = FieldNames::try_new(alloc, &["a", "b"])?;
    let mut dtypes = Vec::new(alloc);
    dtypes.push(DType::Utf8(Nullability::NonNullable))?;
    dtypes.push(pairs(alloc)?)?;
    let dtypes = Rc::new(alloc, dtypes)?;
    if names.len() != dtypes.len() {
        return Err(VortexError::MismatchedTypes);
    }
    Ok(DType::new_struct(StructFields::new(names, dtypes), Nullability::NonNullable))
}

// A row so many times, in plain layout.
fn plain(
    alloc: Global,
    dtype: DType,
    value: Option<ScalarValue>,
    len: usize,
) -> Result<ArrayRef, VortexError> {
    ArrayRef::constant(alloc, Scalar::try_new(dtype, value)?, len)?.to_canonical(alloc)
}

// Three times the list of 7 and -8.
fn three_lists(alloc: Global) -> Result<ArrayRef, VortexError> {
    let value = list_value(alloc, &[Some(7), Some(-8)])?;
    plain(alloc, lists(alloc)?, Some(value), 3)
}

#[test]
fn lists_have_their_elements_once(rt: HostRuntime) {
    let array = three_lists(rt.alloc()).expect(&rt, "made");
    assert!(rt; array.len() == 3 && array.dtype().is_nullable());
    for i in 0..3 {
        assert!(rt;
            is_list(rt.alloc(), &array, i, Some(&[7, -8])).expect(&rt, "made"),
            "at {i}"
        );
    }
    let Layout::ListView { elements, .. } = array.layout() else {
        panic!(rt; "no list view");
    };
    assert!(rt; elements.len() == 2 && matches!(elements.layout(), Layout::Primitive { .. }));
}

#[test]
fn lists_that_are_null(rt: HostRuntime) {
    let none = plain(rt.alloc(), lists(rt.alloc()).expect(&rt, "made"), None, 2).expect(
        &rt, "made",
    );
    assert!(rt; none.len() == 2 && !none.is_valid(rt.alloc(), 1).expect(&rt, "made"));
}

// Two times the pair of 7 and null.
fn two_pairs(alloc: Global) -> Result<ArrayRef, VortexError> {
    let value = list_value(alloc, &[Some(7), None])?;
    plain(alloc, pairs(alloc)?, Some(value), 2)
}

#[test]
fn pairs_are_repeated(rt: HostRuntime) {
    let array = two_pairs(rt.alloc()).expect(&rt, "made");
    let Layout::FixedSizeList { elements, .. } = array.layout() else {
        panic!(rt; "no lists of one size");
    };
    assert!(rt;
        array.len() == 2 && elements.len() == 4 && array.is_valid(rt.alloc(), 1).expect(&rt, "made")
    );
    assert!(rt; is_number(elements, 0, Some(7)) && is_number(elements, 1, None));
    assert!(rt; is_number(elements, 2, Some(7)) && is_number(elements, 3, None));
}

// The value of a record of a long text and no pair.
fn record_value(alloc: Global) -> Result<ScalarValue, VortexError> {
    let text = ScalarValue::Text(ByteBuffer::copy_from(alloc, LONG)?);
    let fields = vec![in alloc; Some(text), None]?;
    Ok(ScalarValue::Record(ScalarValues::from_vec(alloc, fields)?))
}

// So many of these records.
fn same_records(alloc: Global, len: usize) -> Result<ArrayRef, VortexError> {
    let value = record_value(alloc)?;
    plain(alloc, records(alloc)?, Some(value), len)
}

// Stops unless two of these records stand in plain layout.
fn expect_records(rt: &impl Abort, alloc: Global, array: &ArrayRef) -> Result<(), VortexError> {
    let Layout::Struct { columns, .. } = array.layout() else {
        panic!(rt; "no records");
    };
    assert!(rt; array.len() == 2 && columns.len() == 2);
    assert!(rt; !columns[1].is_valid(alloc, 0)? && !columns[1].is_valid(alloc, 1)?);
    let Layout::VarBinView { buffers, .. } = columns[0].layout() else {
        panic!(rt; "no texts");
    };
    assert_eq!(rt; buffers.len(), 1);
    assert!(rt; columns[0].bytes_at(0) == Some(LONG) && columns[0].bytes_at(1) == Some(LONG));
    Ok(())
}

#[test]
fn records_by_columns(rt: HostRuntime) {
    let array = same_records(rt.alloc(), 2).expect(&rt, "made");
    expect_records(&rt, rt.alloc(), &array).expect(&rt, "made");
}

#[test]
fn plain_records_stay_as_they_are(rt: HostRuntime) {
    let array = same_records(rt.alloc(), 2)
        .expect(&rt, "made")
        .to_canonical(rt.alloc())
        .expect(&rt, "made");
    expect_records(&rt, rt.alloc(), &array).expect(&rt, "made");
}

#[test]
fn no_records(rt: HostRuntime) {
    let none = same_records(rt.alloc(), 0).expect(&rt, "made");
    assert!(rt; none.is_empty() && matches!(none.layout(), Layout::Struct { .. }));
}

#[test]
fn lists_that_do_not_stand(rt: HostRuntime) {
    let value = list_value(rt.alloc(), &[Some(1), Some(2)]).expect(&rt, "made");
    let none = plain(
        rt.alloc(),
        lists(rt.alloc()).expect(&rt, "made"),
        Some(value),
        0,
    )
    .expect(&rt, "made");
    let Layout::ListView { elements, .. } = none.layout() else {
        panic!(rt; "no list view");
    };
    assert!(rt; none.is_empty() && elements.len() == 2);
}

#[test]
fn texts_that_do_not_stand(rt: HostRuntime) {
    let text = ScalarValue::Text(ByteBuffer::copy_from(rt.alloc(), b"thirteen byte").expect(
        &rt, "made",
    ));
    let dtype = DType::Utf8(Nullability::NonNullable);
    let none = plain(rt.alloc(), dtype, Some(text), 0).expect(&rt, "made");
    let Layout::VarBinView { buffers, .. } = none.layout() else {
        panic!(rt; "no texts");
    };
    assert!(rt; none.is_empty() && buffers.len() == 1);
}
