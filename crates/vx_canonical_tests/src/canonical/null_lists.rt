// Null lists of one size inside a constant, in plain layout.

use std::alloc::Global;
use std::process::Abort;
use std::rc::Rc;
use std::test::Fail;
use vx_base::{
    DType, FieldNames, Nullability, PType, Scalar, ScalarValue, ScalarValues, StructFields,
    VortexError,
};
use vx_canonical::ToCanonical;
use vx_test_help::rows::is_number;
use vx_tree::{ArrayRef, Layout};

// More items in a list than memory holds values.
const MANY: u32 = 2147483648;

// Lists of so many of these, which may be null.
fn fixed(alloc: Global, items: DType, size: u32) -> Result<DType, VortexError> {
    Ok(DType::FixedSizeList(Rc::new(alloc, items)?, size, Nullability::Nullable))
}

// Lists of these.
fn lists(alloc: Global, items: DType) -> Result<DType, VortexError> {
    Ok(DType::List(Rc::new(alloc, items)?, Nullability::NonNullable))
}

// Records of these fields.
fn records(
    alloc: Global,
    names: &[&str],
    dtypes: Vec<DType>,
    nullability: Nullability,
) -> Result<DType, VortexError> {
    let names = FieldNames::try_new(alloc, names)?;
    let dtypes = Rc::new(alloc, dtypes)?;
    if names.len() != dtypes.len() {
        return Err(VortexError::MismatchedTypes);
    }
    Ok(DType::new_struct(StructFields::new(names, dtypes), nullability))
}

// Records without fields, which may be null: they take no memory but for their validity.
fn empty_records(alloc: Global) -> Result<DType, VortexError> {
    records(alloc, &[], Vec::new(alloc), Nullability::Nullable)
}

// Numbers of 8 bits, which may be null.
fn bytes() -> DType {
    DType::Primitive(PType::U8, Nullability::Nullable)
}

// A list of these.
fn list(alloc: Global, values: Vec<Option<ScalarValue>>) -> Result<ScalarValue, VortexError> {
    Ok(ScalarValue::List(ScalarValues::from_vec(alloc, values)?))
}

// A pair of numbers.
fn pair(alloc: Global, first: i128, second: i128) -> Result<Option<ScalarValue>, VortexError> {
    let values = vec![in alloc;
        Some(ScalarValue::Int(first)),
        Some(ScalarValue::Int(second)),
    ]?;
    Ok(Some(list(alloc, values)?))
}

// A row so many times, in plain layout.
fn plain(
    alloc: Global,
    dtype: DType,
    value: ScalarValue,
    len: usize,
) -> Result<ArrayRef, VortexError> {
    ArrayRef::constant(alloc, Scalar::try_new(dtype, Some(value))?, len)?.to_canonical(alloc)
}

// Three records, each of a null list.
fn records_of_null(alloc: Global) -> Result<ArrayRef, VortexError> {
    let dtypes = vec![in alloc; fixed(alloc, empty_records(alloc)?, MANY)?]?;
    let dtype = records(alloc, &["a"], dtypes, Nullability::NonNullable)?;
    let fields = ScalarValues::from_vec(alloc, vec![in alloc; None]?)?;
    plain(alloc, dtype, ScalarValue::Record(fields), 3)
}

#[test]
fn a_record_of_a_null_list(rt: HostRuntime) {
    let array = records_of_null(rt.alloc()).expect(&rt, "made");
    let Layout::Struct { columns, .. } = array.layout() else {
        panic!(rt; "no records");
    };
    let Some(lists) = columns.first() else {
        panic!(rt; "no column");
    };
    let Layout::FixedSizeList { elements, .. } = lists.layout() else {
        panic!(rt; "no lists of one size");
    };
    assert_eq!(rt; elements.len(), 6442450944);
    assert!(rt; array.is_valid(rt.alloc(), 2).expect(&rt, "read"));
    assert!(rt; !lists.is_valid(rt.alloc(), 2).expect(&rt, "read"));
    assert!(rt;
        !elements
            .is_valid(rt.alloc(), 6442450943)
            .expect(&rt, "read")
    );
}

// A record of a null list that no memory holds, and of a list of one null list, whose elements
// cannot be counted.
fn records_of_too_much(alloc: Global) -> Result<ArrayRef, VortexError> {
    let many = fixed(alloc, fixed(alloc, bytes(), MANY)?, MANY)?;
    let too_many = fixed(
        alloc,
        fixed(alloc, fixed(alloc, bytes(), MANY)?, MANY)?,
        MANY,
    )?;
    let dtypes = vec![in alloc; many, lists(alloc, too_many)?]?;
    let dtype = records(alloc, &["a", "b"], dtypes, Nullability::NonNullable)?;
    let fields = vec![in alloc; None, Some(list(alloc, vec![in alloc; None]?)?)]?;
    let value = ScalarValue::Record(ScalarValues::from_vec(alloc, fields)?);
    plain(alloc, dtype, value, 3)
}

#[test]
fn elements_are_counted_before_a_field_is_made(rt: HostRuntime) {
    let refused = records_of_too_much(rt.alloc());
    assert_eq!(rt; refused.err(), Some(VortexError::Overflow));
}

// A list of two null lists, five times.
fn lists_of_null(alloc: Global) -> Result<ArrayRef, VortexError> {
    let dtype = lists(alloc, fixed(alloc, empty_records(alloc)?, MANY)?)?;
    plain(alloc, dtype, list(alloc, vec![in alloc; None, None]?)?, 5)
}

#[test]
fn a_list_of_null_lists(rt: HostRuntime) {
    let array = lists_of_null(rt.alloc()).expect(&rt, "made");
    let Layout::ListView { elements, .. } = array.layout() else {
        panic!(rt; "no list view");
    };
    let Layout::FixedSizeList {
        elements: items,
        ..
    } = elements.layout()
    else {
        panic!(rt; "no lists of one size");
    };
    assert!(rt; array.len() == 5 && elements.len() == 2 && items.len() == 4294967296);
    assert!(rt; !elements.is_valid(rt.alloc(), 1).expect(&rt, "read"));
}

// A list of null, 7 and 8, null, 9 and 10, null; two times.
fn some_null(alloc: Global) -> Result<ArrayRef, VortexError> {
    let dtype = lists(alloc, fixed(alloc, bytes(), 2)?)?;
    let values = vec![in alloc; None, pair(alloc, 7, 8)?, None, pair(alloc, 9, 10)?, None]?;
    plain(alloc, dtype, list(alloc, values)?, 2)
}

#[test]
fn null_lists_among_others(rt: HostRuntime) {
    let array = some_null(rt.alloc()).expect(&rt, "made");
    let Layout::ListView { elements, .. } = array.layout() else {
        panic!(rt; "no list view");
    };
    let Layout::FixedSizeList {
        elements: items,
        ..
    } = elements.layout()
    else {
        panic!(rt; "no lists of one size");
    };
    assert!(rt; array.len() == 2 && elements.len() == 5 && items.len() == 10);
    let valid = [false, true, false, true, false];
    for i in 0..5 {
        assert_eq!(rt;
            elements.is_valid(rt.alloc(), i).expect(&rt, "read"),
            valid[i]
        );
    }
    assert!(rt; is_number(items, 2, Some(7)) && is_number(items, 3, Some(8)));
    assert!(rt; is_number(items, 6, Some(9)) && is_number(items, 7, Some(10)));
}

// So many values that are null.
fn nulls(alloc: Global, count: usize) -> Result<Vec<Option<ScalarValue>>, VortexError> {
    let mut values = Vec::new(alloc);
    for _i in 0..count {
        values.push(None)?;
    }
    Ok(values)
}

// A list of 4096 null lists and one list of 4096 null records without fields.
fn one_among_nulls(alloc: Global) -> Result<ArrayRef, VortexError> {
    let dtype = lists(alloc, fixed(alloc, empty_records(alloc)?, 4096)?)?;
    let mut values = nulls(alloc, 4096)?;
    values.push(Some(list(alloc, nulls(alloc, 4096)?)?))?;
    plain(alloc, dtype, list(alloc, values)?, 1)
}

#[test]
fn many_null_lists_and_another(rt: HostRuntime) {
    let array = one_among_nulls(rt.alloc()).expect(&rt, "made");
    let Layout::ListView { elements, .. } = array.layout() else {
        panic!(rt; "no list view");
    };
    let Layout::FixedSizeList {
        elements: items,
        ..
    } = elements.layout()
    else {
        panic!(rt; "no lists of one size");
    };
    assert!(rt; elements.len() == 4097 && items.len() == 16781312);
    assert!(rt; !elements.is_valid(rt.alloc(), 4095).expect(&rt, "read"));
    assert!(rt; elements.is_valid(rt.alloc(), 4096).expect(&rt, "read"));
}

// Pairs of lists that are null, whose items cannot be counted, and that row.
fn uncounted(alloc: Global) -> Result<(DType, ScalarValue), VortexError> {
    let most = fixed(alloc, fixed(alloc, bytes(), u32::MAX)?, u32::MAX)?;
    let dtype = fixed(alloc, most, 2)?;
    Ok((dtype, list(alloc, vec![in alloc; None, None]?)?))
}

// So many of these pairs.
fn pairs_of_null(alloc: Global, len: usize) -> Result<ArrayRef, VortexError> {
    let (dtype, value) = uncounted(alloc)?;
    plain(alloc, dtype, value, len)
}

#[test]
fn a_row_that_cannot_be_counted(rt: HostRuntime) {
    let none = pairs_of_null(rt.alloc(), 0).expect(&rt, "made");
    assert!(rt; none.is_empty() && matches!(none.layout(), Layout::FixedSizeList { .. }));
    let fault = pairs_of_null(rt.alloc(), 1).err();
    assert_eq!(rt; fault, Some(VortexError::Overflow));
}

// No list of these pairs.
fn no_list_of_pairs(alloc: Global) -> Result<ArrayRef, VortexError> {
    let (dtype, value) = uncounted(alloc)?;
    let dtype = lists(alloc, dtype)?;
    plain(alloc, dtype, list(alloc, vec![in alloc; Some(value)]?)?, 0)
}

#[test]
fn elements_that_cannot_be_counted(rt: HostRuntime) {
    assert_eq!(rt;
        no_list_of_pairs(rt.alloc()).err(),
        Some(VortexError::Overflow)
    );
}
