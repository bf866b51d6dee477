// Arrays one after another, of each layout once, with rows written by hand.

use std::alloc::Global;
use vx_base::{DType, Nullability, PType, Scalar, VortexError};
use vx_canonical::Concatenate;
use vx_test_help::bools;
use vx_test_help::rows::{has_elements, is_list, is_null, is_number, is_record, is_text, is_truth};
use vx_test_help::samples::{LONG, dictionary, huge_list, indices, lists, pairs, records, texts};
use vx_tree::{ArrayRef, Layout};

// The rows of two arrays.
fn both(alloc: Global, first: ArrayRef, second: ArrayRef) -> Result<ArrayRef, VortexError> {
    let arrays = vec![in alloc; first, second]?;
    ArrayRef::concat(alloc, &arrays)
}

#[test]
fn numbers_and_a_dictionary(rt: HostRuntime) {
    let alloc = rt.alloc();
    let joined = both(
        alloc,
        indices(alloc).expect(&rt, "made"),
        dictionary(alloc).expect(&rt, "made"),
    )
    .expect(&rt, "made");
    assert!(rt; joined.len() == 8 && matches!(joined.layout(), Layout::Primitive { .. }));
    let want = [Some(2), None, Some(0), None, None, Some(9), None, Some(6)];
    for (i, row) in want.iter().enumerate() {
        assert!(rt; is_number(&joined, i, *row), "at {i}");
    }
}

#[test]
fn numbers_of_each_layout(rt: HostRuntime) {
    let alloc = rt.alloc();
    let seven = Scalar::int(7, PType::U8, Nullability::Nullable);
    let null = Scalar::null(DType::Primitive(PType::U8, Nullability::Nullable));
    let sevens = ArrayRef::constant(alloc, seven, 2).expect(&rt, "made");
    let nulls = ArrayRef::constant(alloc, null, 1).expect(&rt, "made");
    let arrays = vec![in alloc;
        indices(alloc).expect(&rt, "made"),
        sevens,
        nulls,
        dictionary(alloc).expect(&rt, "made"),
    ]
    .expect(&rt, "made");
    let joined = ArrayRef::concat(alloc, &arrays).expect(&rt, "made");
    assert!(rt; joined.len() == 11 && matches!(joined.layout(), Layout::Primitive { .. }));
    let want = [
        Some(2),
        None,
        Some(0),
        Some(7),
        Some(7),
        None,
        None,
        None,
        Some(9),
        None,
        Some(6),
    ];
    for (i, row) in want.iter().enumerate() {
        assert!(rt; is_number(&joined, i, *row), "at {i}");
    }
}

#[test]
fn constants_of_two_bytes(rt: HostRuntime) {
    let alloc = rt.alloc();
    let scalar = Scalar::int(-300, PType::I16, Nullability::NonNullable);
    let first = ArrayRef::constant(alloc, scalar, 130).expect(&rt, "made");
    let scalar = Scalar::int(513, PType::I16, Nullability::NonNullable);
    let joined = both(
        alloc,
        first,
        ArrayRef::constant(alloc, scalar, 2).expect(&rt, "made"),
    )
    .expect(&rt, "made");
    assert!(rt; joined.len() == 132 && !joined.dtype().is_nullable());
    assert!(rt; is_number(&joined, 129, Some(-300)));
    assert!(rt; is_number(&joined, 131, Some(513)));
}

#[test]
fn booleans_and_a_constant(rt: HostRuntime) {
    let alloc = rt.alloc();
    let constant = ArrayRef::constant(
        alloc,
        Scalar::bool(true, Nullability::NonNullable),
        2,
    ).expect(&rt, "made");
    let joined = both(
        alloc,
        bools(alloc, &[false, true, false]).expect(&rt, "made"),
        constant,
    )
    .expect(&rt, "made");
    assert!(rt; joined.len() == 5 && !joined.dtype().is_nullable());
    for (i, row) in [false, true, false, true, true].iter().enumerate() {
        assert!(rt;
            is_truth(alloc, &joined, i, Some(*row)).expect(&rt, "made"),
            "at {i}"
        );
    }
}

#[test]
fn lists_and_lists(rt: HostRuntime) {
    let alloc = rt.alloc();
    let joined = both(
        alloc,
        lists(alloc)
            .expect(&rt, "made")
            .slice(alloc, 1..3)
            .expect(&rt, "made"),
        lists(alloc).expect(&rt, "made"),
    )
    .expect(&rt, "made");
    assert_eq!(rt; joined.len(), 5);
    assert!(rt; is_list(alloc, &joined, 0, Some(&[1])).expect(&rt, "made"));
    assert!(rt; is_list(alloc, &joined, 1, Some(&[2, 3])).expect(&rt, "made"));
    assert!(rt; is_list(alloc, &joined, 2, Some(&[3, 4])).expect(&rt, "made"));
    assert!(rt; is_list(alloc, &joined, 3, Some(&[1])).expect(&rt, "made"));
    assert!(rt; is_list(alloc, &joined, 4, Some(&[2, 3])).expect(&rt, "made"));
    let found = match joined.layout() {
        Layout::ListView { elements, flag, .. } => elements.len() == 8 && !*flag,
        _ => false,
    };
    assert!(rt; found);
}

#[test]
fn texts_and_texts(rt: HostRuntime) {
    let alloc = rt.alloc();
    let joined = both(
        alloc,
        texts(alloc).expect(&rt, "made"),
        texts(alloc).expect(&rt, "made"),
    )
    .expect(&rt, "made");
    assert_eq!(rt; joined.len(), 8);
    assert!(rt;
        is_text(alloc, &joined, 0, b"hi").expect(&rt, "made")
            && is_null(alloc, &joined, 1).expect(&rt, "made")
    );
    assert!(rt;
        is_text(alloc, &joined, 3, LONG).expect(&rt, "made")
            && is_text(alloc, &joined, 4, b"hi").expect(&rt, "made")
    );
    assert!(rt;
        is_null(alloc, &joined, 5).expect(&rt, "made")
            && is_text(alloc, &joined, 6, b"\xC3\xA9").expect(&rt, "made")
    );
    assert!(rt; is_text(alloc, &joined, 7, LONG).expect(&rt, "made"));
    let found = match joined.layout() {
        Layout::VarBinView { buffers, .. } => buffers.len() == 2,
        _ => false,
    };
    assert!(rt; found);
}

#[test]
fn lists_of_one_size(rt: HostRuntime) {
    let alloc = rt.alloc();
    let joined = both(
        alloc,
        pairs(alloc)
            .expect(&rt, "made")
            .slice(alloc, 2..3)
            .expect(&rt, "made"),
        pairs(alloc).expect(&rt, "made"),
    )
    .expect(&rt, "made");
    assert_eq!(rt; joined.len(), 4);
    assert!(rt; has_elements(&joined, 0, &[5, 6, 1, 2, 3, 4, 5, 6]));
}

#[test]
fn records_and_records(rt: HostRuntime) {
    let alloc = rt.alloc();
    let joined = both(
        alloc,
        records(alloc).expect(&rt, "made"),
        records(alloc)
            .expect(&rt, "made")
            .slice(alloc, 1..3)
            .expect(&rt, "made"),
    )
    .expect(&rt, "made");
    assert_eq!(rt; joined.len(), 5);
    assert!(rt; is_record(alloc, &joined, 0, Some((1, true))).expect(&rt, "made"));
    assert!(rt; is_record(alloc, &joined, 1, None).expect(&rt, "made"));
    assert!(rt; is_record(alloc, &joined, 2, Some((3, true))).expect(&rt, "made"));
    assert!(rt; is_record(alloc, &joined, 3, None).expect(&rt, "made"));
    assert!(rt; is_record(alloc, &joined, 4, Some((3, true))).expect(&rt, "made"));
}

#[test]
fn no_arrays(rt: HostRuntime) {
    let found = matches!(
        ArrayRef::concat(rt.alloc(), &[]),
        Err(VortexError::EmptyInput)
    );
    assert!(rt; found);
}

#[test]
fn arrays_of_two_data_types(rt: HostRuntime) {
    let alloc = rt.alloc();
    let joined = both(
        alloc,
        lists(alloc).expect(&rt, "made"),
        indices(alloc).expect(&rt, "made"),
    );
    assert!(rt; matches!(joined, Err(VortexError::DifferingDtypes)));
}

// More rows than can be counted are refused before any of them takes memory.
#[test]
fn huge_constants(rt: HostRuntime) {
    let alloc = rt.alloc();
    let half = 9223372036854775808;
    let scalar = Scalar::int(7, PType::I32, Nullability::NonNullable);
    let constant = ArrayRef::constant(alloc, scalar, half).expect(&rt, "made");
    let joined = both(
        alloc,
        constant.try_clone(alloc).expect(&rt, "made"),
        constant,
    );
    assert!(rt; matches!(joined, Err(VortexError::Overflow)));
}

// Together they have 2^64 zeroes.
#[test]
fn huge_lists_of_one_size(rt: HostRuntime) {
    let alloc = rt.alloc();
    let list = huge_list(alloc).expect(&rt, "made");
    let mut arrays = Vec::new(alloc);
    for _ in 0..8192 {
        arrays
            .push(list.try_clone(alloc).expect(&rt, "made"))
            .expect(&rt, "made");
    }
    let joined = ArrayRef::concat(alloc, &arrays);
    assert!(rt; matches!(joined, Err(VortexError::Overflow)));
}
