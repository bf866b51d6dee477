// Arrays of views from outside: what is taken, and what is refused.

use super::{BYTE_LISTS, SOME_TEXTS, TEXTS, fault_of, is_value, one_view};
use std::alloc::Global;
use vx_base::{BitBuffer, Buffer, DType, Nullability, PType, VortexError};
use vx_text::{VarBinViewArray, VarBinViewData};
use vx_tree::{ArrayRef, TypedArray, Validity};
use vx_views::BinaryView;

// Twelve letters, a letter of two bytes, and thirteen letters more.
const TEXT: &[u8] = b"aaaaaaaaaaaa\xC3\xA9bbbbbbbbbbbbb\xFF";

#[test]
fn each_text_is_judged_alone(rt: HostRuntime) {
    let cut = BinaryView::new_ref(13, *b"aaaa", 0, 0);
    let whole = BinaryView::new_ref(14, *b"aaaa", 0, 0);
    for len in [27, 28] {
        let refused = fault_of(rt.alloc(), cut, &TEXT[..len], TEXTS, Validity::NonNullable);
        assert_eq!(rt; refused, Some(VortexError::NotUtf8 { row: 0 }));
        let array = one_view(
            rt.alloc(),
            whole,
            &TEXT[..len],
            TEXTS,
            Validity::NonNullable,
        )
        .expect(&rt, "made");
        assert!(rt; is_value(&array, 0, &TEXT[..14]));
    }
}

#[test]
fn bytes_need_be_no_text(rt: HostRuntime) {
    let cut = BinaryView::new_ref(13, *b"aaaa", 0, 0);
    let array = one_view(rt.alloc(), cut, TEXT, BYTE_LISTS, Validity::NonNullable).expect(
        &rt, "made",
    );
    assert!(rt; is_value(&array, 0, &TEXT[..13]));
}

#[test]
fn null_rows_are_emptied(rt: HostRuntime) {
    let view = BinaryView::new_ref(13, *b"abcd", 9, 0);
    let views = Buffer::copy_from(rt.alloc(), &[view]).expect(&rt, "made");
    let none = Vec::new(rt.alloc());
    let null = Validity::AllInvalid;
    let array = VarBinViewArray::try_new(rt.alloc(), views, none, SOME_TEXTS, null).expect(
        &rt, "made",
    );
    assert_eq!(rt; array.as_array().bytes_at(0), None);
    let data = array.to_data(rt.alloc()).expect(&rt, "made");
    assert_eq!(rt; data.views()[0].as_u128(), 0);
    assert_eq!(rt; data.data_buffers().len(), 0);
}

#[test]
fn some_rows_are_emptied(rt: HostRuntime) {
    let valid = BitBuffer::from_bools(rt.alloc(), &[true, false, true]).expect(&rt, "made");
    let valid = Validity::from_buffer(rt.alloc(), valid).expect(&rt, "made");
    let lost = BinaryView::new_ref(13, *b"abcd", 9, 0);
    let short = BinaryView::new_inlined(b"ab");
    let views = Buffer::copy_from(rt.alloc(), &[short, lost, short]).expect(&rt, "made");
    let none = Vec::new(rt.alloc());
    let array = VarBinViewArray::try_new(rt.alloc(), views, none, SOME_TEXTS, valid).expect(
        &rt, "made",
    );
    let data = array.to_data(rt.alloc()).expect(&rt, "made");
    assert!(rt; data.views()[0] == short && data.views()[2] == short);
    assert_eq!(rt; data.views()[1].as_u128(), 0);
}

// The array of these views, of which every other row is null, from the second on.
fn every_other(alloc: Global, views: Buffer<BinaryView>) -> Result<VarBinViewArray, VortexError> {
    let bits = BitBuffer::from_bools(alloc, &[true, false])?;
    let valid = Validity::from_buffer(alloc, bits)?;
    VarBinViewArray::try_new(alloc, views, Vec::new(alloc), SOME_TEXTS, valid)
}

#[test]
fn views_that_are_lent_stay_as_they_were(rt: HostRuntime) {
    let lost = BinaryView::new_ref(13, *b"abcd", 9, 0);
    let short = BinaryView::new_inlined(b"ab");
    let lent = Buffer::copy_from(rt.alloc(), &[lost, short, lost]).expect(&rt, "made");
    let array = every_other(rt.alloc(), lent.slice(rt.alloc(), 1..3).expect(&rt, "made")).expect(
        &rt, "made",
    );
    assert!(rt; lent.as_slice() == [lost, short, lost].as_slice());
    let data = array.to_data(rt.alloc()).expect(&rt, "made");
    assert!(rt; data.len() == 2 && data.views()[0] == short);
    assert_eq!(rt; data.views()[1].as_u128(), 0);
}

#[test]
fn views_behind_others_are_emptied_in_place(rt: HostRuntime) {
    let lost = BinaryView::new_ref(13, *b"abcd", 9, 0);
    let short = BinaryView::new_inlined(b"ab");
    let views = Buffer::copy_from(rt.alloc(), &[lost, short, lost])
        .expect(&rt, "made")
        .slice(rt.alloc(), 1..3)
        .expect(&rt, "made");
    let data = every_other(rt.alloc(), views)
        .expect(&rt, "made")
        .to_data(rt.alloc())
        .expect(&rt, "made");
    assert!(rt; data.len() == 2 && data.views()[0] == short);
    assert_eq!(rt; data.views()[1].as_u128(), 0);
}

#[test]
fn valid_views_that_lead_nowhere(rt: HostRuntime) {
    for (prefix, block, offset, fault) in [
        (*b"abcX", 0, 0, VortexError::BadPrefix { row: 0 }),
        (*b"abcd", 0, 1, VortexError::BadEnd { row: 0 }),
        (*b"abcd", 0, 13, VortexError::BadStart { row: 0 }),
        (*b"abcd", 9, 0, VortexError::BadBuffer { row: 0 }),
    ] {
        let view = BinaryView::new_ref(13, prefix, block, offset);
        let valid = Validity::NonNullable;
        let refused = fault_of(rt.alloc(), view, b"abcdefghijklm", TEXTS, valid);
        assert_eq!(rt; refused, Some(fault));
    }
}

#[test]
fn padding_is_no_part_of_a_value(rt: HostRuntime) {
    let view = BinaryView::from(0x00ff626100000002);
    let array = one_view(rt.alloc(), view, b"", TEXTS, Validity::NonNullable).expect(&rt, "made");
    assert!(rt; is_value(&array, 0, b"ab"));
    let data = array.to_data(rt.alloc()).expect(&rt, "made");
    assert!(rt; data.views().len() == 1);
    assert!(rt; data.views()[0] != BinaryView::make_view(b"ab", 0, 0));
}

#[test]
fn other_parts_are_refused(rt: HostRuntime) {
    let view = BinaryView::new_inlined(b"\xFF");
    let numbers = DType::Primitive(PType::U8, Nullability::NonNullable);
    let refused = fault_of(rt.alloc(), view, b"", numbers, Validity::AllValid);
    assert_eq!(rt; refused, Some(VortexError::MismatchedTypes));
    let refused = fault_of(rt.alloc(), view, b"", TEXTS, Validity::AllValid);
    assert_eq!(rt; refused, Some(VortexError::NullabilityMismatch));
    let refused = fault_of(rt.alloc(), view, b"", SOME_TEXTS, Validity::NonNullable);
    assert_eq!(rt; refused, Some(VortexError::NullabilityMismatch));
}

#[test]
fn validities_of_another_length(rt: HostRuntime) {
    let bits = BitBuffer::from_bools(rt.alloc(), &[true, false]).expect(&rt, "made");
    let two = ArrayRef::bools(rt.alloc(), bits, Validity::NonNullable).expect(&rt, "made");
    let view = BinaryView::new_inlined(b"\xFF");
    let refused = fault_of(rt.alloc(), view, b"", SOME_TEXTS, Validity::Array(two));
    assert!(rt; matches!(refused, Some(VortexError::LengthMismatch { .. })));
}

#[test]
fn budgets_change_no_answer(rt: HostRuntime) {
    let views = [
        BinaryView::new_inlined(b"a"),
        BinaryView::new_inlined(b"\xFF"),
    ];
    let plain = Validity::NonNullable;
    for budget in [0, 1, usize::MAX] {
        let checked = VarBinViewData::validate_with_budget(
            rt.alloc(),
            &views,
            &[],
            &TEXTS,
            &plain,
            budget,
        );
        assert_eq!(rt; checked, Err(VortexError::NotUtf8 { row: 1 }));
    }
    let checked = VarBinViewData::validate(rt.alloc(), &views, &[], &BYTE_LISTS, &plain);
    assert_eq!(rt; checked, Ok(()));
}
