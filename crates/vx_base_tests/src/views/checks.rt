// Views that are checked, at every budget.

use crate::base::masks::mask_of;
use std::alloc::Global;
use std::test::Fail;
use vx_base::{ByteBuffer, Mask, VortexError};
use vx_views::{BinaryView, Ref, check_and_empty_views, check_views, check_views_counted};

// What is answered of one view over one buffer, in which text is asked.
fn check_one(
    alloc: Global,
    buffer: &[u8],
    view: BinaryView,
    budget: usize,
) -> Result<(), VortexError> {
    let buffers = [ByteBuffer::copy_from(alloc, buffer)?];
    check_views(alloc, &[view], &Mask::new_true(1), &buffers, true, budget)
}

#[test]
fn values_are_checked_alone(rt: HostRuntime) {
    let text = b"aaaaaaaaaaaa\xC3\xA9bbbbbbbbbbbbb\xFF";
    let cut = BinaryView::new_ref(13, *b"aaaa", 0, 0);
    let whole = BinaryView::new_ref(14, *b"aaaa", 0, 0);
    for budget in [0, 13, 27, usize::MAX] {
        let refused = check_one(rt.alloc(), &text[..27], cut, budget);
        assert_eq!(rt; refused, Err(VortexError::NotUtf8 { row: 0 }));
        assert_eq!(rt; check_one(rt.alloc(), &text[..27], whole, budget), Ok(()));
        assert_eq!(rt; check_one(rt.alloc(), text, whole, budget), Ok(()));
    }
}

// 70 times `a`, an `é`, 60 times `b`, a byte that is in no text, 80 times `c`, and two of the three
// bytes of a `€`.
fn two_texts() -> [u8; 215] {
    let mut bytes = [b'a'; 215];
    bytes[70..72].copy_from_slice(b"\xC3\xA9");
    bytes[72..132].copy_from_slice(&[b'b'; 60]);
    bytes[132] = 0xFF;
    bytes[133..213].copy_from_slice(&[b'c'; 80]);
    bytes[213..].copy_from_slice(b"\xE2\x82");
    bytes
}

// What is answered where the first text is named twice, and then a range of these bytes.
fn check_overlapping(
    alloc: Global,
    offset: u32,
    prefix: [u8; 4],
    size: u32,
) -> Result<usize, VortexError> {
    let first = BinaryView::new_ref(132, *b"aaaa", 0, 0);
    let last = BinaryView::from(Ref {
        size,
        prefix,
        buffer_index: 0,
        offset,
    });
    let mut views = [first, first, last];
    let buffers = [ByteBuffer::copy_from(alloc, &two_texts())?];
    let mask = Mask::new_true(3);
    check_views_counted(alloc, &views, &mask, &buffers, true, 0)?;
    check_and_empty_views(alloc, &mut views, &mask, &buffers, true, usize::MAX)
}

#[test]
fn overlapping_views_of_what_is_no_text_are_checked(rt: HostRuntime) {
    for (offset, prefix, size) in [
        (0, *b"aaaa", 132),
        (0, *b"aaaa", 72),
        (64, *b"aaaa", 68),
        (70, *b"\xC3\xA9bb", 62),
        (72, *b"bbbb", 60),
        (119, *b"bbbb", 13),
        (133, *b"cccc", 80),
        (192, *b"cccc", 21),
        (200, *b"cccc", 13),
    ] {
        let answer = check_overlapping(rt.alloc(), offset, prefix, size);
        assert_eq!(rt; answer, Ok(3));
    }
}

#[test]
fn overlapping_views_that_leave_a_text_are_refused(rt: HostRuntime) {
    for (offset, prefix, size) in [
        (0, *b"aaaa", 71),
        (0, *b"aaaa", 133),
        (0, *b"aaaa", 215),
        (58, *b"aaaa", 13),
        (71, *b"\xA9bbb", 61),
        (100, *b"bbbb", 100),
        (120, *b"bbbb", 13),
        (132, *b"\xFFccc", 70),
        (133, *b"cccc", 81),
        (200, *b"cccc", 15),
    ] {
        let answer = check_overlapping(rt.alloc(), offset, prefix, size);
        assert_eq!(rt; answer, Err(VortexError::NotUtf8 { row: 2 }));
    }
}

#[test]
fn null_rows_are_never_faulty(rt: HostRuntime) {
    let view = BinaryView::new_ref(13, *b"abcd", 9, 0);
    let null = check_views(rt.alloc(), &[view], &Mask::new_false(1), &[], true, 0);
    assert_eq!(rt; null, Ok(()));
    let valid = check_views(rt.alloc(), &[view], &Mask::new_true(1), &[], true, 0);
    assert_eq!(rt; valid, Err(VortexError::BadBuffer { row: 0 }));
}

#[test]
fn the_first_fault_is_named(rt: HostRuntime) {
    for (prefix, block, offset, fault) in [
        (*b"abcX", 0, 0, VortexError::BadPrefix { row: 0 }),
        (*b"abcd", 0, 1, VortexError::BadEnd { row: 0 }),
        (*b"abcd", 0, 13, VortexError::BadStart { row: 0 }),
        (*b"abcd", 1, 0, VortexError::BadBuffer { row: 0 }),
    ] {
        let view = BinaryView::new_ref(13, prefix, block, offset);
        for budget in [0, 13, usize::MAX] {
            let answer = check_one(rt.alloc(), b"abcdefghijklm", view, budget);
            assert_eq!(rt; answer, Err(fault));
        }
    }
}

#[test]
fn inlined_values_may_be_padded_with_anything(rt: HostRuntime) {
    let view = BinaryView::from(0x00ff626100000002);
    let mask = Mask::new_true(1);
    for budget in [0, 12, usize::MAX] {
        let answer = check_views(rt.alloc(), &[view], &mask, &[], true, budget);
        assert_eq!(rt; answer, Ok(()));
    }
    assert_eq!(rt; view.len(), 2);
    assert_eq!(rt; view.prefix(), *b"ab\xFF\0");
}

#[test]
fn inlined_values_are_checked(rt: HostRuntime) {
    let view = BinaryView::new_inlined(b"\xFF");
    let mask = Mask::new_true(1);
    let text = check_views(rt.alloc(), &[view], &mask, &[], true, 0);
    assert_eq!(rt; text, Err(VortexError::NotUtf8 { row: 0 }));
    assert_eq!(rt;
        check_views(rt.alloc(), &[view], &mask, &[], false, 0),
        Ok(())
    );
}

// How many views were checked alone of one view over one buffer, in which text is asked.
fn count_one(
    alloc: Global,
    buffer: &[u8],
    view: BinaryView,
    budget: usize,
) -> Result<usize, VortexError> {
    let buffers = [ByteBuffer::copy_from(alloc, buffer)?];
    check_views_counted(alloc, &[view], &Mask::new_true(1), &buffers, true, budget)
}

#[test]
fn a_buffer_within_the_budget_is_checked_whole(rt: HostRuntime) {
    let text = b"aaaaaaaaaaaa\xC3\xA9bbbbbbbbbbbbb\xFF";
    let view = BinaryView::new_ref(14, *b"aaaa", 0, 0);
    for (budget, left) in [(0, 1), (26, 1), (27, 0), (28, 0), (usize::MAX, 0)] {
        let counted = count_one(rt.alloc(), &text[..27], view, budget);
        assert_eq!(rt; counted, Ok(left));
        assert_eq!(rt; count_one(rt.alloc(), text, view, budget), Ok(1));
    }
}

#[test]
fn a_buffer_past_the_budget_is_left_out(rt: HostRuntime) {
    let mut buffers = Vec::new(rt.alloc());
    for len in [20, 30, 10, 0, 1] {
        let bytes = vec![in rt.alloc(); b'x'; len].expect(&rt, "made");
        buffers
            .push(ByteBuffer::from_vec(rt.alloc(), bytes).expect(&rt, "made"))
            .expect(&rt, "made");
    }
    let views = [
        BinaryView::new_ref(20, *b"xxxx", 0, 0),
        BinaryView::new_ref(13, *b"xxxx", 1, 17),
        BinaryView::new_ref(14, *b"xxxx", 1, 0),
        BinaryView::new_inlined("abc".as_bytes()),
        BinaryView::new_inlined("\u{e9}".as_bytes()),
    ];
    let mask = Mask::new_true(5);
    for (budget, left) in [(0, 4), (20, 3), (30, 3), (49, 3), (50, 1), (61, 1)] {
        let counted = check_views_counted(rt.alloc(), &views, &mask, &buffers, true, budget);
        assert_eq!(rt; counted, Ok(left));
    }
    let unasked = check_views_counted(rt.alloc(), &views, &mask, &buffers, false, 0);
    assert_eq!(rt; unasked, Ok(0));
    let null = check_views_counted(rt.alloc(), &views, &Mask::new_false(5), &buffers, true, 0);
    assert_eq!(rt; null, Ok(0));
}

#[test]
fn padding_is_not_counted(rt: HostRuntime) {
    let views = [
        BinaryView::from(0x00ff626100000002),
        BinaryView::new_inlined("\u{e9}".as_bytes()),
    ];
    let counted = check_views_counted(rt.alloc(), &views, &Mask::new_true(2), &[], true, 0);
    assert_eq!(rt; counted, Ok(1));
}

// Views of a text, of bytes that are no text, of bytes past the buffer's end, and of the text `b`.
fn faulty_views() -> [BinaryView; 4] {
    [
        BinaryView::new_ref(13, *b"aaaa", 0, 0),
        BinaryView::new_ref(14, *b"aaaa", 0, 0),
        BinaryView::new_ref(13, *b"aaaa", 0, 9),
        BinaryView::new_inlined(b"b"),
    ]
}

// The buffer of those views.
fn faulty_buffer(alloc: Global) -> Result<[ByteBuffer; 1], VortexError> {
    Ok([ByteBuffer::copy_from(alloc, b"aaaaaaaaaaaaa\xFF")?])
}

#[test]
fn the_first_faulty_row_is_named(rt: HostRuntime) {
    let views = faulty_views();
    let buffers = faulty_buffer(rt.alloc()).expect(&rt, "made");
    let all = Mask::new_true(4);
    let some = mask_of(rt.alloc(), &[true, false, true, true]).expect(&rt, "made");
    for budget in [0, 14] {
        let first = check_views_counted(rt.alloc(), &views, &all, &buffers, true, budget);
        assert_eq!(rt; first, Err(VortexError::NotUtf8 { row: 1 }));
        let second = check_views_counted(rt.alloc(), &views, &some, &buffers, true, budget);
        assert_eq!(rt; second, Err(VortexError::BadEnd { row: 2 }));
    }
}

#[test]
fn the_first_valid_faulty_row_refuses(rt: HostRuntime) {
    let views = faulty_views();
    let buffers = faulty_buffer(rt.alloc()).expect(&rt, "made");
    for (valid, text, answer) in [
        (
            [true, true, true, true],
            true,
            Err(VortexError::NotUtf8 { row: 1 }),
        ),
        (
            [true, false, true, true],
            true,
            Err(VortexError::BadEnd { row: 2 }),
        ),
        (
            [false, true, false, true],
            true,
            Err(VortexError::NotUtf8 { row: 1 }),
        ),
        ([true, false, false, true], true, Ok(())),
        (
            [true, true, true, true],
            false,
            Err(VortexError::BadEnd { row: 2 }),
        ),
        ([false, true, false, false], false, Ok(())),
    ] {
        let mask = mask_of(rt.alloc(), &valid).expect(&rt, "made");
        for budget in [0, 14, usize::MAX] {
            let told = check_views(rt.alloc(), &views, &mask, &buffers, text, budget);
            assert_eq!(rt; told, answer);
        }
    }
}

#[test]
fn ascii_is_checked_whole(rt: HostRuntime) {
    let buffers = [
        ByteBuffer::copy_from(rt.alloc(), b"abcdefghijklmnopqrstuvwxyz").expect(&rt, "made"),
        ByteBuffer::empty(rt.alloc()).expect(&rt, "made"),
    ];
    let faulty = BinaryView::new_ref(13, *b"abcd", 0, 2);
    for (third, answer) in [
        (BinaryView::new_ref(24, *b"cdef", 0, 2), Ok(0)),
        (BinaryView::new_inlined("\u{e9}".as_bytes()), Ok(1)),
        (
            BinaryView::new_inlined(b"\x80"),
            Err(VortexError::NotUtf8 { row: 2 }),
        ),
        (
            BinaryView::new_ref(25, *b"cdef", 0, 2),
            Err(VortexError::BadEnd { row: 2 }),
        ),
        (
            BinaryView::new_ref(13, *b"abcd", 1, 0),
            Err(VortexError::BadStart { row: 2 }),
        ),
        (
            BinaryView::new_ref(13, *b"abcd", 2, 0),
            Err(VortexError::BadBuffer { row: 2 }),
        ),
        (faulty, Err(VortexError::BadPrefix { row: 2 })),
    ] {
        let views = [BinaryView::new_inlined(b"abc"), faulty, third];
        let mask = mask_of(rt.alloc(), &[true, false, true]).expect(&rt, "made");
        let told = check_views_counted(rt.alloc(), &views, &mask, &buffers, true, 26);
        assert_eq!(rt; told, answer);
        let views = [views[0], views[0], third];
        let told = check_views_counted(rt.alloc(), &views, &mask, &buffers, true, 26);
        assert_eq!(rt; told, answer);
    }
}

#[test]
fn null_rows_are_emptied(rt: HostRuntime) {
    let mut views = faulty_views();
    let buffers = faulty_buffer(rt.alloc()).expect(&rt, "made");
    let some = mask_of(rt.alloc(), &[true, false, false, true]).expect(&rt, "made");
    let counted = check_and_empty_views(rt.alloc(), &mut views, &some, &buffers, true, 0);
    assert_eq!(rt; counted, Ok(1));
    let before = faulty_views();
    let empty = BinaryView::empty_view();
    assert_eq!(rt; views, [before[0], empty, empty, before[3]]);
}

#[test]
fn null_rows_are_empty_or_unchanged_after_a_refusal(rt: HostRuntime) {
    let mut views = faulty_views();
    let buffers = faulty_buffer(rt.alloc()).expect(&rt, "made");
    let some = mask_of(rt.alloc(), &[true, false, true, false]).expect(&rt, "made");
    let refused = check_and_empty_views(rt.alloc(), &mut views, &some, &buffers, true, 0);
    assert_eq!(rt; refused, Err(VortexError::BadEnd { row: 2 }));
    let given = faulty_views();
    let (after, before) = (&views[..], &given[..]);
    let empty = BinaryView::empty_view();
    assert!(rt; after[0] == before[0] && after[2] == before[2]);
    assert!(rt; after[1] == before[1] || after[1] == empty);
    assert!(rt; after[3] == before[3] || after[3] == empty);
}
