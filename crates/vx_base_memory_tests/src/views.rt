// Views and the checks of views.

use std::alloc::Global;
use vx_base::{BitBuffer, ByteBuffer, Mask, VortexError};
use vx_memory_help::{End, have_same_bytes, judged};
use vx_views::{
    BinaryView, build_views, build_views_from_offsets, check_and_empty_views, check_views,
    check_views_counted, offsets_to_lengths,
};

// Two values, of 13 bytes and of 1.
const VALUES: &[u8] = b"aaaaaaaaaaaaab";

// `build_views`, `build_views_from_offsets` and `offsets_to_lengths`.
fn built(alloc: Global, heap: &ByteBuffer) -> Result<bool, VortexError> {
    let (buffers, views) = build_views(alloc, 0, 13, heap.try_clone(alloc)?, &[13u8, 1])?;
    let heap = heap.try_clone(alloc)?;
    let (same, others) = build_views_from_offsets(alloc, 0, 13, heap, &[0u8, 13, 14])?;
    let lens = offsets_to_lengths(alloc, &[0u8, 13, 14])?;
    Ok(
        buffers.len() == 2
            && have_same_bytes(&buffers, &same)
            && views.len() == 2
            && views.as_slice() == others.as_slice()
            && lens.as_slice() == [13, 1].as_slice(),
    )
}

#[test]
fn views_that_are_built(rt: HostRuntime) -> Result<(), End> {
    let heap = ByteBuffer::copy_from(rt.alloc(), VALUES)?;
    judged(built(rt.alloc(), &heap), heap.as_slice() == VALUES)
}

// One text in a buffer.
fn one_text(alloc: Global) -> Result<[ByteBuffer; 1], VortexError> {
    Ok([ByteBuffer::copy_from(alloc, VALUES)?])
}

// `check_views` and `check_views_counted`.
fn checked(alloc: Global, buffers: &[ByteBuffer]) -> Result<bool, VortexError> {
    let views = [BinaryView::make_view(VALUES, 0, 0)];
    let mask = Mask::new_true(1);
    check_views(alloc, &views, &mask, buffers, true, 0)?;
    check_views(alloc, &views, &mask, buffers, true, 99)?;
    let left = check_views_counted(alloc, &views, &mask, buffers, true, 99)?;
    Ok(left == 0)
}

#[test]
fn views_that_are_checked(rt: HostRuntime) -> Result<(), End> {
    let (buffers, copies) = (one_text(rt.alloc())?, one_text(rt.alloc())?);
    judged(
        checked(rt.alloc(), &buffers),
        have_same_bytes(&buffers, &copies),
    )
}

// 65 times `a`, and a byte that is in no text.
fn no_text() -> [u8; 66] {
    let mut bytes = [b'a'; 66];
    bytes[65] = 0xFF;
    bytes
}

// `check_views_counted` of views that overlap in what is no text.
fn overlapping(alloc: Global, buffers: &[ByteBuffer]) -> Result<bool, VortexError> {
    let view = BinaryView::new_ref(65, *b"aaaa", 0, 0);
    let views = [view, view];
    let left = check_views_counted(alloc, &views, &Mask::new_true(2), buffers, true, 99)?;
    Ok(left == 2)
}

#[test]
fn views_that_overlap_are_checked(rt: HostRuntime) -> Result<(), End> {
    let buffers = [ByteBuffer::copy_from(rt.alloc(), &no_text())?];
    let copies = [ByteBuffer::copy_from(rt.alloc(), &no_text())?];
    judged(
        overlapping(rt.alloc(), &buffers),
        have_same_bytes(&buffers, &copies),
    )
}

// `check_and_empty_views`: the view of the null row becomes zeros where it does not fail, and stays
// as it was where it does.
fn emptied(
    alloc: Global,
    views: &mut [BinaryView],
    buffers: &[ByteBuffer],
) -> Result<bool, VortexError> {
    let mask = Mask::from_buffer(alloc, BitBuffer::from_bools(alloc, &[true, false])?)?;
    if views.len() != 2 || mask.len() != 2 {
        return Ok(false);
    }
    let left = check_and_empty_views(alloc, views, &mask, buffers, true, 99)?;
    Ok(views[1].as_u128() == 0 && left == 0)
}

#[test]
fn views_that_are_emptied(rt: HostRuntime) -> Result<(), End> {
    let (buffers, copies) = (one_text(rt.alloc())?, one_text(rt.alloc())?);
    let view = BinaryView::make_view(VALUES, 0, 0);
    let mut views = [view, view];
    let answer = emptied(rt.alloc(), &mut views, &buffers);
    let left = &views[..];
    let is_untouched = answer.is_ok() || left[1] == view;
    let is_kept = left[0] == view && is_untouched && have_same_bytes(&buffers, &copies);
    judged(answer, is_kept)
}

// What is read of a view that holds its value. It takes no memory, as all that stands below: the
// sweep refuses every request.
fn a_held_value_is_read() -> bool {
    let view = BinaryView::new_inlined(b"abcdef");
    if !view.is_inlined() {
        return false;
    }
    let held = view.as_inlined();
    held.size == 6
        && held.bytes == *b"abcdef\0\0\0\0\0\0"
        && view.prefix() == *b"abcd"
        && view.head() == 0x6463_6261_0000_0006
        && view.order_prefix() == 0x6162_6364
        && view.order_tail() == 0x6566_0000_0000_0000
}

#[test]
fn views_that_hold_their_value(_rt: HostRuntime) -> Result<(), End> {
    judged(Ok(a_held_value_is_read()), true)
}

// What is read of the words of values, the second of them longer than a view has room for.
fn words_are_read() -> bool {
    BinaryView::prefix_of(b"ab") == *b"ab\0\0"
        && BinaryView::head_of(b"ab") == 0x0000_6261_0000_0002
        && BinaryView::order_prefix_of(b"ab") == 0x6162_0000
        && BinaryView::order_tail_of(b"abcdef") == 0x6566_0000_0000_0000
        && BinaryView::prefix_of(VALUES) == *b"aaaa"
        && BinaryView::head_of(VALUES) == 0x6161_6161_0000_000e
        && BinaryView::order_prefix_of(VALUES) == 0x6161_6161
}

#[test]
fn words_of_values(_rt: HostRuntime) -> Result<(), End> {
    judged(Ok(words_are_read()), true)
}

// What is read of the parts of a view into a buffer, moved and then set again.
fn parts_are_set() -> bool {
    let mut view = BinaryView::new_ref(13, *b"thir", 1, 3);
    if view.is_inlined() {
        return false;
    }
    let parts = view.as_view();
    let moved = parts.with_buffer_and_offset(4, 4_294_967_295);
    if moved.size <= 12 {
        return false;
    }
    view.set_view(moved);
    parts.as_range() == (3..16)
        && moved.as_range() == (4_294_967_295..4_294_967_308)
        && view.as_u128() == 0xffff_ffff_0000_0004_7269_6874_0000_000d
}

#[test]
fn parts_of_views(_rt: HostRuntime) -> Result<(), End> {
    judged(Ok(parts_are_set()), true)
}
