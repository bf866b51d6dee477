use std::alloc::Global;
use std::test::Fail;
use vx_base::{Buffer, ByteBuffer, VortexError};
use vx_views::{
    BinaryView, MAX_BUFFER_LEN, build_views, build_views_from_offsets, offsets_to_lengths,
};

// Thirteen each of a, b, c and d.
const LETTERS: &[u8] = b"aaaaaaaaaaaaabbbbbbbbbbbbbcccccccccccccddddddddddddd";

const TEXT: &[u8] = b"..a long value that is referenced!tiny..";

// Two values, of 29 and of 23 bytes.
const SENTENCES: &[u8] = b"this value is definitely longand so is this one here";

// The error of building views, if it failed.
fn refusal(
    made: Result<(Vec<ByteBuffer>, Buffer<BinaryView>), VortexError>,
) -> Option<VortexError> {
    match made {
        Ok(_) => None,
        Err(e) => Some(e),
    }
}

// The number of its buffer, and where in it the value begins, of a view that refers to its value.
fn place_of(view: BinaryView) -> Option<(u32, u32)> {
    if view.is_inlined() {
        return None;
    }
    let parts = view.as_view();
    Some((parts.buffer_index, parts.offset))
}

#[test]
fn a_buffer_ends_where_the_next_value_would_pass_the_limit(rt: HostRuntime) {
    let heap = ByteBuffer::copy_from(rt.alloc(), &LETTERS[..18]).expect(&rt, "made");
    let (buffers, _) = build_views(rt.alloc(), 0, 10, heap, &[6u8, 5, 4, 3]).expect(&rt, "made");
    assert_eq!(rt; buffers.len(), 3);
    assert_eq!(rt; buffers[0].len(), 6);
    assert_eq!(rt; buffers[1].len(), 9);
    assert_eq!(rt; buffers[2].len(), 3);
}

#[test]
fn a_value_longer_than_the_limit(rt: HostRuntime) {
    let heap = ByteBuffer::copy_from(rt.alloc(), &LETTERS[..18]).expect(&rt, "made");
    let made = build_views(rt.alloc(), 0, 5, heap, &[6u8, 5, 4, 3]);
    assert_eq!(rt; refusal(made), Some(VortexError::ValueTooLong { row: 0 }));
}

#[test]
fn lengths_that_are_not_the_heap(rt: HostRuntime) {
    let heap = ByteBuffer::copy_from(rt.alloc(), &LETTERS[..18]).expect(&rt, "made");
    let made = build_views(rt.alloc(), 0, 10, heap, &[6u8, 5]);
    assert_eq!(rt; refusal(made), Some(VortexError::LengthsNotExact));
}

#[test]
fn a_limit_past_the_greatest(rt: HostRuntime) {
    let heap = ByteBuffer::copy_from(rt.alloc(), &LETTERS[..18]).expect(&rt, "made");
    let made = build_views(rt.alloc(), 0, 4294967296, heap, &[6u8, 5, 4, 3]);
    assert_eq!(rt; refusal(made), Some(VortexError::LimitTooLarge));
}

#[test]
fn the_greatest_limit(rt: HostRuntime) {
    let heap = ByteBuffer::copy_from(rt.alloc(), b"abc").expect(&rt, "made");
    let (buffers, views) = build_views(rt.alloc(), 0, MAX_BUFFER_LEN, heap, &[3u8]).expect(
        &rt, "made",
    );
    assert!(rt; buffers.len() == 1 && views.len() == 1);
    assert_eq!(rt; buffers[0].len(), 3);
}

#[test]
fn a_buffer_one_byte_short_is_cut(rt: HostRuntime) {
    let heap = ByteBuffer::copy_from(rt.alloc(), SENTENCES).expect(&rt, "made");
    let (buffers, views) = build_views(rt.alloc(), 0, 51, heap, &[29u16, 23]).expect(&rt, "made");
    assert_eq!(rt; buffers.len(), 2);
    assert_eq!(rt; buffers[0].len(), 29);
    assert_eq!(rt; buffers[1].len(), 23);
    assert_eq!(rt; views.len(), 2);
    assert_eq!(rt; place_of(views.value(0)), Some((0, 0)));
    assert_eq!(rt; place_of(views.value(1)), Some((1, 0)));
}

// The buffers and views of the part of the text between its offsets.
fn built_of_a_part(alloc: Global) -> Result<(Vec<ByteBuffer>, Buffer<BinaryView>), VortexError> {
    let lens = offsets_to_lengths(alloc, &[2u32, 34, 38])?;
    let part = ByteBuffer::copy_from(alloc, &TEXT[2..38])?;
    build_views(alloc, 5, 33, part, lens.as_slice())
}

// Those of the whole text and its offsets.
fn built_by_offsets(alloc: Global) -> Result<(Vec<ByteBuffer>, Buffer<BinaryView>), VortexError> {
    let heap = ByteBuffer::copy_from(alloc, TEXT)?;
    build_views_from_offsets(alloc, 5, 33, heap, &[2u32, 34, 38])
}

#[test]
fn offsets_build_as_their_lengths_do(rt: HostRuntime) {
    let (cut, views) = built_by_offsets(rt.alloc()).expect(&rt, "made");
    let (others, same) = built_of_a_part(rt.alloc()).expect(&rt, "made");
    assert!(rt; views.as_slice() == same.as_slice() && cut.len() == 2 && others.len() == 2);
    assert!(rt; cut[0].as_slice() == others[0].as_slice());
    assert!(rt; cut[1].as_slice() == b"tiny".as_slice());
}

#[test]
fn the_last_number_is_passed(rt: HostRuntime) {
    let heap = ByteBuffer::copy_from(rt.alloc(), LETTERS).expect(&rt, "made");
    let made = build_views(rt.alloc(), 4294967295, 26, heap, &[13u32, 13, 13, 13]);
    assert_eq!(rt; refusal(made), Some(VortexError::Overflow));
}

#[test]
fn the_last_number_is_named(rt: HostRuntime) {
    let heap = ByteBuffer::copy_from(rt.alloc(), LETTERS).expect(&rt, "made");
    let (buffers, views) = build_views(
        rt.alloc(),
        4294967295,
        52,
        heap,
        &[13u32, 13, 13, 13],
    ).expect(&rt, "made");
    assert_eq!(rt; buffers.len(), 1);
    assert_eq!(rt; views.len(), 4);
    assert_eq!(rt;
        views.value(0).as_u128(),
        0x00000000_ffffffff_61616161_0000000d
    );
}

#[test]
fn a_negative_length(rt: HostRuntime) {
    let heap = ByteBuffer::copy_from(rt.alloc(), &LETTERS[..3]).expect(&rt, "made");
    let made = build_views(rt.alloc(), 0, 10, heap, &[-1i8]);
    assert_eq!(rt; refusal(made), Some(VortexError::Negative { row: 0 }));
}

#[test]
fn a_last_offset_past_the_heap(rt: HostRuntime) {
    let heap = ByteBuffer::copy_from(rt.alloc(), TEXT).expect(&rt, "made");
    let made = build_views_from_offsets(rt.alloc(), 0, 100, heap, &[2u32, 34, 41]);
    assert!(rt;
        matches!(
            refusal(made),
            Some(VortexError::OutOfBounds { index: 41, .. })
        )
    );
}

#[test]
fn a_negative_offset(rt: HostRuntime) {
    let heap = ByteBuffer::copy_from(rt.alloc(), TEXT).expect(&rt, "made");
    let made = build_views_from_offsets(rt.alloc(), 0, 100, heap, &[-1i32, 3]);
    assert_eq!(rt; refusal(made), Some(VortexError::Negative { row: 0 }));
}

#[test]
fn a_falling_offset(rt: HostRuntime) {
    let heap = ByteBuffer::copy_from(rt.alloc(), TEXT).expect(&rt, "made");
    let made = build_views_from_offsets(rt.alloc(), 0, 100, heap, &[2u32, 34, 33]);
    assert_eq!(rt; refusal(made), Some(VortexError::FallingOffsets { row: 2 }));
}

#[test]
fn no_offset(rt: HostRuntime) {
    let heap = ByteBuffer::copy_from(rt.alloc(), TEXT).expect(&rt, "made");
    let none: [u32; 0] = [];
    let made = build_views_from_offsets(rt.alloc(), 0, 100, heap, &none);
    assert_eq!(rt; refusal(made), Some(VortexError::EmptyInput));
}

#[test]
fn lengths_between_offsets(rt: HostRuntime) {
    let lengths = offsets_to_lengths(rt.alloc(), &[2u32, 34, 38]).expect(&rt, "made");
    assert_eq!(rt; lengths.as_slice(), [32, 4].as_slice());
}
