ghost use Rattle.std.specs.Prelude.{◌≡◌};

use std::alloc::Global;
use std::hash::{DefaultHasher, Hash, Hasher};
use std::slice::from_ref;
use std::test::Fail;
use vx_base::{ByteBuffer, Mask, VortexError};
use vx_views::{BinaryView, Inlined, MAX_BUFFER_LEN, MAX_INLINED_SIZE, Ref, check_views};

// `06000000 696e6c69 6e650000 00000000`, the view of `inline`.
const INLINE: u128 = 0x00000000_0000656e_696c6e69_00000006;

// `0d000000 63636363 01000000 00000000`, a value of thirteen times `c` at the start of buffer 1.
const THIRTEEN: u128 = 0x00000000_00000001_63636363_0000000d;

fn parts_of_thirteen() -> Ref
    ensures { result.size ≡ 13 }
{
    Ref {
        size: 13,
        prefix: *b"cccc",
        buffer_index: 1,
        offset: 0,
    }
}

#[test]
fn greatest_lengths(rt: HostRuntime) {
    assert_eq!(rt; MAX_INLINED_SIZE, 12);
    assert_eq!(rt; BinaryView::MAX_INLINED_SIZE, 12);
    assert_eq!(rt; MAX_BUFFER_LEN, 4294967295);
}

#[test]
fn make_view_of_short_and_long_values(rt: HostRuntime) {
    assert_eq!(rt; BinaryView::make_view(b"inline", 0, 0).as_u128(), INLINE);
    assert_eq!(rt;
        BinaryView::make_view(b"ccccccccccccc", 1, 0).as_u128(),
        THIRTEEN
    );
}

#[test]
fn the_empty_view(rt: HostRuntime) {
    assert_eq!(rt; BinaryView::empty_view().as_u128(), 0);
    assert_eq!(rt; BinaryView::default().as_u128(), 0);
}

#[test]
fn views_from_parts(rt: HostRuntime) {
    assert_eq!(rt; BinaryView::new_ref(13, *b"cccc", 1, 0).as_u128(), THIRTEEN);
    assert_eq!(rt; BinaryView::from(parts_of_thirteen()).as_u128(), THIRTEEN);
    assert_eq!(rt; BinaryView::new_inlined(b"inline").as_u128(), INLINE);
}

#[test]
fn lengths(rt: HostRuntime) {
    let short = BinaryView::from(INLINE);
    assert_eq!(rt; short.len(), 6);
    assert!(rt; short.is_inlined());
    assert!(rt; !short.is_empty());
    let long = BinaryView::from(THIRTEEN);
    assert_eq!(rt; long.len(), 13);
    assert!(rt; !long.is_inlined());
    assert!(rt; BinaryView::empty_view().is_empty());
}

#[test]
fn parts_of_an_inlined_view(rt: HostRuntime) {
    let view = BinaryView::from(INLINE);
    assert!(rt; view.is_inlined());
    let inlined = view.as_inlined();
    assert_eq!(rt;
        inlined,
        Inlined {
            size: 6,
            bytes: *b"inline\0\0\0\0\0\0"
        }
    );
}

#[test]
fn value_of_an_inlined_view(rt: HostRuntime) {
    let inlined = Inlined {
        size: 6,
        bytes: *b"inline\0\0\0\0\0\0",
    };
    assert_eq!(rt; inlined.value(), b"inline".as_slice());
}

#[test]
fn parts_of_a_view_of_a_buffer(rt: HostRuntime) {
    let view = BinaryView::from(THIRTEEN);
    assert!(rt; !view.is_inlined());
    let parts = view.as_view();
    assert_eq!(rt; parts.size, 13);
    assert_eq!(rt; parts.prefix, *b"cccc");
    assert_eq!(rt; parts.buffer_index, 1);
    assert_eq!(rt; parts.offset, 0);
}

#[test]
fn setting_the_parts(rt: HostRuntime) {
    let mut view = BinaryView::from(0x00000007_00000002_61616161_0000000e);
    assert!(rt; !view.is_inlined());
    view.set_view(parts_of_thirteen());
    assert_eq!(rt; view.as_u128(), THIRTEEN);
}

#[test]
fn ranges_of_parts(rt: HostRuntime) {
    let moved = parts_of_thirteen().with_buffer_and_offset(4, 4294967295);
    assert_eq!(rt; moved.size, 13);
    assert_eq!(rt; moved.prefix, *b"cccc");
    assert_eq!(rt; moved.buffer_index, 4);
    assert_eq!(rt; moved.as_range(), 4294967295..4294967308);
}

#[test]
fn bytes_of_an_inlined_view(rt: HostRuntime) {
    let view = BinaryView::from(INLINE);
    assert!(rt; view.is_inlined());
    assert_eq!(rt; view.bytes(&[]), b"inline".as_slice());
}

// The value of a view into shared buffers, once the view is checked.
fn checked_value<'a>(
    alloc: Global,
    view: &'a BinaryView,
    buffers: &'a [ByteBuffer],
) -> Result<&'a [u8], VortexError> {
    check_views(alloc, from_ref(view), &Mask::new_true(1), buffers, false, 0)?;
    Ok(view.value_in(buffers))
}

// The value of a view into a buffer, once the view is checked.
fn checked_bytes<'a>(
    alloc: Global,
    view: &'a BinaryView,
    buffer: &'a ByteBuffer,
) -> Result<&'a [u8], VortexError> {
    check_views(
        alloc,
        from_ref(view),
        &Mask::new_true(1),
        from_ref(buffer),
        false,
        0,
    )?;
    Ok(view.bytes(&[buffer.as_slice()]))
}

#[test]
fn value_in_the_second_buffer(rt: HostRuntime) {
    let buffers = [
        ByteBuffer::copy_from(rt.alloc(), b"aaaaaaaaaaaaaaaa").expect(&rt, "made"),
        ByteBuffer::copy_from(rt.alloc(), b"bbbthirteen bytecc").expect(&rt, "made"),
    ];
    let view = BinaryView::new_ref(13, *b"thir", 1, 3);
    let value = checked_value(rt.alloc(), &view, &buffers).expect(&rt, "sound");
    assert_eq!(rt; value, b"thirteen byte".as_slice());
    let short = BinaryView::from(INLINE);
    let value = checked_value(rt.alloc(), &short, &buffers).expect(&rt, "sound");
    assert_eq!(rt; value, b"inline".as_slice());
}

#[test]
fn bytes_in_a_buffer(rt: HostRuntime) {
    let buffer = ByteBuffer::copy_from(rt.alloc(), b"bbbthirteen bytecc").expect(&rt, "made");
    let view = BinaryView::new_ref(13, *b"thir", 0, 3);
    let bytes = checked_bytes(rt.alloc(), &view, &buffer).expect(&rt, "sound");
    assert_eq!(rt; bytes, b"thirteen byte".as_slice());
    let end = BinaryView::new_ref(14, *b"een ", 0, 4);
    let refused = checked_bytes(rt.alloc(), &end, &buffer);
    assert_eq!(rt; refused, Err(VortexError::BadPrefix { row: 0 }));
}

#[test]
fn words_of_a_view(rt: HostRuntime) {
    let view = BinaryView::from(0x00000000_00006665_64636261_00000006);
    assert_eq!(rt; view.prefix(), *b"abcd");
    assert_eq!(rt; view.head(), 0x64636261_00000006);
    assert_eq!(rt; view.order_prefix(), 0x61626364);
    assert!(rt; view.is_inlined());
    assert_eq!(rt; view.order_tail(), 0x6566000000000000);
}

#[test]
fn words_of_a_value(rt: HostRuntime) {
    assert_eq!(rt; BinaryView::prefix_of(b"ab"), *b"ab\0\0");
    assert_eq!(rt; BinaryView::head_of(b"ab"), 0x0000626100000002);
    assert_eq!(rt; BinaryView::order_prefix_of(b"ab"), 0x61620000);
    assert_eq!(rt; BinaryView::order_tail_of(b"abcdef"), 0x6566000000000000);
}

#[test]
fn equality_is_of_all_bytes(rt: HostRuntime) {
    let garbage = BinaryView::from(0x00ff626100000002);
    assert_ne!(rt; garbage, BinaryView::make_view(b"ab", 0, 0));
    let copy = garbage;
    assert_eq!(rt; copy, garbage);
}

#[test]
fn hash_is_of_the_bytes(rt: HostRuntime) {
    let mut of_view = DefaultHasher::new();
    BinaryView::from(INLINE).hash(&mut of_view);
    let mut of_bytes = DefaultHasher::new();
    of_bytes.write(b"\x06\0\0\0inline\0\0\0\0\0\0");
    assert_eq!(rt; of_view.finish(), of_bytes.finish());
}

#[test]
fn printed_views(rt: HostRuntime) {
    let view = BinaryView::from(THIRTEEN);
    let text = format!(in rt.alloc(); "{view:?}").expect(&rt, "made");
    let want =
        "BinaryView { ref: Ref { size: 13, prefix: [99, 99, 99, 99], buffer_index: 1, offset: 0 } }";
    assert_eq!(rt; text.as_str(), want);
}

#[test]
fn printed_inlined_views(rt: HostRuntime) {
    let view = BinaryView::from(INLINE);
    let text = format!(in rt.alloc(); "{view:?}").expect(&rt, "made");
    let want =
        "BinaryView { inline: Inlined { size: 6, bytes: [105, 110, 108, 105, 110, 101, 0, 0, 0, 0, 0, 0] } }";
    assert_eq!(rt; text.as_str(), want);
}
