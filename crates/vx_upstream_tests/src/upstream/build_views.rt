// The tests of `arrays/varbinview/build_views.rs`.

use std::alloc::Global;
use vx_base::{Buffer, ByteBuffer, VortexError};
use vx_views::{BinaryView, MAX_BUFFER_LEN, build_views, build_views_from_offsets};

// What is built: buffers, and views into them.
type Built = (Vec<ByteBuffer>, Buffer<BinaryView>);

// The bytes of values, one after another, and how many bytes each has.
fn flatten(alloc: Global, values: &[&[u8]]) -> Result<(Vec<u8>, Vec<u32>), VortexError> {
    let mut heap = Vec::new(alloc);
    let mut lens = Vec::new(alloc);
    for value in values {
        heap.extend_from_slice(value)?;
        let Ok(len) = u32::try_from(value.len()) else {
            return Err(VortexError::Overflow);
        };
        lens.push(len)?;
    }
    Ok((heap, lens))
}

// The views of values, in buffers of at most `limit` bytes, the first of which is numbered `start`.
fn built(alloc: Global, values: &[&[u8]], start: u32, limit: usize) -> Result<Built, VortexError> {
    let (heap, lens) = flatten(alloc, values)?;
    build_views(
        alloc,
        start,
        limit,
        ByteBuffer::from_vec(alloc, heap)?,
        &lens,
    )
}

// Whether a view stands for a value, among buffers of which the first is numbered `start`.
fn stands_for(view: BinaryView, buffers: &[ByteBuffer], start: u32, value: &[u8]) -> bool {
    if view.is_inlined() {
        return view.as_inlined().value() == value;
    }
    let parts = view.as_view();
    if parts.buffer_index < start {
        return false;
    }
    let place = (parts.buffer_index - start) as usize;
    match buffers.get(place) {
        Some(buffer) => match buffer.as_slice().get(parts.as_range()) {
            Some(bytes) => bytes == value,
            None => false,
        },
        None => false,
    }
}

// Whether the views stand for these values, each in its place.
fn stand_for(made: &Built, start: u32, values: &[&[u8]]) -> bool {
    if made.1.len() != values.len() {
        return false;
    }
    for row in 0..made.1.len() {
        if !stands_for(made.1.value(row), &made.0, start, values[row]) {
            return false;
        }
    }
    true
}

// Whether values come back from one buffer that is the heap unchanged.
fn come_back(alloc: Global, values: &[&[u8]]) -> Result<bool, VortexError> {
    let (heap, _) = flatten(alloc, values)?;
    let made = built(alloc, values, 3, heap.len() + 1)?;
    let whole = match made.0.first() {
        Some(buffer) => buffer.as_slice() == heap.as_slice(),
        None => false,
    };
    Ok(whole && made.0.len() == 1 && stand_for(&made, 3, values))
}

#[test]
fn fast_path_roundtrip(rt: HostRuntime) {
    let alloc = rt.alloc();
    let mixed: [&[u8]; 4] = [
        b"a",
        b"this is a long reference value",
        b"short",
        b"another long value here!!",
    ];
    assert!(rt; come_back(alloc, &mixed).expect(&rt, "made"));
    let boundary: [&[u8]; 4] = [&[b'x'; 12], &[b'y'; 13], &[b'z'; 12], &[b'w'; 13]];
    assert!(rt; come_back(alloc, &boundary).expect(&rt, "made"));
    let inlined: [&[u8]; 5] = [b"", b"a", b"bb", b"ccc", b"dddddddddddd"];
    assert!(rt; come_back(alloc, &inlined).expect(&rt, "made"));
}

#[test]
fn fast_path_roundtrip_of_long_values(rt: HostRuntime) {
    let alloc = rt.alloc();
    let references: [&[u8]; 3] = [&[b'a'; 100], &[b'b'; 50], &[b'c'; 4096]];
    assert!(rt; come_back(alloc, &references).expect(&rt, "made"));
    let between: [&[u8]; 5] = [
        b"",
        b"a long value that is referenced",
        b"",
        b"",
        b"trailing long reference value",
    ];
    assert!(rt; come_back(alloc, &between).expect(&rt, "made"));
    let long = vec![in alloc; 7u8; 65_536].expect(&rt, "made");
    assert!(rt; come_back(alloc, &[long.as_slice()]).expect(&rt, "made"));
}

// A value of a thousand bytes that starts with its number.
fn numbered(alloc: Global, number: u32) -> Result<Vec<u8>, VortexError> {
    let mut value = Vec::new(alloc);
    value.extend_from_slice(&number.to_le_bytes())?;
    value.extend_from_slice(&[0; 996])?;
    Ok(value)
}

// Nine thousand such values, one after another.
fn numbered_heap(alloc: Global) -> Result<ByteBuffer, VortexError> {
    let mut heap = Vec::new(alloc);
    for number in 0u32..9000 {
        heap.extend_from_slice(&numbered(alloc, number)?)?;
    }
    ByteBuffer::from_vec(alloc, heap)
}

// Whether a view stands for the value of this number, a thousand bytes from its start on.
fn is_numbered(alloc: Global, made: &Built, number: u32) -> Result<bool, VortexError> {
    let row = number as usize;
    if row >= made.1.len() || made.1.value(row).is_inlined() {
        return Ok(false);
    }
    let parts = made.1.value(row).as_view();
    let placed = parts.offset as usize == row * 1000 && parts.size == 1000;
    Ok(placed && stands_for(made.1.value(row), &made.0, 0, &numbered(alloc, number)?))
}

#[test]
fn fast_path_large_offsets(rt: HostRuntime) {
    let lens = vec![in rt.alloc(); 1000u32; 9000].expect(&rt, "made");
    let made = build_views(
        rt.alloc(),
        0,
        9_000_001,
        numbered_heap(rt.alloc()).expect(&rt, "made"),
        &lens,
    )
    .expect(&rt, "made");
    assert!(rt; made.0.len() == 1 && made.1.len() == 9000);
    for number in 0u32..9000 {
        assert!(rt; is_numbered(rt.alloc(), &made, number).expect(&rt, "made"));
    }
}

#[test]
fn fast_path_taken_at_exact_boundary(rt: HostRuntime) {
    let values: [&[u8]; 2] = [b"this value is definitely long", b"and so is this one here"];
    let made = built(rt.alloc(), &values, 0, 52).expect(&rt, "made");
    assert!(rt; made.0.len() == 1 && made.1.len() == 2);
    assert_eq!(rt; made.0[0].len(), 52);
    assert!(rt; stand_for(&made, 0, &values));
    assert!(rt; made.1.value(0) == BinaryView::make_view(values[0], 0, 0));
    assert!(rt; made.1.value(1) == BinaryView::make_view(values[1], 0, 29));
}

// Four values, the longest of thirty bytes.
const FOUR: [&[u8]; 4] = [
    b"first long reference value",
    b"tiny",
    b"second long reference value!!",
    b"third looooong reference value",
];

#[test]
fn fast_and_slow_paths_agree(rt: HostRuntime) {
    let fast = built(rt.alloc(), &FOUR, 0, 90).expect(&rt, "made");
    assert!(rt; fast.0.len() == 1 && stand_for(&fast, 0, &FOUR));
    let slow = built(rt.alloc(), &FOUR, 0, 30).expect(&rt, "made");
    assert!(rt; slow.0.len() > 1 && stand_for(&slow, 0, &FOUR));
}

#[test]
fn fast_path_empty_input(rt: HostRuntime) {
    let none: [&[u8]; 0] = [];
    let made = built(rt.alloc(), &none, 0, 1024).expect(&rt, "made");
    assert!(rt; made.0.is_empty() && made.1.len() == 0);
}

#[test]
fn fast_path_matches_make_view(rt: HostRuntime) {
    let values: [&[u8]; 3] = [b"inline", b"this is a long reference value", b""];
    let (_, views) = built(rt.alloc(), &values, 0, 37).expect(&rt, "made");
    assert_eq!(rt; views.len(), 3);
    assert!(rt; views.value(0) == BinaryView::make_view(values[0], 0, 0));
    assert!(rt; views.value(1) == BinaryView::make_view(values[1], 0, 6));
    assert!(rt; views.value(2) == BinaryView::make_view(values[2], 0, 36));
}

// The view of the first 32 bytes of buffer 5, which begin with `a lo`:
// `20000000 61206c6f 05000000 00000000`.
const FIRST: u128 = 0x00000000_00000005_6f6c2061_00000020;

// The views of the values between these offsets into a heap, in buffers of at most `limit` bytes.
fn built_by_offsets(alloc: Global, limit: usize) -> Result<Built, VortexError> {
    let heap = ByteBuffer::copy_from(alloc, b"..a long value that is referenced!tiny..")?;
    build_views_from_offsets(alloc, 5, limit, heap, &[2u32, 34, 38])
}

// Upstream's limit is the greatest; one of 40 bytes gives the same. That a buffer shares the heap
// cannot be asked here; the buffer is the part of the heap that the offsets name.
#[test]
fn from_offsets_matches_lengths_and_is_zero_copy(rt: HostRuntime) {
    let values: [&[u8]; 2] = [b"a long value that is referenced!", b"tiny"];
    for limit in [MAX_BUFFER_LEN, 40] {
        let made = built_by_offsets(rt.alloc(), limit).expect(&rt, "made");
        assert!(rt; made.0.len() == 1 && made.1.len() == 2);
        assert_eq!(rt;
            made.0[0].as_slice(),
            b"a long value that is referenced!tiny".as_slice()
        );
        assert!(rt; stand_for(&made, 5, &values));
        assert_eq!(rt; made.1.value(0).as_u128(), FIRST);
        assert!(rt; made.1.value(1) == BinaryView::make_view(values[1], 0, 0));
    }
}

// Upstream panics.
#[test]
fn short_lengths_panic(rt: HostRuntime) {
    let heap = ByteBuffer::copy_from(rt.alloc(), b"a long value that is referencedtiny").expect(
        &rt, "made",
    );
    let made = build_views(rt.alloc(), 0, MAX_BUFFER_LEN, heap, &[31u32]);
    assert!(rt; matches!(made, Err(VortexError::LengthsNotExact)));
}

// The view of thirteen times `c` at the start of buffer 1: `0d000000 63636363 01000000 00000000`.
const THIRD: u128 = 0x00000000_00000001_63636363_0000000d;

#[test]
fn test_to_canonical_large(rt: HostRuntime) {
    let values: [&[u8]; 4] = [&[b'a'; 13], &[b'b'; 13], &[b'c'; 13], &[b'd'; 13]];
    let (heap, _) = flatten(rt.alloc(), &values).expect(&rt, "made");
    let heap = ByteBuffer::from_vec(rt.alloc(), heap).expect(&rt, "made");
    let (buffers, views) = build_views(rt.alloc(), 0, 26, heap, &[13u8, 13, 13, 13]).expect(
        &rt, "made",
    );
    assert!(rt; buffers.len() == 2 && views.len() == 4);
    assert!(rt; buffers[0].as_slice() == b"aaaaaaaaaaaaabbbbbbbbbbbbb".as_slice());
    assert!(rt; buffers[1].as_slice() == b"cccccccccccccddddddddddddd".as_slice());
    assert!(rt; views.value(0) == BinaryView::make_view(values[0], 0, 0));
    assert!(rt; views.value(1) == BinaryView::make_view(values[1], 0, 13));
    assert!(rt; views.value(2) == BinaryView::make_view(values[2], 1, 0));
    assert!(rt; views.value(3) == BinaryView::make_view(values[3], 1, 13));
    assert_eq!(rt; views.value(2).as_u128(), THIRD);
}

// Upstream panics past 2147483647; here the greatest limit is 4294967295.
#[test]
fn test_max_buffer_len_too_large_panics(rt: HostRuntime) {
    let heap = ByteBuffer::copy_from(rt.alloc(), b"abc").expect(&rt, "made");
    let made = build_views(rt.alloc(), 0, MAX_BUFFER_LEN + 1, heap, &[3u32]);
    assert!(rt; matches!(made, Err(VortexError::LimitTooLarge)));
}
