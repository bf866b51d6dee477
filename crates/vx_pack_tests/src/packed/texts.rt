// Texts and byte lists.

use super::expect_packed;
use crate::layouts::{LONG, byte_lists, null_where, texts, view};
use std::process::Abort;
use vx_views::BinaryView;

// The longest text that stands in its view, and the shortest one that does not.
const TWELVE: &[u8] = b"twelve bytes";

const THIRTEEN: &[u8] = b"thirteen byte";

// A text of 13 bytes with others around it.
const AROUND: &[u8] = b"...thirteen byte..";

// Two texts of which each needs a buffer.
const BOTH: &[u8] = b"thirteen bytethis value is definitely long";

// The views of values of 0, 1, 12 and 13 bytes.
fn views(rt: &impl Abort) -> [BinaryView; 4] {
    [
        view(rt, b"", 0, 0),
        view(rt, b"a", 0, 0),
        view(rt, TWELVE, 0, 0),
        view(rt, THIRTEEN, 0, 3),
    ]
}

// The views of a value of 13 bytes, of a long one, which lies below a null, and of a short one.
fn over_null(rt: &impl Abort) -> [BinaryView; 3] {
    [
        view(rt, THIRTEEN, 0, 0),
        view(rt, LONG, 0, 13),
        view(rt, b"a", 0, 0),
    ]
}

#[test]
fn texts_up_to_twelve_bytes_stand_in_views(rt: HostRuntime) {
    expect_packed(
        &rt,
        texts(&rt, &views(&rt), &[AROUND]),
        "views text 4 plain 00000000.00000000.00000000.00000000 \
         01000000.61000000.00000000.00000000 0c000000.7477656c.76652062.79746573 \
         0d000000.74686972.00000000.00000000 <746869727465656e2062797465>",
    );
}

#[test]
fn byte_lists_up_to_twelve_bytes_stand_in_views(rt: HostRuntime) {
    expect_packed(
        &rt,
        byte_lists(&rt, &views(&rt), &[AROUND]),
        "views bytes 4 plain 00000000.00000000.00000000.00000000 \
         01000000.61000000.00000000.00000000 0c000000.7477656c.76652062.79746573 \
         0d000000.74686972.00000000.00000000 <746869727465656e2062797465>",
    );
}

#[test]
fn zeroes_stand_after_a_short_text(rt: HostRuntime) {
    // Other bytes stand after its byte in the view.
    let view = BinaryView::from(0xABABABABABABABABABABAB6100000001);
    expect_packed(
        &rt,
        texts(&rt, &[view], &[]),
        "views text 1 plain 01000000.61000000.00000000.00000000",
    );
}

#[test]
fn null_values_leave_their_bytes_behind(rt: HostRuntime) {
    let rows = texts(&rt, &over_null(&rt), &[BOTH]);
    expect_packed(
        &rt,
        null_where(&rt, rows, &[true, false, true]),
        "views text? 3 told 0d000000.74686972.00000000.00000000 \
         00000000.00000000.00000000.00000000 01000000.61000000.00000000.00000000 \
         <746869727465656e2062797465> (bits bool 3 plain 0:05)",
    );
    let rows = byte_lists(&rt, &over_null(&rt), &[BOTH]);
    expect_packed(
        &rt,
        null_where(&rt, rows, &[true, false, true]),
        "views bytes? 3 told 0d000000.74686972.00000000.00000000 \
         00000000.00000000.00000000.00000000 01000000.61000000.00000000.00000000 \
         <746869727465656e2062797465> (bits bool 3 plain 0:05)",
    );
}

#[test]
fn each_text_has_a_place_of_its_own(rt: HostRuntime) {
    // A long text, one of 13 bytes, and the long one again, in one place.
    let long = view(&rt, LONG, 0, 13);
    let views = [long, view(&rt, THIRTEEN, 0, 0), long];
    expect_packed(
        &rt,
        texts(&rt, &views, &[BOTH]),
        "views text 3 plain 1d000000.74686973.00000000.00000000 \
         0d000000.74686972.00000000.1d000000 1d000000.74686973.00000000.2a000000 \
         <746869732076616c756520697320646566696e6974656c79206c6f6e67\
         746869727465656e2062797465\
         746869732076616c756520697320646566696e6974656c79206c6f6e67>",
    );
}

#[test]
fn texts_stand_in_one_buffer_in_order(rt: HostRuntime) {
    // A text of 13 bytes and a long one, each in a buffer of its own.
    let views = [view(&rt, THIRTEEN, 1, 3), view(&rt, LONG, 0, 0)];
    expect_packed(
        &rt,
        texts(&rt, &views, &[LONG, AROUND]),
        "views text 2 plain 0d000000.74686972.00000000.00000000 \
         1d000000.74686973.00000000.0d000000 \
         <746869727465656e2062797465\
         746869732076616c756520697320646566696e6974656c79206c6f6e67>",
    );
}

#[test]
fn one_text_of_many_keeps_its_own_bytes_alone(rt: HostRuntime) {
    // One text of a hundred, each of which has its place in the buffer.
    let mut bytes = Vec::new(rt.alloc());
    let mut views = Vec::new(rt.alloc());
    for i in 0..100u32 {
        views
            .push(view(&rt, THIRTEEN, 0, 13 * i))
            .expect(&rt, "a view");
        bytes.extend_from_slice(THIRTEEN).expect(&rt, "bytes");
    }
    let rows = texts(&rt, views.as_slice(), &[bytes.as_slice()]);
    expect_packed(
        &rt,
        rows.slice(rt.alloc(), 70..71).expect(&rt, "sliced"),
        "views text 1 plain 0d000000.74686972.00000000.00000000 <746869727465656e2062797465>",
    );
}
