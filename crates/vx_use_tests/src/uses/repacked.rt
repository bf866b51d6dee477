// Rows that are left of a column, in fewest buffers.

use vx_base::{BitBuffer, Mask};
use vx_text::VarBinViewArray;
use vx_uses::repacking::kept_and_packed;

#[test]
fn kept_rows_in_fewest_buffers(rt: HostRuntime) {
    let values = [
        "aaaaaaaaaaaaa",
        "bbbbbbbbbbbbb",
        "ccccccccccccc",
        "ddddddddddddd",
    ];
    let column = VarBinViewArray::from_iter_str(rt.alloc(), values.iter().copied()).expect(
        &rt, "made",
    );
    let bits = BitBuffer::from_bools(rt.alloc(), &[false, true, false, true]).expect(&rt, "made");
    let mask = Mask::from_buffer(rt.alloc(), bits).expect(&rt, "made");
    let packed = kept_and_packed(rt.alloc(), &column, &mask, 26).expect(&rt, "made");
    let data = packed.to_data(rt.alloc()).expect(&rt, "made");
    assert!(rt; data.len() == 2 && data.data_buffers().len() == 1);
    assert_eq!(rt;
        data.buffer(0).as_slice(),
        b"bbbbbbbbbbbbbddddddddddddd".as_slice()
    );
    assert!(rt;
        data.bytes_at(rt.alloc(), 0).expect(&rt, "made").as_slice() == b"bbbbbbbbbbbbb".as_slice()
    );
    assert!(rt;
        data.bytes_at(rt.alloc(), 1).expect(&rt, "made").as_slice() == b"ddddddddddddd".as_slice()
    );
}
