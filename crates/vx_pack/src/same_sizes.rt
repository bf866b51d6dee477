// Whether lists that stand by offsets and sizes are as long, one by one.

ghost use Rattle.std.specs.Prelude.{◌≡◌, ◌↔◌, length, IsTrue};
ghost use Rattle.vx_base.specs.Integers.{numbers};
ghost use Rattle.vx_pack.specs.CountBytes.{AreCountBytes, counts_of};

use crate::count_bytes::count_of_bytes;
use vx_base::{NativePType, PType, call_native, number_count};

// Whether as many sizes of two types are the same.
pub(crate) fn same_sizes(a_type: PType, a: &[u8], b_type: PType, b: &[u8]) -> bool
    requires first { AreCountBytes a_type a.now }
    requires second { AreCountBytes b_type b.now }
    requires same_len { length (numbers b_type b.now) ≡ length (numbers a_type a.now) }
    ensures { IsTrue result ↔ (counts_of a_type a.now ≡ counts_of b_type b.now) }
{
    call_native!(a_type, same_sizes_from(a, b_type, b))
}

// Whether as many sizes of one type and of another are the same.
fn same_sizes_from<A: NativePType>(a: &[u8], b_type: PType, b: &[u8]) -> bool
    requires first { AreCountBytes A.PTYPE a.now }
    requires second { AreCountBytes b_type b.now }
    requires same_len { length (numbers b_type b.now) ≡ length (numbers A.PTYPE a.now) }
    ensures { IsTrue result ↔ (counts_of A.PTYPE a.now ≡ counts_of b_type b.now) }
{
    call_native!(b_type, same_typed_sizes::<A>(a, b))
}

// Whether as many sizes are the same, where both types are known.
#[inline(never)]
fn same_typed_sizes<A: NativePType, B: NativePType>(a: &[u8], b: &[u8]) -> bool
    requires first { AreCountBytes A.PTYPE a.now }
    requires second { AreCountBytes B.PTYPE b.now }
    requires same_len { length (numbers B.PTYPE b.now) ≡ length (numbers A.PTYPE a.now) }
    ensures { IsTrue result ↔ (counts_of A.PTYPE a.now ≡ counts_of B.PTYPE b.now) }
{
    for i in 0..number_count(a, A::PTYPE) {
        if count_of_bytes::<A>(a, i) != count_of_bytes::<B>(b, i) {
            return false;
        }
    }
    true
}
