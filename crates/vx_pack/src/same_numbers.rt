// Whether parts have the same numbers: as bytes, where none is null.

ghost use Rattle.std.specs.Prelude.{◌≡◌, ◌↔◌, IfSome, IsTrue};
ghost use Rattle.vx_base.specs.Kinds.{Kind};
ghost use Rattle.vx_base.specs.Rows.{number_in};
ghost use Rattle.vx_pack.specs.Numbers.{AreNumberBytes};
ghost use Rattle.vx_pack.specs.Parts.{AreNumbers, AreSameBy, HasType, IsWithin, part_len};

use crate::parts::Part;
use crate::truths::is_full;
use vx_base::PType;
use vx_tree::Layout;

impl<'a> Part<'a> {
    // The bytes of the numbers, where they stand one after another and none is null.
    #[inline(always)]
    pub fn number_bytes(self, ptype: PType) -> Option<&'a [u8]>
        requires ptype { HasType ptype self }
        requires within { IsWithin self }
        ensures { IfSome result (λ bytes. AreNumberBytes ptype self.entry bytes.now) }
    {
        let Part::Array(array, start, len) = self else {
            return None;
        };
        let Layout::Primitive {
            bytes,
            validity,
            ..
        } = array.layout()
        else {
            return None;
        };
        if !is_full(validity) {
            return None;
        }
        let width = ptype.byte_width();
        Some(&bytes.as_slice()[start * width..(start + len) * width])
    }
}

// Whether numbers of a type are the same, row by row.
pub(crate) fn same_numbers(ptype: PType, a: Part, b: Part) -> bool
    requires first_ints { AreNumbers a }
    requires second_ints { AreNumbers b }
    requires first_type { HasType ptype a }
    requires second_type { HasType ptype b }
    requires first { IsWithin a }
    requires second { IsWithin b }
    requires same_len { part_len b ≡ part_len a }
    ensures { (k : Kind) → IsTrue result ↔ AreSameBy number_in k a.entry b.entry }
{
    let Some(first) = a.number_bytes(ptype) else {
        return same_each_number(a, b);
    };
    let Some(second) = b.number_bytes(ptype) else {
        return same_each_number(a, b);
    };
    first == second
}

// Whether numbers are the same, each read by itself.
fn same_each_number(a: Part, b: Part) -> bool
    requires first_ints { AreNumbers a }
    requires second_ints { AreNumbers b }
    requires first { IsWithin a }
    requires second { IsWithin b }
    requires same_len { part_len b ≡ part_len a }
    ensures { (k : Kind) → IsTrue result ↔ AreSameBy number_in k a.entry b.entry }
{
    for i in 0..a.len() {
        if a.number(i) != b.number(i) {
            return false;
        }
    }
    true
}
