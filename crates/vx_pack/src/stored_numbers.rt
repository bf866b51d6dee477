// Numbers that layouts hold one after another, with bits that tell which of them are there.

ghost use Rattle.std.specs.Prelude.{IfSome, map};
ghost use Rattle.std.specs.List.{range_with_len};
ghost use Rattle.vx_base.specs.Kinds.{Kind};
ghost use Rattle.vx_pack.specs.Packed.{number_or_zero};
ghost use Rattle.vx_pack.specs.Parts.{HasType, IsWithin, part_len, part_row};
ghost use Rattle.vx_pack.specs.StoredNumbers.{AreStoredNumbers};

use crate::parts::Part;
use crate::stored_bits::stored_presence;
use vx_base::{BitBuffer, PType};
use vx_tree::Layout;

// The bytes of numbers, and the bits from a place on that tell which are there.
#[derive(Clone, Copy)]
pub(crate) struct StoredNumbers<'a> {
    pub bytes: &'a [u8],
    pub valid: &'a BitBuffer,
    pub start: usize,
}

impl<'a> Part<'a> {
    // The numbers, where they and the bits stand so.
    pub fn stored_numbers(self, ptype: PType) -> Option<StoredNumbers<'a>>
        requires ptype { HasType ptype self }
        requires within { IsWithin self }
        ensures { IfSome result (λ s. (k : Kind) →
            AreStoredNumbers ptype (map number_or_zero (map (part_row k self.entry) (range_with_len 0 (part_len self.entry)))) s) }
    {
        let Part::Array(array, start, len) = self else {
            return None;
        };
        let Layout::Primitive { bytes, .. } = array.layout() else {
            return None;
        };
        let valid = stored_presence(array)?;
        let width = ptype.byte_width();
        let bytes = &bytes.as_slice()[start * width..(start + len) * width];
        Some(StoredNumbers {
            bytes,
            valid,
            start,
        })
    }
}
