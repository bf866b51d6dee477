// Lists that layouts hold by offsets and sizes which are numbers one after another, none of them
// null.

ghost use Rattle.std.specs.Prelude.{◌≡◌, ◌≤◌, ◌+◌, Bool, IfSome, map, pos};
ghost use Rattle.std.specs.List.{range_with_len};
ghost use Rattle.vx_base.specs.DTypes.{dtype_meaning};
ghost use Rattle.vx_base.specs.Integers.{numbers};
ghost use Rattle.vx_base.specs.Kinds.{Kind, integers};
ghost use Rattle.vx_base.specs.Rows.{count_in};
ghost use Rattle.vx_tree.specs.Formed.{IsCounts};
ghost use Rattle.vx_tree.specs.Meaning.{kind_of, row_at, tree_len};
ghost use Rattle.vx_pack.specs.Lists.{IsItemOf};
ghost use Rattle.vx_pack.specs.Parts.{IsPart, IsWithin, part_len, part_row};
ghost use Rattle.vx_pack.specs.StoredLists.{AreElementBytes, AreListBytes, AreListRows, AreStoredLists};

use crate::parts::{Part, part_of};
use crate::truths::is_full;
use vx_base::{DType, PType};
use vx_tree::{ArrayRef, Layout};

// How many lists are looked at together.
pub(crate) const BLOCK: usize = 128;

// Fewer lists than these are looked at one by one: a block is cleared before it is filled.
pub(crate) const FEW: usize = 16;

// The elements, and the bytes of where each list begins among them and of how many it has.
#[derive(Clone, Copy)]
pub(crate) struct StoredLists<'a> {
    pub elements: &'a ArrayRef,
    pub offset_type: PType,
    pub offsets: &'a [u8],
    pub size_type: PType,
    pub sizes: &'a [u8],
}

impl<'a> Part<'a> {
    // The lists, where offsets and sizes stand so.
    pub fn stored_lists(self) -> Option<StoredLists<'a>>
        requires { IsWithin self }
        ensures bytes { IfSome result (λ s. AreListBytes s.offset_type s.offsets.now s.size_type s.sizes.now
            (tree_len s.elements.now)) }
        ensures lists { IfSome result (λ s. (item k : Kind) → IsItemOf item k → IsPart k self.entry →
            AreStoredLists item (map (part_row k self.entry) (range_with_len 0 (part_len self.entry))) s) }
        ensures rows { IfSome result (λ s. (k : Kind) → AreListRows k self.entry s) }
    {
        let Part::Array(array, start, len) = self else {
            return None;
        };
        let Layout::ListView {
            elements,
            offsets,
            sizes,
            validity,
            ..
        } = array.layout()
        else {
            return None;
        };
        if !is_full(validity) {
            return None;
        }
        let (offset_type, offsets) = stored_counts(offsets, start, len)?;
        let (size_type, sizes) = stored_counts(sizes, start, len)?;
        Some(StoredLists {
            elements,
            offset_type,
            offsets,
            size_type,
            sizes,
        })
    }
}

// The type and the bytes of so many counts from one on, where they stand one after another.
fn stored_counts(counts: &ArrayRef, start: usize, len: usize) -> Option<(PType, &[u8])>
    requires counts { IsCounts counts.now }
    requires within { start + len ≤ tree_len counts.now }
    ensures { IfSome result (λ c. numbers c.0 c.1.now
        ≡ map (λ i. pos (count_in (row_at counts.now (start + i)))) (range_with_len 0 len)) }
{
    let Layout::Primitive { ptype, bytes, .. } = counts.layout() else {
        return None;
    };
    let width = ptype.byte_width();
    let bytes = &bytes.as_slice()[start * width..(start + len) * width];
    Some((*ptype, bytes))
}

// The type and the bytes of elements, where they are numbers one after another and none is null.
pub(crate) fn plain_numbers<'a>(items: &DType, elements: &'a ArrayRef) -> Option<(PType, &'a [u8])>
    requires { kind_of elements.now ≡ dtype_meaning items.now }
    ensures { IfSome result (λ n. ((m : Bool) × (dtype_meaning items.now ≡ integers n.0 m)) × AreElementBytes n.0 elements.now n.1.now) }
{
    let DType::Primitive(ptype, _) = items else {
        return None;
    };
    let bytes = part_of(elements, 0, elements.len()).number_bytes(*ptype)?;
    Some((*ptype, bytes))
}
