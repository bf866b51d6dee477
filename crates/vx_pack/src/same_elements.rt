// Whether elements of lists of two columns are the same, where they are numbers, texts or byte
// lists one after another, none of them null.

ghost use Rattle.std.specs.Prelude.{◌≡◌, ◌↔◌, ◌≤◌, ◌+◌, ◌<◌, ℕ, length, IfSome, IsTrue};
ghost use Rattle.vx_base.specs.DTypes.{dtype_meaning};
ghost use Rattle.vx_tree.specs.Meaning.{kind_of};
ghost use Rattle.vx_pack.specs.SameElements.{AreElements, AreReadable, AreSameFrom, IsSameList, first_len, second_len};
ghost use Rattle.vx_pack.specs.StoredTexts.{AllResolve, stored_value};

use crate::parts::part_of;
use crate::same_bytes::same_bytes;
use crate::same_leaves::same_values;
use crate::stored_lists::plain_numbers;
use crate::stored_texts::StoredTexts;
use vx_base::DType;
use vx_tree::ArrayRef;

// Those of both columns.
#[derive(Clone, Copy)]
pub(crate) enum Elements<'a> {
    // The bytes of numbers, so many bytes each.
    Numbers(usize, &'a [u8], &'a [u8]),
    // The views of texts or byte lists.
    Texts(StoredTexts<'a>, StoredTexts<'a>),
}

// The elements of both, where they stand so.
pub(crate) fn plain_elements<'a>(
    items: &DType,
    a: &'a ArrayRef,
    b: &'a ArrayRef,
) -> Option<Elements<'a>>
    requires first { kind_of a.now ≡ dtype_meaning items.now }
    requires second { kind_of b.now ≡ dtype_meaning items.now }
    ensures { IfSome result (AreElements a.now b.now) }
{
    match items {
        DType::Primitive(ptype, _) => {
            let (_, first) = plain_numbers(items, a)?;
            let (_, second) = plain_numbers(items, b)?;
            Some(Elements::Numbers(ptype.byte_width(), first, second))
        }
        DType::Utf8(_) | DType::Binary(_) => {
            let first = part_of(a, 0, a.len()).full_texts()?;
            let second = part_of(b, 0, b.len()).full_texts()?;
            Some(Elements::Texts(first, second))
        }
        DType::Bool(_) | DType::List(_, _) => None,
        DType::FixedSizeList(_, _, _) | DType::Struct(_, _) => None,
    }
}

impl<'a> Elements<'a> {
    // Whether a list of the first column is one of the second: where it begins, and how many
    // elements it has, and the same of the other.
    #[inline(always)]
    pub fn same_list(self, x: usize, m: usize, y: usize, n: usize) -> bool
        requires readable { AreReadable self }
        requires first { x + m ≤ first_len self }
        requires second { y + n ≤ second_len self }
        ensures { IsTrue result ↔ IsSameList self.entry x m y n }
    {
        m == n && self.same_from(x, y, m)
    }

    // Whether so many elements of the first column from `x` on are those of the second from `y` on.
    #[inline(always)]
    fn same_from(self, x: usize, y: usize, len: usize) -> bool
        requires readable { AreReadable self }
        requires first { x + len ≤ first_len self }
        requires second { y + len ≤ second_len self }
        ensures { IsTrue result ↔ AreSameFrom self.entry x y len }
    {
        match self {
            Elements::Numbers(width, a, b) => same_bytes(
                &a[x * width..(x + len) * width],
                &b[y * width..(y + len) * width],
            ),
            Elements::Texts(a, b) => same_texts_from(a, x, b, y, len),
        }
    }
}

// Whether so many texts or byte lists from `x` on are those from `y` on. Not inlined, so that a loop
// over numbers stays small.
#[inline(never)]
fn same_texts_from(a: StoredTexts, x: usize, b: StoredTexts, y: usize, len: usize) -> bool
    requires first_read { AllResolve a }
    requires second_read { AllResolve b }
    requires first { x + len ≤ length a.views.now }
    requires second { y + len ≤ length b.views.now }
    ensures { IsTrue result ↔ ((j : ℕ) → j < len → stored_value a.entry (x + j) ≡ stored_value b.entry (y + j)) }
{
    same_values(a.range(x, len), b.range(y, len))
}
