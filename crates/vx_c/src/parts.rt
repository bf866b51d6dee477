// What is known of arrays without having them.

ghost use Rattle.std.specs.Prelude.{◌≡◌, ◌∷◌, List, length, reverse, true, IfSome, IsTrue};
ghost use Rattle.vx_base.specs.Integers.{numbers};
ghost use Rattle.vx_tree.specs.Meaning.{tree_len};
ghost use Rattle.vx_tree.specs.Tree.{Tree};
ghost use Rattle.vx_c.specs.Parts.{Describes, AreDescribed, IsValidOver, AreTakenColumns};
ghost use Rattle.vx_c.specs.Tables.{valid_of_number};

use vx_base::{PType, number_count};

// What is known of an array that has no fault.
#[derive(Clone, Copy)]
pub(crate) enum Part<'a> {
    // So many truth values, none of which may be null.
    Truths(usize),
    // Whole numbers of a type, and whether they may be null.
    Numbers(PType, &'a [u8], bool),
    // Whole numbers: offsets, counted from the first one.
    Starts(PType, &'a [u8]),
    // Whole numbers: each offset but the first, less the one before it.
    Sizes(PType, &'a [u8]),
    // So many rows.
    Rows(usize),
}

impl Part<'_> {
    // How many rows there are.
    pub(crate) fn len(&self) -> usize
        ensures { (t : Tree) → Describes self.now t → tree_len t ≡ result }
    {
        match self {
            Part::Truths(len) | Part::Rows(len) => *len,
            Part::Numbers(ptype, bytes, _) | Part::Starts(ptype, bytes) => {
                number_count(bytes, *ptype)
            }
            Part::Sizes(ptype, bytes) => number_count(bytes, *ptype).saturating_sub(1),
        }
    }
}

// Takes the nearest one, the last of the list.
pub(crate) fn pop<'a>(parts: &mut Vec<Part<'a>>) -> Option<Part<'a>>
    ensures { IfSome result (λ p. reverse parts.old.items ≡ p ∷ reverse parts.new.items) }
{
    parts.pop()
}

// Puts one nearest. Where memory is refused it is let go.
pub(crate) fn push<'a>(parts: &mut Vec<Part<'a>>, part: Part<'a>) -> bool
    ensures { IsTrue result → reverse parts.new.items ≡ part.entry ∷ reverse parts.old.items }
{
    parts.push(part).is_ok()
}

// Whether there is just one.
pub(crate) fn is_one(parts: &Vec<Part<'_>>) -> bool
    ensures { IsTrue result → length (reverse parts.now.items) ≡ 1 }
{
    parts.len() == 1
}

// Whether null may stand under the validity of a number, which may be the nearest array, of so many
// rows.
pub(crate) fn take_validity(number: u32, len: usize, parts: &mut Vec<Part<'_>>) -> Option<bool>
    ensures { IfSome result (λ null. (ts : List Tree) → AreDescribed (reverse parts.old.items) ts
        → IsValidOver null len (reverse parts.new.items) (valid_of_number number ts)) }
{
    match number {
        0 => Some(false),
        1 | 2 => Some(true),
        3 => match pop(parts) {
            Some(Part::Truths(found)) if found == len => Some(true),
            _ => None,
        },
        _ => None,
    }
}

// Takes so many columns, and tells whether each has so many rows.
pub(crate) fn take_columns(count: usize, len: usize, parts: &mut Vec<Part<'_>>) -> bool
    ensures { IsTrue result → (ts : List Tree) → AreDescribed (reverse parts.old.items) ts
        → AreTakenColumns count len (reverse parts.new.items) ts }
{
    for taken in 0..count {
        match pop(parts) {
            Some(part) if part.len() == len => {}
            _ => return false,
        }
    }
    true
}
