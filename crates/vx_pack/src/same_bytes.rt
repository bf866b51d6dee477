// Whether as many bytes are the same. A comparison of slices is made for long ones: of few bytes it
// takes as long as all else that a list of few numbers needs.

ghost use Rattle.std.specs.Prelude.{◌≡◌, ◌↔◌, ◌≤◌, ◌+◌, length, pos, slice_range, IsTrue};
ghost use Rattle.vx_base.specs.Bytes.{AreBytes};
ghost use Rattle.vx_base.specs.Integers.{number_of};
ghost use Rattle.vx_base.specs.declared.ptypes.PType.TheVariants.{U64};

use vx_base::{PType, int_of};

// How many bytes a word has.
const WORD: usize = 8;

// Whether as many bytes are the same: of one word or two by the first and the last word, which
// overlap where there are fewer than two.
#[inline(always)]
pub(crate) fn same_bytes(a: &[u8], b: &[u8]) -> bool
    requires { length b.now ≡ length a.now }
    ensures { IsTrue result ↔ (a.now ≡ b.now) }
{
    if a.len() < WORD || a.len() > 2 * WORD {
        return a == b;
    }
    let last = a.len() - WORD;
    word_at(a, 0) == word_at(b, 0) && word_at(a, last) == word_at(b, last)
}

// The number of the word that begins there.
#[inline(always)]
fn word_at(bytes: &[u8], start: usize) -> u64
    requires { start + 8 ≤ length bytes.now }
    ensures value { pos result ≡ number_of U64 (slice_range bytes.now start (start + 8)) }
    ensures bytes { AreBytes (slice_range bytes.now start (start + 8)) }
{
    int_of(&bytes[start..start + WORD], PType::U64) as u64
}
