// Whether parts have the same truth values, or the same texts or byte lists.

ghost use Rattle.std.specs.Prelude.{◌≡◌, ◌↔◌, ◌<◌, ℕ, length, option_map, IsTrue};
ghost use Rattle.vx_base.specs.Kinds.{Kind};
ghost use Rattle.vx_tree.specs.Values.{bytes_in};
ghost use Rattle.vx_pack.specs.Parts.{AreSameBy, IsWithin, part_len};
ghost use Rattle.vx_pack.specs.RowForms.{truth_in};
ghost use Rattle.vx_pack.specs.StoredTexts.{AllResolve, stored_value};

use crate::parts::Part;
use crate::stored_texts::StoredTexts;

// Whether the truth values are the same, row by row.
pub(crate) fn same_truths(a: Part, b: Part) -> bool
    requires first { IsWithin a }
    requires second { IsWithin b }
    requires same_len { part_len b ≡ part_len a }
    ensures { (k : Kind) → IsTrue result ↔ AreSameBy truth_in k a.entry b.entry }
{
    for i in 0..a.len() {
        if a.truth(i) != b.truth(i) {
            return false;
        }
    }
    true
}

// Whether the bytes of texts or byte lists are the same, row by row: by their views alone, where
// they stand so and none is null.
pub(crate) fn same_texts(a: Part, b: Part) -> bool
    requires first { IsWithin a }
    requires second { IsWithin b }
    requires same_len { part_len b ≡ part_len a }
    ensures { (k : Kind) → IsTrue result ↔ AreSameBy bytes_in k a.entry b.entry }
{
    let Some(first) = a.full_texts() else {
        return same_each_text(a, b);
    };
    let Some(second) = b.full_texts() else {
        return same_each_text(a, b);
    };
    same_values(first, second)
}

// Whether as many views have the same values.
pub(crate) fn same_values(a: StoredTexts, b: StoredTexts) -> bool
    requires first { AllResolve a }
    requires second { AllResolve b }
    requires same_len { length b.views.now ≡ length a.views.now }
    ensures { IsTrue result ↔ ((i : ℕ) → i < length a.entry.views.now → stored_value a.entry i ≡ stored_value b.entry i) }
{
    for i in 0..a.views.len() {
        if !same_value(
            a.views[i].value_in(a.buffers),
            b.views[i].value_in(b.buffers),
        ) {
            return false;
        }
    }
    true
}

// Whether the bytes of texts or byte lists are the same, each row read by itself.
fn same_each_text(a: Part, b: Part) -> bool
    requires first { IsWithin a }
    requires second { IsWithin b }
    requires same_len { part_len b ≡ part_len a }
    ensures { (k : Kind) → IsTrue result ↔ AreSameBy bytes_in k a.entry b.entry }
{
    for i in 0..a.len() {
        if !same_bytes(a.bytes(i), b.bytes(i)) {
            return false;
        }
    }
    true
}

// Whether both are there and the same, or neither is there.
fn same_bytes(a: Option<&[u8]>, b: Option<&[u8]>) -> bool
    ensures { IsTrue result ↔ (option_map (λ x. x.now) a.entry ≡ option_map (λ x. x.now) b.entry) }
{
    match (a, b) {
        (Some(a), Some(b)) => same_value(a, b),
        (None, None) => true,
        _ => false,
    }
}

// Whether values are the same bytes.
#[inline(always)]
fn same_value(a: &[u8], b: &[u8]) -> bool
    ensures { IsTrue result ↔ (a.now ≡ b.now) }
{
    a == b
}
