// Bits that layouts hold, one for each row.

ghost use Rattle.std.specs.Prelude.{◌≡◌, ℕ, length, IfSome};
ghost use Rattle.vx_base.specs.Bits.{bool_at};
ghost use Rattle.vx_base.specs.Rows.{is_present};
ghost use Rattle.vx_tree.specs.Meaning.{is_valid_at, row_at, tree_len};
ghost use Rattle.vx_tree.specs.Formed.{ValidFits};
ghost use Rattle.vx_tree.specs.Parts.{valid_of};
ghost use Rattle.vx_pack.specs.StoredBits.{AreStoredTruths, TellsRows};

use crate::truths::is_full;
use vx_base::BitBuffer;
use vx_tree::{ArrayRef, Layout, Validity};

// The truth values as bits, where they stand so. Those of null rows may be any.
pub(crate) fn stored_truths(array: &ArrayRef) -> Option<&BitBuffer>
    ensures { IfSome result (λ b. AreStoredTruths array.now b.now.bits) }
{
    match array.layout() {
        Layout::Bool { bits, .. } => Some(bits),
        _ => None,
    }
}

// Which rows are there, as bits, where they stand so.
pub(crate) fn stored_presence(array: &ArrayRef) -> Option<&BitBuffer>
    ensures { IfSome result (λ b. TellsRows is_present array.now b.now.bits) }
{
    bits_of(validity_in(array)?)
}

// The validity that a layout has.
pub(crate) fn validity_in(array: &ArrayRef) -> Option<&Validity>
    ensures { IfSome result (λ v. ValidFits (valid_of v.now) (tree_len array.now)
        × ((i : ℕ) → is_present (row_at array.now i) ≡ is_valid_at (valid_of v.now) i)) }
{
    match array.layout() {
        Layout::Constant { .. } | Layout::Dict { .. } => None,
        Layout::Bool { validity, .. } => Some(validity),
        Layout::Primitive { validity, .. } => Some(validity),
        Layout::VarBinView { validity, .. } => Some(validity),
        Layout::FixedSizeList { validity, .. } => Some(validity),
        Layout::ListView { validity, .. } => Some(validity),
        Layout::Struct { validity, .. } => Some(validity),
    }
}

// The bits that tell which rows are valid, where they stand so.
fn bits_of(validity: &Validity) -> Option<&BitBuffer>
    ensures { (n : ℕ) → ValidFits (valid_of validity.now) n → IfSome result (λ b. (length b.now.bits ≡ n)
        × ((i : ℕ) → is_valid_at (valid_of validity.now) i ≡ bool_at b.now.bits i)) }
{
    let Validity::Array(array) = validity else {
        return None;
    };
    match array.layout() {
        Layout::Bool { bits, validity } if is_full(validity) => Some(bits),
        _ => None,
    }
}
