//! What is left of a column of texts once rows are gone.

ghost use Rattle.std.specs.Prelude.{◌≡◌, ◌≤◌, ℕ, List, length, map, IfOk};
ghost use Rattle.std.specs.List.{All, concat, flat_map};
ghost use Rattle.vx_base.specs.Refusals.{Refuses, or_else};
ghost use Rattle.vx_views.specs.BuildFaults.{IsPieceCount};
ghost use Rattle.vx_views.specs.Cut.{IsCut};
ghost use Rattle.vx_tree.specs.Faults.{length_fault};
ghost use Rattle.vx_tree.specs.Meaning.{kind_of, rows, tree_len};
ghost use Rattle.vx_tree.specs.Operations.{filtered};
ghost use Rattle.vx_text.specs.Rebuffered.{rebuffer_fault};
ghost use Rattle.vx_text.specs.Texts.{buffers_of};
ghost use Rattle.vx_uses.specs.Packed.{row_bytes, row_size};

use std::alloc::Global;
use vx_base::{Mask, VortexError};
use vx_text::VarBinViewArray;
use vx_tree::TypedArray;

/// The rows of a column of texts or byte lists at which a mask is true, with their values packed
/// into the fewest buffers of at most `limit` bytes each, so that the memory of the rows that are
/// gone can be let go: the buffers, one after another, are the values of the rows that are left,
/// and nothing else. Of the texts `aaaaaaaaaaaaa`, `bbbbbbbbbbbbb`, `ccccccccccccc` the mask true,
/// false, true leaves one buffer, `aaaaaaaaaaaaaccccccccccccc`, under a limit of 26.
///
/// Refuses `LengthMismatch` where the mask has not one boolean a row, then as `rebuffer` does of
/// the rows that are left.
pub fn kept_and_packed(
    alloc: Global,
    column: &VarBinViewArray,
    mask: &Mask,
    limit: usize,
) -> Result<VarBinViewArray, VortexError>
    ensures rows { IfOk result (λ a. rows a ≡ filtered mask.now (rows column.now)) }
    ensures kind { IfOk result (λ a. kind_of a ≡ kind_of column.now) }
    ensures within { IfOk result (λ a. All (λ buffer. length buffer ≤ limit) (buffers_of a)) }
    ensures only { IfOk result (λ a. concat (buffers_of a)
        ≡ flat_map row_bytes (filtered mask.now (rows column.now))) }
    ensures fewest { let sizes = map row_size (filtered mask.now (rows column.now)) in
        IfOk result (λ a. (others : List ℕ) → IsCut limit sizes others
        → length (buffers_of a) ≤ length others) }
    ensures refuses { let sizes = map row_size (filtered mask.now (rows column.now)) in
        (pieces : ℕ) × (IsPieceCount limit sizes pieces × Refuses result (or_else
        (length_fault (tree_len column.now) (length mask.now)) (rebuffer_fault limit sizes pieces))) }
{
    let kept = column.as_array().filter(alloc, mask)?;
    let Ok(texts) = VarBinViewArray::try_from_array(kept) else {
        unreachable!()
    };
    texts.rebuffer(alloc, limit)
}
