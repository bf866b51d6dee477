//! Columns of lists, compared by the one layout that their rows fix.

ghost use Rattle.std.specs.Prelude.{◌≡◌, ◌↔◌, true, IfOk, IsTrue};
ghost use Rattle.vx_base.specs.Kinds.{is_integers};
ghost use Rattle.vx_base.specs.Refusals.{Gives, Refuses, or_else};
ghost use Rattle.vx_tree.specs.Meaning.{tree_len, kind_of, rows};
ghost use Rattle.vx_lists.specs.ListViews.Faults.{rebuild_overflow};
ghost use Rattle.vx_lists.specs.ListViews.{elements_of, mask_of};

use std::alloc::Global;
use vx_base::VortexError;
use vx_lists::ListViewArray;
use vx_lists::laws::{counts_stand_at_their_places, equal_rows_rebuild_alike};
use vx_tree::row_laws::{masks_stand_at_their_places, rows_are_equal_by_place};
use vx_tree::{ArrayRef, TypedArray, rows_fit_their_dtype};

/// Whether two columns of lists of numbers have the same rows, wherever their lists lie: both are
/// laid out anew, and then offsets, sizes, masks and elements are compared. Refuses `Overflow`
/// where either cannot be laid out anew, the left one first.
pub fn have_same_lists(
    alloc: Global,
    left: &ListViewArray,
    right: &ListViewArray,
) -> Result<bool, VortexError>
    requires left { is_integers (kind_of (elements_of left.now)) ≡ true }
    requires right { is_integers (kind_of (elements_of right.now)) ≡ true }
    ensures same { IfOk result (λ same. IsTrue same ↔ (rows left.now ≡ rows right.now)) }
    ensures refuses { Refuses result
        (or_else (rebuild_overflow left.now) (rebuild_overflow right.now)) }
{
    counts_stand_at_their_places();
    equal_rows_rebuild_alike();
    rows_are_equal_by_place();
    let first = left.rebuild_by_take(alloc)?;
    let second = right.rebuild_by_take(alloc)?;
    let same_offsets = have_same_numbers(first.offsets(), second.offsets());
    if !same_offsets {
        return Ok(false);
    }
    let same_sizes = have_same_numbers(first.sizes(), second.sizes());
    if !same_sizes {
        return Ok(false);
    }
    let same_elements = have_same_numbers(first.elements(), second.elements());
    if !same_elements {
        return Ok(false);
    }
    Ok(have_same_nulls(alloc, &first, &second)?)
}

// Whether two columns of numbers have the same rows.
fn have_same_numbers(left: &ArrayRef, right: &ArrayRef) -> bool
    requires left { is_integers (kind_of left.now) ≡ true }
    requires right { is_integers (kind_of right.now) ≡ true }
    ensures { IsTrue result ↔ (rows left.now ≡ rows right.now) }
{
    rows_are_equal_by_place();
    rows_fit_their_dtype(left);
    rows_fit_their_dtype(right);
    if left.len() != right.len() {
        return false;
    }
    for i in 0..left.len() {
        if left.int_at(i) != right.int_at(i) {
            return false;
        }
    }
    true
}

// Whether the same lists are null in two columns of as many.
fn have_same_nulls(
    alloc: Global,
    left: &ListViewArray,
    right: &ListViewArray,
) -> Result<bool, VortexError>
    requires { tree_len left.now ≡ tree_len right.now }
    ensures { Gives result (λ same. IsTrue same ↔ (mask_of left.now ≡ mask_of right.now)) }
{
    masks_stand_at_their_places();
    let mine = left.as_array().validity(alloc)?;
    let theirs = right.as_array().validity(alloc)?;
    Ok(mine.mask_eq(alloc, &theirs, left.len())?)
}
