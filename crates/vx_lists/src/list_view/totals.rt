// How many elements the valid lists have in all, and whether so many can be taken: told by the
// sizes where they lie, and by the layout of the elements, so that a refusal comes before anything
// is listed.

ghost use Rattle.std.specs.Prelude.{◌≡◌, length, None, Some, if◌then◌else◌};
ghost use Rattle.vx_base.specs.Refusals.{overflow};
ghost use Rattle.vx_tree.specs.Faults.{take_overflow, columns_overflow};
ghost use Rattle.vx_tree.specs.Formed.{IsCounts};
ghost use Rattle.vx_tree.specs.Meaning.{tree_len, trees_from};
ghost use Rattle.vx_lists.specs.ListViews.Layout.{valid_total};
ghost use Rattle.vx_lists.specs.ListViews.{counts_in};

use crate::list_view::counts::{count_at, is_repeated, number_bytes};
use crate::list_view::plan::valid_total;
use vx_base::Mask;
use vx_tree::{ArrayRef, Layout};

// How many elements the present rows have in all: one product where the sizes are all one.
pub(crate) fn total_size(sizes: &ArrayRef, mask: &Mask) -> u128
    requires counts { IsCounts sizes.now }
    requires same_len { length mask.now ≡ tree_len sizes.now }
    ensures { result ≡ valid_total (counts_in sizes.now) mask.now }
{
    if let Some((ptype, bytes)) = number_bytes(sizes) {
        return valid_total(ptype, bytes, mask);
    }
    if is_repeated(sizes) {
        return count_at(sizes, 0) as u128 * mask.true_count() as u128;
    }
    total_by_row(sizes, mask)
}

// How many elements the present rows have in all, in any layout, row by row.
fn total_by_row(sizes: &ArrayRef, mask: &Mask) -> u128
    requires counts { IsCounts sizes.now }
    requires same_len { length mask.now ≡ tree_len sizes.now }
    ensures { result ≡ valid_total (counts_in sizes.now) mask.now }
{
    let mut present = mask.rows();
    let mut total = 0;
    for row in 0..sizes.len() {
        let size = if present.value(row) {
            count_at(sizes, row)
        } else {
            0
        };
        total += size as u128;
    }
    total
}

// Whether so many rows need no more elements than can be counted: of lists of one size, also of
// those in each other and in columns.
#[cycle(is_countable)]
pub(crate) fn is_countable(array: &ArrayRef, count: usize) -> bool
    ensures { take_overflow array.now count ≡ (if result then None else Some overflow) }
{
    match array.layout() {
        Layout::Bool { .. } => true,
        Layout::Primitive { .. } => true,
        Layout::Constant { .. } => true,
        Layout::Dict { .. } => true,
        Layout::FixedSizeList { elements, size, .. } => {
            match count.checked_mul(*size as usize) {
                Some(count) => is_countable(elements, count),
                None => false,
            }
        }
        Layout::ListView { .. } => true,
        Layout::VarBinView { .. } => true,
        Layout::Struct { columns, .. } => are_countable(columns, count),
    }
}

// Whether so many rows of each column are so.
#[cycle(is_countable)]
fn are_countable(columns: &[ArrayRef], count: usize) -> bool
    ensures { columns_overflow (trees_from columns.now) count
        ≡ (if result then None else Some overflow) }
{
    for column in columns {
        if !is_countable(column, count) {
            return false;
        }
    }
    true
}
