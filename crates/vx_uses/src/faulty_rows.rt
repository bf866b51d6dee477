//! Which row is faulty, where a refusal tells a position.

ghost use Rattle.std.specs.Prelude.{◌≡◌, ℕ, pos, true, Some, IsSomeAnd};
ghost use Rattle.vx_base.specs.Kinds.{is_integers, is_plain_integers};
ghost use Rattle.vx_base.specs.Refusals.{out_of_bounds};
ghost use Rattle.vx_base.specs.Rows.{number_in};
ghost use Rattle.vx_tree.specs.Faults.{indices_fault};
ghost use Rattle.vx_tree.specs.Meaning.{kind_of, row_at, tree_len};
ghost use Rattle.vx_lists.specs.ListViews.Faults.{list_rows_fault, whole_at};
ghost use Rattle.vx_uses.specs.FaultyRows.{EndsAt, IsFirstFaultyCode, IsFirstWith};
ghost use Rattle.vx_uses.specs.Uses.{IsFirstFault};

use vx_base::first_fault_is_least;
use vx_tree::ArrayRef;

/// The first row that has a code, none where no row has it. Where a dictionary of the codes was
/// refused `OutOfBounds` with this code, or a take by them, that is the first faulty row: of the
/// codes 0, 5, null, 5 into three values, refused with 5, row 1. Asks integers.
pub fn row_of_refused_code(codes: &ArrayRef, code: usize) -> Option<usize>
    requires { is_integers (kind_of codes.now) ≡ true }
    ensures first { IsFirstWith (λ i. number_in (row_at codes.now i) ≡ Some (pos code))
        (tree_len codes.now) result }
    ensures refused { (count : ℕ) → indices_fault count codes.now ≡ Some (out_of_bounds code) →
        IsSomeAnd result (IsFirstFaultyCode count codes.now code) }
{
    first_fault_is_least();
    let refused = Some(code as i128);
    for row in 0..codes.len() {
        if codes.int_at(row) == refused {
            return Some(row);
        }
    }
    None
}

/// The first row whose list ends there, none where no list does. Where a list view of the offsets and
/// sizes was refused `OutOfBounds` with this end, that is the first faulty row: of the offsets 0, 2
/// and the sizes 3, 2 over three elements, refused with 4, row 1. Asks offsets and sizes of integers
/// that are never null, as many of both.
pub fn row_of_refused_list(offsets: &ArrayRef, sizes: &ArrayRef, end: usize) -> Option<usize>
    requires offsets { is_plain_integers (kind_of offsets.now) ≡ true }
    requires sizes { is_plain_integers (kind_of sizes.now) ≡ true }
    requires same_len { tree_len sizes.now ≡ tree_len offsets.now }
    ensures first { IsFirstWith (λ i. EndsAt (whole_at offsets.now i) (whole_at sizes.now i) end)
        (tree_len offsets.now) result }
    ensures refused { (count : ℕ) → list_rows_fault count offsets.now sizes.now ≡ Some (out_of_bounds end) →
        IsSomeAnd result (λ row. IsFirstFault count offsets.now sizes.now row (out_of_bounds end)) }
{
    first_fault_is_least();
    for row in 0..offsets.len() {
        let offset = offsets.int_at(row).unwrap();
        let size = sizes.int_at(row).unwrap();
        if offset >= 0 && size >= 0 && offset + size == end as i128 {
            return Some(row);
        }
    }
    None
}
