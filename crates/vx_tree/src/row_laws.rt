//! Laws of the rows of an array, and of the mask of a validity, as lists.

ghost use Rattle.std.specs.Prelude.{◌≡◌, ◌↔◌, ◌<◌, ◌≤◌, ◌-◌, ◌+◌, ℕ, None, Bool, List, length, replicate, slice_index_or, slice_range};
ghost use Rattle.vx_base.specs.Kinds.{Kind};
ghost use Rattle.vx_base.specs.Rows.{Row};
ghost use Rattle.vx_tree.specs.Faults.{validity_fault};
ghost use Rattle.vx_tree.specs.Formed.{ValidFits};
ghost use Rattle.vx_tree.specs.Meaning.{tree_len, row_at, rows, valid_mask, is_valid_at};
ghost use Rattle.vx_tree.specs.Tree.{Tree, Valid, bools, constant, non_nullable, by_array};

/// An array has as many rows as it is long, and row `i` of them is its row `i`.
pub fn rows_stand_at_their_places()
    ensures len { (t : Tree) → length (rows t) ≡ tree_len t }
    ensures each { (t : Tree) (i : ℕ) (default : Row) → i < tree_len t →
        slice_index_or (rows t) i default ≡ row_at t i }
{}

/// Two arrays have equal rows exactly where they are as long and each row is the same.
pub fn rows_are_equal_by_place()
    ensures { (t u : Tree) → (rows t ≡ rows u)
        ↔ ((tree_len t ≡ tree_len u) × ((i : ℕ) → i < tree_len t → row_at t i ≡ row_at u i)) }
{}

/// A part of a part of rows is the part by the added bounds.
pub fn parts_of_parts_of_rows()
    ensures { (rs : List Row) (start end from to : ℕ) → from ≤ to → to ≤ end - start →
        slice_range (slice_range rs start end) from to
        ≡ slice_range rs (start + from) (start + to) }
{}

/// A constant repeats its row.
pub fn rows_of_a_constant()
    ensures { (kind : Kind) (row : Row) (n : ℕ) → rows (constant kind row n) ≡ replicate n row }
{}

/// The mask of a validity has an entry a row, which tells whether the row is valid. The mask of
/// plain bits is these bits.
pub fn masks_stand_at_their_places()
    ensures len { (v : Valid) (n : ℕ) → length (valid_mask v n) ≡ n }
    ensures each { (v : Valid) (n i : ℕ) (default : Bool) → i < n →
        slice_index_or (valid_mask v n) i default ≡ is_valid_at v i }
    ensures bits { (first : ℕ) (bits : List Bool) →
        valid_mask (by_array (bools first bits non_nullable)) (length bits) ≡ bits }
{}

/// A validity that is without a fault for so many rows is one of so many rows.
pub fn faultless_validities_fit()
    ensures { (v : Valid) (n : ℕ) → validity_fault v n ≡ None → ValidFits v n }
{}
