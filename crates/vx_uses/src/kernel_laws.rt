//! What the loop of a kernel knows of the rows that it has read, as laws.

ghost use Rattle.std.specs.Prelude.{◌≡◌, ◌<◌, ◌+◌, ◌++◌, ◌∷◌, [], ℕ, Bool, List, length, map, take, count_by, if◌then◌else◌};
ghost use Rattle.std.specs.List.{filter};
ghost use Rattle.vx_base.specs.Rows.{Row};
ghost use Rattle.vx_tree.specs.Meaning.{tree_len, row_at, rows};
ghost use Rattle.vx_tree.specs.Operations.{filtered};
ghost use Rattle.vx_tree.specs.Tree.{Tree};

/// Rows that are read one after another. With row `i`, how many of the first rows pass a test is
/// one more where row `i` does, and what is told of the first rows is told of row `i` too. Once all
/// are read, the first rows are the rows.
pub fn rows_are_read_in_order()
    ensures counted { (p : Row → Bool) (t : Tree) (i : ℕ) → i < tree_len t →
        count_by p (take (i + 1) (rows t))
        ≡ count_by p (take i (rows t)) + (if p (row_at t i) then 1 else 0) }
    ensures told { (f : Row → Bool) (t : Tree) (i : ℕ) → i < tree_len t →
        map f (take (i + 1) (rows t)) ≡ map f (take i (rows t)) ++ f (row_at t i) ∷ [] }
    ensures all { (t : Tree) → take (tree_len t) (rows t) ≡ rows t }
{}

/// The rows at which a mask is true are those that pass a test, where the mask tells of each row
/// whether it does; and a mask that tells of each row has as many entries as there are rows.
pub fn tested_rows_are_filtered()
    ensures rows { (p : Row → Bool) (rs : List Row) → filtered (map p rs) rs ≡ filter p rs }
    ensures len { (p : Row → Bool) (t : Tree) → length (map p (rows t)) ≡ tree_len t }
{}
