//! Laws of the rows of arrays of truth values and of numbers.

ghost use Rattle.std.specs.Prelude.{◌≡◌, ℕ, ℤ, Bool, List, length, map, if◌then◌else◌};
ghost use Rattle.vx_base.specs.Bits.{bool_at};
ghost use Rattle.vx_base.specs.Rows.{null, boolean, whole};
ghost use Rattle.vx_base.specs.Integers.{number_nth};
ghost use Rattle.vx_base.specs.declared.ptypes.PType.{PType};
ghost use Rattle.vx_tree.specs.Meaning.{tree_len, row_at, rows, valid_mask, is_valid_at};
ghost use Rattle.vx_tree.specs.Operations.{masked};
ghost use Rattle.vx_tree.specs.Tree.{Tree, Valid, bools, non_nullable};
ghost use Rattle.vx_leaves.specs.Leaves.{IsPrimitive};
ghost use Rattle.vx_leaves.specs.Narrow.{NarrowedTypes};

/// An array of numbers has a row for each: the number where its row is valid, else null.
pub fn rows_of_numbers()
    ensures len { (t : PType) (numbers : List ℤ) (v : Valid) (a : Tree) →
        IsPrimitive t numbers v a → tree_len a ≡ length numbers }
    ensures each { (t : PType) (numbers : List ℤ) (v : Valid) (a : Tree) (i : ℕ) →
        IsPrimitive t numbers v a → row_at a i
        ≡ (if is_valid_at v i then whole (number_nth numbers i) else null) }
    ensures masked { (t : PType) (numbers : List ℤ) (v : Valid) (a : Tree) →
        IsPrimitive t numbers v a → rows a
        ≡ masked (valid_mask v (length numbers)) (map whole numbers) }
    ensures all { (t : PType) (numbers : List ℤ) (a : Tree) →
        IsPrimitive t numbers non_nullable a → rows a ≡ map whole numbers }
{}

/// An array of truth values has a row for each: the truth value where its row is valid, else null.
pub fn rows_of_bits()
    ensures len { (first : ℕ) (bits : List Bool) (v : Valid) → tree_len (bools first bits v) ≡ length bits }
    ensures each { (first : ℕ) (bits : List Bool) (v : Valid) (i : ℕ) → row_at (bools first bits v) i
        ≡ (if is_valid_at v i then boolean (bool_at bits i) else null) }
    ensures masked { (first : ℕ) (bits : List Bool) (v : Valid) → rows (bools first bits v)
        ≡ masked (valid_mask v (length bits)) (map boolean bits) }
    ensures all { (first : ℕ) (bits : List Bool) → rows (bools first bits non_nullable) ≡ map boolean bits }
{}

/// Of numbers that a type has, the narrowed type has them all, and no type of fewer bytes does; of
/// no numbers it is u8.
pub fn narrowed_types_are_least()
    ensures { NarrowedTypes }
{}
