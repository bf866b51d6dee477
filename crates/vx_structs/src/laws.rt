//! Laws of columns of records. Each function stands for the law that its clause states.

ghost use Rattle.std.specs.Prelude.{◌≡◌, ◌<◌, ℕ, List, Bool, None, Some, length, if◌then◌else◌, true};
ghost use Rattle.vx_base.specs.Fields.{place_of_name};
ghost use Rattle.vx_base.specs.Rows.{null, is_present};
ghost use Rattle.vx_canonical.specs.Joined.{column_of};
ghost use Rattle.vx_tree.specs.Formed.{WellFormed};
ghost use Rattle.vx_tree.specs.Meaning.{tree_len, row_at};
ghost use Rattle.vx_tree.specs.Tree.{Tree};
ghost use Rattle.vx_structs.specs.Structs.{names_of, columns_of, added, removed, is_struct, IsPushed};

/// A column that is added under a name that no field had, and removed by its name, leaves the old
/// columns, and is the one that was added.
pub fn a_column_added_is_removed()
    ensures { (t column : Tree) (name : List ℕ) → is_struct t ≡ true → WellFormed t
        → place_of_name (names_of t) name ≡ None → removed (added t name column) name ≡ Some (t, column) }
{}

/// Of records whose nulls were pushed into their columns each field is unchanged where the record is
/// valid, and null where it is null.
pub fn pushed_fields_are_null_with_their_records()
    ensures { (t r : Tree) (remove : Bool) (k i : ℕ) → is_struct t ≡ true → WellFormed t → IsPushed t remove r
        → k < length (columns_of t) → i < tree_len t
        → row_at (column_of k r) i ≡ (if is_present (row_at t i) then row_at (column_of k t) i else null) }
{}
