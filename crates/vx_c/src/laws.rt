//! Laws of tables. The functions do nothing: their contracts are the laws.

ghost use Rattle.std.specs.Prelude.{◌≡◌, List, Ok, Some, map};
ghost use Rattle.vx_base.specs.Kinds.{Kind};
ghost use Rattle.vx_base.specs.Refusals.{out_of_bounds};
ghost use Rattle.vx_base.specs.Rows.{Row};
ghost use Rattle.vx_canonical.specs.Canonical.{HasRowsOf};
ghost use Rattle.vx_tree.specs.Fitting.{AllFormed};
ghost use Rattle.vx_tree.specs.Plain.{IsPlain};
ghost use Rattle.vx_tree.specs.Tree.{Tree};
ghost use Rattle.vx_tree.specs.Worked.{signed_numbers, some_booleans, overlapping_lists};
ghost use Rattle.vx_pack.specs.Packed.{IsPacked};
ghost use Rattle.vx_c.specs.ColumnSteps.{RunsAreRuns, StopsAreStops};
ghost use Rattle.vx_c.specs.Runs.{IsReadBack, IsExactTable, column_in};
ghost use Rattle.vx_c.specs.Tables.{column_of, table_fault, refused, unknown_kind, missing_nodes, not_one_array};
ghost use Rattle.vx_c.specs.TablesOf.{TablesAreRead};
ghost use Rattle.vx_c.specs.Unflagged.{IsLeastCount, unflagged};
ghost use Rattle.vx_c.specs.Written.{plainly};
ghost use Rattle.vx_c.specs.declared.table.CodraskTable.{CodraskTable};
ghost use Rattle.vx_c.specs.WorkedTables.{numbers_table, nulls_table, overlapping_table, long_list_table};
ghost use Rattle.vx_c.specs.WorkedTables.{two_faults_table, lone_list_table, two_columns_table};

/// The table of a plain array has no fewer nodes than the least of its kind: where these are more
/// than a table may have, no plain array of the same rows has a table.
#[tactic(auto, using(crate::proofs::Counts::least_nodes))]
pub fn tables_have_the_nodes_of_their_kind()
    ensures { IsLeastCount }
{}

/// What is read back from a table that a run wrote has the rows of the array that was asked for, of
/// its kind, and is plain and well formed at every depth: the flags that it does not keep say
/// nothing of rows.
pub fn tables_are_read_back_with_their_rows()
    ensures rows { (t : Tree) → HasRowsOf t (unflagged t) }
    ensures plain { (t : Tree) → IsPlain t → IsPlain (unflagged t) }
    ensures formed { (t : Tree) → AllFormed t → AllFormed (unflagged t) }
    ensures read { (t r : Tree) → IsReadBack t (Ok r) → HasRowsOf t r × IsPlain r × AllFormed r }
{}

/// Small tables are the arrays, and have the faults, that were worked by hand: the fault is that of
/// the last node that has one.
pub fn worked_tables_are_their_arrays()
    ensures numbers { column_of numbers_table ≡ Ok signed_numbers }
    ensures nulls { column_of nulls_table ≡ Ok some_booleans }
    ensures lists { column_of overlapping_table ≡ Ok overlapping_lists }
    ensures past_the_elements { table_fault long_list_table ≡ Some (0, refused (out_of_bounds 5)) }
    ensures last_first { table_fault two_faults_table ≡ Some (1, unknown_kind) }
    ensures no_parts { table_fault lone_list_table ≡ Some (0, missing_nodes) }
    ensures two_columns { table_fault two_columns_table ≡ Some (0, not_one_array) }
{}

/// The table of a plain array is the column that is the array without its flags: each plain array
/// that a machine holds, of no more nodes than a table may have, has a table.
pub fn tables_of_plain_arrays_are_read()
    ensures { TablesAreRead }
{}

/// A run whose steps are all those of `vx_run` is a run of theirs, and is stopped as one is.
pub fn runs_of_steps_are_runs()
    ensures runs { RunsAreRuns }
    ensures stops { StopsAreStops }
{}

/// A packed array is plain, and what is read back of a plain array is that array without its flags:
/// so the table of a packed array has the bytes of the packed form, and no others.
pub fn packed_arrays_are_read_back_as_they_are()
    ensures plain { (k : Kind) (rs : List Row) (t : Tree) → IsPacked k rs t → IsPlain t }
    ensures read { (t r : Tree) → IsPlain t → IsReadBack t (Ok r) → r ≡ unflagged t }
{}

/// Two tables that are the same column, each exact, have the same nodes with the same bytes,
/// wherever their blocks lie. So equal columns go out as equal bytes.
pub fn exact_tables_of_a_column_are_the_same()
    ensures { (a b : CodraskTable) (t : Tree) → IsExactTable a → IsExactTable b → column_in a ≡ Ok t → column_in b ≡ Ok t
        → map plainly a.nodes.now ≡ map plainly b.nodes.now }
{}

/// Equal rows of one data type go out as equal bytes, where they are packed: of two tables of packed
/// arrays that runs wrote, the nodes are the same, with the same bytes, wherever their blocks lie.
pub fn packed_rows_go_out_as_equal_bytes()
    ensures { (a b : CodraskTable) (k : Kind) (rs : List Row) (t u : Tree) → IsPacked k rs t → IsPacked k rs u
        → IsReadBack t (column_in a) → IsReadBack u (column_in b) → IsExactTable a → IsExactTable b
        → map plainly a.nodes.now ≡ map plainly b.nodes.now }
{}
