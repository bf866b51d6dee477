//! Tables, which are columns of records: columns that are looked up by their names, and joined.

ghost use Rattle.std.specs.Prelude.{◌≡◌, ◌++◌, ◌∷◌, [], map, Some, IfOk};
ghost use Rattle.std.specs.Option.{option_map};
ghost use Rattle.vx_base.specs.Refusals.{Refuses, or_else};
ghost use Rattle.vx_canonical.specs.Concatenated.{concat_fault};
ghost use Rattle.vx_tree.specs.Meaning.{kind_of, rows};
ghost use Rattle.vx_tree.specs.Tree.{non_nullable};
ghost use Rattle.vx_structs.specs.Structs.Faults.{names_fault, struct_fault};
ghost use Rattle.vx_structs.specs.Structs.Records.{projected, projected_kind};
ghost use Rattle.vx_structs.specs.Structs.{column_named, names_of, records_by};
ghost use Rattle.vx_uses.specs.Tables.{chosen, join_fault, rows_named};

use std::alloc::Global;
use vx_base::{FieldName, FieldNames, VortexError};
use vx_canonical::Concatenate;
use vx_structs::{StructArray, StructArrayExt};
use vx_tree::{ArrayRef, TypedArray, Validity};

/// A table of so many records, none of them null, of the columns that a reader has collected, in
/// order, each under the name at its place. Of the names a and b and the columns `[1, 2]` and
/// `[true, false]` the records are `{a:1,b:true}`, `{a:2,b:false}`.
///
/// Refuses `LengthMismatch` where there are not as many columns as names, or one has not `len` rows.
pub fn table_of(
    alloc: Global,
    names: &[&str],
    columns: Vec<ArrayRef>,
    len: usize,
) -> Result<StructArray, VortexError>
    ensures table { IfOk result (λ a.
        a ≡ records_by (map (λ name. name.now) names.now) columns.items non_nullable len) }
    ensures refuses { Refuses result
        (struct_fault (map (λ name. name.now) names.now) columns.items non_nullable len) }
{
    let names = FieldNames::try_new(alloc, names)?;
    StructArray::try_new(
        alloc,
        names,
        columns.into_iter(),
        len,
        Validity::NonNullable,
    )
}

/// The columns of a name of two tables, joined: the rows of the first column of that name, those of
/// the one table and then those of the other. A column has a row also where the record is null. Of
/// the tables of `{a:1,b:true}` and of `{b:false,c:7}` the name b gives `[true, false]`.
///
/// Refuses `UnknownField` where either table has no column of the name; then as `ArrayRef::concat`
/// does of the two columns, with `DifferingDtypes` before all else.
pub fn joined_column(
    alloc: Global,
    first: &StructArray,
    second: &StructArray,
    name: &str,
) -> Result<ArrayRef, VortexError>
    ensures rows { IfOk result (λ a. rows a
        ≡ rows_named first.now name.now ++ rows_named second.now name.now) }
    ensures first_kind { IfOk result (λ a. option_map kind_of (column_named first.now name.now)
        ≡ Some (kind_of a)) }
    ensures second_kind { IfOk result (λ a. option_map kind_of (column_named second.now name.now)
        ≡ Some (kind_of a)) }
    ensures refuses { Refuses result
        (join_fault (column_named first.now name.now) (column_named second.now name.now)) }
{
    let columns = [
        first.unmasked_field_by_name(name)?.try_clone(alloc)?,
        second.unmasked_field_by_name(name)?.try_clone(alloc)?,
    ];
    ArrayRef::concat(alloc, &columns)
}

/// The columns of these names of two tables, joined: a table of just these columns, in the order of
/// the names, with the records of the one table and then those of the other, wherever in each table
/// the columns stand. Of the tables of `{a:1,b:true}` and of `{b:false,c:7,a:2}` the name a gives
/// the table of `{a:1}`, `{a:2}`.
///
/// Refuses `UnknownField` where either table has no column of one of the names; then as
/// `StructArray::try_concat` does of the two tables of these columns, with `DifferingDtypes` before
/// all else.
pub fn joined_columns(
    alloc: Global,
    first: &StructArray,
    second: &StructArray,
    names: &[FieldName],
) -> Result<StructArray, VortexError>
    ensures rows { IfOk result (λ a. rows a
        ≡ projected names.now (rows first.now) ++ projected names.now (rows second.now)) }
    ensures first_kind { IfOk result (λ a. kind_of a ≡ projected_kind names.now (kind_of first.now)) }
    ensures second_kind { IfOk result (λ a. kind_of a ≡ projected_kind names.now (kind_of second.now)) }
    ensures refuses { Refuses result (or_else
        (or_else (names_fault (names_of first.now) names.now) (names_fault (names_of second.now) names.now))
        (concat_fault (chosen first.now names.now ∷ chosen second.now names.now ∷ []))) }
{
    let tables = [first.project(alloc, names)?, second.project(alloc, names)?];
    StructArray::try_concat(alloc, tables.iter())
}
