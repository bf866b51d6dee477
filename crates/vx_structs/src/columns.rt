// Columns of records that are chosen, added and removed.

ghost use Rattle.std.specs.Prelude.{◌≡◌, ◌<◌, ◌∷◌, ◌++◌, [], length, map, Some, IfOk, IfSome};
ghost use Rattle.std.specs.List.{remove};
ghost use Rattle.vx_base.specs.Fields.{place_of_name};
ghost use Rattle.vx_base.specs.Refusals.{Gives, Refuses};
ghost use Rattle.vx_tree.specs.Faults.{length_fault};
ghost use Rattle.vx_tree.specs.Formed.{IsStruct};
ghost use Rattle.vx_tree.specs.Meaning.{tree_len, trees_from, kind_of, rows};
ghost use Rattle.vx_structs.specs.Structs.Records.{projected, with_column, without_column};
ghost use Rattle.vx_structs.specs.Structs.Records.{projected_kind, kind_with_column, kind_without_column};
ghost use Rattle.vx_structs.specs.Structs.Faults.{names_fault};
ghost use Rattle.vx_structs.specs.Structs.{names_of, with_columns, column_at_place, IsProjected, added, removed};

use crate::array::StructArray;
use crate::ext::StructArrayExt;
use std::alloc::Global;
use vx_base::{FieldName, FieldNames, VortexError};
use vx_tree::{ArrayRef, TypedArray};

impl StructArray {
    /// The records with the first field of each of these names, in their order; a name may stand
    /// more than once, and there may be none. Of the record `{a:1,b:2,a:3}` the names b and a leave
    /// `{b:2,a:1}`. The columns are shared. Refuses `UnknownField` where no field has one of the
    /// names.
    pub fn project(&self, alloc: Global, names: &[FieldName]) -> Result<StructArray, VortexError>
        ensures columns { IfOk result (IsProjected self.now names.now) }
        ensures rows { IfOk result (λ a. rows a ≡ projected names.now (rows self.now)) }
        ensures kind { IfOk result (λ a. kind_of a ≡ projected_kind names.now (kind_of self.now)) }
        ensures refuses { Refuses result (names_fault (names_of self.now) names.now) }
    {
        let parts = self.parts();
        let columns = columns_named(alloc, parts.names, parts.columns, names)?;
        let names = shared_names(alloc, names)?;
        self.with_columns(alloc, names, columns)
    }

    // As many records of other columns, null where these are. Asks one column a name, each with as
    // many rows.
    fn with_columns(
        &self,
        alloc: Global,
        names: FieldNames,
        columns: Vec<ArrayRef>,
    ) -> Result<StructArray, VortexError>
        requires { IsStruct names (trees_from columns.items) (tree_len self.now) }
        ensures { Gives result (λ a. a ≡ with_columns self.now names columns.items) }
    {
        let parts = self.parts();
        let validity = parts.validity.try_clone(alloc)?;
        let array = ArrayRef::structure(alloc, names, columns, validity, parts.len)?;
        Ok(StructArray::from_array(array))
    }

    /// The records with one field more, the last: the column's row under the name. The name may
    /// stand already. Of the record `{a:1}` the name b and the row 2 make `{a:1,b:2}`. The columns
    /// are shared. Refuses `LengthMismatch` where the column has not one row a record.
    pub fn with_column(
        &self,
        alloc: Global,
        name: &str,
        column: ArrayRef,
    ) -> Result<StructArray, VortexError>
        ensures columns { IfOk result (λ a. a ≡ added self.now name.now column) }
        ensures rows { IfOk result (λ a. rows a ≡ with_column name.now (rows column) (rows self.now)) }
        ensures kind { IfOk result (λ a. kind_of a ≡ kind_with_column name.now (kind_of column) (kind_of self.now)) }
        ensures refuses { Refuses result (length_fault (tree_len self.now) (tree_len column)) }
    {
        let parts = self.parts();
        let (expected, found) = (parts.len, column.len());
        if found != expected {
            return Err(VortexError::LengthMismatch { expected, found });
        }
        let names = names_and(alloc, parts.names, name)?;
        let columns = columns_and(alloc, parts.columns, column)?;
        self.with_columns(alloc, names, columns)
    }

    /// The records without the first field of this name, and its column, both shared: nothing where
    /// no field has the name. Of the records `{a:1,b:2}` the name a leaves `{b:2}`, and the column
    /// is `[1]`. Fails only for want of memory.
    pub fn remove_column(
        &self,
        alloc: Global,
        name: &str,
    ) -> Result<Option<(StructArray, ArrayRef)>, VortexError>
        ensures columns { Gives result (λ found. found ≡ removed self.now name.now) }
        ensures rows { IfOk result (λ found. IfSome found (λ pair. rows pair.0 ≡ without_column name.now (rows self.now))) }
        ensures kind { IfOk result (λ found. IfSome found (λ pair. kind_of pair.0 ≡ kind_without_column name.now (kind_of self.now))) }
    {
        let parts = self.parts();
        let Some(place) = parts.names.find(name) else {
            return Ok(None);
        };
        let names = parts.names.without(alloc, place)?;
        let columns = columns_without(alloc, parts.columns, place)?;
        let rest = self.with_columns(alloc, names, columns)?;
        let removed = self.unmasked_field(place).try_clone(alloc)?;
        Ok(Some((rest, removed)))
    }

    /// The same as `remove_column`. Fails only for want of memory.
    pub fn remove_column_owned(
        &self,
        alloc: Global,
        name: &str,
    ) -> Result<Option<(StructArray, ArrayRef)>, VortexError>
        ensures columns { Gives result (λ found. found ≡ removed self.now name.now) }
        ensures rows { IfOk result (λ found. IfSome found (λ pair. rows pair.0 ≡ without_column name.now (rows self.now))) }
        ensures kind { IfOk result (λ found. IfSome found (λ pair. kind_of pair.0 ≡ kind_without_column name.now (kind_of self.now))) }
    {
        self.remove_column(alloc, name)
    }
}

// The names, shared, and one more.
fn names_and(alloc: Global, names: &FieldNames, name: &str) -> Result<FieldNames, VortexError>
    ensures { Gives result (λ more. more ≡ names.now ++ name.now ∷ []) }
{
    let mut more = Vec::with_capacity(alloc, names.len().saturating_add(1))?;
    for i in 0..names.len() {
        more.push(names.get(i).try_clone(alloc)?)?;
    }
    more.push(FieldName::try_new(alloc, name)?)?;
    FieldNames::from_names(alloc, more)
}

// The columns, shared, and one more.
fn columns_and(
    alloc: Global,
    columns: &[ArrayRef],
    column: ArrayRef,
) -> Result<Vec<ArrayRef>, VortexError>
    ensures { Gives result (λ more. more.items ≡ columns.now ++ column ∷ []) }
{
    let mut more = Vec::with_capacity(alloc, columns.len() + 1)?;
    share_columns(alloc, columns, &mut more)?;
    more.push(column)?;
    Ok(more)
}

// The columns without the one at a place, shared. Asks that there is one.
fn columns_without(
    alloc: Global,
    columns: &[ArrayRef],
    place: usize,
) -> Result<Vec<ArrayRef>, VortexError>
    requires { place < length columns.now }
    ensures { Gives result (λ rest. rest.items ≡ remove columns.now place) }
{
    let mut rest = Vec::with_capacity(alloc, columns.len())?;
    share_columns(alloc, &columns[..place], &mut rest)?;
    share_columns(alloc, &columns[place + 1..], &mut rest)?;
    Ok(rest)
}

// The first column of each of these names, shared, of columns under names. Asks as many of both.
fn columns_named(
    alloc: Global,
    known: &FieldNames,
    columns: &[ArrayRef],
    names: &[FieldName],
) -> Result<Vec<ArrayRef>, VortexError>
    requires { length known.now ≡ length columns.now }
    ensures found { IfOk result (λ found. map Some found.items
        ≡ map (λ name. column_at_place columns.now (place_of_name known.now name)) names.now) }
    ensures refuses { Refuses result (names_fault known.now names.now) }
{
    let mut found = Vec::with_capacity(alloc, names.len())?;
    for name in names {
        let place = known.find(name.as_str());
        let place = place.ok_or(VortexError::UnknownField)?;
        found.push(columns[place].try_clone(alloc)?)?;
    }
    Ok(found)
}

// The same names, shared.
fn shared_names(alloc: Global, names: &[FieldName]) -> Result<FieldNames, VortexError>
    ensures { Gives result (λ shared. shared ≡ names.now) }
{
    let mut shared = Vec::with_capacity(alloc, names.len())?;
    for name in names {
        shared.push(name.try_clone(alloc)?)?;
    }
    FieldNames::from_names(alloc, shared)
}

// The same columns, shared.
pub(crate) fn shared_columns(
    alloc: Global,
    columns: &[ArrayRef],
) -> Result<Vec<ArrayRef>, VortexError>
    ensures { Gives result (λ shared. shared.items ≡ columns.now) }
{
    let mut shared = Vec::with_capacity(alloc, columns.len())?;
    share_columns(alloc, columns, &mut shared)?;
    Ok(shared)
}

// Adds these columns at the end, shared.
fn share_columns(
    alloc: Global,
    columns: &[ArrayRef],
    list: &mut Vec<ArrayRef>,
) -> Result<(), VortexError>
    ensures { Gives result (λ _. list.new.items ≡ list.old.items ++ columns.now) }
{
    for column in columns {
        list.push(column.try_clone(alloc)?)?;
    }
    Ok(())
}
