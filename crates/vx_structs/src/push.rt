// Nulls of records that are pushed into their columns.

ghost use Rattle.std.specs.Prelude.{◌≡◌};
ghost use Rattle.std.specs.List.{All, AllZip};
ghost use Rattle.vx_base.specs.Refusals.{Gives};
ghost use Rattle.vx_tree.specs.Formed.{ValidFits};
ghost use Rattle.vx_tree.specs.Meaning.{tree_len};
ghost use Rattle.vx_tree.specs.Operations.{IsNulled};
ghost use Rattle.vx_tree.specs.Parts.{valid_of};
ghost use Rattle.vx_tree.specs.Slots.{validity_of};
ghost use Rattle.vx_structs.specs.Structs.{columns_of, IsPushed, ArePushed, pushed_validity};

use crate::array::StructArray;
use crate::columns::shared_columns;
use std::alloc::Global;
use vx_base::VortexError;
use vx_tree::{ArrayRef, TypedArray, Validity};

impl StructArray {
    /// The same records, whose columns are null where the records are: where by the state of their
    /// validity no record is null the columns stay; else each becomes nullable and null where the
    /// record is null. Where that state says that every record is null, so says the state of each
    /// column, unless an array tells its own nulls. With `remove` no record is null any more: a
    /// null one becomes a record of nulls. Of `{a:1}`, null the column a becomes `[1,null]`. Fails
    /// only for want of memory.
    pub fn push_validity_into_children(
        &self,
        alloc: Global,
        remove: bool,
    ) -> Result<StructArray, VortexError>
        ensures { Gives result (IsPushed self.now remove) }
    {
        let parts = self.parts();
        let columns = self.pushed_columns(alloc)?;
        let names = parts.names.try_clone(alloc)?;
        let validity = self.left_validity(alloc, remove)?;
        let array = ArrayRef::structure(alloc, names, columns, validity, parts.len)?;
        Ok(StructArray::from_array(array))
    }

    // The validity, or with the remove one under which no record may be null.
    fn left_validity(&self, alloc: Global, remove: bool) -> Result<Validity, VortexError>
        ensures { Gives result (λ v. valid_of v ≡ pushed_validity remove (validity_of self.now)) }
    {
        if remove {
            return Ok(Validity::NonNullable);
        }
        self.parts().validity.try_clone(alloc)
    }

    // The columns, null where the records are.
    fn pushed_columns(&self, alloc: Global) -> Result<Vec<ArrayRef>, VortexError>
        ensures { Gives result (λ made.
            ArePushed (validity_of self.now) (columns_of self.now) made.items) }
    {
        let parts = self.parts();
        if parts.validity.definitely_no_nulls() {
            return shared_columns(alloc, parts.columns);
        }
        nulled_columns(alloc, parts.columns, parts.validity)
    }
}

// The columns, null where the validity is not true. Asks that it is that of the rows of each column.
fn nulled_columns(
    alloc: Global,
    columns: &[ArrayRef],
    validity: &Validity,
) -> Result<Vec<ArrayRef>, VortexError>
    requires { All (λ c. ValidFits (valid_of validity.now) (tree_len c)) columns.now }
    ensures { Gives result (λ made. AllZip (λ c d. IsNulled c (valid_of validity.now) d) columns.now made.items) }
{
    let mut made = Vec::with_capacity(alloc, columns.len())?;
    for column in columns {
        made.push(column.nulled(alloc, validity)?)?;
    }
    Ok(made)
}
