// The column of a name, null where its records are.

ghost use Rattle.std.specs.Prelude.{◌≡◌, IfOk};
ghost use Rattle.vx_base.specs.Fields.{place_of_name};
ghost use Rattle.vx_base.specs.Refusals.{Refuses};
ghost use Rattle.vx_tree.specs.Meaning.{kind_of, rows};
ghost use Rattle.vx_tree.specs.Shapes.{tree_state};
ghost use Rattle.vx_tree.specs.Validities.{is_full_state};
ghost use Rattle.vx_structs.specs.Structs.Faults.{unknown_fault};
ghost use Rattle.vx_structs.specs.Structs.Records.{field_kind, field_rows};
ghost use Rattle.vx_structs.specs.Structs.{names_of, IsField};

use crate::array::StructArray;
use crate::ext::StructArrayExt;
use std::alloc::Global;
use vx_base::VortexError;
use vx_tree::ArrayRef;

impl StructArray {
    /// The first column of this name, null also where the record is null: where by the state of
    /// their validity no record is null the column is shared as it is; else it becomes nullable, as
    /// `push_validity_into_children` makes it.
    /// `unmasked_field_by_name` leaves a row in the place of a null record: of the records
    /// `{a:1}`, null, whose column a has the rows 1 and 9, it lends `[1,9]`, and this call gives
    /// `[1,null]`. Refuses `UnknownField` where no field has the name.
    pub fn field(&self, alloc: Global, name: &str) -> Result<ArrayRef, VortexError>
        ensures column { IfOk result (IsField self.now name.now) }
        ensures rows { IfOk result (λ a. rows a ≡ field_rows name.now (rows self.now)) }
        ensures kind { IfOk result (λ a. kind_of a ≡ field_kind (is_full_state (tree_state self.now)) name.now (kind_of self.now)) }
        ensures refuses { Refuses result (unknown_fault (place_of_name (names_of self.now) name.now)) }
    {
        let column = self.unmasked_field_by_name(name)?;
        let parts = self.parts();
        if parts.validity.definitely_no_nulls() {
            return Ok(column.try_clone(alloc)?);
        }
        Ok(column.nulled(alloc, parts.validity)?)
    }
}
