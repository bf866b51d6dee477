// What records tell of their columns, their children and their parts.

ghost use Rattle.std.specs.Prelude.{◌≡◌, ◌<◌, length, slice_get, Some, IfOk};
ghost use Rattle.std.specs.Option.{option_map};
ghost use Rattle.vx_base.specs.DTypes.{is_nullable, field_names, field_kinds};
ghost use Rattle.vx_base.specs.Refusals.{Gives, Tests};
ghost use Rattle.vx_tree.specs.Meaning.{tree_len, nullable, kinds_of, trees_from};
ghost use Rattle.vx_tree.specs.Parts.{valid_of};
ghost use Rattle.vx_tree.specs.Slots.{validity_slot};
ghost use Rattle.vx_tree.specs.Slots.{validity_of};
ghost use Rattle.vx_structs.specs.Structs.Faults.{unknown_fault};
ghost use Rattle.vx_structs.specs.Structs.{names_of, columns_of, column_named, records_by};
ghost use Rattle.vx_base.specs.Fields.{place_of_name};

use crate::array::StructArray;
use crate::columns::shared_columns;
use crate::unmasked_fields::UnmaskedFields;
use std::alloc::Global;
use vx_base::{FieldNames, Nullability, StructFields, VortexError};
use vx_tree::{ArrayRef, TypedArray, Validity};

/// The children of records.
#[derive(Drop)]
pub struct StructSlots {
    /// None where no row is null, a constant false where every row is, else the array that tells.
    pub validity: Option<ArrayRef>,
    /// The columns, in order.
    pub fields: Vec<ArrayRef>,
}

/// The parts of records.
#[derive(Drop)]
pub struct StructDataParts {
    /// The names and data types of the columns, in order.
    pub struct_fields: StructFields,
    /// The columns, in order.
    pub fields: Vec<ArrayRef>,
    /// Which rows are valid.
    pub validity: Validity,
}

/// What records tell of their columns. A column is unmasked: it has a row also where the record is
/// null.
pub trait StructArrayExt: TypedArray {
    /// Whether null may stand among the records.
    fn nullability(&self) -> Nullability
        ensures { is_nullable result ≡ nullable (validity_of (Self.as_tree self.now)) };

    /// The names of the columns, in order.
    fn names(&self) -> &FieldNames
        ensures { result.now ≡ names_of (Self.as_tree self.now) };

    /// Which rows are valid, an array shared. Fails only for want of memory.
    fn struct_validity(&self, alloc: Global) -> Result<Validity, VortexError>
        ensures { Gives result (λ v. valid_of v ≡ validity_of (Self.as_tree self.now)) };

    /// The names and data types of the columns, in order.
    fn struct_fields(&self) -> &StructFields
        ensures names { field_names result.now ≡ names_of (Self.as_tree self.now) }
        ensures kinds { field_kinds result.now ≡ kinds_of (trees_from (columns_of (Self.as_tree self.now))) };

    /// The columns, in order.
    fn fields(&self) -> &[ArrayRef]
        ensures { result.now ≡ columns_of (Self.as_tree self.now) };

    /// The columns, in order, one after another.
    fn iter_unmasked_fields(&self) -> UnmaskedFields<'_>
        ensures { result ≡ columns_of (Self.as_tree self.now) };

    /// The column at place `i`, counted from 0, if there is one.
    fn unmasked_field_opt(&self, i: usize) -> Option<&ArrayRef>
        ensures { option_map (λ a. a.now) result ≡ slice_get (columns_of (Self.as_tree self.now)) i };

    /// The column at place `i`, counted from 0. Asks that there is one.
    fn unmasked_field(&self, i: usize) -> &ArrayRef
        requires { i < length (columns_of (Self.as_tree self.now)) }
        ensures { slice_get (columns_of (Self.as_tree self.now)) i ≡ Some result.now };

    /// The first column of this name, if there is one.
    fn unmasked_field_by_name_opt(&self, name: &str) -> Option<&ArrayRef>
        ensures { option_map (λ a. a.now) result ≡ column_named (Self.as_tree self.now) name.now };

    /// The first column of this name. Refuses `UnknownField` where there is none.
    fn unmasked_field_by_name(&self, name: &str) -> Result<&ArrayRef, VortexError>
        ensures found { IfOk result (λ a. column_named (Self.as_tree self.now) name.now ≡ Some a.now) }
        ensures tests { Tests result (unknown_fault (place_of_name (names_of (Self.as_tree self.now)) name.now)) };
}

impl StructArrayExt for StructArray {
    fn nullability(&self) -> Nullability {
        self.parts().validity.nullability()
    }

    fn names(&self) -> &FieldNames {
        self.parts().names
    }

    fn struct_validity(&self, alloc: Global) -> Result<Validity, VortexError> {
        self.parts().validity.try_clone(alloc)
    }

    fn struct_fields(&self) -> &StructFields {
        self.as_array().dtype().as_struct_fields()
    }

    fn fields(&self) -> &[ArrayRef] {
        self.parts().columns
    }

    fn iter_unmasked_fields(&self) -> UnmaskedFields<'_> {
        UnmaskedFields::new(self.fields())
    }

    fn unmasked_field_opt(&self, i: usize) -> Option<&ArrayRef> {
        self.fields().get(i)
    }

    fn unmasked_field(&self, i: usize) -> &ArrayRef {
        &self.fields()[i]
    }

    fn unmasked_field_by_name_opt(&self, name: &str) -> Option<&ArrayRef> {
        let parts = self.parts();
        let place = parts.names.find(name)?;
        parts.columns.get(place)
    }

    fn unmasked_field_by_name(&self, name: &str) -> Result<&ArrayRef, VortexError> {
        let parts = self.parts();
        let place = parts.names.find(name).ok_or(VortexError::UnknownField)?;
        Ok(self.unmasked_field(place))
    }
}

impl StructArray {
    /// The children, shared. Fails only for want of memory.
    pub fn slots(&self, alloc: Global) -> Result<StructSlots, VortexError>
        ensures columns { Gives result (λ s. s.fields.items ≡ columns_of self.now) }
        ensures validity { Gives result (λ s.
            s.validity ≡ validity_slot (validity_of self.now) (tree_len self.now)) }
    {
        let parts = self.parts();
        let validity = parts.validity.to_slot(alloc, parts.len)?;
        let fields = shared_columns(alloc, parts.columns)?;
        Ok(StructSlots { validity, fields })
    }

    /// The parts, shared: how many records there are is told by the columns, if there are any.
    /// Fails only for want of memory.
    pub fn into_data_parts(self, alloc: Global) -> Result<StructDataParts, VortexError>
        ensures parts { Gives result (λ p. records_by (field_names p.struct_fields) p.fields.items
            (valid_of p.validity) (tree_len self) ≡ self) }
        ensures kinds { Gives result (λ p. field_kinds p.struct_fields ≡ kinds_of (trees_from p.fields.items)) }
    {
        let parts = self.parts();
        let struct_fields = self.struct_fields().try_clone(alloc)?;
        let validity = parts.validity.try_clone(alloc)?;
        let fields = shared_columns(alloc, parts.columns)?;
        Ok(StructDataParts {
            struct_fields,
            fields,
            validity,
        })
    }
}
