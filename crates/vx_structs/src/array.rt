// Records, by columns.

ghost use Rattle.std.specs.Prelude.{◌≡◌, List, [], length, IfOk, IfErr};
ghost use Rattle.std.specs.Iterator.{IsFinite, Drains};
ghost use Rattle.vx_base.specs.DTypes.{field_names, field_kinds};
ghost use Rattle.vx_base.specs.Refusals.{Gives, Refuses};
ghost use Rattle.vx_tree.specs.Formed.{WellFormed};
ghost use Rattle.vx_tree.specs.Meaning.{trees_from};
ghost use Rattle.vx_tree.specs.Parts.{valid_of};
ghost use Rattle.vx_tree.specs.Tree.{Tree, structure, non_nullable};
ghost use Rattle.vx_structs.specs.Structs.{records_by, columns_of, is_struct};
ghost use Rattle.vx_structs.specs.Structs.Faults.{columns_fault, struct_fault, typed_struct_fault};
ghost use Rattle.vx_structs.specs.Structs.Faults.{IsMadeOf, AreFaulty};

use crate::checks::{check_columns, check_count, check_typed_parts};
use std::alloc::Global;
use std::marker::Model;
use vx_base::{FieldNames, StructFields, VortexError};
use vx_tree::{ArrayRef, Layout, TypedArray, Validity, collect_items};

/// A column of records: row `i` is the record of the rows `i` of the columns, each under its name,
/// or null. A name may stand more than once; what goes by name finds the first. The columns of a
/// null row have a row there too.
#[derive(Drop)]
pub struct StructArray {
    array: ArrayRef,
}

impl Model for StructArray {
    ghost use Rattle.std.specs.Prelude.{◌≡◌, true};
    ghost use Rattle.vx_tree.specs.Tree.{Tree, tree_code};
    ghost use Rattle.vx_structs.specs.Structs.{is_struct};

    ghost Value = { Tree };

    ghost coded = { tree_code };

    ghost view = { λ a. a.array };

    ghost invariant = { λ a. is_struct a.array ≡ true };
}

// The parts of records, lent.
#[derive(Drop)]
pub(crate) struct StructParts<'a> {
    pub names: &'a FieldNames,
    pub columns: &'a [ArrayRef],
    pub validity: &'a Validity,
    pub len: usize,
}

impl TypedArray for StructArray {
    ghost as_tree = { λ a. a };

    ghost has_layout = { is_struct };

    fn is_layout(layout: &Layout) -> bool {
        matches!(layout, Layout::Struct { .. })
    }

    fn from_array(array: ArrayRef) -> Self {
        StructArray { array }
    }

    fn as_array(&self) -> &ArrayRef {
        &self.array
    }

    fn into_array(self) -> ArrayRef {
        let StructArray { array } = self;
        array
    }
}

impl StructArray {
    /// Records of these columns, in order, each under its name: the columns `[1, 2]` and
    /// `[true, false]` under the names a and b are the records `{a:1,b:true}`, `{a:2,b:false}`.
    /// Asks that the iterator ends, and what `try_new` tests. Fails only for want of memory.
    pub fn new<I: Iterator<Item = ArrayRef> + Drop>(
        alloc: Global,
        names: FieldNames,
        columns: I,
        len: usize,
        validity: Validity,
    ) -> Result<StructArray, VortexError>
        requires can { I.can_next columns }
        requires ends { IsFinite (I.remaining columns) }
        requires formed { (all : List Tree) → Drains I.next_gives columns all
            → WellFormed (records_by names all (valid_of validity) len) }
        ensures { Gives result (λ a. (all : List Tree) × Drains I.next_gives columns all
            × (a ≡ records_by names all (valid_of validity) len)) }
    {
        let all = collect_items(alloc, columns)?;
        let array = ArrayRef::structure(alloc, names, all, validity, len)?;
        Ok(StructArray { array })
    }

    /// Records of these columns, in order, each under its name. The size hint is not looked at.
    /// Asks that the iterator ends.
    ///
    /// Refuses `LengthMismatch` where there are not as many columns as names; `MismatchedTypes`
    /// where the validity is an array but not of plain booleans; `LengthMismatch` where it has not
    /// `len` rows, then where a column has not.
    pub fn try_new<I: Iterator<Item = ArrayRef> + Drop>(
        alloc: Global,
        names: FieldNames,
        columns: I,
        len: usize,
        validity: Validity,
    ) -> Result<StructArray, VortexError>
        requires can { I.can_next columns }
        requires ends { IsFinite (I.remaining columns) }
        ensures ok { IfOk result (IsMadeOf I.next_gives columns
            (λ all. struct_fault names all (valid_of validity) len)
            (λ all a. a ≡ records_by names all (valid_of validity) len)) }
        ensures err { IfErr result (AreFaulty I.next_gives columns
            (λ all. struct_fault names all (valid_of validity) len)) }
    {
        let columns = collect_items(alloc, columns)?;
        check_count(names.len(), &columns)?;
        StructArray::of_columns(alloc, names, columns, len, validity)
    }

    // Records of these columns, in order, each under its name. Asks as many columns as names.
    pub(crate) fn of_columns(
        alloc: Global,
        names: FieldNames,
        columns: Vec<ArrayRef>,
        len: usize,
        validity: Validity,
    ) -> Result<StructArray, VortexError>
        requires { length names ≡ length columns.items }
        ensures parts { IfOk result (λ a. a ≡ records_by names columns.items (valid_of validity) len) }
        ensures refuses { Refuses result (columns_fault columns.items (valid_of validity) len) }
    {
        validity.check(len)?;
        check_columns(&columns, len)?;
        let array = ArrayRef::structure(alloc, names, columns, validity, len)?;
        Ok(StructArray { array })
    }

    /// Records of these columns, in order, each under the name and of the data type at its place.
    /// The size hint is not looked at. Asks that the iterator ends.
    ///
    /// Refuses `LengthMismatch` where there are not as many columns as fields; `MismatchedTypes`
    /// where the validity is an array but not of plain booleans; `LengthMismatch` where it has not
    /// `len` rows; then at the first faulty column `MismatchedTypes` where it is of another data
    /// type, or `LengthMismatch` where it has not `len` rows.
    pub fn try_new_with_dtype<I: Iterator<Item = ArrayRef> + Drop>(
        alloc: Global,
        columns: I,
        fields: StructFields,
        len: usize,
        validity: Validity,
    ) -> Result<StructArray, VortexError>
        requires can { I.can_next columns }
        requires ends { IsFinite (I.remaining columns) }
        ensures ok { IfOk result (IsMadeOf I.next_gives columns
            (λ all. typed_struct_fault (field_names fields) (field_kinds fields) all (valid_of validity) len)
            (λ all a. a ≡ records_by (field_names fields) all (valid_of validity) len)) }
        ensures err { IfErr result (AreFaulty I.next_gives columns
            (λ all. typed_struct_fault (field_names fields) (field_kinds fields) all (valid_of validity) len)) }
    {
        let columns = collect_items(alloc, columns)?;
        StructArray::of_typed_columns(alloc, columns, &fields, len, validity)
    }

    // Records of these columns, in order, each under the name and of the data type at its place.
    fn of_typed_columns(
        alloc: Global,
        columns: Vec<ArrayRef>,
        fields: &StructFields,
        len: usize,
        validity: Validity,
    ) -> Result<StructArray, VortexError>
        ensures parts { IfOk result (λ a. a ≡ records_by (field_names fields.now) columns.items (valid_of validity) len) }
        ensures refuses { Refuses result
            (typed_struct_fault (field_names fields.now) (field_kinds fields.now) columns.items (valid_of validity) len) }
    {
        check_typed_parts(fields, &columns, &validity, len)?;
        let names = fields.names().try_clone(alloc)?;
        let array = ArrayRef::structure(alloc, names, columns, validity, len)?;
        Ok(StructArray { array })
    }

    /// So many records that have no field: `{}`, `{}`, and so on, none of them null. Fails only for
    /// want of memory.
    pub fn new_fieldless_with_len(alloc: Global, len: usize) -> Result<StructArray, VortexError>
        ensures { Gives result (λ a. a ≡ records_by [] [] non_nullable len) }
    {
        let names = FieldNames::try_new(alloc, &[])?;
        let columns = Vec::new(alloc);
        let array = ArrayRef::structure(alloc, names, columns, Validity::NonNullable, len)?;
        Ok(StructArray { array })
    }

    // The parts, which are well formed.
    pub(crate) fn parts(&self) -> StructParts<'_>
        ensures same { self.now ≡ structure result.names.now (trees_from result.columns.now)
            (valid_of result.validity.now) result.len }
        ensures formed { WellFormed (structure result.names.now (trees_from result.columns.now)
            (valid_of result.validity.now) result.len) }
        ensures columns { columns_of self.now ≡ result.columns.now }
    {
        match self.array.layout() {
            Layout::Struct {
                names,
                columns,
                validity,
                len,
            } => StructParts {
                names,
                columns,
                validity,
                len: *len,
            },
            _ => unreachable!(),
        }
    }
}
