// Records of columns that come with their names.

ghost use Rattle.std.specs.Prelude.{◌≡◌, length, map, IfOk, IfErr};
ghost use Rattle.std.specs.Iterator.{IsFinite};
ghost use Rattle.vx_base.specs.Refusals.{Refuses};
ghost use Rattle.vx_tree.specs.Parts.{valid_of};
ghost use Rattle.vx_tree.specs.Tree.{non_nullable};
ghost use Rattle.vx_structs.specs.Structs.Faults.{first_fault_of, IsMadeOf, AreFaulty};
ghost use Rattle.vx_structs.specs.Structs.{first_len, named_columns, records_by};

use crate::array::StructArray;
use std::alloc::Global;
use vx_base::{FieldNames, VortexError};
use vx_tree::{ArrayRef, Validity};

impl StructArray {
    /// Records of these columns, which are shared, each under the name beside it, none of them
    /// null. Refuses `EmptyInput` where no column is given, then `LengthMismatch` where one has not
    /// as many rows as the first.
    pub fn from_fields(
        alloc: Global,
        fields: &[(&str, ArrayRef)],
    ) -> Result<StructArray, VortexError>
        ensures parts { IfOk result (λ a. a ≡ named_columns fields.now non_nullable) }
        ensures refuses { Refuses result (first_fault_of (map (λ field. field.1) fields.now) non_nullable) }
    {
        let mut columns = Vec::with_capacity(alloc, fields.len())?;
        let mut names = Vec::with_capacity(alloc, fields.len())?;
        for (name, column) in fields {
            names.push(*name)?;
            columns.push(column.try_clone(alloc)?)?;
        }
        StructArray::of_named(alloc, &names, columns, Validity::NonNullable)
    }

    /// Records of these columns, each under the name beside it, none of them null. The size hint is
    /// not looked at. Asks that the iterator ends. Refuses as `from_fields` does.
    pub fn try_from_iter<'a, I: Iterator<Item = (&'a str, ArrayRef)> + Drop>(
        alloc: Global,
        fields: I,
    ) -> Result<StructArray, VortexError>
        requires can { I.can_next fields }
        requires ends { IsFinite (I.remaining fields) }
        ensures ok { IfOk result (IsMadeOf I.next_gives fields
            (λ all. first_fault_of (map (λ field. field.1) all) non_nullable)
            (λ all a. a ≡ named_columns all non_nullable)) }
        ensures err { IfErr result (AreFaulty I.next_gives fields
            (λ all. first_fault_of (map (λ field. field.1) all) non_nullable)) }
    {
        StructArray::try_from_iter_with_validity(alloc, fields, Validity::NonNullable)
    }

    /// Records of these columns, each under the name beside it, null where the validity is false.
    /// The size hint is not looked at. Asks that the iterator ends.
    ///
    /// Refuses `EmptyInput` where no column is given; `MismatchedTypes` where the validity is an
    /// array but not of plain booleans; `LengthMismatch` where it has not as many rows as the first
    /// column, then where a column has not.
    pub fn try_from_iter_with_validity<'a, I: Iterator<Item = (&'a str, ArrayRef)> + Drop>(
        alloc: Global,
        fields: I,
        validity: Validity,
    ) -> Result<StructArray, VortexError>
        requires can { I.can_next fields }
        requires ends { IsFinite (I.remaining fields) }
        ensures ok { IfOk result (IsMadeOf I.next_gives fields
            (λ all. first_fault_of (map (λ field. field.1) all) (valid_of validity))
            (λ all a. a ≡ named_columns all (valid_of validity))) }
        ensures err { IfErr result (AreFaulty I.next_gives fields
            (λ all. first_fault_of (map (λ field. field.1) all) (valid_of validity))) }
    {
        let mut columns = Vec::new(alloc);
        let mut names = Vec::new(alloc);
        for (name, column) in fields {
            names.push(name)?;
            columns.push(column)?;
        }
        StructArray::of_named(alloc, &names, columns, validity)
    }

    // Records of these columns, each under the name at its place. Asks as many names as columns.
    fn of_named(
        alloc: Global,
        names: &[&str],
        columns: Vec<ArrayRef>,
        validity: Validity,
    ) -> Result<StructArray, VortexError>
        requires { length names.now ≡ length columns.items }
        ensures parts { IfOk result (λ a.
            a ≡ records_by (map (λ name. name.now) names.now) columns.items (valid_of validity) (first_len columns.items)) }
        ensures refuses { Refuses result (first_fault_of columns.items (valid_of validity)) }
    {
        let Some(first) = columns.first() else {
            return Err(VortexError::EmptyInput);
        };
        let len = first.len();
        let names = FieldNames::try_new(alloc, names)?;
        StructArray::of_columns(alloc, names, columns, len, validity)
    }
}
