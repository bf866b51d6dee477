// The tests of the columns that are given for records.

ghost use Rattle.std.specs.Prelude.{◌≡◌, length, IfOk};
ghost use Rattle.vx_base.specs.DTypes.{dtype_meaning, kinds_of, field_names, field_kinds};
ghost use Rattle.vx_base.specs.Refusals.{Tests};
ghost use Rattle.vx_tree.specs.Faults.{length_fault};
ghost use Rattle.vx_tree.specs.Formed.{WellFormed};
ghost use Rattle.vx_tree.specs.Meaning.{tree_len};
ghost use Rattle.vx_tree.specs.Parts.{valid_of};
ghost use Rattle.vx_structs.specs.Structs.Faults.{column_lens_fault, typed_column_fault, typed_columns_fault, typed_struct_fault};
ghost use Rattle.vx_structs.specs.Structs.{records_by};

use vx_base::{DType, StructFields, VortexError};
use vx_tree::{ArrayRef, Validity};

// Refuses another number of columns than this one.
pub(crate) fn check_count(expected: usize, columns: &[ArrayRef]) -> Result<(), VortexError>
    ensures { Tests result (length_fault expected (length columns.now)) }
{
    let found = columns.len();
    if found != expected {
        return Err(VortexError::LengthMismatch { expected, found });
    }
    Ok(())
}

// Refuses an array that has not `len` rows.
fn check_len(array: &ArrayRef, len: usize) -> Result<(), VortexError>
    ensures { Tests result (length_fault len (tree_len array.now)) }
{
    let found = array.len();
    if found != len {
        return Err(VortexError::LengthMismatch {
            expected: len,
            found,
        });
    }
    Ok(())
}

// Refuses the first column that has not `len` rows.
pub(crate) fn check_columns(columns: &[ArrayRef], len: usize) -> Result<(), VortexError>
    ensures { Tests result (column_lens_fault len columns.now) }
{
    for column in columns {
        check_len(column, len)?;
    }
    Ok(())
}

// Refuses parts that make no records of these fields, with their first fault.
pub(crate) fn check_typed_parts(
    fields: &StructFields,
    columns: &[ArrayRef],
    validity: &Validity,
    len: usize,
) -> Result<(), VortexError>
    ensures tests { Tests result
        (typed_struct_fault (field_names fields.now) (field_kinds fields.now) columns.now (valid_of validity.now) len) }
    ensures formed { IfOk result (λ _. WellFormed (records_by (field_names fields.now) columns.now (valid_of validity.now) len)) }
{
    check_count(fields.names().len(), columns)?;
    validity.check(len)?;
    check_typed_columns(columns, fields.fields(), len)
}

// Refuses the first column that is not of the data type at its place, or has not `len` rows. Asks
// as many data types as columns.
fn check_typed_columns(
    columns: &[ArrayRef],
    dtypes: &[DType],
    len: usize,
) -> Result<(), VortexError>
    requires { length dtypes.now ≡ length columns.now }
    ensures { Tests result (typed_columns_fault (kinds_of dtypes.now) len columns.now) }
{
    for place in 0..columns.len() {
        check_typed_column(&columns[place], &dtypes[place], len)?;
    }
    Ok(())
}

// Refuses a column of another data type, then one that has not `len` rows.
fn check_typed_column(column: &ArrayRef, dtype: &DType, len: usize) -> Result<(), VortexError>
    ensures { Tests result (typed_column_fault (dtype_meaning dtype.now) len column.now) }
{
    if column.dtype() != dtype {
        return Err(VortexError::MismatchedTypes);
    }
    check_len(column, len)
}
