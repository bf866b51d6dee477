//! Columns as an encoder makes them smaller.

ghost use Rattle.std.specs.Prelude.{◌≡◌, ◌↔◌, Bool, List, true, false, IfOk, IsTrue, IsOkUnless};
ghost use Rattle.vx_base.specs.Kinds.{integers, integer_type, is_nullable_kind};
ghost use Rattle.vx_base.specs.Refusals.{Refuses};
ghost use Rattle.vx_base.specs.declared.errors.VortexError.TheVariants.{Memory};
ghost use Rattle.vx_tree.specs.Formed.{ReferencesAll};
ghost use Rattle.vx_tree.specs.Meaning.{kind_of, rows};
ghost use Rattle.vx_tree.specs.Operations.{filtered, picks, positions};
ghost use Rattle.vx_leaves.specs.Dictionaries.{MarksReferenced, codes_in, values_in, referenced_flag, dictionary_fault};
ghost use Rattle.vx_leaves.specs.Leaves.{is_primitive};
ghost use Rattle.vx_leaves.specs.Narrow.{valid_numbers, narrowed_type, IsLeastWidth};
ghost use Rattle.vx_leaves.specs.Scan.{EndsScan};

use std::alloc::Global;
use vx_base::{Mask, VortexError, first_fault_is_least};
use vx_leaves::{DictArray, DictArrayExt, PrimitiveArray, PrimitiveArrayExt};
use vx_tree::row_laws::rows_stand_at_their_places;
use vx_tree::{ArrayRef, TypedArray};

/// A column in fewer bytes: numbers in the narrowest type that has those of the valid rows, so that
/// no integer type of fewer bytes has them all. A column of another layout stays as it is. Fails
/// only for want of memory.
pub fn narrowed_column(alloc: Global, column: ArrayRef) -> Result<ArrayRef, VortexError>
    ensures rows { IfOk result (λ a. rows a ≡ rows column) }
    ensures least { is_primitive column ≡ true → IfOk result (λ a.
        IsLeastWidth (integer_type (kind_of a)) (valid_numbers column)) }
    ensures kind { is_primitive column ≡ true → IfOk result (λ a. kind_of a
        ≡ integers (narrowed_type (integer_type (kind_of column)) (valid_numbers column))
        (is_nullable_kind (kind_of column))) }
    ensures other { is_primitive column ≡ false → IfOk result (λ a. a ≡ column) }
    ensures err { IsOkUnless result Memory }
{
    match PrimitiveArray::try_from_array(column) {
        Ok(numbers) => Ok(numbers.narrow(alloc)?.into_array()),
        Err(column) => Ok(column),
    }
}

/// A dictionary of these codes and values, which tells whether each of its values is in use: its
/// flag is set exactly where every value is named by some valid code. Refuses `MismatchedTypes`
/// where the codes are no integers, then at the first faulty valid code `Negative` with its row, or
/// `OutOfBounds` with the code.
pub fn flagged_dictionary(
    alloc: Global,
    codes: ArrayRef,
    values: ArrayRef,
) -> Result<DictArray, VortexError>
    ensures codes { IfOk result (λ d. codes_in d ≡ codes) }
    ensures values { IfOk result (λ d. values_in d ≡ values) }
    ensures rows { IfOk result (λ d. rows d ≡ picks (rows values) (positions (rows codes))) }
    ensures flag { IfOk result (λ d. IsTrue (referenced_flag d) ↔ ReferencesAll codes values) }
    ensures refuses { Refuses result (dictionary_fault codes values) }
{
    first_fault_is_least();
    rows_stand_at_their_places();
    let dictionary = DictArray::try_new(alloc, codes, values)?;
    let in_use = dictionary.are_all_values_referenced(alloc)?;
    Ok(dictionary.set_all_values_referenced(alloc, in_use)?)
}

/// The values of a dictionary that some valid code names, in their order, and the end of the scan
/// that tells them: where the first of many codes name all values, it ends early. Of the codes 0, 2,
/// 0 into the values 5, 6, 9 these are 5, 9. Fails only for want of memory.
pub fn values_in_use(
    alloc: Global,
    dictionary: &DictArray,
) -> Result<(ArrayRef, usize), VortexError>
    ensures values { IfOk result (λ used. (marks : List Bool)
        × MarksReferenced dictionary.now true marks
        × (rows used.0 ≡ filtered marks (rows (values_in dictionary.now)))) }
    ensures kind { IfOk result (λ used. kind_of used.0 ≡ kind_of (values_in dictionary.now)) }
    ensures read { IfOk result (λ used. EndsScan dictionary.now used.1) }
    ensures err { IsOkUnless result Memory }
{
    let (marks, read) = dictionary.referenced_values_scan(alloc, true)?;
    let used = Mask::from_buffer(alloc, marks)?;
    let values = dictionary.values().filter(alloc, &used)?;
    Ok((values, read))
}
