//! Laws of arrays and of their validities: functions that do nothing, and whose contract is the law.

ghost use Rattle.std.specs.Prelude.{◌≡◌, ◌<◌, ◌≤◌, ◌-◌, ◌^◌, ℕ, Some, None};
ghost use Rattle.vx_base.specs.Kinds.{Fits};
ghost use Rattle.vx_base.specs.Refusals.{out_of_bounds, negative, overflow, mismatched_types};
ghost use Rattle.vx_tree.specs.Fitting.{AllFormed, AsManyAreAsFaulty, FewerCanBePlain, RowsFit};
ghost use Rattle.vx_tree.specs.Faults.{slice_fault, take_fault, take_overflow};
ghost use Rattle.vx_tree.specs.Meaning.{tree_len, kind_of, row_at, rows};
ghost use Rattle.vx_tree.specs.Operations.{picks};
ghost use Rattle.vx_tree.specs.Composed.{SlicesCompose, SelectionsCompose, KeepsValues};
ghost use Rattle.vx_tree.specs.Shapes.{State, sliced_shape, selected_shape, nulled_shape, taken_shape};
ghost use Rattle.vx_tree.specs.Worked.{signed_numbers, signed_rows, some_booleans, some_boolean_rows, all_null};
ghost use Rattle.vx_tree.specs.Worked.{all_null_rows, same_pair, same_pair_rows, dictionary_with_nulls};
ghost use Rattle.vx_tree.specs.Worked.{dictionary_rows, empty_lists, empty_list_rows, pairs, pair_rows};
ghost use Rattle.vx_tree.specs.Worked.{overlapping_lists, overlapping_rows, last_none_first, taken_rows};
ghost use Rattle.vx_tree.specs.Worked.{some_records, record_rows, some_texts, text_rows, some_bytes, bytes_rows};
ghost use Rattle.vx_tree.specs.Worked.{faulty_indices, negative_indices, null_indices};

use crate::array::ArrayRef;
pub use crate::validity::{
    and_associates, and_commutes, and_has_a_unit, and_repeats, trivial_casts_are_casts,
};

/// The rows of every array fit its data type.
#[tactic(auto, using(crate::proofs::Fitting::rows_fit))]
pub fn rows_fit_their_dtype(array: &ArrayRef)
    ensures { (i : ℕ) → i < tree_len array.now → Fits (kind_of array.now) (row_at array.now i) }
{
    array.known();
}

/// Of an array that is well formed at every depth, each row fits the array's data type.
pub fn rows_fit_their_kind()
    ensures { RowsFit }
{}

/// No more rows than an array has need more elements than can be counted.
pub fn fewer_rows_are_countable(array: &ArrayRef)
    ensures { (n : ℕ) → n ≤ tree_len array.now → take_overflow array.now n ≡ None }
{
    array.known();
}

/// Where an array that is well formed at every depth can be made plain, so can as many rows in its
/// layouts, and fewer: those of a part of it, and those that a mask keeps.
pub fn fewer_rows_can_be_plain()
    ensures as_many { AsManyAreAsFaulty }
    ensures fewer { FewerCanBePlain }
{}

/// Rows of a part that lie within it are a part of the array.
pub fn slices_of_slices_are_slices()
    ensures { SlicesCompose }
{}

/// Rows that are picked of picked rows are the rows at the positions that are picked.
pub fn selections_of_selections_are_selections()
    ensures { SelectionsCompose }
{}

/// A dictionary that is sliced, filtered, masked or taken from is a dictionary of the same values.
pub fn dictionaries_keep_their_values()
    ensures sliced { KeepsValues sliced_shape }
    ensures selected { KeepsValues selected_shape }
    ensures nulled { (nulls : State) → KeepsValues (λ shape. nulled_shape shape nulls) }
    ensures taken { (indices : State) → KeepsValues (λ shape. taken_shape shape indices) }
{}

/// The rows of small arrays of each layout are those that were worked by hand.
pub fn rows_of_worked_arrays()
    ensures numbers { rows signed_numbers ≡ signed_rows }
    ensures booleans { rows some_booleans ≡ some_boolean_rows }
    ensures nulls { rows all_null ≡ all_null_rows }
    ensures constant { rows same_pair ≡ same_pair_rows }
    ensures dictionary { rows dictionary_with_nulls ≡ dictionary_rows }
    ensures empty_lists { rows empty_lists ≡ empty_list_rows }
    ensures fixed_lists { rows pairs ≡ pair_rows }
    ensures list_view { rows overlapping_lists ≡ overlapping_rows }
    ensures records { rows some_records ≡ record_rows }
    ensures texts { rows some_texts ≡ text_rows }
    ensures bytes { rows some_bytes ≡ bytes_rows }
{}

/// Such arrays are well formed at every depth, so that the law of their rows is of some use.
pub fn worked_arrays_are_formed()
    ensures numbers { AllFormed signed_numbers }
    ensures booleans { AllFormed some_booleans }
    ensures nulls { AllFormed all_null }
    ensures constant { AllFormed same_pair }
    ensures dictionary { AllFormed dictionary_with_nulls }
    ensures empty_lists { AllFormed empty_lists }
    ensures fixed_lists { AllFormed pairs }
    ensures list_view { AllFormed overlapping_lists }
    ensures records { AllFormed some_records }
    ensures texts { AllFormed some_texts }
    ensures bytes { AllFormed some_bytes }
{}

/// The rows that small arrays are to give when taken, and the first fault of those that may not
/// be.
pub fn faults_of_worked_arrays()
    ensures taken { picks (rows overlapping_lists) last_none_first ≡ taken_rows }
    ensures past_the_end { take_fault overlapping_lists faulty_indices ≡ Some (out_of_bounds 5) }
    ensures negative_index { take_fault overlapping_lists negative_indices ≡ Some (negative 1) }
    ensures null_index { take_fault overlapping_lists null_indices ≡ None }
    ensures no_integers { take_fault overlapping_lists some_booleans ≡ Some mismatched_types }
    ensures no_overflow { take_overflow pairs (2 ^ 63 - 1) ≡ None }
    ensures overflow { take_overflow pairs (2 ^ 63) ≡ Some overflow }
    ensures end_first { slice_fault 3 5 4 ≡ Some (out_of_bounds 4) }
    ensures start { slice_fault 3 3 2 ≡ Some (out_of_bounds 3) }
    ensures empty_slice { slice_fault 3 3 3 ≡ None }
{}
