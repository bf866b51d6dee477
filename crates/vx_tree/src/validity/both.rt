// Rows that are valid in both of two validities.

ghost use Rattle.std.specs.Prelude.{◌≡◌, ℕ, false, length, IfOk, IfSome};
ghost use Rattle.vx_base.specs.Bits.{both};
ghost use Rattle.vx_base.specs.Kinds.{booleans};
ghost use Rattle.vx_base.specs.Refusals.{Gives, Refuses};
ghost use Rattle.vx_tree.specs.Tree.{by_array};
ghost use Rattle.vx_tree.specs.Shapes.{state_of};
ghost use Rattle.vx_tree.specs.Meaning.{tree_len, kind_of};
ghost use Rattle.vx_tree.specs.Formed.{IsLenOf};
ghost use Rattle.vx_tree.specs.Parts.{valid_of};
ghost use Rattle.vx_tree.specs.Operations.{IsValidNulled};
ghost use Rattle.vx_tree.specs.Validities.{pair_of, both_pairs, both_states, and_fault, kept_array, IsAndOf};

use crate::array::{ArrayRef, Validity};
use crate::validity::{constant_truth, told_by};
use std::alloc::Global;
use vx_base::{BitBuffer, VortexError};

// What becomes of the bits after the last row, where two arrays are joined by their bits.
#[derive(Drop)]
enum LastByte {
    Kept,
    Cleared,
}

impl Validity {
    /// Valid where both are, nullable where either is: `NonNullable` of two of them, `AllInvalid`
    /// where either is, the array of an array and a state without nulls, `AllValid` of other
    /// states, and of two arrays an array. Refuses, of two arrays, `MismatchedTypes` where either
    /// is not one of plain booleans, then `LengthMismatch`.
    pub fn and(self, alloc: Global, rhs: Validity) -> Result<Validity, VortexError>
        ensures pair { IfOk result (λ w. (n : ℕ) → IsLenOf (valid_of self) n → IsLenOf (valid_of rhs) n
            → pair_of (valid_of w) n ≡ both_pairs (pair_of (valid_of self) n) (pair_of (valid_of rhs) n)) }
        ensures state { IfOk result (λ w. state_of (valid_of w) ≡ both_states (state_of (valid_of self)) (state_of (valid_of rhs))) }
        ensures array { IfOk result (λ w. IfSome (kept_array (valid_of self) (valid_of rhs)) (λ t. valid_of w ≡ by_array t)) }
        ensures refuses { Refuses result (and_fault (valid_of self) (valid_of rhs)) }
    {
        match self {
            Validity::NonNullable => Ok(rhs),
            Validity::AllValid => Ok(rhs.into_nullable()),
            Validity::AllInvalid => Ok(Validity::AllInvalid),
            Validity::Array(array) => array_and(alloc, array, rhs),
        }
    }
}

// `and` of an array and of any validity.
fn array_and(alloc: Global, array: ArrayRef, rhs: Validity) -> Result<Validity, VortexError>
    ensures pair { IfOk result (λ w. (n : ℕ) → IsLenOf (by_array array) n → IsLenOf (valid_of rhs) n
        → pair_of (valid_of w) n ≡ both_pairs (pair_of (by_array array) n) (pair_of (valid_of rhs) n)) }
    ensures state { IfOk result (λ w. state_of (valid_of w) ≡ both_states (state_of (by_array array)) (state_of (valid_of rhs))) }
    ensures array { IfOk result (λ w. IfSome (kept_array (by_array array) (valid_of rhs)) (λ t. valid_of w ≡ by_array t)) }
    ensures refuses { Refuses result (and_fault (by_array array) (valid_of rhs)) }
{
    match rhs {
        Validity::NonNullable => Ok(Validity::Array(array)),
        Validity::AllValid => Ok(Validity::Array(array)),
        Validity::AllInvalid => Ok(Validity::AllInvalid),
        Validity::Array(other) => arrays_and(alloc, &array, &other),
    }
}

// `and` of two arrays, with the last byte cleared.
#[tactic(auto, using(crate::proofs::Masks::plain_booleans))]
fn arrays_and(alloc: Global, array: &ArrayRef, other: &ArrayRef) -> Result<Validity, VortexError>
    ensures pair { IfOk result (λ w. (n : ℕ) → IsLenOf (by_array array.now) n → IsLenOf (by_array other.now) n
        → pair_of (valid_of w) n ≡ both_pairs (pair_of (by_array array.now) n) (pair_of (by_array other.now) n)) }
    ensures state { IfOk result (λ w. state_of (valid_of w)
        ≡ both_states (state_of (by_array array.now)) (state_of (by_array other.now))) }
    ensures refuses { Refuses result (and_fault (by_array array.now) (by_array other.now)) }
{
    if !array.dtype().is_plain_bool() {
        return Err(VortexError::MismatchedTypes);
    }
    if !other.dtype().is_plain_bool() {
        return Err(VortexError::MismatchedTypes);
    }
    let expected = array.len();
    let found = other.len();
    if found != expected {
        return Err(VortexError::LengthMismatch { expected, found });
    }
    let validity = bits_and(alloc, array, other, LastByte::Cleared)?;
    Ok(validity)
}

// The rows that are true in both of two arrays of plain booleans, as long as each other, with the
// last byte kept.
pub(crate) fn plain_and(
    alloc: Global,
    array: &ArrayRef,
    other: &ArrayRef,
) -> Result<Validity, VortexError>
    requires mine { kind_of array.now ≡ booleans false }
    requires theirs { kind_of other.now ≡ booleans false }
    requires same_len { tree_len other.now ≡ tree_len array.now }
    ensures { Gives result (λ w. IsValidNulled (by_array array.now) (by_array other.now) (tree_len array.now) (valid_of w)) }
{
    bits_and(alloc, array, other, LastByte::Kept)
}

// The rows that are true in both, with the last byte kept or cleared.
fn bits_and(
    alloc: Global,
    array: &ArrayRef,
    other: &ArrayRef,
    last: LastByte,
) -> Result<Validity, VortexError>
    requires mine { kind_of array.now ≡ booleans false }
    requires theirs { kind_of other.now ≡ booleans false }
    requires same_len { tree_len other.now ≡ tree_len array.now }
    ensures { Gives result (λ w. IsValidNulled (by_array array.now) (by_array other.now) (tree_len array.now) (valid_of w)) }
{
    if array.is_repeated() {
        return repeated_and(alloc, array.truth_at(0), other);
    }
    if other.is_repeated() {
        return repeated_and(alloc, other.truth_at(0), array);
    }
    let mine = array.plain_bits(alloc)?;
    let theirs = match other.plain_bits(alloc) {
        Ok(theirs) => theirs,
        Err(error) => {
            drop(mine);
            return Err(error);
        }
    };
    let joined = joined_bits(alloc, &mine, &theirs, last);
    drop(mine);
    drop(theirs);
    told_by(alloc, joined?)
}

// The bits that are set in both, with the last byte kept or cleared.
fn joined_bits(
    alloc: Global,
    mine: &BitBuffer,
    theirs: &BitBuffer,
    last: LastByte,
) -> Result<BitBuffer, VortexError>
    requires { length mine.now.bits ≡ length theirs.now.bits }
    ensures { Gives result (λ b. b.bits ≡ both mine.now.bits theirs.now.bits) }
{
    match last {
        LastByte::Kept => mine.and(alloc, theirs),
        LastByte::Cleared => mine.and_zero_padded(alloc, theirs),
    }
}

// The rows of an array that are true, where one value for all rows is too: the array, or a constant
// false.
#[tactic(auto, using(crate::proofs::Nulled::repeated_and))]
fn repeated_and(alloc: Global, value: bool, other: &ArrayRef) -> Result<Validity, VortexError>
    requires { kind_of other.now ≡ booleans false }
    ensures { Gives result (λ w. IsAndOf value other.now (valid_of w)) }
{
    if value {
        return Ok(Validity::Array(other.try_clone(alloc)?));
    }
    Ok(Validity::Array(constant_truth(alloc, false, other.len())?))
}
