// Values that codes refer to.

ghost use Rattle.std.specs.Prelude.{◌≡◌, ◌<◌, ◌≤◌, ◌-◌, ℕ, true, false, IfSome, IsSome, is_some};
ghost use Rattle.vx_base.specs.Refusals.{Gives};
ghost use Rattle.vx_base.specs.ValueRows.{row_under};
ghost use Rattle.vx_base.specs.DTypes.{dtype_meaning};
ghost use Rattle.vx_base.specs.Kinds.{booleans, is_integers, is_nullable_kind, is_plain_integers, or_nullable};
ghost use Rattle.vx_base.specs.Rows.{is_present, position_in};
ghost use Rattle.vx_tree.specs.Tree.{by_array, dictionary};
ghost use Rattle.vx_tree.specs.Layouts.{is_dictionary};
ghost use Rattle.vx_tree.specs.Meaning.{tree_len, kind_of, row_at, is_valid_at};
ghost use Rattle.vx_tree.specs.Formed.{ValidFits, IsCode, IsDictionary};
ghost use Rattle.vx_tree.specs.Named.{IsRepeated, IsValidNamed};
ghost use Rattle.vx_tree.specs.Parts.{valid_of};
ghost use Rattle.vx_tree.specs.Operations.{IsSlice, IsSelected, IsNulled, IsNulls, IsValidityOf, AreBelow};

use crate::array::{ArrayRef, Layout, Validity};
use crate::indices::to_position;
use crate::validity::constant_truth;
use std::alloc::Global;
use vx_base::{DType, ScalarValue, Selection, VortexError};

impl ArrayRef {
    /// The values at the positions that the codes name, null where a code is null. Asks that the
    /// codes are integers, each valid one the position of a value, and that a set flag holds: every
    /// value is referenced. The codes 0, null, 2 into the values 5, 6, 9 are the rows 5, null, 9.
    pub fn dictionary(
        alloc: Global,
        codes: ArrayRef,
        values: ArrayRef,
        flag: bool,
    ) -> Result<ArrayRef, VortexError>
        requires { IsDictionary codes values flag }
        ensures { Gives result (λ a. a ≡ dictionary codes values flag) }
    {
        ArrayRef::from_parts(
            alloc,
            Layout::Dict {
                codes,
                values,
                flag,
            },
        )
    }

    #[cycle(slice)]
    #[tactic(auto, using(crate::proofs::Dictionaries::sliced))]
    pub(crate) fn slice_dictionary(
        &self,
        alloc: Global,
        start: usize,
        end: usize,
    ) -> Result<ArrayRef, VortexError>
        requires layout { is_dictionary self.now ≡ true }
        requires start_le_end { start ≤ end }
        requires in_bounds { end ≤ tree_len self.now }
        ensures { Gives result (IsSlice self.now start (end - start)) }
    {
        let Layout::Dict { codes, values, .. } = self.layout() else {
            unreachable!();
        };
        let codes = codes.slice_within(alloc, start, end)?;
        match values.try_clone(alloc) {
            Ok(values) => ArrayRef::dictionary(alloc, codes, values, false),
            Err(error) => {
                drop(codes);
                Err(error)
            }
        }
    }

    #[cycle(select)]
    #[tactic(auto, using(crate::proofs::Dictionaries::selected))]
    pub(crate) fn select_dictionary(
        &self,
        alloc: Global,
        selection: &Selection,
    ) -> Result<ArrayRef, VortexError>
        requires layout { is_dictionary self.now ≡ true }
        requires within { AreBelow (tree_len self.now) selection.now }
        ensures { Gives result (IsSelected self.now selection.now) }
    {
        let Layout::Dict { codes, values, .. } = self.layout() else {
            unreachable!();
        };
        let codes = codes.select_within(alloc, selection)?;
        match values.try_clone(alloc) {
            Ok(values) => ArrayRef::dictionary(alloc, codes, values, false),
            Err(error) => {
                drop(codes);
                Err(error)
            }
        }
    }

    #[cycle(nulls)]
    #[tactic(auto, using(crate::proofs::Dictionaries::nulled))]
    pub(crate) fn nulled_dictionary(
        &self,
        alloc: Global,
        nulls: &Validity,
    ) -> Result<ArrayRef, VortexError>
        requires layout { is_dictionary self.now ≡ true }
        requires fits { ValidFits (valid_of nulls.now) (tree_len self.now) }
        ensures { Gives result (IsNulled self.now (valid_of nulls.now)) }
    {
        let Layout::Dict { codes, values, .. } = self.layout() else {
            unreachable!();
        };
        let codes = codes.nulled(alloc, nulls)?;
        match values.try_clone(alloc) {
            Ok(values) => ArrayRef::dictionary(alloc, codes, values, false),
            Err(error) => {
                drop(codes);
                Err(error)
            }
        }
    }

    #[cycle(null_rows)]
    #[tactic(auto, using(crate::proofs::Dictionaries::null_rows))]
    pub(crate) fn null_codes(
        &self,
        alloc: Global,
        len: usize,
        nulls: &Validity,
    ) -> Result<ArrayRef, VortexError>
        requires layout { is_dictionary self.now ≡ true }
        requires fits { ValidFits (valid_of nulls.now) len }
        requires none { (i : ℕ) → i < len → is_valid_at (valid_of nulls.now) i ≡ false }
        ensures { Gives result (IsNulls self.now len (valid_of nulls.now)) }
    {
        let Layout::Dict { codes, values, .. } = self.layout() else {
            unreachable!();
        };
        let codes = codes.nulls(alloc, len, nulls)?;
        match values.try_clone(alloc) {
            Ok(values) => ArrayRef::dictionary(alloc, codes, values, false),
            Err(error) => {
                drop(codes);
                Err(error)
            }
        }
    }

    // The position below `len` that the code of row `i` names: none where it is null.
    #[cycle(read)]
    pub(crate) fn code_at(&self, i: usize, len: usize) -> Option<usize>
        requires ints { is_integers (kind_of self.now) ≡ true }
        requires in_bounds { i < tree_len self.now }
        requires code { IsCode len (row_at self.now i) }
        ensures value { result ≡ position_in (row_at self.now i) }
        ensures within { IfSome result (λ k. k < len) }
        ensures present { is_some result ≡ is_present (row_at self.now i) }
        ensures plain { is_plain_integers (kind_of self.now) ≡ true → IsSome result }
    {
        match self.int_at(i) {
            Some(number) => Some(to_position(number)),
            None => None,
        }
    }

    // The value that the code of row `i` names, `None` where it or the code is null.
    #[cycle(value)]
    #[tactic(auto, using(crate::proofs::Values::named_nullable))]
    pub(crate) fn dictionary_value(
        &self,
        alloc: Global,
        i: usize,
    ) -> Result<Option<ScalarValue>, VortexError>
        requires layout { is_dictionary self.now ≡ true }
        requires in_bounds { i < tree_len self.now }
        ensures { Gives result (λ v. row_under (kind_of self.now) v ≡ row_at self.now i) }
    {
        let Layout::Dict { codes, values, .. } = self.layout() else {
            unreachable!();
        };
        match codes.code_at(i, values.len()) {
            Some(code) => values.value_at(alloc, code),
            None => Ok(None),
        }
    }

    // The validity of the values, taken by the codes.
    #[cycle(validity)]
    pub(crate) fn dictionary_validity(&self, alloc: Global) -> Result<Validity, VortexError>
        requires { is_dictionary self.now ≡ true }
        ensures { Gives result (λ v. IsValidityOf self.now (valid_of v)) }
    {
        let Layout::Dict { codes, values, .. } = self.layout() else {
            unreachable!();
        };
        let nulls = codes.validity(alloc)?;
        let validity = values.validity(alloc)?;
        if values.is_empty() {
            return validity.nulls(alloc, codes.len(), &nulls);
        }
        let validity = validity.named_by(alloc, codes, values.len())?;
        validity.nulled(alloc, &nulls, codes.len())
    }
}

impl Validity {
    // For each row the validity of the value that its code names, of so many values. A code is
    // looked at only where an array tells which values are valid.
    #[tactic(auto, using(crate::proofs::Dictionaries::named))]
    fn named_by(&self, alloc: Global, codes: &ArrayRef, len: usize) -> Result<Validity, VortexError>
        requires fits { ValidFits (valid_of self.now) len }
        requires some { 0 < len }
        requires ints { is_integers (kind_of codes.now) ≡ true }
        requires codes { (i : ℕ) → i < tree_len codes.now → IsCode len (row_at codes.now i) }
        ensures { Gives result (λ w. IsValidNamed (valid_of self.now) codes.now (valid_of w)) }
    {
        match self {
            Validity::NonNullable => Ok(Validity::NonNullable),
            Validity::AllValid => Ok(Validity::AllValid),
            Validity::AllInvalid => Ok(Validity::AllInvalid),
            Validity::Array(array) => {
                if codes.is_repeated() {
                    return array.one_truth(alloc, codes);
                }
                let positions = codes.code_positions(alloc, len)?;
                self.select_within(alloc, &positions.selection())
            }
        }
    }
}

impl ArrayRef {
    // The truth value that each code names, of codes that are all one: the first alone is read.
    fn one_truth(&self, alloc: Global, codes: &ArrayRef) -> Result<Validity, VortexError>
        requires kind { kind_of self.now ≡ booleans false }
        requires ints { is_integers (kind_of codes.now) ≡ true }
        requires repeated { IsRepeated codes.now }
        requires codes { (i : ℕ) → i < tree_len codes.now → IsCode (tree_len self.now) (row_at codes.now i) }
        ensures { Gives result (λ w. IsValidNamed (by_array self.now) codes.now (valid_of w)) }
    {
        let truth = match codes.code_at(0, self.len()) {
            Some(code) => self.truth_at(code),
            None => false,
        };
        Ok(Validity::Array(constant_truth(alloc, truth, codes.len())?))
    }
}

// The data type of these values, null where one of these codes may be.
pub(crate) fn dictionary_dtype(
    alloc: Global,
    codes: &ArrayRef,
    values: &ArrayRef,
) -> Result<DType, VortexError>
    ensures { Gives result (λ d. dtype_meaning d ≡ or_nullable (is_nullable_kind (kind_of codes.now)) (kind_of values.now)) }
{
    let dtype = values.dtype().try_clone(alloc)?;
    Ok(dtype.union_nullability(codes.dtype().nullability()))
}
