// Arrays of values that codes name.

ghost use Rattle.std.specs.Prelude.{◌≡◌, ◌↔◌, true, false, IfOk, IsTrue};
ghost use Rattle.vx_base.specs.Refusals.{Gives, Refuses};
ghost use Rattle.vx_tree.specs.Formed.{IsDictionary, ReferencesAll};
ghost use Rattle.vx_tree.specs.Tree.{dictionary};
ghost use Rattle.vx_leaves.specs.Dictionaries.{is_dictionary, codes_in, values_in, referenced_flag, dictionary_fault};

use crate::code_checks::check_codes;
use crate::dict_data::DictData;
use crate::dict_ext::DictArrayExt;
use std::alloc::Global;
use std::marker::Model;
use vx_base::VortexError;
use vx_tree::{ArrayRef, Layout, TypedArray, rows_fit_their_dtype};

/// An array whose row `i` is the value at the position `codes[i]`, null where the code is null. A
/// set flag says that every value is referenced by some valid code.
#[derive(Drop)]
pub struct DictArray {
    array: ArrayRef,
}

impl Model for DictArray {
    ghost use Rattle.std.specs.Prelude.{◌≡◌, true};
    ghost use Rattle.vx_tree.specs.Tree.{Tree, tree_code};
    ghost use Rattle.vx_leaves.specs.Dictionaries.{is_dictionary};

    ghost Value = { Tree };

    ghost coded = { tree_code };

    ghost view = { λ a. a.array };

    ghost invariant = { λ a. is_dictionary a.array ≡ true };
}

// The parts of a dictionary, lent.
#[derive(Drop)]
pub(crate) struct LentParts<'a> {
    pub codes: &'a ArrayRef,
    pub values: &'a ArrayRef,
    pub flag: bool,
}

impl<'a> LentParts<'a> {
    // That every value is referenced, where the flag says so. Asks that the parts are well formed,
    // so that nothing has to be read.
    pub(crate) fn validate(&self) -> Result<(), VortexError>
        requires { IsDictionary self.now.codes.now self.now.values.now self.now.flag }
        ensures { Gives result (λ _. IsTrue self.now.flag → ReferencesAll self.now.codes.now self.now.values.now) }
    {
        Ok(())
    }
}

/// The children of a dictionary.
#[derive(Drop)]
pub struct DictSlots {
    /// The position of a value for each row, null where the row is null for its code.
    pub codes: ArrayRef,
    /// The values.
    pub values: ArrayRef,
}

impl DictArray {
    /// The values that these codes name. Asks that the codes are integers, each valid one the
    /// position of a value. The flag is not set. Fails only for want of memory.
    pub fn new(alloc: Global, codes: ArrayRef, values: ArrayRef) -> Result<DictArray, VortexError>
        requires { IsDictionary codes values false }
        ensures { Gives result (λ a. a ≡ dictionary codes values false) }
    {
        let array = ArrayRef::dictionary(alloc, codes, values, false)?;
        Ok(DictArray { array })
    }

    /// The values that these codes name: the codes 0, null, 2 into the values 5, 6, 9 are the rows
    /// 5, null, 9. The flag is not set. Refuses `MismatchedTypes` where the codes are no integers,
    /// then at the first faulty valid code `Negative` with its row, or `OutOfBounds` with the code.
    /// What stands in a null row of the codes is not looked at.
    pub fn try_new(
        alloc: Global,
        codes: ArrayRef,
        values: ArrayRef,
    ) -> Result<DictArray, VortexError>
        ensures parts { IfOk result (λ a. a ≡ dictionary codes values false) }
        ensures refuses { Refuses result (dictionary_fault codes values) }
    {
        if !codes.dtype().is_int() {
            return Err(VortexError::MismatchedTypes);
        }
        rows_fit_their_dtype(&codes);
        check_codes(alloc, &codes, values.len())?;
        DictArray::new(alloc, codes, values)
    }

    /// The same dictionary with the flag as given. Asks that every value is referenced, where the
    /// flag is set. Fails only for want of memory.
    pub fn set_all_values_referenced(
        self,
        alloc: Global,
        flag: bool,
    ) -> Result<DictArray, VortexError>
        requires { IsTrue flag → ReferencesAll (codes_in self) (values_in self) }
        ensures { Gives result (λ a. a ≡ dictionary (codes_in self) (values_in self) flag) }
    {
        let parts = self.parts();
        let codes = parts.codes.try_clone(alloc)?;
        let values = parts.values.try_clone(alloc)?;
        let array = ArrayRef::dictionary(alloc, codes, values, flag)?;
        Ok(DictArray { array })
    }

    /// Whether every value is referenced by some valid code. It reads the codes, also where the
    /// flag is set, but where there are fewer of them than values. Fails only for want of memory.
    pub fn are_all_values_referenced(&self, alloc: Global) -> Result<bool, VortexError>
        ensures { Gives result (λ b. IsTrue b ↔ ReferencesAll (codes_in self.now) (values_in self.now)) }
    {
        let parts = self.parts();
        if parts.codes.len() < parts.values.len() {
            return Ok(false);
        }
        let referenced = self.compute_referenced_values_mask(alloc, true)?;
        Ok(referenced.true_count() == referenced.len())
    }

    /// The position of a value for each row, null where the row is null for its code.
    pub fn codes(&self) -> &ArrayRef
        ensures { result.now ≡ codes_in self.now }
    {
        self.parts().codes
    }

    /// The values.
    pub fn values(&self) -> &ArrayRef
        ensures { result.now ≡ values_in self.now }
    {
        self.parts().values
    }

    /// The children, shared. Fails only for want of memory.
    pub fn slots(&self, alloc: Global) -> Result<DictSlots, VortexError>
        ensures { Gives result (λ s. dictionary s.codes s.values (referenced_flag self.now) ≡ self.now) }
    {
        let parts = self.parts();
        Ok(DictSlots {
            codes: parts.codes.try_clone(alloc)?,
            values: parts.values.try_clone(alloc)?,
        })
    }

    /// What the array has beside its children. Fails only for want of memory.
    pub fn to_data(&self, _alloc: Global) -> Result<DictData, VortexError>
        ensures { Gives result (λ d. d ≡ referenced_flag self.now) }
    {
        Ok(DictData::with_flag(self.parts().flag))
    }

    // The parts, which are well formed.
    pub(crate) fn parts(&self) -> LentParts<'_>
        ensures same { self.now ≡ dictionary result.codes.now result.values.now result.flag }
        ensures formed { IsDictionary result.codes.now result.values.now result.flag }
    {
        match self.array.layout() {
            Layout::Dict {
                codes,
                values,
                flag,
            } => LentParts {
                codes,
                values,
                flag: *flag,
            },
            _ => unreachable!(),
        }
    }
}

impl TypedArray for DictArray {
    ghost as_tree = { λ a. a };

    ghost has_layout = { is_dictionary };

    fn is_layout(layout: &Layout) -> bool {
        matches!(layout, Layout::Dict { .. })
    }

    fn from_array(array: ArrayRef) -> Self {
        DictArray { array }
    }

    fn as_array(&self) -> &ArrayRef {
        &self.array
    }

    fn into_array(self) -> ArrayRef {
        let DictArray { array } = self;
        array
    }
}
