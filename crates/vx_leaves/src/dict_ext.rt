// What a dictionary tells of its values and parts.

ghost use Rattle.std.specs.Prelude.{◌≡◌, IsTrue};
ghost use Rattle.vx_base.specs.DTypes.{dtype_meaning};
ghost use Rattle.vx_base.specs.Refusals.{Gives};
ghost use Rattle.vx_tree.specs.Formed.{ReferencesAll};
ghost use Rattle.vx_tree.specs.Meaning.{kind_of};
ghost use Rattle.vx_leaves.specs.Dictionaries.{codes_in, values_in, referenced_flag, MarksReferenced};
ghost use Rattle.vx_leaves.specs.Scan.{EndsScan};

use crate::code_scan::scan_codes;
use crate::dict_array::DictArray;
use std::alloc::Global;
use vx_base::{BitBuffer, DType, VortexError};
use vx_tree::{ArrayRef, TypedArray};

/// The parts of a dictionary.
#[derive(Drop)]
pub struct DictParts {
    /// What the rows are.
    pub dtype: DType,
    /// The position of a value for each row, null where the row is null for its code.
    pub codes: ArrayRef,
    /// The values.
    pub values: ArrayRef,
}

/// What a dictionary tells of its values.
pub trait DictArrayExt: TypedArray {
    /// Whether it is known that every value is referenced by some valid code.
    fn has_all_values_referenced(&self) -> bool
        ensures { result ≡ referenced_flag (Self.as_tree self.now) };

    /// That every value is referenced, where the flag says so: no dictionary has a flag that does
    /// not hold, so nothing is read. Fails only for want of memory.
    fn validate_all_values_referenced(&self, alloc: Global) -> Result<(), VortexError>
        ensures { Gives result (λ _. IsTrue (referenced_flag (Self.as_tree self.now))
            → ReferencesAll (codes_in (Self.as_tree self.now)) (values_in (Self.as_tree self.now))) };

    /// Which values are referenced: a boolean for each, the given one exactly where some valid code
    /// is its position. Of the codes 0, 2, 0 into three values it is true, false, true where true
    /// is given, else false, true, false. Fails only for want of memory.
    fn compute_referenced_values_mask(
        &self,
        alloc: Global,
        referenced: bool,
    ) -> Result<BitBuffer, VortexError>
        ensures { Gives result (λ b. MarksReferenced (Self.as_tree self.now) referenced b.bits) };

    /// The same booleans, and the least positive multiple of 2,048 below the number of codes before
    /// which valid codes reference every value, else the number of codes: of 5,000 codes 0, 1, 0, 1
    /// and so on into two values it is 2,048. Fails only for want of memory.
    fn referenced_values_scan(
        &self,
        alloc: Global,
        referenced: bool,
    ) -> Result<(BitBuffer, usize), VortexError>
        ensures bits { Gives result (λ scan. MarksReferenced (Self.as_tree self.now) referenced scan.0.bits) }
        ensures end { Gives result (λ scan. EndsScan (Self.as_tree self.now) scan.1) };
}

/// A dictionary that is taken apart.
pub trait DictOwnedExt: TypedArray {
    /// The data type, the codes and the values, shared. Fails only for want of memory.
    fn into_parts(self, alloc: Global) -> Result<DictParts, VortexError>
        ensures codes { Gives result (λ p. p.codes ≡ codes_in (Self.as_tree self)) }
        ensures values { Gives result (λ p. p.values ≡ values_in (Self.as_tree self)) }
        ensures dtype { Gives result (λ p. dtype_meaning p.dtype ≡ kind_of (Self.as_tree self)) };
}

impl DictArrayExt for DictArray {
    fn has_all_values_referenced(&self) -> bool {
        self.parts().flag
    }

    fn validate_all_values_referenced(&self, _alloc: Global) -> Result<(), VortexError> {
        self.parts().validate()
    }

    fn compute_referenced_values_mask(
        &self,
        alloc: Global,
        referenced: bool,
    ) -> Result<BitBuffer, VortexError> {
        let (bits, _) = self.referenced_values_scan(alloc, referenced)?;
        Ok(bits)
    }

    fn referenced_values_scan(
        &self,
        alloc: Global,
        referenced: bool,
    ) -> Result<(BitBuffer, usize), VortexError> {
        let parts = self.parts();
        let count = parts.values.len();
        let mut marks = vec![in alloc; !referenced; count]?;
        let end = scan_codes(alloc, parts.codes, referenced, &mut marks)?;
        Ok((BitBuffer::from_bools(alloc, &marks)?, end))
    }
}

impl DictOwnedExt for DictArray {
    fn into_parts(self, alloc: Global) -> Result<DictParts, VortexError> {
        let parts = self.parts();
        Ok(DictParts {
            dtype: self.dtype().try_clone(alloc)?,
            codes: parts.codes.try_clone(alloc)?,
            values: parts.values.try_clone(alloc)?,
        })
    }
}
