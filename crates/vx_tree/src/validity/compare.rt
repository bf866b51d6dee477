// Whether two validities have the same rows, and masks as validities.

ghost use Rattle.std.specs.Prelude.{◌≡◌, ◌↔◌, false, length, count_by, IsTrue, IfOk};
ghost use Rattle.vx_base.specs.DTypes.{is_nullable};
ghost use Rattle.vx_base.specs.Kinds.{booleans};
ghost use Rattle.vx_base.specs.Refusals.{Gives, Refuses, or_else};
ghost use Rattle.vx_tree.specs.Tree.{by_array};
ghost use Rattle.vx_tree.specs.Meaning.{tree_len, kind_of, valid_mask};
ghost use Rattle.vx_tree.specs.Formed.{IsLenOf, ValidFits};
ghost use Rattle.vx_tree.specs.Parts.{valid_of};
ghost use Rattle.vx_tree.specs.Faults.{valid_type_fault};
ghost use Rattle.vx_tree.specs.Validities.{full_valid, valid_from};

use crate::array::{ArrayRef, Validity};
use crate::validity::concat::bits_of_mask;
use crate::validity::told_by;
use std::alloc::Global;
use vx_base::{Mask, Nullability, VortexError};

impl Validity {
    /// Whether the same of `len` rows are valid in both. Asks that an array has `len` rows. Refuses
    /// `MismatchedTypes` where either array is not one of plain booleans, also of no rows.
    pub fn mask_eq(&self, alloc: Global, other: &Validity, len: usize) -> Result<bool, VortexError>
        requires mine { IsLenOf (valid_of self.now) len }
        requires theirs { IsLenOf (valid_of other.now) len }
        ensures ok { IfOk result (λ b. IsTrue b ↔ (valid_mask (valid_of self.now) len ≡ valid_mask (valid_of other.now) len)) }
        ensures refuses { Refuses result (or_else (valid_type_fault (valid_of self.now)) (valid_type_fault (valid_of other.now))) }
    {
        let mine = self.valid_count(alloc, len)?;
        let theirs = other.valid_count(alloc, len)?;
        if mine != theirs {
            return Ok(false);
        }
        if mine == 0 || mine == len {
            return Ok(true);
        }
        Ok(self.same_bits(alloc, other, len)?)
    }

    // Whether the same of `len` rows are valid in both, by the bits of both.
    fn same_bits(&self, alloc: Global, other: &Validity, len: usize) -> Result<bool, VortexError>
        requires mine { ValidFits (valid_of self.now) len }
        requires theirs { ValidFits (valid_of other.now) len }
        ensures { Gives result (λ b. IsTrue b ↔ (valid_mask (valid_of self.now) len ≡ valid_mask (valid_of other.now) len)) }
    {
        let mine = self.to_array(alloc, len)?;
        let theirs = match other.to_array(alloc, len) {
            Ok(theirs) => theirs,
            Err(error) => {
                drop(mine);
                return Err(error);
            }
        };
        let same = same_truths(alloc, &mine, &theirs);
        drop(mine);
        drop(theirs);
        same
    }

    /// Valid where the mask is true: by the nullability where all rows are, `AllInvalid` where none
    /// is, else an array. Asks that the nullability is `Nullable`, or the mask all true. Fails only
    /// for want of memory.
    pub fn from_mask(
        alloc: Global,
        mask: Mask,
        nullability: Nullability,
    ) -> Result<Validity, VortexError>
        requires { is_nullable nullability ≡ false → count_by (λ b. b) mask ≡ length mask }
        ensures given { Gives result (λ v. valid_of v ≡ valid_from 0 mask (full_valid (is_nullable nullability))) }
        ensures mask { IfOk result (λ v. valid_mask (valid_of v) (length mask) ≡ mask) }
    {
        let validity = of_mask(alloc, &mask, nullability);
        drop(mask);
        let validity = validity?;
        Ok(validity)
    }
}

// Valid where the mask is true.
fn of_mask(alloc: Global, mask: &Mask, nullability: Nullability) -> Result<Validity, VortexError>
    ensures { Gives result (λ v. valid_of v ≡ valid_from 0 mask.now (full_valid (is_nullable nullability))) }
{
    let true_count = mask.true_count();
    if true_count == mask.len() {
        return Ok(Validity::full(nullability));
    }
    if true_count == 0 {
        return Ok(Validity::AllInvalid);
    }
    told_by(alloc, bits_of_mask(alloc, mask)?)
}

// Whether two arrays of plain booleans have the same rows.
fn same_truths(alloc: Global, mine: &ArrayRef, theirs: &ArrayRef) -> Result<bool, VortexError>
    requires mine { kind_of mine.now ≡ booleans false }
    requires theirs { kind_of theirs.now ≡ booleans false }
    ensures { Gives result (λ b. IsTrue b ↔ (valid_mask (by_array mine.now) (tree_len mine.now)
        ≡ valid_mask (by_array theirs.now) (tree_len theirs.now))) }
{
    let mine = mine.plain_bits(alloc)?;
    let theirs = match theirs.plain_bits(alloc) {
        Ok(theirs) => theirs,
        Err(error) => {
            drop(mine);
            return Err(error);
        }
    };
    let same = mine == theirs;
    drop(mine);
    drop(theirs);
    Ok(same)
}
