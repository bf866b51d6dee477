// A validity under another nullability.

ghost use Rattle.std.specs.Prelude.{◌≡◌, true, false, IfOk, MatchOption};
ghost use Rattle.vx_base.specs.DTypes.{is_nullable};
ghost use Rattle.vx_base.specs.Refusals.{Refuses};
ghost use Rattle.vx_tree.specs.Tree.{non_nullable};
ghost use Rattle.vx_tree.specs.Formed.{IsLenOf};
ghost use Rattle.vx_tree.specs.Parts.{valid_of};
ghost use Rattle.vx_tree.specs.Validities.{cast_of, cast_fault, has_no_nulls, non_nullable_fault};

use crate::array::Validity;
use std::alloc::Global;
use vx_base::{Nullability, VortexError};

impl Validity {
    /// `NonNullable` where none of `len` rows is null, else nothing. Asks that an array has `len`
    /// rows. Refuses `MismatchedTypes` where there are rows and the array is not one of plain
    /// booleans.
    #[tactic(auto, using(crate::proofs::Validities::no_rows))]
    pub fn into_non_nullable(
        self,
        alloc: Global,
        len: usize,
    ) -> Result<Option<Validity>, VortexError>
        requires { IsLenOf (valid_of self) len }
        ensures ok { IfOk result (λ o. MatchOption o (has_no_nulls (valid_of self) len ≡ false)
            (λ v. (valid_of v ≡ non_nullable) × (has_no_nulls (valid_of self) len ≡ true))) }
        ensures refuses { Refuses result (non_nullable_fault (valid_of self) len) }
    {
        if len == 0 {
            return Ok(Some(Validity::NonNullable));
        }
        if self.execute_no_nulls(alloc, len)? {
            Ok(Some(Validity::NonNullable))
        } else {
            Ok(None)
        }
    }

    /// The same rows under this nullability. Asks that an array has `len` rows. Where null may not
    /// stand, refuses `MismatchedTypes` where there are rows and the array is not one of plain
    /// booleans, then `HasNulls` where a row is null.
    pub fn cast_nullability(
        self,
        alloc: Global,
        nullability: Nullability,
        len: usize,
    ) -> Result<Validity, VortexError>
        requires { IsLenOf (valid_of self) len }
        ensures ok { IfOk result (λ v. valid_of v ≡ cast_of (valid_of self) (is_nullable nullability)) }
        ensures refuses { Refuses result (cast_fault (valid_of self) (is_nullable nullability) len) }
    {
        match nullability {
            Nullability::NonNullable => self.cast_plain(alloc, len),
            Nullability::Nullable => Ok(self.into_nullable()),
        }
    }

    // `NonNullable`, where none of `len` rows is null.
    fn cast_plain(self, alloc: Global, len: usize) -> Result<Validity, VortexError>
        requires { IsLenOf (valid_of self) len }
        ensures ok { IfOk result (λ v. valid_of v ≡ non_nullable) }
        ensures refuses { Refuses result (cast_fault (valid_of self) false len) }
    {
        match self.into_non_nullable(alloc, len)? {
            Some(validity) => Ok(validity),
            None => Err(VortexError::HasNulls),
        }
    }
}
