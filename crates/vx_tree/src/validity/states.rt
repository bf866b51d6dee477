// What the state of a validity tells by itself.

ghost use Rattle.std.specs.Prelude.{◌≡◌, ◌==◌, None, Some, true, false, IfOk};
ghost use Rattle.std.specs.Option.{option_map};
ghost use Rattle.vx_base.specs.DTypes.{is_nullable};
ghost use Rattle.vx_base.specs.Refusals.{Tests};
ghost use Rattle.vx_tree.specs.Shapes.{state_of};
ghost use Rattle.vx_tree.specs.Parts.{valid_of};
ghost use Rattle.vx_tree.specs.Validities.{array_in, is_full_state, is_null_state, made_nullable, full_valid};
ghost use Rattle.vx_tree.specs.Validities.{trivial_cast, trivial_cast_fault};

use crate::array::{ArrayRef, Validity};
use vx_base::{DType, Nullability, VortexError};

impl Validity {
    /// The data type of a validity array: plain booleans.
    pub const DTYPE: DType = DType::Bool(Nullability::NonNullable);

    /// The array, where one tells which rows are valid.
    pub fn into_array(self) -> Option<ArrayRef>
        ensures { result ≡ array_in (valid_of self) }
    {
        match self {
            Validity::Array(array) => Some(array),
            _ => None,
        }
    }

    /// The array, lent, where one tells which rows are valid.
    pub fn as_array(&self) -> Option<&ArrayRef>
        ensures { option_map (λ a. a.now) result ≡ array_in (valid_of self.now) }
    {
        match self {
            Validity::Array(array) => Some(array),
            _ => None,
        }
    }

    /// Whether the state alone says that no row is null.
    pub fn definitely_no_nulls(&self) -> bool
        ensures { result ≡ is_full_state (state_of (valid_of self.now)) }
    {
        matches!(self, Validity::NonNullable | Validity::AllValid)
    }

    /// Whether the state alone says that every row is null.
    pub fn definitely_all_null(&self) -> bool
        ensures { result ≡ is_null_state (state_of (valid_of self.now)) }
    {
        matches!(self, Validity::AllInvalid)
    }

    /// The same rows, where null may stand from now on: `NonNullable` becomes `AllValid`, and any
    /// other stays.
    pub fn into_nullable(self) -> Validity
        ensures { valid_of result ≡ made_nullable (valid_of self) }
    {
        match self {
            Validity::NonNullable => Validity::AllValid,
            Validity::AllValid => Validity::AllValid,
            Validity::AllInvalid => Validity::AllInvalid,
            Validity::Array(array) => Validity::Array(array),
        }
    }

    /// Nullable, where it is or the other is.
    pub fn union_nullability(self, nullability: Nullability) -> Validity
        ensures nullable { is_nullable nullability ≡ true → valid_of result ≡ made_nullable (valid_of self) }
        ensures same { is_nullable nullability ≡ false → valid_of result ≡ valid_of self }
    {
        match nullability {
            Nullability::NonNullable => self,
            Nullability::Nullable => self.into_nullable(),
        }
    }

    /// `NonNullable` where there are no rows or the state says that none is null; nothing where an
    /// array would have to be read. Refuses `HasNulls` where there are rows and the state says that
    /// all are null.
    pub fn trivial_into_non_nullable(self, len: usize) -> Result<Option<Validity>, VortexError>
        ensures ok { IfOk result (λ o. option_map valid_of o ≡ trivial_cast (valid_of self) false len) }
        ensures tests { Tests result (trivial_cast_fault (valid_of self) false len) }
    {
        if len == 0 {
            return Ok(Some(Validity::NonNullable));
        }
        match self {
            Validity::NonNullable => Ok(Some(Validity::NonNullable)),
            Validity::AllValid => Ok(Some(Validity::NonNullable)),
            Validity::AllInvalid => Err(VortexError::HasNulls),
            Validity::Array(_) => Ok(None),
        }
    }

    /// The same rows under this nullability, where that is known with no row looked at; nothing
    /// where an array would have to be read. Refuses `HasNulls` where null may not stand, there are
    /// rows and the state says that all are null.
    pub fn trivially_cast_nullability(
        self,
        nullability: Nullability,
        len: usize,
    ) -> Result<Option<Validity>, VortexError>
        ensures ok { IfOk result (λ o. option_map valid_of o ≡ trivial_cast (valid_of self) (is_nullable nullability) len) }
        ensures tests { Tests result (trivial_cast_fault (valid_of self) (is_nullable nullability) len) }
    {
        match nullability {
            Nullability::NonNullable => self.trivial_into_non_nullable(len),
            Nullability::Nullable => Ok(Some(self.into_nullable())),
        }
    }

    /// No row is null, and null may stand where this says so. For the crates above.
    pub fn full(nullability: Nullability) -> Validity
        ensures { valid_of result ≡ full_valid (is_nullable nullability) }
    {
        match nullability {
            Nullability::NonNullable => Validity::NonNullable,
            Nullability::Nullable => Validity::AllValid,
        }
    }
}

impl From<Nullability> for Validity {
    ghost use Rattle.vx_base.specs.DTypes.{is_nullable};
    ghost use Rattle.vx_tree.specs.Parts.{valid_of};
    ghost use Rattle.vx_tree.specs.Validities.{full_valid};

    ghost from_gives = { λ n v. valid_of v ≡ full_valid (is_nullable n) };

    fn from(nullability: Nullability) -> Validity {
        Validity::full(nullability)
    }
}

impl From<&Nullability> for Validity {
    ghost use Rattle.vx_base.specs.DTypes.{is_nullable};
    ghost use Rattle.vx_tree.specs.Parts.{valid_of};
    ghost use Rattle.vx_tree.specs.Validities.{full_valid};

    ghost from_gives = { λ n v. valid_of v ≡ full_valid (is_nullable n.now) };

    fn from(nullability: &Nullability) -> Validity {
        Validity::full(*nullability)
    }
}
