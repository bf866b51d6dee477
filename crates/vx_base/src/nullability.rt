// Whether null may stand among the rows.

ghost use Rattle.std.specs.Prelude.{◌≡◌, ◌||◌};

/// Whether null may stand among the rows of a data type.
#[derive(Clone, Copy, Debug, PartialEq, Eq)]
pub enum Nullability {
    /// No row is null.
    NonNullable,
    /// A row may be null.
    Nullable,
}

impl Nullability {
    ghost use Rattle.vx_base.specs.DTypes.{is_nullable};

    /// Nullable where either is.
    pub fn union(self, other: Nullability) -> Nullability
        ensures { is_nullable result ≡ is_nullable self || is_nullable other }
    {
        match self {
            Nullability::NonNullable => other,
            Nullability::Nullable => Nullability::Nullable,
        }
    }
}
