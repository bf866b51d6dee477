//! Laws of validities, each proved as the contract of a function that does nothing.

ghost use Rattle.vx_tree.specs.Validities.{BothCommutes, BothAssociates, BothRepeats, BothHasUnit, TrivialCasts};

/// Of two validities it is all the same which comes first.
pub fn and_commutes()
    ensures { BothCommutes }
{}

/// Of three validities it is all the same which two are joined first.
pub fn and_associates()
    ensures { BothAssociates }
{}

/// A validity joined with itself stays.
pub fn and_repeats()
    ensures { BothRepeats }
{}

/// A validity joined with `NonNullable` stays.
pub fn and_has_a_unit()
    ensures { BothHasUnit }
{}

/// What `trivially_cast_nullability` gives, `cast_nullability` gives of the same length, and what
/// it refuses, that refuses.
pub fn trivial_casts_are_casts()
    ensures { TrivialCasts }
{}
