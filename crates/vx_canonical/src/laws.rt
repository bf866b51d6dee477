//! Laws of arrays that are joined: functions that do nothing, and whose contract is the law.

ghost use Rattle.vx_canonical.specs.Composed.{ConcatsCompose, ExtentsCompose};

/// Of arrays that are joined in two steps: where the first step is not refused, the second one is
/// just where all arrays joined at once are, and gives as many elements and buffers as they have.
pub fn concats_of_concats_are_concats()
    ensures refused { ConcatsCompose }
    ensures extents { ExtentsCompose }
{}
