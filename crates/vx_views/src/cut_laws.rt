//! Laws of cuts: a maximal cut is a fewest one, there is one, and there is no other; and of the
//! greatest limit. Each function does nothing: its contract is the law.

ghost use Rattle.std.specs.Prelude.{◌≡◌, ◌↔◌, ◌^◌, ◌-◌, ℕ, ◌≤◌, List, [], sum};
ghost use Rattle.std.specs.List.{All};
ghost use Rattle.vx_views.specs.Cut.{IsCut, IsMaximalCut, IsFewestCut, PassWithNext};
ghost use Rattle.vx_views.specs.declared.view.TheConstants.{MAX_BUFFER_LEN, MAX_INLINED_SIZE};

/// No cut has fewer pieces than a maximal one.
pub fn maximal_cut_is_fewest()
    ensures { (limit : ℕ) (lens ends : List ℕ) → IsMaximalCut limit lens ends →
        IsFewestCut limit lens ends }
{}

/// There is one maximal cut at most.
pub fn maximal_cut_is_one()
    ensures { (limit : ℕ) (lens ends others : List ℕ) → IsMaximalCut limit lens ends →
        IsMaximalCut limit lens others → ends ≡ others }
{}

/// There is a maximal cut where no value is longer than the limit.
pub fn maximal_cut_exists()
    ensures { (limit : ℕ) (lens : List ℕ) → All (λ len. len ≤ limit) lens →
        (ends : List ℕ) × IsMaximalCut limit lens ends }
{}

/// A cut is maximal exactly where each piece but the last passes the limit together with the next
/// value that is not empty.
pub fn maximal_cut_passes_with_next()
    ensures { (limit : ℕ) (lens ends : List ℕ) → IsCut limit lens ends →
        IsMaximalCut limit lens ends ↔ PassWithNext limit lens 0 ends }
{}

/// An empty heap has one cut, which has no pieces.
pub fn empty_heap_has_one_cut()
    ensures { (limit : ℕ) (lens ends : List ℕ) → sum lens ≡ 0 →
        IsCut limit lens ends ↔ (ends ≡ []) }
{}

/// The greatest limit of a cut is the greatest number of 32 bits, and the longest value that stands
/// in its view has 12 bytes.
pub fn limits_are_those_of_views()
    ensures buffer { MAX_BUFFER_LEN ≡ 2 ^ 32 - 1 }
    ensures inlined { MAX_INLINED_SIZE ≡ 12 }
{}
