//! Laws of UTF-8, of which buffers are read whole, and of views without a fault, each the contract
//! of a function that does nothing.

ghost use Rattle.std.specs.Prelude.{◌≡◌, ◌↔◌, ℕ, Bool, List, None, IsTrue, IsUtf8};
ghost use Rattle.std.specs.Str.{is_utf8};
ghost use Rattle.vx_views.specs.Alone.{reached, AreWithinBudget};
ghost use Rattle.vx_views.specs.Faulty.{views_fault};
ghost use Rattle.vx_views.specs.Sound.{AreSoundViews};
ghost use Rattle.vx_views.specs.Utf8.{IsJoinedSequences, BoundariesDecideRanges};

/// Bytes are a joining of the table's sequences exactly where they are UTF-8 as `std` means it, and
/// as its test tells.
pub fn table_decides_utf8()
    ensures utf8 { (bytes : List ℕ) → IsJoinedSequences bytes ↔ IsUtf8 bytes }
    ensures test { (bytes : List ℕ) → IsJoinedSequences bytes ↔ IsTrue (is_utf8 bytes) }
{}

/// A non-empty range of UTF-8 bytes is UTF-8 exactly where it starts and ends at boundaries.
pub fn boundaries_decide_ranges()
    ensures { (bytes : List ℕ) → IsUtf8 bytes → BoundariesDecideRanges bytes }
{}

/// A budget of bytes reaches a buffer exactly where its length and those of the reached buffers
/// before it sum to at most the budget; this says of each buffer whether it is reached.
pub fn budget_reaches_by_sums()
    ensures sums { (budget : ℕ) (buffers : List (List ℕ)) → AreWithinBudget budget buffers (reached budget buffers) }
    ensures one { (budget : ℕ) (buffers : List (List ℕ)) (marks : List Bool) → AreWithinBudget budget buffers marks → marks ≡ reached budget buffers }
{}

/// Views are without a fault exactly where each valid one can be read, begins as it says, and is
/// text where text is asked.
pub fn faultless_views_are_sound()
    ensures { (is_text : Bool) (mask : List Bool) (buffers views : List (List ℕ))
        → (views_fault is_text mask buffers views ≡ None) ↔ AreSoundViews views mask buffers is_text }
{}
