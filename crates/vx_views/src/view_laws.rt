//! What holds of all views and values. Each function does nothing: its contract is the law.

ghost use Rattle.std.specs.Prelude.{◌≡◌, ℕ, ◌^◌, ◌<◌, ◌≤◌, ◌↔◌, List, IsTrue, length, slice_index_or, [], Bool};
ghost use Rattle.std.specs.Cmp.Lexicographic.{slice_cmp};
ghost use Rattle.std.specs.Ordering.{nat_cmp};
ghost use Rattle.std.specs.declared.cmp.Ordering.TheVariants.{Less, Equal, Greater};
ghost use Rattle.vx_views.specs.Order.{IsSmaller, bytewise, by_words};
ghost use Rattle.vx_views.specs.Sound.{IsSoundView};
ghost use Rattle.vx_views.specs.Views.{AreBytes, IsView, IsZeroPadded, Resolves, StandsAt, head_of, order_prefix_of, order_tail_of};
ghost use Rattle.vx_views.specs.Views.{prefix_of, view_head, view_of, view_order_prefix, view_order_tail, view_prefix, view_size};
ghost use Rattle.vx_views.specs.Views.{view_value};
ghost use Rattle.vx_views.specs.declared.view.TheConstants.{MAX_INLINED_SIZE};

use crate::view::BinaryView;
use std::hash::Hash;

/// Views are equal exactly where their 16 bytes are the same.
pub fn views_are_equal_by_their_bytes()
    ensures { (v w : List ℕ) → IsTrue (⟦<BinaryView as PartialEq>⟧.eq v w) ↔ (v ≡ w) }
{}

/// What a view feeds a hasher is the same exactly where the views are equal.
pub fn hashes_agree_with_equality()
    ensures { (v w : List ℕ)
        → (⟦<BinaryView as Hash>⟧.hash_input v ≡ ⟦<BinaryView as Hash>⟧.hash_input w)
        ↔ IsTrue (⟦<BinaryView as PartialEq>⟧.eq v w) }
{}

/// Inlined views with zeroes after their values are equal exactly where the values are.
pub fn padded_views_are_equal_as_their_values()
    ensures { (buffers others : List (List ℕ)) (v w : List ℕ) → IsZeroPadded v → IsZeroPadded w
        → IsTrue (⟦<BinaryView as PartialEq>⟧.eq v w)
        ↔ (view_value buffers v ≡ view_value others w) }
{}

/// The view of a short value holds it with zeroes after it.
pub fn views_of_short_values_are_padded()
    ensures { (value : List ℕ) (block offset : ℕ) → AreBytes value
        → length value ≤ MAX_INLINED_SIZE → IsZeroPadded (view_of value block offset) }
{}

/// Views of one value have one head, wherever the value stands.
pub fn equal_values_have_equal_heads()
    ensures { (a b : List ℕ) (block offset other_block other_offset : ℕ) → length a < 2 ^ 32 → a ≡ b
        → view_head (view_of a block offset) ≡ view_head (view_of b other_block other_offset) }
{}

/// The words of a view are the words of its value; the tail only where the view holds the value.
pub fn words_of_views_are_words_of_values()
    ensures prefix { (value : List ℕ) (block offset : ℕ)
        → view_prefix (view_of value block offset) ≡ prefix_of value }
    ensures head { (value : List ℕ) (block offset : ℕ) → length value < 2 ^ 32
        → view_head (view_of value block offset) ≡ head_of value }
    ensures order_prefix { (value : List ℕ) (block offset : ℕ)
        → view_order_prefix (view_of value block offset) ≡ order_prefix_of value }
    ensures order_tail { (value : List ℕ) (block offset : ℕ) → length value ≤ MAX_INLINED_SIZE
        → view_order_tail (view_of value block offset) ≡ order_tail_of value }
{}

/// Inlined views with zeroes after their values are ordered by order prefix, order tail and length
/// as the values are bytewise.
pub fn padded_views_are_ordered_as_their_values()
    ensures { (buffers others : List (List ℕ)) (v w : List ℕ) → IsZeroPadded v → IsZeroPadded w
        → by_words v w ≡ bytewise (view_value buffers v) (view_value others w) }
{}

/// Where the order prefixes of two values differ, the lower one belongs to the value that is
/// bytewise smaller.
pub fn lower_order_prefix_is_of_smaller_value()
    ensures { (a b : List ℕ) → AreBytes a → AreBytes b → order_prefix_of a < order_prefix_of b
        → bytewise a b ≡ Less }
{}

/// The bytewise order is decided at the first place where two values differ: there the smaller one
/// ends, or has the lower byte.
pub fn order_is_by_the_first_difference()
    ensures less { (a b : List ℕ) → (bytewise a b ≡ Less) ↔ IsSmaller a b }
    ensures equal { (a b : List ℕ) → (bytewise a b ≡ Equal) ↔ (a ≡ b) }
    ensures greater { (a b : List ℕ) → (bytewise a b ≡ Greater) ↔ IsSmaller b a }
{}

/// The bytewise order is what `cmp` of two slices of bytes answers.
pub fn bytewise_order_is_that_of_slices()
    ensures { (a b : List ℕ) → bytewise a b ≡ slice_cmp nat_cmp a b }
{}

/// The view of a value resolves and reads back the value, where the value stands at that offset of
/// that buffer.
pub fn view_of_a_value_reads_back()
    ensures resolves { (buffers : List (List ℕ)) (value : List ℕ) (block offset : ℕ)
        → length value < 2 ^ 32 → block < 2 ^ 32 → offset < 2 ^ 32
        → StandsAt buffers value block offset → Resolves buffers (view_of value block offset) }
    ensures reads_back { (buffers : List (List ℕ)) (value : List ℕ) (block offset : ℕ)
        → length value < 2 ^ 32 → block < 2 ^ 32 → offset < 2 ^ 32
        → StandsAt buffers value block offset
        → view_value buffers (view_of value block offset) ≡ value }
{}

/// The value of a sound view has the length that the view says, which a `u32` holds, and it has
/// only bytes where the buffers have.
pub fn values_of_sound_views_are_short()
    ensures length { (buffers : List (List ℕ)) (is_text : Bool) (view : List ℕ) → IsView view
        → IsSoundView buffers is_text view
        → length (view_value buffers view) ≡ view_size view }
    ensures short { (buffers : List (List ℕ)) (view : List ℕ) → IsView view
        → length (view_value buffers view) < 2 ^ 32 }
    ensures bytes { (buffers : List (List ℕ)) (view : List ℕ) → IsView view
        → ((block : ℕ) → AreBytes (slice_index_or buffers block []))
        → AreBytes (view_value buffers view) }
{}
