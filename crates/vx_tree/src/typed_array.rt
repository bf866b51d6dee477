// Arrays of one layout.

ghost use Rattle.std.specs.Prelude.{◌≡◌, ◌==◌, Bool, true, false, IfOk, IfErr};
ghost use Rattle.vx_base.specs.DTypes.{dtype_meaning};
ghost use Rattle.vx_base.specs.Refusals.{Gives};
ghost use Rattle.vx_tree.specs.Tree.{Tree};
ghost use Rattle.vx_tree.specs.Meaning.{tree_len, kind_of};
ghost use Rattle.vx_tree.specs.Parts.{tree_of};

use crate::array::{ArrayRef, Layout};
use std::alloc::Global;
use vx_base::{DType, VortexError};

/// An array of one layout.
pub trait TypedArray: Sized {
    ghost as_tree: { Self → Tree };

    ghost has_layout: { Tree → Bool };

    /// Whether the layout is that of these arrays.
    fn is_layout(layout: &Layout) -> bool
        ensures { result ≡ has_layout (tree_of layout.now) };

    /// The array of an array of the layout, which is asked.
    fn from_array(array: ArrayRef) -> Self
        requires { has_layout array ≡ true }
        ensures { as_tree result ≡ array };

    /// The array, lent.
    fn as_array(&self) -> &ArrayRef
        ensures value { result.now ≡ as_tree self.now }
        ensures layout { has_layout result.now ≡ true };

    /// The array.
    fn into_array(self) -> ArrayRef
        ensures value { result ≡ as_tree self }
        ensures layout { has_layout result ≡ true };

    /// The array, where its layout is that of these arrays; else it comes back.
    final fn try_from_array(array: ArrayRef) -> Result<Self, ArrayRef>
        ensures own { IfOk result (λ a. (as_tree a ≡ array) × (has_layout array ≡ true)) }
        ensures other { IfErr result (λ a. (a ≡ array) × (has_layout array ≡ false)) }
    {
        if Self::is_layout(array.layout()) {
            Ok(Self::from_array(array))
        } else {
            Err(array)
        }
    }

    /// How many rows there are.
    final fn len(&self) -> usize
        ensures { result ≡ tree_len (as_tree self.now) }
    {
        self.as_array().len()
    }

    /// Whether there is no row.
    final fn is_empty(&self) -> bool
        ensures { result ≡ (tree_len (as_tree self.now) == 0) }
    {
        self.as_array().is_empty()
    }

    /// What the rows are.
    final fn dtype(&self) -> &DType
        ensures { dtype_meaning result.now ≡ kind_of (as_tree self.now) }
    {
        self.as_array().dtype()
    }

    /// The same array, its parts shared.
    final fn try_clone(&self, alloc: Global) -> Result<Self, VortexError>
        ensures { Gives result (λ a. as_tree a ≡ as_tree self.now) }
    {
        Ok(Self::from_array(self.as_array().try_clone(alloc)?))
    }
}
