// The arrays of the nodes that were read.

ghost use Rattle.std.specs.Prelude.{◌≡◌, [], ◌∷◌, IfOk, IfErr, length, take, drop, ◌≤◌, ◌++◌};
ghost use Rattle.vx_c.specs.declared.faults.NodeError.TheVariants.{MissingNodes};

use crate::faults::NodeError;
use std::alloc::{AllocFailed, Global};
use std::marker::Model;
use vx_tree::ArrayRef;

// Arrays that are no parts yet, the array of the nearest node on top.
#[derive(Drop)]
pub(crate) struct Stack {
    arrays: Vec<ArrayRef>,
}

impl Model for Stack {
    ghost use Rattle.std.specs.Prelude.{List, reverse};
    ghost use Rattle.std.specs.Coded.{coded_list};
    ghost use Rattle.vx_tree.specs.Tree.{Tree, tree_code};

    ghost Value = { List Tree };

    ghost coded = { coded_list tree_code };

    ghost view = { λ s. reverse s.arrays.items };
}

impl Stack {
    // No array.
    pub(crate) fn new(alloc: Global) -> Stack
        ensures { result ≡ [] }
    {
        Stack {
            arrays: Vec::new(alloc),
        }
    }

    // How many arrays there are.
    pub(crate) fn len(&self) -> usize
        ensures { result ≡ length self.now }
    {
        self.arrays.len()
    }

    // Puts an array on top. Fails only for want of memory.
    pub(crate) fn push(&mut self, array: ArrayRef) -> Result<(), AllocFailed<ArrayRef>>
        ensures { IfOk result (λ _. self.new ≡ array ∷ self.old) }
    {
        self.arrays.push(array)
    }

    // Takes the array on top. Refuses `MissingNodes` where there is none.
    pub(crate) fn pop(&mut self) -> Result<ArrayRef, NodeError>
        ensures ok { IfOk result (λ array. self.old ≡ array ∷ self.new) }
        ensures err { IfErr result (λ e. (self.old ≡ []) × (e ≡ MissingNodes)) }
    {
        self.arrays.pop().ok_or(NodeError::MissingNodes)
    }
}
