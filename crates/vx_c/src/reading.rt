// A table of nodes, read from its last node to its first.

ghost use Rattle.std.specs.Prelude.{◌≡◌, ◌⊎◌, Ok, IfOk, IfErr, IsSome};
ghost use Rattle.vx_tree.specs.Parts.{valid_of};
ghost use Rattle.vx_c.specs.declared.faults.NodeError.TheVariants.{UnknownKind, NotOneArray};
ghost use Rattle.vx_c.specs.NodeKinds.{kind_numbered};
ghost use Rattle.vx_c.specs.Answers.{IsFaultOf, IsTableFault, IsRead, IsLastKnown, IsEarly, TakesMemory};
ghost use Rattle.vx_c.specs.Tables.{node_made, valid_of_number, arrays_from, only, column_of, table_fault};

use crate::faults::NodeError;
use crate::layouts::array_of;
use crate::passing::{is_plain, passes};
use crate::stack::Stack;
use crate::table::{CodraskNode, NodeKind};
use std::alloc::Global;
use vx_base::VortexError;
use vx_tree::{ArrayRef, Validity};

// The most nodes of a table: of so many no nest is too deep for the stack.
pub(crate) const MAX_NODES: usize = 4096;

// Whether a table is a column: where that is not known without arrays, they are made.
pub(crate) fn check(alloc: Global, nodes: &[CodraskNode<'_>]) -> Result<(), (usize, NodeError)>
    ensures read { IsRead result (table_fault nodes.now) }
    ensures early { IfErr result (λ fault. IsEarly fault.1 ⊎ TakesMemory nodes.now) }
{
    if is_plain(nodes) && passes(alloc, nodes) {
        return Ok(());
    }
    match column(alloc, nodes) {
        Ok(_) => Ok(()),
        Err(first) => Err(first),
    }
}

// The column that a table is. Refuses its first fault, from the last node to the first.
#[tactic(auto, using(crate::proofs::EarlyFaults::early))]
pub(crate) fn column(
    alloc: Global,
    nodes: &[CodraskNode<'_>],
) -> Result<ArrayRef, (usize, NodeError)>
    ensures ok { IfOk result (λ array. column_of nodes.now ≡ Ok array) }
    ensures err { IfErr result (λ fault. IsTableFault fault (column_of nodes.now)) }
    ensures early { IfErr result (λ fault. IsEarly fault.1 ⊎ TakesMemory nodes.now) }
{
    if MAX_NODES < nodes.len() {
        return Err((0, NodeError::TooManyNodes));
    }
    match arrays_of(alloc, nodes) {
        Ok(stack) => only_array(stack),
        Err(fault) => Err(fault),
    }
}

// The array that is the only one. Refuses `NotOneArray` where it is not.
fn only_array(mut stack: Stack) -> Result<ArrayRef, (usize, NodeError)>
    ensures ok { IfOk result (λ array. only (Ok stack) ≡ Ok array) }
    ensures err { IfErr result (λ fault. IsTableFault fault (only (Ok stack))) }
    ensures early { IfErr result (λ fault. fault.1 ≡ NotOneArray) }
{
    if stack.len() != 1 {
        return Err((0, NodeError::NotOneArray));
    }
    match stack.pop() {
        Ok(array) => Ok(array),
        Err(error) => Err((0, error)),
    }
}

// The arrays of all nodes that are parts of none, the first one on top.
fn arrays_of(alloc: Global, nodes: &[CodraskNode<'_>]) -> Result<Stack, (usize, NodeError)>
    ensures ok { IfOk result (λ stack. arrays_from 0 nodes.now ≡ Ok stack) }
    ensures err { IfErr result (λ fault. IsTableFault fault (arrays_from 0 nodes.now)) }
    ensures early { IfErr result (λ fault. (fault.1 ≡ UnknownKind) ⊎ IsLastKnown nodes.now) }
{
    let mut stack = Stack::new(alloc);
    for read in 0..nodes.len() {
        let i = nodes.len() - read - 1;
        if let Err(error) = push_node(alloc, &nodes[i], &mut stack) {
            return Err((i, error));
        }
    }
    Ok(stack)
}

// Puts the array of a node on top, in place of those that are its parts.
#[tactic(auto, using(crate::proofs::EarlyFaults::kind_some))]
fn push_node(alloc: Global, node: &CodraskNode<'_>, stack: &mut Stack) -> Result<(), NodeError>
    ensures ok { IfOk result (λ _. node_made node.now stack.old ≡ Ok stack.new) }
    ensures err { IfErr result (λ e. IsFaultOf e (node_made node.now stack.old)) }
    ensures early { IfErr result (λ e. (e ≡ UnknownKind) ⊎ IsSome (kind_numbered node.now.kind)) }
{
    let kind = NodeKind::numbered(node.kind).ok_or(NodeError::UnknownKind)?;
    let validity = validity_numbered(node.validity, stack)?;
    let array = array_of(alloc, kind, node, validity, stack)?;
    if array.len() != node.length {
        return Err(NodeError::Refused(VortexError::LengthMismatch {
            expected: node.length,
            found: array.len(),
        }));
    }
    stack.push(array)?;
    Ok(())
}

// The validity of this number, of which 3 takes the array on top.
fn validity_numbered(number: u32, stack: &mut Stack) -> Result<Validity, NodeError>
    ensures ok { IfOk result (λ v. valid_of_number number stack.old ≡ Ok (valid_of v, stack.new)) }
    ensures err { IfErr result (λ e. IsFaultOf e (valid_of_number number stack.old)) }
{
    match number {
        0 => Ok(Validity::NonNullable),
        1 => Ok(Validity::AllValid),
        2 => Ok(Validity::AllInvalid),
        3 => Ok(Validity::Array(stack.pop()?)),
        _ => Err(NodeError::BadValidity),
    }
}
