// Why a table is refused, and how C is told.

ghost use Rattle.std.specs.Prelude.{◌≡◌, ◌<◌};
ghost use Rattle.vx_c.specs.Runs.{no_run_fault, run_want_of_memory, run_fault_at, run_as_told, told_of_run};
ghost use Rattle.vx_c.specs.declared.faults.RunError.TheVariants.{Memory as memory};
ghost use Rattle.vx_base.specs.declared.errors.VortexError.TheVariants.{Memory};
ghost use Rattle.vx_c.specs.declared.faults.NodeError.TheVariants.{Refused};
ghost use Rattle.vx_c.specs.Answers.{no_fault, want_of_memory, fault_at, as_told, told_of};
ghost use Rattle.vx_c.specs.Answers.{error_place, node_error_number, node_error_place};

use std::alloc::{AllocError, AllocFailed};
use vx_base::VortexError;

/// The first fault of a table. Where there is none, and where memory was refused, all but the
/// number is 0.
#[repr(C)]
#[derive(Clone, Copy, Debug, PartialEq, Eq)]
pub struct CodraskFault {
    /// The number of the fault, 0 where there is none, 1 where memory was refused.
    pub number: u32,
    /// The node that has it, counted from 0.
    pub node: usize,
    /// The row that has it, the position that lies past a length, or which name of a record is no
    /// text; else 0.
    pub place: usize,
}

/// Why a run is refused. Where it is not, and where memory was refused, all but the number is 0.
#[repr(C)]
#[derive(Clone, Copy, Debug, PartialEq, Eq)]
pub struct CodraskRunFault {
    /// The number of the fault, 0 where there is none, 1 where memory was refused.
    pub number: u32,
    /// Which part of the run has it: 0 none that can be told, 1 a table, 2 a step, 3 a result.
    pub part: u32,
    /// Which table, step or result, counted from 0.
    pub which: usize,
    /// The node of the table that has it, else 0.
    pub node: usize,
    /// The row that has it, the position that lies past a length, or which name, of a record or of
    /// those that a step chooses, is no text; else 0.
    pub place: usize,
}

// Why a node or a step is refused, or a table or a list of steps.
#[derive(Clone, Copy, Debug, PartialEq, Eq)]
pub(crate) enum NodeError {
    // No kind has the number.
    UnknownKind,
    // No validity has the number, or a dictionary has one of its own.
    BadValidity,
    // The nodes that follow are fewer arrays than the node has parts.
    MissingNodes,
    // The nodes are no array, or several.
    NotOneArray,
    // There are more nodes than a table may have.
    TooManyNodes,
    // No step of the kind has the mode.
    BadMode,
    // There are more steps than a run may have.
    TooManySteps,
    // The parts are refused.
    Refused(VortexError),
}

// Why a run is refused.
#[derive(Clone, Copy, Debug, PartialEq, Eq)]
pub(crate) enum RunError {
    // There was no memory for the lists of a run.
    Memory,
    // A table is no column: its fault, at a node.
    Table(usize, usize, NodeError),
    // A step is none.
    Form(usize, NodeError),
    // A step is refused by the arrays before it.
    Step(usize, VortexError),
    // An array that is asked for is refused.
    Result(usize, NodeError),
}

impl NodeError {
    // The number that C is told: that of a refusal, or one from 32 on.
    fn number(&self) -> u32
        ensures { result ≡ node_error_number self.now }
    {
        match self {
            NodeError::UnknownKind => 32,
            NodeError::BadValidity => 33,
            NodeError::MissingNodes => 34,
            NodeError::NotOneArray => 35,
            NodeError::TooManyNodes => 36,
            NodeError::BadMode => 37,
            NodeError::TooManySteps => 38,
            NodeError::Refused(error) => u32::from(error.number()),
        }
    }

    // The row or the position that the fault names, else 0.
    fn place(&self) -> usize
        ensures { result ≡ node_error_place self.now }
    {
        match self {
            NodeError::Refused(error) => place_of(error),
            _ => 0,
        }
    }
}

// The row or the position that a refusal names, else 0.
fn place_of(error: &VortexError) -> usize
    ensures { result ≡ error_place error.now }
{
    match *error {
        VortexError::OutOfBounds { index, .. } => index,
        VortexError::Negative { row }
        | VortexError::NotUtf8 { row }
        | VortexError::BadBuffer { row }
        | VortexError::BadStart { row }
        | VortexError::BadEnd { row }
        | VortexError::BadPrefix { row }
        | VortexError::ValueTooLong { row }
        | VortexError::FallingOffsets { row }
        | VortexError::PatchOutOfRange { row } => row,
        _ => 0,
    }
}

impl CodraskFault {
    // That there is no fault.
    fn none() -> CodraskFault
        ensures { result ≡ no_fault }
    {
        CodraskFault {
            number: 0,
            node: 0,
            place: 0,
        }
    }

    // That memory was refused.
    fn want_of_memory() -> CodraskFault
        ensures { result ≡ want_of_memory }
    {
        CodraskFault {
            number: 1,
            node: 0,
            place: 0,
        }
    }

    // An error at a node.
    fn at(node: usize, error: &NodeError) -> CodraskFault
        ensures { result ≡ fault_at node error.now }
    {
        CodraskFault {
            number: error.number(),
            node,
            place: error.place(),
        }
    }

    // Where memory was refused, that alone.
    fn as_told(self) -> CodraskFault
        ensures { result ≡ as_told self }
    {
        if self.number == 1 {
            CodraskFault::want_of_memory()
        } else {
            self
        }
    }
}

// What C is told of a table that was read, or of the node that is refused.
pub(crate) fn told(read: Result<(), (usize, NodeError)>) -> CodraskFault
    ensures { result ≡ told_of read }
{
    match read {
        Ok(()) => CodraskFault::none(),
        Err((node, error)) => CodraskFault::at(node, &error).as_told(),
    }
}

impl CodraskRunFault {
    // That there is no fault.
    pub(crate) fn none() -> CodraskRunFault
        ensures { result ≡ no_run_fault }
    {
        CodraskRunFault {
            number: 0,
            part: 0,
            which: 0,
            node: 0,
            place: 0,
        }
    }

    // That memory was refused.
    fn want_of_memory() -> CodraskRunFault
        ensures { result ≡ run_want_of_memory }
    {
        CodraskRunFault {
            number: 1,
            part: 0,
            which: 0,
            node: 0,
            place: 0,
        }
    }

    // Where memory was refused, that alone.
    fn as_told(self) -> CodraskRunFault
        ensures { result ≡ run_as_told self }
    {
        if self.number == 1 {
            CodraskRunFault::want_of_memory()
        } else {
            self
        }
    }
}

// What C is told of a run that is refused.
#[tactic(auto, using(crate::proofs::RunFaults::told_some))]
pub(crate) fn told_of_run(error: RunError) -> CodraskRunFault
    ensures told { result ≡ told_of_run error }
    ensures some { 0 < result.number }
{
    run_fault_at(error).as_told()
}

// An error, with its part of the run and its place there.
fn run_fault_at(error: RunError) -> CodraskRunFault
    ensures { result ≡ run_fault_at error }
{
    let (part, which, node) = match error {
        RunError::Memory => (0, 0, 0),
        RunError::Table(which, node, _) => (1, which, node),
        RunError::Form(which, _) | RunError::Step(which, _) => (2, which, 0),
        RunError::Result(which, _) => (3, which, 0),
    };
    let (number, place) = match error {
        RunError::Memory => (1, 0),
        RunError::Step(_, error) => (u32::from(error.number()), place_of(&error)),
        RunError::Table(_, _, error) | RunError::Form(_, error) | RunError::Result(_, error) => {
            (error.number(), error.place())
        }
    };
    CodraskRunFault {
        number,
        part,
        which,
        node,
        place,
    }
}

impl From<AllocError> for RunError {
    ghost from_gives = { λ _ error. error ≡ memory };

    fn from(_error: AllocError) -> RunError {
        RunError::Memory
    }
}

impl<T: Drop> From<AllocFailed<T>> for RunError {
    ghost from_gives = { λ _ error. error ≡ memory };

    fn from(_error: AllocFailed<T>) -> RunError {
        RunError::Memory
    }
}

impl From<VortexError> for NodeError {
    ghost from_gives = { λ error node_error. node_error ≡ Refused error };

    fn from(error: VortexError) -> NodeError {
        NodeError::Refused(error)
    }
}

impl From<AllocError> for NodeError {
    ghost from_gives = { λ _ node_error. node_error ≡ Refused Memory };

    fn from(_error: AllocError) -> NodeError {
        NodeError::Refused(VortexError::Memory)
    }
}

impl<T: Drop> From<AllocFailed<T>> for NodeError {
    ghost from_gives = { λ _ node_error. node_error ≡ Refused Memory };

    fn from(_error: AllocFailed<T>) -> NodeError {
        NodeError::Refused(VortexError::Memory)
    }
}
