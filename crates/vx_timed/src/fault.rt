// Why the program stops.

use std::alloc::{AllocError, AllocFailed};
use std::io;
use vx_base::VortexError;

/// Why the program stops before its end.
#[derive(Debug, Drop)]
pub enum Fault {
    /// The arguments name no operation, or no number of runs.
    Usage,
    /// A call of the arrays refused.
    Refused(VortexError),
    /// There was no memory.
    Memory,
    /// The clock or the output failed.
    Io,
}

impl From<VortexError> for Fault {
    fn from(error: VortexError) -> Fault {
        Fault::Refused(error)
    }
}

impl From<AllocError> for Fault {
    fn from(_error: AllocError) -> Fault {
        Fault::Memory
    }
}

impl<T: Drop> From<AllocFailed<T>> for Fault {
    fn from(_error: AllocFailed<T>) -> Fault {
        Fault::Memory
    }
}

impl From<io::Error> for Fault {
    fn from(_error: io::Error) -> Fault {
        Fault::Io
    }
}
