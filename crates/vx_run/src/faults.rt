// Why a script ends at a line.

ghost use Rattle.std.specs.Prelude.{◌≡◌};
ghost use Rattle.vx_run.specs.declared.faults.LineFault.TheVariants.{Refused};
ghost use Rattle.vx_base.specs.declared.errors.VortexError.TheVariants.{Memory};

use std::alloc::{AllocError, AllocFailed};
use vx_base::VortexError;

// Why a script ends at a line.
#[derive(Clone, Copy, Debug, PartialEq, Eq)]
pub(crate) enum LineFault {
    // The line is not in the grammar of the script language.
    Syntax,
    // The line names a register that is not made yet.
    NoRegister,
    // The line could not be read.
    Read,
    // The call that the line makes is refused.
    Refused(VortexError),
}

impl LineFault {
    // The name that the script prints.
    pub(crate) fn name(&self) -> &'static str {
        match self {
            LineFault::Syntax => "Syntax",
            LineFault::NoRegister => "NoRegister",
            LineFault::Read => "Read",
            LineFault::Refused(error) => error.name(),
        }
    }
}

impl From<VortexError> for LineFault {
    ghost from_gives = { λ error fault. fault ≡ Refused error };

    fn from(error: VortexError) -> LineFault {
        LineFault::Refused(error)
    }
}

impl From<AllocError> for LineFault {
    ghost from_gives = { λ _ fault. fault ≡ Refused Memory };

    fn from(_error: AllocError) -> LineFault {
        LineFault::Refused(VortexError::Memory)
    }
}

impl<T: Drop> From<AllocFailed<T>> for LineFault {
    ghost from_gives = { λ _ fault. fault ≡ Refused Memory };

    fn from(_error: AllocFailed<T>) -> LineFault {
        LineFault::Refused(VortexError::Memory)
    }
}
