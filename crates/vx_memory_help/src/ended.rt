// How a test ends.

use vx_base::VortexError;

/// How a test ends other than well. The sweep lets only the first two pass, and only where it
/// refused a request.
#[derive(Clone, Copy, Debug)]
pub enum End {
    /// A request was refused before or after the calls.
    Memory,
    /// A request of a call was refused: it answered so, and what it was lent is as it was.
    Refused,
    /// A call answered anything else, or what it was lent is changed.
    Wrong,
}

impl From<VortexError> for End {
    fn from(error: VortexError) -> End {
        match error {
            VortexError::Memory => End::Memory,
            _ => End::Wrong,
        }
    }
}

/// How calls ended that give this answer: whether all gave what they should. Beside it, whether
/// what they were lent is as it was.
pub fn judged(answer: Result<bool, VortexError>, is_kept: bool) -> Result<(), End> {
    match (answer, is_kept) {
        (Ok(true), true) => Ok(()),
        (Err(VortexError::Memory), true) => Err(End::Refused),
        _ => Err(End::Wrong),
    }
}
