// The line of a script that is being read.

ghost use Rattle.std.specs.Prelude.{◌≡◌, ◌+◌, ◌<◌, ◌≤◌, ◌++◌, [], length, Err, OnOk, OnErr};
ghost use Rattle.vx_run.specs.declared.line_buffer.TheConstants.{MOST_LINE_BYTES};
ghost use Rattle.vx_run.specs.declared.faults.LineFault.TheVariants.{Syntax};

use crate::faults::LineFault;
use std::alloc::Global;

// The most bytes that a line may have, without its line feed.
pub(crate) const MOST_LINE_BYTES: usize = 1_048_576;

// The line of a script that is being read: its number and its bytes so far.
#[derive(Debug, Drop)]
pub(crate) struct LineBuffer {
    number: u64,
    bytes: Vec<u8>,
    ghost within: { length bytes.items ≤ MOST_LINE_BYTES },
}

impl LineBuffer {
    // The first line of a script, of which nothing was read yet.
    pub(crate) fn new(alloc: Global) -> LineBuffer
        ensures number { result.number ≡ 1 }
        ensures empty { result.bytes.items ≡ [] }
    {
        LineBuffer {
            number: 1,
            bytes: Vec::new(alloc),
        }
    }

    // The line's number, from 1.
    pub(crate) fn number(&self) -> u64
        ensures { result ≡ self.now.number }
    {
        self.number
    }

    // The bytes of the line that were read so far.
    pub(crate) fn as_slice(&self) -> &[u8]
        ensures { result.now ≡ self.now.bytes.items }
    {
        self.bytes.as_slice()
    }

    // Adds bytes that were read.
    //
    // Refuses `Syntax` where the line would pass the length of a line, then memory.
    pub(crate) fn extend(&mut self, piece: &[u8]) -> Result<(), LineFault>
        ensures fits { OnOk result (length self.old.bytes.items + length piece.now ≤ MOST_LINE_BYTES) }
        ensures too_long { result ≡ Err Syntax → MOST_LINE_BYTES < length self.old.bytes.items + length piece.now }
        ensures added { OnOk result (self.new.bytes.items ≡ self.old.bytes.items ++ piece.now) }
        ensures kept { OnErr result (self.new.bytes.items ≡ self.old.bytes.items) }
        ensures number { self.new.number ≡ self.old.number }
    {
        if piece.len() > MOST_LINE_BYTES - self.bytes.len() {
            return Err(LineFault::Syntax);
        }
        self.bytes.extend_from_slice(piece)?;
        Ok(())
    }

    // Goes on to the next line, of which nothing was read yet.
    pub(crate) fn advance(&mut self)
        ensures { self.new.bytes.items ≡ [] }
    {
        self.bytes.clear();
        self.number = self.number.saturating_add(1);
    }
}
