// A reader that answers so many reads and no more.

ghost use Rattle.std.specs.Prelude.{◌≡◌, ◌+◌, ◌<◌, ◌≤◌, length, min, OnOk, IfOk};
ghost use Rattle.std.specs.Io.KnownBytes.{ReadConsumes};
ghost use Rattle.vx_run.specs.declared.counted_reader.TheConstants.{MOST_READS};

use crate::faults::LineFault;
use std::io::Read;

// The most read calls that a script makes.
pub(crate) const MOST_READS: usize = 1_048_576;

// The reader of a script, and how many read calls it has answered.
#[derive(Drop)]
pub(crate) struct CountedReader<'a, R> {
    input: &'a mut R,
    reads: usize,
    ghost within: { reads ≤ MOST_READS },
}

impl<'a, R: Read> CountedReader<'a, R> {
    // A reader that was not asked yet.
    pub(crate) fn new(input: &'a mut R) -> CountedReader<'a, R>
        ensures same_reference { result.input.ghost_name ≡ input.entry.ghost_name }
        ensures input { result.input.now ≡ input.old }
        ensures none { result.reads ≡ 0 }
    {
        CountedReader { input, reads: 0 }
    }

    // Makes one read call, and counts it, also where it fails. How many bytes it gave, none at the
    // end. Refuses `Read` where the call fails, also where it was interrupted, and, with no call,
    // where no more may be made.
    pub(crate) fn read(&mut self, block: &mut [u8]) -> Result<usize, LineFault>
        ensures same_reference { self.new.input.ghost_name ≡ self.old.input.ghost_name }
        ensures counted { self.new.reads ≡ min (self.old.reads + 1) MOST_READS }
        ensures allowed { OnOk result (self.old.reads < MOST_READS) }
        ensures bytes { ReadConsumes (R.remaining self.old.input.now) (R.remaining self.new.input.now)
            result block.new }
        ensures room { length block.new ≡ length block.old }
        ensures within { IfOk result (λ count. count ≤ length block.new) }
    {
        if self.reads == MOST_READS {
            return Err(LineFault::Read);
        }
        self.reads += 1;
        self.input.read(block).map_err(|_| LineFault::Read)
    }
}
