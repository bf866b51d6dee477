// Runs a script line by line as it is read.

ghost use Rattle.std.specs.Prelude.{◌≡◌, ◌≤◌, ◌*◌, OnOk};
ghost use Rattle.std.specs.Io.KnownBytes.{Appends, IsAtEnd};
ghost use Rattle.vx_base.specs.declared.errors.VortexError.TheVariants.{Memory};
ghost use Rattle.vx_run.specs.declared.faults.LineFault.TheVariants.{Refused};
ghost use Rattle.vx_run.specs.declared.counted_reader.TheConstants.{MOST_READS};
ghost use Rattle.vx_run.specs.declared.script.TheConstants.{BLOCK_BYTES};
ghost use Rattle.vx_run.specs.declared.script.Stop.TheVariants.{Fault};
ghost use Rattle.vx_run.specs.Script.{ConsumesAtMost};
ghost use Rattle.vx_run.specs.Shown.{Grows};

use crate::command::parse_command;
use crate::counted_reader::{CountedReader, MOST_READS};
use crate::faults::LineFault;
use crate::line_buffer::LineBuffer;
use crate::output::write_whole;
use crate::registers::Registers;
use std::alloc::{AllocError, Global};
use std::io::{Cursor, Read, Write};

// How many bytes are asked for at a time.
const BLOCK_BYTES: usize = 65_536;

// Room for the longest line that tells a fault.
const FAULT_LINE_BYTES: usize = 64;

// Why a script stops before its end.
#[derive(Clone, Copy, Debug)]
enum Stop {
    // A fault at the line that is being read or run.
    Fault(LineFault),
    // The output could not be written.
    Output,
}

impl From<LineFault> for Stop {
    ghost from_gives = { λ fault stop. stop ≡ Fault fault };

    fn from(fault: LineFault) -> Stop {
        Stop::Fault(fault)
    }
}

impl From<AllocError> for Stop {
    ghost from_gives = { λ _ stop. stop ≡ Fault (Refused Memory) };

    fn from(error: AllocError) -> Stop {
        Stop::from(LineFault::from(error))
    }
}

/// Runs a script: reads its lines from `input`, runs each as soon as it is complete, and writes
/// what it prints to `output`, behind what stood there. The answer is an exit status: 0 where the
/// script ends without fault, which is only where the input is at its end, else 1.
///
/// Each command makes the next register, numbered from 0, save `show` and `parts`, which print a
/// line each. A fault in line n, counted from 1, writes `error n NAME` and ends the script. NAME
/// is `Syntax` where the line is not in the grammar, `NoRegister` where it names a register that
/// is not made yet, `Read` where the line could not be read, or the name of the refusal.
///
/// A line has at most 1,048,576 bytes without its line feed, and is `Syntax` as soon as it has
/// more. A failed read, also one that was interrupted, is `Read`, and so is a reader that has
/// answered 1,048,576 read calls without an end; each asks for 65,536 bytes, so no more than 2^36
/// are read. A failed write or flush, also one that was interrupted, ends the script at once, and
/// nothing more is written.
///
/// ```text
/// ints i32 1,2,3
/// ints u32 0,1
/// ints u32 3,2
/// listview 0 1 2 nonnull
/// show 3
/// ```
///
/// prints `[[1,2,3],[2,3]]`.
pub fn run_script<R: Read, W: Write>(alloc: Global, input: &mut R, output: &mut W) -> u8
    ensures status { result ≤ 1 }
    ensures ended { result ≡ 0 → IsAtEnd (R.remaining input.new) }
    ensures read { ConsumesAtMost (MOST_READS * BLOCK_BYTES)
        (R.remaining input.old) (R.remaining input.new) }
    ensures written { Grows (W.contents output.old) (W.contents output.new) }
{
    let mut script = Script::new(alloc);
    match script.run_all(alloc, &mut CountedReader::new(input), output) {
        Ok(()) => 0,
        Err(Stop::Fault(fault)) => {
            let _ = write_fault(script.line.number(), fault, output);
            1
        }
        Err(Stop::Output) => 1,
    }
}

// A script that is being run: the line that is being read and the arrays made so far.
#[derive(Drop)]
struct Script {
    line: LineBuffer,
    registers: Registers,
}

impl Script {
    // A script of which nothing was read yet.
    fn new(alloc: Global) -> Script {
        Script {
            line: LineBuffer::new(alloc),
            registers: Registers::new(alloc),
        }
    }

    // Reads the input to its end in blocks, and runs the lines of each.
    fn run_all<R: Read, W: Write>(
        &mut self,
        alloc: Global,
        input: &mut CountedReader<'_, R>,
        output: &mut W,
    ) -> Result<(), Stop>
        requires unread { input.old.reads ≡ 0 }
        ensures same_reference { input.new.input.ghost_name ≡ input.old.input.ghost_name }
        ensures ended { OnOk result (IsAtEnd (R.remaining input.new.input.now)) }
        ensures read { ConsumesAtMost (MOST_READS * BLOCK_BYTES)
            (R.remaining input.old.input.now) (R.remaining input.new.input.now) }
        ensures written { Grows (W.contents output.old) (W.contents output.new) }
    {
        let mut block = vec![in alloc; 0u8; BLOCK_BYTES]?;
        for _ in 0..MOST_READS {
            let count = input.read(block.as_mut_slice())?;
            if count == 0 {
                return self.run_line(alloc, output);
            }
            self.run_block(alloc, &block.as_slice()[..count], output)?;
        }
        Err(Stop::Fault(LineFault::Read))
    }

    // Runs the lines that end in a block, and keeps the beginning of the next.
    fn run_block<W: Write>(
        &mut self,
        alloc: Global,
        block: &[u8],
        output: &mut W,
    ) -> Result<(), Stop>
        ensures { Grows (W.contents output.old) (W.contents output.new) }
    {
        let mut rest = block;
        while let Some(end) = rest.iter().position(|byte| *byte == b'\n') {
            self.line.extend(&rest[..end])?;
            self.run_line(alloc, output)?;
            rest = &rest[end + 1..];
        }
        self.line.extend(rest)?;
        Ok(())
    }

    // Runs the line that was read, and goes on to the next.
    fn run_line<W: Write>(&mut self, alloc: Global, output: &mut W) -> Result<(), Stop>
        ensures { Grows (W.contents output.old) (W.contents output.new) }
    {
        if let Some(command) = parse_command(alloc, self.line.as_slice())? {
            if let Some(text) = self.registers.run(alloc, command)? {
                write_line(text.as_bytes(), output)?;
            }
        }
        self.line.advance();
        Ok(())
    }
}

// Writes a whole line, its line feed included. A write that was interrupted is not tried again.
fn write_line<W: Write>(line: &[u8], output: &mut W) -> Result<(), Stop>
    ensures whole { OnOk result (Appends (W.contents output.old) (W.contents output.new) line.now) }
    ensures grown { Grows (W.contents output.old) (W.contents output.new) }
{
    write_whole(line, output).map_err(|_| Stop::Output)?;
    output.flush().map_err(|_| Stop::Output)
}

// Writes the line that tells a fault. It takes no memory.
fn write_fault<W: Write>(number: u64, fault: LineFault, output: &mut W) -> Result<(), Stop>
    ensures { Grows (W.contents output.old) (W.contents output.new) }
{
    let mut line = Cursor::new([0u8; FAULT_LINE_BYTES]);
    let name = fault.name();
    if writeln!(line, "error {number} {name}").is_err() {
        return Err(Stop::Output);
    }
    let len = line.position().min(FAULT_LINE_BYTES as u64) as usize;
    write_line(&line.get_ref()[..len], output)
}
