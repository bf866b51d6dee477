// The first rows of an array, written as text.

ghost use Rattle.std.specs.Prelude.{◌≡◌, IfErr};
ghost use Rattle.std.specs.Io.KnownBytes.{Keeps};
ghost use Rattle.vx_run.specs.declared.written_rows.WriteFault.TheVariants.{Memory, Output};
ghost use Rattle.vx_run.specs.Shown.{Grows};

use crate::output::write_whole;
use crate::show::{separate, show_rows};
use std::alloc::Global;
use std::io;
use std::io::Write;
use vx_base::VortexError;
use vx_tree::ArrayRef;

/// Why rows were not written, or not all of them.
#[derive(Debug, Drop)]
pub enum WriteFault {
    /// Memory for their text was refused. Nothing was written.
    Memory,
    /// The output failed. The first bytes of their text may have been written.
    Output(io::Error),
}

impl From<io::Error> for WriteFault {
    ghost from_gives = { λ error fault. fault ≡ Output error };

    fn from(error: io::Error) -> WriteFault {
        WriteFault::Output(error)
    }
}

/// Writes the rows of an array as a script shows them, at most `limit` of them: `[1,2,null]`. Where
/// there are more, two dots stand for them, and how many rows there are follows: of 1000 rows and a
/// limit of 2 `[1,2,..] of 1000`, of 5 rows and a limit of 0 `[..] of 5`. Of no rows `[]`.
///
/// Texts and byte lists are written by their bytes, as `x6869`, and records as `{a:1,b:[2,3]}`. No
/// line feed follows, and the output is not flushed. Only the rows that are written are looked at.
///
/// Fails with `Memory` before anything is written, or with `Output` where a write fails. One that
/// was interrupted is not tried again, and one that takes no byte is a failure.
pub fn write_rows<W: Write>(
    alloc: Global,
    array: &ArrayRef,
    limit: usize,
    output: &mut W,
) -> Result<(), WriteFault>
    ensures grown { Grows (W.contents output.old) (W.contents output.new) }
    ensures kept { IfErr result (λ fault. fault ≡ Memory → Keeps (W.contents output.old) (W.contents output.new)) }
{
    let Ok(text) = first_rows(alloc, array, limit) else {
        return Err(WriteFault::Memory);
    };
    write_whole(text.as_bytes(), output)?;
    Ok(())
}

// The first rows as text, and how many there are where there are more.
fn first_rows(alloc: Global, array: &ArrayRef, limit: usize) -> Result<String, VortexError> {
    let mut text = String::new(alloc);
    let len = array.len();
    let shown = len.min(limit);
    text.push('[')?;
    show_rows(alloc, array, 0, shown, &mut text)?;
    if shown < len {
        separate(shown, &mut text)?;
        write!(text, "..] of {len}")?;
    } else {
        text.push(']')?;
    }
    Ok(text)
}
