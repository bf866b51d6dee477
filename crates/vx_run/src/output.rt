// Bytes that are written whole.

ghost use Rattle.std.specs.Prelude.{OnOk};
ghost use Rattle.std.specs.Io.KnownBytes.{Appends};
ghost use Rattle.vx_run.specs.Shown.{Grows};

use std::io;
use std::io::{ErrorKind, Write};

// Writes all bytes. A write that was interrupted is not tried again, and one that takes no byte is
// a failure.
pub(crate) fn write_whole<W: Write>(bytes: &[u8], output: &mut W) -> io::Result<()>
    ensures whole { OnOk result (Appends (W.contents output.old) (W.contents output.new) bytes.now) }
    ensures grown { Grows (W.contents output.old) (W.contents output.new) }
{
    let mut rest = bytes;
    while !rest.is_empty() {
        let count = output.write(rest)?;
        if count == 0 {
            return Err(io::Error::from(ErrorKind::WriteZero));
        }
        rest = &rest[count..];
    }
    Ok(())
}
