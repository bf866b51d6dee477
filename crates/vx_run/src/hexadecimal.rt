// Bytes as hexadecimal digits, two to a byte, after an `x`.

ghost use Rattle.std.specs.Prelude.{◌<◌, IfSome};

use crate::faults::LineFault;
use std::alloc::Global;
use vx_base::{ByteBuffer, VortexError};

// The bytes that a word writes. Refuses `Syntax` where it is not `x` and an even count of digits.
pub(crate) fn read_bytes(alloc: Global, word: &[u8]) -> Result<ByteBuffer, LineFault> {
    let mut bytes = Vec::with_capacity(alloc, word.len() / 2)?;
    append_bytes(word, &mut bytes)?;
    Ok(ByteBuffer::from_vec(alloc, bytes)?)
}

// Adds the bytes that a word writes. Refuses as `read_bytes` does.
pub(crate) fn append_bytes(word: &[u8], bytes: &mut Vec<u8>) -> Result<(), LineFault> {
    let [b'x', digits @ ..] = word else {
        return Err(LineFault::Syntax);
    };
    if digits.len() % 2 != 0 {
        return Err(LineFault::Syntax);
    }
    for pair in digits.chunks_exact(2) {
        bytes.push(byte_of(pair).ok_or(LineFault::Syntax)?)?;
    }
    Ok(())
}

// Adds these bytes to a text.
pub(crate) fn write_bytes(bytes: &[u8], text: &mut String) -> Result<(), VortexError> {
    text.push('x')?;
    for byte in bytes {
        let byte = *byte;
        write!(text, "{byte:02x}")?;
    }
    Ok(())
}

// The byte of two digits, or `None` where there are no two digits.
fn byte_of(pair: &[u8]) -> Option<u8> {
    let [high, low] = pair else {
        return None;
    };
    Some(16 * digit_value(*high)? + digit_value(*low)?)
}

// The value of a digit of either case, or `None` where it is none.
fn digit_value(digit: u8) -> Option<u8>
    ensures { IfSome result (λ value. value < 16) }
{
    match digit {
        b'0'..=b'9' => Some(digit - b'0'),
        b'a'..=b'f' => Some(digit - b'a' + 10),
        b'A'..=b'F' => Some(digit - b'A' + 10),
        _ => None,
    }
}
