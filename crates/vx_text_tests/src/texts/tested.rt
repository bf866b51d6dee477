// Which items are text: at each length up to 130 bytes, as the table of UTF-8's sequences tells.

use super::{TEXTS, is_value};
use std::alloc::Global;
use vx_base::VortexError;
use vx_text::VarBinViewArray;

// Letters of two to four bytes, the least and the greatest of each kind among them.
const LETTERS: [&[u8]; 11] = [
    b"\xC2\x80",
    b"\xC3\xA9",
    b"\xDF\xBF",
    b"\xE0\xA0\x80",
    b"\xE4\xB8\xAD",
    b"\xED\x9F\xBF",
    b"\xEE\x80\x80",
    b"\xEF\xBF\xBF",
    b"\xF0\x90\x80\x80",
    b"\xF0\x9F\x98\x80",
    b"\xF4\x8F\xBF\xBF",
];

// Bytes that stand in no text: letters that are cut, written with too many bytes, one of a pair, or
// too great, and bytes that begin none.
const FAULTS: [&[u8]; 19] = [
    b"\xC3",
    b"\xE4\xB8",
    b"\xE4",
    b"\xF0\x9F\x98",
    b"\xF0\x9F",
    b"\xF0",
    b"\x80",
    b"\x80\x80\x80\x80",
    b"\xBF",
    b"\xC3\xA9\xA9",
    b"\xC0\x80",
    b"\xC1\xBF",
    b"\xE0\x9F\xBF",
    b"\xED\xA0\x80",
    b"\xED\xBF\xBF",
    b"\xF0\x8F\xBF\xBF",
    b"\xF4\x90\x80\x80",
    b"\xF5\x80\x80\x80",
    b"\xFF",
];

// Lengths on both sides of those from which on items are tested otherwise.
const LENGTHS: [usize; 17] = [1, 2, 3, 4, 5, 7, 8, 9, 15, 16, 17, 31, 32, 33, 63, 64, 65];

// Whether bytes are UTF-8: each letter begins with a byte of the table, so many bytes follow, and
// the second lies in a range of its own.
fn is_well_formed(bytes: &[u8]) -> bool {
    let (mut left, mut least, mut most) = (0u8, 0x80u8, 0xBFu8);
    for byte in bytes {
        if left > 0 {
            if *byte < least || *byte > most {
                return false;
            }
            (left, least, most) = (left - 1, 0x80, 0xBF);
            continue;
        }
        (left, least, most) = match *byte {
            0..=0x7F => (0, 0x80, 0xBF),
            0xC2..=0xDF => (1, 0x80, 0xBF),
            0xE0 => (2, 0xA0, 0xBF),
            0xED => (2, 0x80, 0x9F),
            0xE1..=0xEF => (2, 0x80, 0xBF),
            0xF0 => (3, 0x90, 0xBF),
            0xF1..=0xF3 => (3, 0x80, 0xBF),
            0xF4 => (3, 0x80, 0x8F),
            _ => return false,
        };
    }
    left == 0
}

// Whether an item is taken where it is text, and refused where it is not.
fn is_told(alloc: Global, bytes: &[u8]) -> bool {
    let is_text = is_well_formed(bytes);
    let items = [Some(bytes)];
    match VarBinViewArray::from_iter(alloc, items.iter().copied(), TEXTS) {
        Ok(array) => is_text && is_value(&array, 0, bytes),
        Err(VortexError::NotUtf8 { row }) => !is_text && row == 0,
        Err(_) => false,
    }
}

// So many bytes, with others from a place on, as far as there is room.
fn with_bytes_at(
    alloc: Global,
    len: usize,
    place: usize,
    others: &[u8],
) -> Result<Vec<u8>, VortexError> {
    let mut bytes = Vec::new(alloc);
    for at in 0..len {
        let other = if at < place {
            None
        } else {
            others.get(at - place)
        };
        bytes.push(other.copied().unwrap_or(b'a'))?;
    }
    Ok(bytes)
}

// Whether items of a length are told, with these bytes at each place.
fn are_told_at_each_place(alloc: Global, len: usize, others: &[u8]) -> Result<bool, VortexError> {
    for place in 0..=len {
        let bytes = with_bytes_at(alloc, len, place, others)?;
        if !is_told(alloc, &bytes) {
            return Ok(false);
        }
    }
    Ok(true)
}

// Whether items of up to 130 bytes are told, with these bytes at each place.
fn are_told_at_each_length(alloc: Global, others: &[u8]) -> Result<bool, VortexError> {
    for len in 0..131 {
        if !are_told_at_each_place(alloc, len, others)? {
            return Ok(false);
        }
    }
    Ok(true)
}

// The same, of some lengths alone.
fn are_told_at_some_lengths(alloc: Global, others: &[u8]) -> Result<bool, VortexError> {
    for len in LENGTHS {
        if !are_told_at_each_place(alloc, len, others)? {
            return Ok(false);
        }
    }
    Ok(true)
}

// The letter 130 times.
fn letters_of(alloc: Global, letter: &[u8]) -> Result<Vec<u8>, VortexError> {
    let mut letters = Vec::new(alloc);
    for _ in 0..130 {
        letters.extend_from_slice(letter)?;
    }
    Ok(letters)
}

// Whether items of such letters alone are told, of which the first and the last may be cut.
fn are_told_in_a_row(alloc: Global, letter: &[u8]) -> Result<bool, VortexError> {
    let letters = letters_of(alloc, letter)?;
    for end in 0..131 {
        let cut = letters.get(end.min(5)..end).unwrap_or(&[]);
        let whole = letters.get(..end).unwrap_or(&[]);
        if !is_told(alloc, whole) || !is_told(alloc, cut) {
            return Ok(false);
        }
    }
    Ok(true)
}

#[test]
fn letters_are_in_the_table(rt: HostRuntime) {
    for letter in LETTERS {
        assert!(rt; is_well_formed(letter) && std::str::from_utf8(letter).is_ok());
    }
}

#[test]
fn faults_are_not_in_the_table(rt: HostRuntime) {
    for fault in FAULTS {
        assert!(rt; !is_well_formed(fault) && std::str::from_utf8(fault).is_err());
    }
}

#[test]
fn items_with_a_letter_at_each_place(rt: HostRuntime) {
    for letter in LETTERS {
        assert!(rt; are_told_at_some_lengths(rt.alloc(), letter).expect(&rt, "made"));
    }
}

#[test]
fn items_with_a_fault_at_each_place(rt: HostRuntime) {
    for fault in FAULTS {
        assert!(rt; are_told_at_some_lengths(rt.alloc(), fault).expect(&rt, "made"));
    }
}

#[test]
fn items_with_each_byte_at_each_place(rt: HostRuntime) {
    for byte in 128..=255u8 {
        assert!(rt; are_told_at_some_lengths(rt.alloc(), &[byte]).expect(&rt, "made"));
    }
}

#[test]
fn items_of_each_length(rt: HostRuntime) {
    let others: [&[u8]; 5] = [
        b"\xC3\xA9",
        b"\xE4\xB8\xAD",
        b"\xF0\x9F\x98\x80",
        b"\xE4\xB8",
        b"\x80",
    ];
    for bytes in others {
        assert!(rt; are_told_at_each_length(rt.alloc(), bytes).expect(&rt, "made"));
    }
}

#[test]
fn items_of_letters_alone(rt: HostRuntime) {
    for letter in LETTERS {
        assert!(rt; are_told_in_a_row(rt.alloc(), letter).expect(&rt, "made"));
    }
}
