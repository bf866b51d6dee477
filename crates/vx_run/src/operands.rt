// The kinds of word that a command takes.

ghost use Rattle.std.specs.Prelude.{◌≡◌, ◌⊎◌, ◌≤◌, ◌^◌, IfSome, MatchOption};
ghost use Rattle.vx_base.specs.Integers.{Holds};
ghost use Rattle.vx_run.specs.Words.{IsDecimal, IsNumber, IsNoNumber, IsInteger, IsNoInteger, IsNoIntegerOf, decimal};

use crate::words::{decimal_value, is_decimal};
use vx_base::{DType, NativePType, Nullability, PType};

// The most digits that a number of a type may have.
const MOST_DIGITS: usize = 20;

// The data type that a word names, or `None` where it names none: an integer type, `bool`, `utf8`
// or `binary`, followed by `?` where a row may be null.
pub(crate) fn dtype_named(word: &[u8]) -> Option<DType> {
    let (name, nullability) = match word {
        [name @ .., b'?'] => (name, Nullability::Nullable),
        name => (name, Nullability::NonNullable),
    };
    let ptype = match name {
        b"u8" => PType::U8,
        b"u16" => PType::U16,
        b"u32" => PType::U32,
        b"u64" => PType::U64,
        b"i8" => PType::I8,
        b"i16" => PType::I16,
        b"i32" => PType::I32,
        b"i64" => PType::I64,
        b"bool" => return Some(DType::Bool(nullability)),
        b"utf8" => return Some(DType::Utf8(nullability)),
        b"binary" => return Some(DType::Binary(nullability)),
        _ => return None,
    };
    Some(DType::Primitive(ptype, nullability))
}

// A register, by the number that a word of decimal digits writes, however large.
#[derive(Clone, Copy, Debug, PartialEq, Eq)]
pub(crate) struct RegisterWord {
    number: Option<usize>,
}

impl RegisterWord {
    // The register that a word names, or `None` where the word is not decimal digits alone.
    pub(crate) fn from_word(word: &[u8]) -> Option<RegisterWord>
        ensures { MatchOption result (¬ IsDecimal word.now) (λ register.
            MatchOption register.number (2 ^ 64 ≤ decimal word.now) (λ number. number ≡ decimal word.now)) }
    {
        if !is_decimal(word) {
            return None;
        }
        Some(RegisterWord {
            number: decimal_value(word),
        })
    }

    // The register's number, or `None` where it passes every count of registers.
    pub(crate) fn number(self) -> Option<usize>
        ensures { result ≡ self.number }
    {
        self.number
    }
}

// Which rows are null: `nonnull`, `allvalid`, `allinvalid` or a register.
#[derive(Clone, Copy, Debug, PartialEq, Eq)]
pub(crate) enum ValidityWord {
    NonNull,
    AllValid,
    AllInvalid,
    Register(RegisterWord),
}

impl ValidityWord {
    // The validity that a word names, or `None` where it names none.
    pub(crate) fn from_word(word: &[u8]) -> Option<ValidityWord> {
        match word {
            b"nonnull" => Some(ValidityWord::NonNull),
            b"allvalid" => Some(ValidityWord::AllValid),
            b"allinvalid" => Some(ValidityWord::AllInvalid),
            _ => RegisterWord::from_word(word).map(ValidityWord::Register),
        }
    }
}

// The name of a field that a word writes, or `None` where the word is not ASCII letters, digits and
// `_` alone, at least one.
pub(crate) fn field_name(word: &[u8]) -> Option<&str>
    ensures { IfSome result (λ name. name.now ≡ word.now) }
{
    let is_name_byte = |byte: &u8| byte.is_ascii_alphanumeric() || *byte == b'_';
    if word.is_empty() || !word.iter().all(is_name_byte) {
        return None;
    }
    std::str::from_utf8(word).ok()
}

// The name of a field and the register of its column, or `None` where the word is not a name, `=`
// and a register.
pub(crate) fn named_register(word: &[u8]) -> Option<(&str, RegisterWord)> {
    let name_len = word.iter().position(|byte| *byte == b'=')?;
    let name = field_name(&word[..name_len])?;
    let register = RegisterWord::from_word(&word[name_len + 1..])?;
    Some((name, register))
}

// The number that a word of decimal digits writes, or `None` where the word is no such number or
// it passes `usize`.
pub(crate) fn whole_number(word: &[u8]) -> Option<usize>
    ensures { MatchOption result (IsNoNumber word.now) (IsNumber word.now) }
{
    if is_decimal(word) {
        decimal_value(word)
    } else {
        None
    }
}

// The size of each list of a column that a word of decimal digits writes, or `None` where the word
// is no such number or it passes `u32`.
pub(crate) fn list_size(word: &[u8]) -> Option<u32>
    ensures { MatchOption result (IsNoNumber word.now ⊎ (2 ^ 32 ≤ decimal word.now)) (IsNumber word.now) }
{
    u32::try_from(whole_number(word)?).ok()
}

// The integer that a word writes by an optional `-` and one to twenty digits, or `None` where the
// word writes none or its digits pass `usize`.
fn integer(word: &[u8]) -> Option<i128>
    ensures { MatchOption result (IsNoInteger word.now) (IsInteger word.now) }
{
    let (is_negative, digits) = match word {
        [b'-', digits @ ..] => (true, digits),
        digits => (false, digits),
    };
    if digits.len() > MOST_DIGITS || !is_decimal(digits) {
        return None;
    }
    let magnitude = decimal_value(digits)? as i128;
    Some(if is_negative { -magnitude } else { magnitude })
}

// The integer that a word writes, or `None` where it writes none or `ptype` does not hold it.
pub(crate) fn integer_of(ptype: PType, word: &[u8]) -> Option<i128>
    ensures written { MatchOption result (IsNoIntegerOf ptype word.now) (IsInteger word.now) }
    ensures held { IfSome result (Holds ptype) }
{
    let number = integer(word)?;
    if ptype.holds(number) {
        Some(number)
    } else {
        None
    }
}

// The integer that a word writes, or `None` where it writes none or `T` does not hold it.
pub(crate) fn integer_within<T: NativePType>(word: &[u8]) -> Option<T>
    ensures { MatchOption result (IsNoIntegerOf T.PTYPE word.now) (λ number. IsInteger word.now (T.value number)) }
{
    T::from_i128(integer(word)?)
}

// The truth value that a word names, or `None` where it names none.
pub(crate) fn truth_value(word: &[u8]) -> Option<bool> {
    match word {
        b"true" => Some(true),
        b"false" => Some(false),
        _ => None,
    }
}
