// The eight number types of an array.

ghost use Rattle.std.specs.Prelude.{◌≡◌, ◌↔◌, ◌≤ℤ◌, IsTrue, Some};
ghost use Rattle.vx_base.specs.Integers.{byte_width, is_unsigned, to_unsigned, least, greatest, Holds, type_name};

use std::fmt;

/// A type of whole numbers, by its width in bits and whether it has a sign.
#[derive(Clone, Copy, Debug, PartialEq, Eq, Hash)]
pub enum PType {
    /// 8 bits, no sign.
    U8,
    /// 16 bits, no sign.
    U16,
    /// 32 bits, no sign.
    U32,
    /// 64 bits, no sign.
    U64,
    /// 8 bits with a sign.
    I8,
    /// 16 bits with a sign.
    I16,
    /// 32 bits with a sign.
    I32,
    /// 64 bits with a sign.
    I64,
}

impl PType {
    /// How many bytes a number of this type takes.
    #[inline]
    pub fn byte_width(self) -> usize
        ensures { result ≡ byte_width self }
    {
        match self {
            PType::U8 | PType::I8 => 1,
            PType::U16 | PType::I16 => 2,
            PType::U32 | PType::I32 => 4,
            PType::U64 | PType::I64 => 8,
        }
    }

    /// Whether the type has no sign.
    pub fn is_unsigned_int(self) -> bool
        ensures { result ≡ is_unsigned self }
    {
        matches!(self, PType::U8 | PType::U16 | PType::U32 | PType::U64)
    }

    /// The unsigned type of the same width.
    pub fn to_unsigned(self) -> PType
        ensures { result ≡ to_unsigned self }
    {
        match self {
            PType::U8 | PType::I8 => PType::U8,
            PType::U16 | PType::I16 => PType::U16,
            PType::U32 | PType::I32 => PType::U32,
            PType::U64 | PType::I64 => PType::U64,
        }
    }

    /// The least number of the type.
    pub fn least(self) -> i128
        ensures { result ≡ least self }
    {
        match self {
            PType::U8 | PType::U16 | PType::U32 | PType::U64 => 0,
            PType::I8 => i8::MIN as i128,
            PType::I16 => i16::MIN as i128,
            PType::I32 => i32::MIN as i128,
            PType::I64 => i64::MIN as i128,
        }
    }

    /// The greatest number of the type.
    pub fn greatest(self) -> i128
        ensures { result ≡ greatest self }
    {
        match self {
            PType::U8 => u8::MAX as i128,
            PType::U16 => u16::MAX as i128,
            PType::U32 => u32::MAX as i128,
            PType::U64 => u64::MAX as i128,
            PType::I8 => i8::MAX as i128,
            PType::I16 => i16::MAX as i128,
            PType::I32 => i32::MAX as i128,
            PType::I64 => i64::MAX as i128,
        }
    }

    /// Whether the type has this number.
    pub fn holds(self, number: i128) -> bool
        ensures { IsTrue result ↔ Holds self number }
    {
        self.least() <= number && number <= self.greatest()
    }
}

impl fmt::Display for PType {
    ghost output = { λ t. Some (type_name t) };

    fn fmt<W: fmt::Write>(&self, f: &mut fmt::Formatter<W>) -> fmt::Result {
        f.write_str(match self {
            PType::U8 => "u8",
            PType::U16 => "u16",
            PType::U32 => "u32",
            PType::U64 => "u64",
            PType::I8 => "i8",
            PType::I16 => "i16",
            PType::I32 => "i32",
            PType::I64 => "i64",
        })
    }
}
