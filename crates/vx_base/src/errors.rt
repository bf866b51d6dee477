// Why a call is refused.

ghost use Rattle.std.specs.Prelude.{◌≡◌};
ghost use Rattle.vx_base.specs.declared.errors.VortexError.TheVariants.{Memory};

use std::alloc::{AllocError, AllocFailed};
use thiserror::Error;

/// Why a call is refused. Every refusal but `Memory` names a fault that stands in what was handed
/// in; where several stand, the first in the order that the call states is answered. `Memory` may
/// come in place of any other answer, where a growth was really refused. Bits that would be more
/// than a `usize` counts are refused with `Overflow`.
#[derive(Debug, Drop, PartialEq, Eq, Clone, Copy, Error)]
pub enum VortexError {
    /// Memory was refused.
    #[error("memory was refused")]
    Memory,
    /// A data type or a layout that the call does not take.
    #[error("a data type or layout is not one that the call takes")]
    MismatchedTypes,
    /// A length that is not the one that was asked for. Both count rows, or bytes where the bytes
    /// of numbers are too few or too many.
    #[error("a length is {found}, expected {expected}")]
    LengthMismatch { expected: usize, found: usize },
    /// One side can hold nulls and the other cannot.
    #[error("the nullability does not fit")]
    NullabilityMismatch,
    /// A position, or the end of a range, past the length that it has to stay within.
    #[error("position {index} lies past the length {len}")]
    OutOfBounds { index: usize, len: usize },
    /// A number below 0 where a position, an offset or a size is asked for. The first such row is
    /// told, counted from 0 as all rows here are.
    #[error("row {row} is negative")]
    Negative { row: usize },
    /// A count or a number that its integer type cannot hold.
    #[error("a number passes its integer type")]
    Overflow,
    /// A call that is named, and not built.
    #[error("this is not implemented")]
    NotImplemented,
    /// A null where the data type or the call takes none.
    #[error("a null stands where none may be")]
    HasNulls,
    /// A name that no column has.
    #[error("no column has that name")]
    UnknownField,
    /// No array, or no row, where one is needed.
    #[error("nothing was given")]
    EmptyInput,
    /// Arrays to be joined that are not of one data type.
    #[error("the data types differ")]
    DifferingDtypes,
    /// A text whose bytes are not UTF-8. The first such row is told.
    #[error("row {row} is not UTF-8")]
    NotUtf8 { row: usize },
    /// A view that names a buffer which is not there. The first such row is told.
    #[error("the view of row {row} names no buffer")]
    BadBuffer { row: usize },
    /// A view that starts past the end of its buffer. The first such row is told.
    #[error("the view of row {row} starts past its buffer")]
    BadStart { row: usize },
    /// A view that ends past the end of its buffer. The first such row is told.
    #[error("the view of row {row} ends past its buffer")]
    BadEnd { row: usize },
    /// A view whose prefix is not the first four bytes of its value. The first such row is told.
    #[error("the prefix in the view of row {row} is not that of its value")]
    BadPrefix { row: usize },
    /// A limit above the greatest length of a buffer that views refer to.
    #[error("the limit passes the greatest length of a buffer")]
    LimitTooLarge,
    /// A value that is longer than the limit of a buffer. The first such row is told.
    #[error("the value of row {row} is longer than the limit")]
    ValueTooLong { row: usize },
    /// Lengths of values that do not sum to the bytes that hold them.
    #[error("the lengths do not sum to the length of the heap")]
    LengthsNotExact,
    /// An offset that is less than the one before it. The place of the first such offset is told.
    #[error("offset {row} is less than the one before it")]
    FallingOffsets { row: usize },
    /// A patch at a position that is no row. The first such patch is told.
    #[error("the position of patch {row} is out of range")]
    PatchOutOfRange { row: usize },
    /// Elements that no list of size 0 can have.
    #[error("lists of size 0 have elements")]
    DegenerateElements,
}

impl VortexError {
    ghost use Rattle.vx_base.specs.Refusals.{error_number, error_name};

    /// The number of the refusal, from 1 (`Memory`) to 23.
    pub fn number(&self) -> u8
        ensures { result ≡ error_number self.now }
    {
        match self {
            VortexError::Memory => 1,
            VortexError::MismatchedTypes => 2,
            VortexError::LengthMismatch { .. } => 3,
            VortexError::NullabilityMismatch => 4,
            VortexError::OutOfBounds { .. } => 5,
            VortexError::Negative { .. } => 6,
            VortexError::Overflow => 7,
            VortexError::NotImplemented => 8,
            VortexError::HasNulls => 9,
            VortexError::UnknownField => 10,
            VortexError::EmptyInput => 11,
            VortexError::DifferingDtypes => 12,
            VortexError::NotUtf8 { .. } => 13,
            VortexError::BadBuffer { .. } => 14,
            VortexError::BadStart { .. } => 15,
            VortexError::BadEnd { .. } => 16,
            VortexError::BadPrefix { .. } => 17,
            VortexError::LimitTooLarge => 18,
            VortexError::ValueTooLong { .. } => 19,
            VortexError::LengthsNotExact => 20,
            VortexError::FallingOffsets { .. } => 21,
            VortexError::PatchOutOfRange { .. } => 22,
            VortexError::DegenerateElements => 23,
        }
    }

    /// The name of the refusal, the variant's word.
    pub fn name(&self) -> &'static str
        ensures { result.now ≡ error_name self.now }
    {
        match self {
            VortexError::Memory => "Memory",
            VortexError::MismatchedTypes => "MismatchedTypes",
            VortexError::LengthMismatch { .. } => "LengthMismatch",
            VortexError::NullabilityMismatch => "NullabilityMismatch",
            VortexError::OutOfBounds { .. } => "OutOfBounds",
            VortexError::Negative { .. } => "Negative",
            VortexError::Overflow => "Overflow",
            VortexError::NotImplemented => "NotImplemented",
            VortexError::HasNulls => "HasNulls",
            VortexError::UnknownField => "UnknownField",
            VortexError::EmptyInput => "EmptyInput",
            VortexError::DifferingDtypes => "DifferingDtypes",
            VortexError::NotUtf8 { .. } => "NotUtf8",
            VortexError::BadBuffer { .. } => "BadBuffer",
            VortexError::BadStart { .. } => "BadStart",
            VortexError::BadEnd { .. } => "BadEnd",
            VortexError::BadPrefix { .. } => "BadPrefix",
            VortexError::LimitTooLarge => "LimitTooLarge",
            VortexError::ValueTooLong { .. } => "ValueTooLong",
            VortexError::LengthsNotExact => "LengthsNotExact",
            VortexError::FallingOffsets { .. } => "FallingOffsets",
            VortexError::PatchOutOfRange { .. } => "PatchOutOfRange",
            VortexError::DegenerateElements => "DegenerateElements",
        }
    }
}

impl From<AllocError> for VortexError {
    ghost from_gives = { λ _ e. e ≡ Memory };

    fn from(_error: AllocError) -> VortexError {
        VortexError::Memory
    }
}

impl<T: Drop> From<AllocFailed<T>> for VortexError {
    ghost from_gives = { λ _ e. e ≡ Memory };

    fn from(_error: AllocFailed<T>) -> VortexError {
        VortexError::Memory
    }
}
