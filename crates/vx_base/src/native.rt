// The number types that Rust has, under one trait.

ghost use Rattle.std.specs.Prelude.{◌≡◌, ◌↔◌, ◌≤ℤ◌, ℕ, ℤ, length, IsSome, IfSome, refl, unsigned_abs};
ghost use Rattle.std.specs.Int.{w8, w16, w32, w64};
ghost use Rattle.std.proofs.Common.{ap};
ghost use Rattle.num_traits.specs.Ints.{signed-bounds, unsigned-bounds};
ghost use Rattle.vx_base.specs.Integers.{byte_width, Holds, number_of, bytes_of};
ghost use Rattle.vx_base.specs.declared.ptypes.PType.{PType};
ghost use Rattle.vx_base.specs.declared.ptypes.PType.TheVariants.{U8, U16, U32, U64, I8, I16, I32, I64};

use crate::numbers::{int_of, put_int};
use crate::ptypes::PType;
use num_traits::{PrimInt, cast};
use std::mem::size_of;

/// A number type of Rust that is one of the eight of `PType`.
pub trait NativePType: PrimInt {
    /// The type's `PType`.
    const PTYPE: PType;

    /// How many bytes a number takes: as many as its `PType` says.
    const WIDTH: usize;

    ghost PTYPE: { PType };

    ghost WIDTH: { ℕ };

    /// The number, which is one of the type.
    fn as_i128(self) -> i128
        ensures value { result ≡ Self.value self }
        ensures holds { Holds PTYPE result };

    // The numbers of Rust's type are those of its `PType`, and each stands for itself.
    ghost width_law: { WIDTH ≡ byte_width PTYPE };

    ghost fits_law: { (z : ℤ) → Self.fits z ↔ Holds PTYPE z };

    ghost same_law: { (a b : Self) → Self.value a ≡ Self.value b → a ≡ b };

    /// The value that is this number, if the type has it.
    #[inline]
    final fn from_i128(number: i128) -> Option<Self>
        ensures some { IsSome result ↔ Holds PTYPE number }
        ensures value { IfSome result (λ x. Self.value x ≡ number) }
    {
        cast(number)
    }

    /// Writes the bytes of the number, the least significant byte first. Asks for the room of just
    /// one number.
    #[inline]
    final fn put_le(self, out: &mut [u8])
        requires { length out.old ≡ WIDTH }
        ensures bytes { out.new ≡ bytes_of PTYPE (Self.value self) }
        ensures holds { Holds PTYPE (Self.value self) }
    {
        put_int(self.as_i128(), Self::PTYPE, out)
    }

    /// Reads a number from its bytes, the least significant byte first. Asks for just the bytes of
    /// one number.
    #[inline]
    final fn get_le(bytes: &[u8]) -> Self
        requires { length bytes.now ≡ WIDTH }
        ensures value { Self.value result ≡ number_of PTYPE bytes.now }
        ensures holds { Holds PTYPE (Self.value result) }
    {
        Self::from_i128(int_of(bytes, Self::PTYPE)).unwrap()
    }
}

impl NativePType for u8 {
    const PTYPE: PType = PType::U8;

    const WIDTH: usize = size_of::<u8>();

    ghost PTYPE = { U8 };

    ghost WIDTH = { byte_width U8 };

    fn as_i128(self) -> i128 {
        self as i128
    }

    ghost width_law = { refl };

    ghost fits_law = { unsigned-bounds 8 };

    ghost same_law = { λ a b e. ap unsigned_abs e };
}

impl NativePType for u16 {
    const PTYPE: PType = PType::U16;

    const WIDTH: usize = size_of::<u16>();

    ghost PTYPE = { U16 };

    ghost WIDTH = { byte_width U16 };

    fn as_i128(self) -> i128 {
        self as i128
    }

    ghost width_law = { refl };

    ghost fits_law = { unsigned-bounds 16 };

    ghost same_law = { λ a b e. ap unsigned_abs e };
}

impl NativePType for u32 {
    const PTYPE: PType = PType::U32;

    const WIDTH: usize = size_of::<u32>();

    ghost PTYPE = { U32 };

    ghost WIDTH = { byte_width U32 };

    fn as_i128(self) -> i128 {
        self as i128
    }

    ghost width_law = { refl };

    ghost fits_law = { unsigned-bounds 32 };

    ghost same_law = { λ a b e. ap unsigned_abs e };
}

impl NativePType for u64 {
    const PTYPE: PType = PType::U64;

    const WIDTH: usize = size_of::<u64>();

    ghost PTYPE = { U64 };

    ghost WIDTH = { byte_width U64 };

    fn as_i128(self) -> i128 {
        self as i128
    }

    ghost width_law = { refl };

    ghost fits_law = { unsigned-bounds 64 };

    ghost same_law = { λ a b e. ap unsigned_abs e };
}

impl NativePType for i8 {
    const PTYPE: PType = PType::I8;

    const WIDTH: usize = size_of::<i8>();

    ghost PTYPE = { I8 };

    ghost WIDTH = { byte_width I8 };

    fn as_i128(self) -> i128 {
        self as i128
    }

    ghost width_law = { refl };

    ghost fits_law = { signed-bounds w8 };

    ghost same_law = { λ a b e. e };
}

impl NativePType for i16 {
    const PTYPE: PType = PType::I16;

    const WIDTH: usize = size_of::<i16>();

    ghost PTYPE = { I16 };

    ghost WIDTH = { byte_width I16 };

    fn as_i128(self) -> i128 {
        self as i128
    }

    ghost width_law = { refl };

    ghost fits_law = { signed-bounds w16 };

    ghost same_law = { λ a b e. e };
}

impl NativePType for i32 {
    const PTYPE: PType = PType::I32;

    const WIDTH: usize = size_of::<i32>();

    ghost PTYPE = { I32 };

    ghost WIDTH = { byte_width I32 };

    fn as_i128(self) -> i128 {
        self as i128
    }

    ghost width_law = { refl };

    ghost fits_law = { signed-bounds w32 };

    ghost same_law = { λ a b e. e };
}

impl NativePType for i64 {
    const PTYPE: PType = PType::I64;

    const WIDTH: usize = size_of::<i64>();

    ghost PTYPE = { I64 };

    ghost WIDTH = { byte_width I64 };

    fn as_i128(self) -> i128 {
        self as i128
    }

    ghost width_law = { refl };

    ghost fits_law = { signed-bounds w64 };

    ghost same_law = { λ a b e. e };
}

/// Calls a function at the number type of Rust that a `PType` stands for: of `PType::U16`,
/// `call_native!(ptype, read(bytes))` is `read::<u16>(bytes)`, and of a function of two types
/// `call_native!(ptype, read::<T>(bytes))` is `read::<T, u16>(bytes)`.
#[macro_export]
macro_rules! call_native {
    ($ptype:expr, $function:ident($($argument:expr),*)) => {
        match $ptype {
            $crate::PType::U8 => $function::<u8>($($argument),*),
            $crate::PType::U16 => $function::<u16>($($argument),*),
            $crate::PType::U32 => $function::<u32>($($argument),*),
            $crate::PType::U64 => $function::<u64>($($argument),*),
            $crate::PType::I8 => $function::<i8>($($argument),*),
            $crate::PType::I16 => $function::<i16>($($argument),*),
            $crate::PType::I32 => $function::<i32>($($argument),*),
            $crate::PType::I64 => $function::<i64>($($argument),*),
        }
    };
    ($ptype:expr, $function:ident::<$first:ident>($($argument:expr),*)) => {
        match $ptype {
            $crate::PType::U8 => $function::<$first, u8>($($argument),*),
            $crate::PType::U16 => $function::<$first, u16>($($argument),*),
            $crate::PType::U32 => $function::<$first, u32>($($argument),*),
            $crate::PType::U64 => $function::<$first, u64>($($argument),*),
            $crate::PType::I8 => $function::<$first, i8>($($argument),*),
            $crate::PType::I16 => $function::<$first, i16>($($argument),*),
            $crate::PType::I32 => $function::<$first, i32>($($argument),*),
            $crate::PType::I64 => $function::<$first, i64>($($argument),*),
        }
    };
}

/// Writes a number and reads it again: the number is what it was. Asks for the room of just one
/// number.
pub fn put_then_get<T: NativePType>(number: T, out: &mut [u8]) -> T
    requires { length out.old ≡ T.WIDTH }
    ensures value { result ≡ number }
    ensures bytes { out.new ≡ bytes_of T.PTYPE (T.value number) }
{
    number.put_le(out);
    T::get_le(out)
}

/// Reads a number and writes it again: the bytes are what they were. Asks for the bytes of just
/// one number, and as much room.
pub fn get_then_put<T: NativePType>(bytes: &[u8], out: &mut [u8])
    requires bytes { length bytes.now ≡ T.WIDTH }
    requires out { length out.old ≡ T.WIDTH }
    ensures { out.new ≡ bytes.now }
{
    T::get_le(bytes).put_le(out);
}
