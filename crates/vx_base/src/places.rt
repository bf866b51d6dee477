// Positions one by one: as they are, as numbers in bytes, or one of them again and again.

ghost use Rattle.std.specs.Prelude.{◌≡◌, ◌<◌, length, map, replicate, slice_index_or, unsigned_abs};
ghost use Rattle.vx_base.specs.Integers.{numbers};

use crate::native::NativePType;
use crate::numbers::{int_at, number_count};
use std::marker::PhantomData;

/// Positions that are known place by place.
pub(crate) trait Places: Copy {
    ghost use Rattle.std.specs.Prelude.{ℕ, List};

    ghost positions: { Self → List ℕ };

    /// How many there are.
    fn count(self) -> usize
        ensures { result ≡ length (positions self) };

    /// The position at a place, counted from 0. Asks that it is there.
    fn at(self, i: usize) -> usize
        requires { i < length (positions self) }
        ensures { result ≡ slice_index_or (positions self) i 0 };
}

/// These positions.
#[derive(Clone, Copy)]
pub(crate) struct Listed<'a>(pub &'a [usize]);

/// The numbers of a type that bytes hold, each without its sign.
#[derive(Clone, Copy)]
pub(crate) struct Numbered<'a, T> {
    bytes: &'a [u8],
    number: PhantomData<T>,
}

/// One position, `len` times.
#[derive(Clone, Copy)]
pub(crate) struct Same {
    position: usize,
    len: usize,
}

impl<'a, T: NativePType> Numbered<'a, T> {
    /// The numbers of these bytes.
    pub(crate) fn new(bytes: &'a [u8]) -> Self
        ensures { result.bytes.now ≡ bytes.now }
    {
        Numbered {
            bytes,
            number: PhantomData,
        }
    }
}

impl Same {
    /// This position, so many times.
    pub(crate) fn new(position: usize, len: usize) -> Self
        ensures position { result.position ≡ position }
        ensures len { result.len ≡ len }
    {
        Same { position, len }
    }
}

impl Places for Listed<'_> {
    ghost positions = { λ s. s.0.now };

    #[inline]
    fn count(self) -> usize {
        self.0.len()
    }

    #[inline]
    fn at(self, i: usize) -> usize {
        self.0[i]
    }
}

impl<T: NativePType> Places for Numbered<'_, T> {
    ghost positions = { λ s. map unsigned_abs (numbers T.PTYPE s.bytes.now) };

    #[inline]
    fn count(self) -> usize {
        number_count(self.bytes, T::PTYPE)
    }

    #[tactic(auto, using(crate::proofs::Positions::size_below))]
    #[inline]
    fn at(self, i: usize) -> usize {
        int_at(self.bytes, T::PTYPE, i).unsigned_abs() as usize
    }
}

impl Places for Same {
    ghost positions = { λ s. replicate s.len s.position };

    #[inline]
    fn count(self) -> usize {
        self.len
    }

    #[inline]
    fn at(self, _i: usize) -> usize {
        self.position
    }
}
