// Lengths of values, given row by row or as offsets.

ghost use Rattle.std.specs.Prelude.{◌≡◌, ◌+◌, ◌<◌, ◌≤ℤ◌, ◌-ℤ◌, ◌^◌, ◌-◌, pos, length, map, IsTrue, IfNone, IfSome};
ghost use Rattle.std.specs.Int.{is_negative};
ghost use Rattle.vx_base.specs.Integers.{Holds, number_nth};
ghost use Rattle.vx_views.specs.BuildFaults.{differences};

use vx_base::NativePType;

/// The lengths of the values of a heap, as integers.
pub trait Lengths {
    ghost use Rattle.std.specs.Prelude.{ℤ, List};

    ghost numbers: { Self → List ℤ };

    /// How many values there are.
    fn count(&self) -> usize
        ensures { result ≡ length (numbers self.now) };

    /// The length of the value of a row; none where it is negative.
    fn length_at(&self, row: usize) -> Option<usize>
        requires { row < length (numbers self.now) }
        ensures negative { IfNone result (IsTrue (is_negative (number_nth (numbers self.now) row))) }
        ensures length { IfSome result (λ n. number_nth (numbers self.now) row ≡ pos n) };
}

/// One length a row.
#[derive(Drop)]
pub struct RowLengths<'a, P>(pub &'a [P]);

/// Offsets, one more than there are rows: each row's length is the difference of two.
#[derive(Drop)]
pub struct OffsetLengths<'a, P>(pub &'a [P]);

// A number as a length, if it is not negative.
fn as_length(number: i128) -> Option<usize>
    requires { number ≤ℤ pos (2 ^ 64 - 1) }
    ensures negative { IfNone result (IsTrue (is_negative number)) }
    ensures length { IfSome result (λ n. number ≡ pos n) }
{
    if number < 0 {
        None
    } else {
        Some(number as usize)
    }
}

/// How far the offset after that of a row is from that of the row.
pub fn difference<P: NativePType>(offsets: &[P], row: usize) -> i128
    requires { row + 1 < length offsets.now }
    ensures value { result
        ≡ number_nth (map P.value offsets.now) (row + 1) -ℤ number_nth (map P.value offsets.now) row }
    ensures bound { result ≤ℤ pos (2 ^ 64 - 1) }
    ensures holds { pos 0 ≤ℤ number_nth (map P.value offsets.now) row →
        number_nth (map P.value offsets.now) row ≤ℤ number_nth (map P.value offsets.now) (row + 1) →
        Holds P.PTYPE result }
{
    prove!(row < offsets.len());
    let offset = offsets[row].as_i128();
    let next = offsets[row + 1].as_i128();
    next - offset
}

/// An integer of any type as a length, if it is not negative.
pub fn natural<P: NativePType>(number: P) -> Option<usize>
    ensures negative { IfNone result (IsTrue (is_negative (P.value number))) }
    ensures length { IfSome result (λ n. P.value number ≡ pos n) }
{
    as_length(number.as_i128())
}

impl<P: NativePType> Lengths for RowLengths<'_, P> {
    ghost numbers = { λ s. map P.value s.0.now };

    fn count(&self) -> usize {
        self.0.len()
    }

    fn length_at(&self, row: usize) -> Option<usize> {
        natural(self.0[row])
    }
}

impl<P: NativePType> Lengths for OffsetLengths<'_, P> {
    ghost numbers = { λ s. differences (map P.value s.0.now) };

    fn count(&self) -> usize {
        self.0.len().saturating_sub(1)
    }

    fn length_at(&self, row: usize) -> Option<usize> {
        as_length(difference(self.0, row))
    }
}
