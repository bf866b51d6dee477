// Values of the valid rows alone, laid over all rows.

ghost use Rattle.std.specs.Prelude.{◌≡◌, ◌≤◌, ◌<◌, ◌+◌, ◌-◌, ◌*◌, ◌^◌, ◌&&◌, ℕ, length, replicate, nat_lt, if◌then◌else◌, IfOk};
ghost use Rattle.vx_base.specs.Refusals.{Gives};
ghost use Rattle.vx_base.specs.Integers.{byte_width, numbers, number_nth};
ghost use Rattle.vx_base.specs.MaskRuns.{is_in_run};
ghost use Rattle.vx_leaves.specs.Spread.{spread};

use std::alloc::Global;
use vx_base::{ByteBuffer, Mask, NativePType, PType, VortexError, number_count};

// The bytes of a number a row: the values in order where the mask is true, 0 where it is not, and
// where there is none.
pub(crate) fn spread_numbers(
    alloc: Global,
    ptype: PType,
    values: &[u8],
    mask: &Mask,
) -> Result<ByteBuffer, VortexError>
    requires { length mask.now * byte_width ptype < 2 ^ 64 }
    ensures ok { Gives result (λ b. numbers ptype b ≡ spread mask.now (numbers ptype values.now)) }
    ensures len { IfOk result (λ b. length b ≡ length mask.now * byte_width ptype) }
{
    let mut bytes = vec![in alloc; 0u8; mask.len() * ptype.byte_width()]?;
    put_spread(ptype, values, mask, &mut bytes);
    ByteBuffer::from_vec(alloc, bytes)
}

// Writes the values over the rows of the runs, one run after another. What stands there is 0.
fn put_spread(ptype: PType, values: &[u8], mask: &Mask, out: &mut [u8])
    requires { out.old ≡ replicate (length mask.now * byte_width ptype) 0 }
    ensures len { length out.new ≡ length out.old }
    ensures numbers { numbers ptype out.new ≡ spread mask.now (numbers ptype values.now) }
{
    let mut next = 0;
    for run in mask.runs() {
        let (start, end) = *run;
        put_values(ptype, values, next, (start, end), out);
        next += end - start;
    }
}

// Writes the values from place `next` on over the rows of a run, as far as there are values.
fn put_values(ptype: PType, values: &[u8], next: usize, run: (usize, usize), out: &mut [u8])
    requires order { run.0 ≤ run.1 }
    requires room { run.1 * byte_width ptype ≤ length out.old }
    ensures len { length out.new ≡ length out.old }
    ensures numbers { (k : ℕ) → number_nth (numbers ptype out.new) k
        ≡ (if is_in_run run k && nat_lt (next + (k - run.0)) (length (numbers ptype values.now))
        then number_nth (numbers ptype values.now) (next + (k - run.0))
        else number_nth (numbers ptype out.old) k) }
{
    let (start, end) = run;
    let width = ptype.byte_width();
    let count = number_count(values, ptype);
    let first = next.min(count);
    let taken = (end - start).min(count - first);
    let source = &values[first * width..(first + taken) * width];
    out[start * width..(start + taken) * width].copy_from_slice(source);
}

// The number at place `i`, where these bytes hold one after another.
#[inline]
pub(crate) fn read_number<T: NativePType>(bytes: &[u8], i: usize) -> T
    requires { i * byte_width T.PTYPE + byte_width T.PTYPE ≤ length bytes.now }
    ensures { T.value result ≡ number_nth (numbers T.PTYPE bytes.now) i }
{
    let width = T::PTYPE.byte_width();
    T::get_le(&bytes[i * width..i * width + width])
}
