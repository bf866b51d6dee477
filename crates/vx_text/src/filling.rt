// Buffers that are filled with values, one after another, and the views of these.

ghost use Rattle.std.specs.Prelude.{◌≡◌, ◌≤◌, ◌<◌, ◌+◌, ◌^◌, [], length, IfOk, OnOk, IsOkUnless};
ghost use Rattle.vx_base.specs.Refusals.{Gives, Refuses};
ghost use Rattle.vx_base.specs.declared.errors.VortexError.TheVariants.{Memory};
ghost use Rattle.vx_views.specs.BuildFaults.{numbering_fault};
ghost use Rattle.vx_views.specs.Views.{view_of};
ghost use Rattle.vx_text.specs.Filling.{filling, viewed, with_room, all_buffers, IsPut};

use std::alloc::Global;
use std::mem;
use vx_base::{Buffer, ByteBuffer, VortexError};
use vx_views::{BinaryView, MAX_BUFFER_LEN, MAX_INLINED_SIZE};

// How many buffers can be numbered: a view has 32 bits for the number.
const MAX_BUFFERS: usize = 1 << 32;

/// Buffers while they are filled with values, as few as can hold them in order, and the views of
/// these values. For the crates above.
#[derive(Drop)]
pub struct Filling {
    /// The buffers that are full.
    pub full: Vec<ByteBuffer>,

    /// The bytes of the last one.
    pub last: Vec<u8>,

    /// The view of each value.
    pub views: Vec<BinaryView>,
}

impl Filling {
    /// No values. For the crates above.
    pub fn new(alloc: Global) -> Filling
        ensures { filling result.full.items result.last.items result.views.items ≡ filling [] [] [] }
    {
        Filling {
            full: Vec::new(alloc),
            last: Vec::new(alloc),
            views: Vec::new(alloc),
        }
    }

    /// No values, and room for so many views and for so many bytes of values in the first buffer.
    /// For the crates above.
    pub fn with_capacity(alloc: Global, views: usize, bytes: usize) -> Result<Filling, VortexError>
        ensures { Gives result (λ f. filling f.full.items f.last.items f.views.items ≡ filling [] [] []) }
    {
        let last = Vec::with_capacity(alloc, bytes)?;
        let views = Vec::with_capacity(alloc, views)?;
        Ok(Filling {
            full: Vec::new(alloc),
            last,
            views,
        })
    }

    /// One value more: its view holds it, or it is put into the last buffer, into another one where
    /// that has no room. Asks that it is no longer than a buffer may be. For the crates above.
    #[inline(always)]
    pub fn push(&mut self, alloc: Global, value: &[u8]) -> Result<(), VortexError>
        requires { length value.now ≤ MAX_BUFFER_LEN }
        ensures held { length value.now ≤ MAX_INLINED_SIZE → OnOk result
            (filling self.new.full.items self.new.last.items self.new.views.items
            ≡ viewed (filling self.old.full.items self.old.last.items self.old.views.items) (view_of value.now 0 0)) }
        ensures put { MAX_INLINED_SIZE < length value.now → OnOk result (IsPut
            (with_room (filling self.old.full.items self.old.last.items self.old.views.items) (length value.now)) value.now
            (filling self.new.full.items self.new.last.items self.new.views.items)) }
        ensures memory { IsOkUnless result Memory }
    {
        // Always inlined, with the two calls that it makes: a call for each item would cost more
        // than the work on a short one.
        if value.len() <= MAX_INLINED_SIZE {
            self.views.push(BinaryView::make_view(value, 0, 0))?;
            return Ok(());
        }
        self.make_room(alloc, value.len())?;
        self.put(value)
    }

    // Room for so many bytes in the last buffer: it is full where it has none.
    #[inline(always)]
    fn make_room(&mut self, alloc: Global, size: usize) -> Result<(), VortexError>
        requires { size ≤ MAX_BUFFER_LEN }
        ensures { Gives result (λ _. filling self.new.full.items self.new.last.items self.new.views.items
            ≡ with_room (filling self.old.full.items self.old.last.items self.old.views.items) size) }
    {
        if self.last.len() + size > MAX_BUFFER_LEN {
            let last = mem::replace(&mut self.last, Vec::new(alloc));
            self.full.push(ByteBuffer::from_vec(alloc, last)?)?;
        }
        Ok(())
    }

    // Puts a value at the end of the last buffer. Asks that there is room, and that the view does
    // not hold it.
    #[inline(always)]
    fn put(&mut self, value: &[u8]) -> Result<(), VortexError>
        requires room { length self.old.last.items + length value.now ≤ MAX_BUFFER_LEN }
        ensures { Gives result (λ _. IsPut
            (filling self.old.full.items self.old.last.items self.old.views.items) value.now
            (filling self.new.full.items self.new.last.items self.new.views.items)) }
    {
        let number = number_of(self.full.len());
        let view = BinaryView::make_view(value, number, self.last.len() as u32);
        self.views.push(view)?;
        self.last.extend_from_slice(value)?;
        Ok(())
    }

    /// The buffers, and the views. Refuses `Overflow` where there are more buffers than can be
    /// numbered. For the crates above.
    pub fn finish(self, alloc: Global) -> Result<(Vec<ByteBuffer>, Buffer<BinaryView>), VortexError>
        ensures buffers { IfOk result (λ made. made.0.items
            ≡ all_buffers (filling self.full.items self.last.items self.views.items)) }
        ensures views { IfOk result (λ made. made.1 ≡ self.views.items) }
        ensures refuses { Refuses result (numbering_fault 0
            (length (all_buffers (filling self.full.items self.last.items self.views.items)))) }
    {
        let Filling {
            mut full,
            last,
            views,
        } = self;
        if !last.is_empty() {
            full.push(ByteBuffer::from_vec(alloc, last)?)?;
        }
        if full.len() > MAX_BUFFERS {
            return Err(VortexError::Overflow);
        }
        Ok((full, Buffer::from_vec(alloc, views)?))
    }
}

// The number of a buffer, where 32 bits have it: where they do not, the last one that they have.
// More buffers than can be numbered are refused once the last item has been looked at.
fn number_of(buffer: usize) -> u32
    ensures { buffer < 2 ^ 32 → result ≡ buffer }
{
    u32::try_from(buffer).unwrap_or(u32::MAX)
}
