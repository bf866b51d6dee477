// The items of an iterator, in a list that grows with what comes: no size hint is looked at.

ghost use Rattle.std.specs.Iterator.{IsFinite, Drains};
ghost use Rattle.vx_base.specs.Refusals.{Gives};

use std::alloc::Global;
use vx_base::VortexError;

/// The items, in order: no size hint is looked at, so that a hint that is wrong costs nothing. Asks
/// that the iterator ends. Fails only for want of memory.
pub fn collect_items<T: Drop, I: Iterator<Item = T> + Drop>(
    alloc: Global,
    items: I,
) -> Result<Vec<T>, VortexError>
    requires can { I.can_next items }
    requires ends { IsFinite (I.remaining items) }
    ensures { Gives result (λ list. Drains I.next_gives items list.items) }
{
    let mut list = Vec::new(alloc);
    for item in items {
        list.push(item)?;
    }
    Ok(list)
}
