// The byte lists that the items of a list write.

use crate::faults::LineFault;
use crate::hexadecimal::append_bytes;
use std::alloc::Global;
use vx_base::VortexError;

// Byte lists, of which some may be null: their bytes, one list after another.
#[derive(Drop)]
pub(crate) struct ByteItems {
    bytes: Vec<u8>,
    // Where each list starts and ends, `None` for a null.
    places: Vec<Option<(usize, usize)>>,
}

impl ByteItems {
    // The byte lists that words write, null where there is no word. Refuses `Syntax` where one is
    // not `x` and an even count of hexadecimal digits.
    pub(crate) fn read(alloc: Global, words: &[Option<&[u8]>]) -> Result<ByteItems, LineFault> {
        let mut bytes = Vec::new(alloc);
        let mut places = Vec::with_capacity(alloc, words.len())?;
        for word in words {
            let start = bytes.len();
            let place = match *word {
                None => None,
                Some(word) => {
                    append_bytes(word, &mut bytes)?;
                    Some((start, bytes.len()))
                }
            };
            places.push(place)?;
        }
        Ok(ByteItems { bytes, places })
    }

    // The byte lists in order, lent.
    pub(crate) fn lend(&self, alloc: Global) -> Result<Vec<Option<&[u8]>>, VortexError> {
        let bytes = self.bytes.as_slice();
        let mut items = Vec::with_capacity(alloc, self.places.len())?;
        for place in &self.places {
            items.push(place.and_then(|(start, end)| bytes.get(start..end)))?;
        }
        Ok(items)
    }
}
