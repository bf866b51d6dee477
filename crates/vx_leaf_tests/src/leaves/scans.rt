// Long scans of the codes of dictionaries, beside a plain loop.

use std::alloc::Global;
use vx_base::{BitBuffer, VortexError};
use vx_leaves::{DictArray, DictArrayExt, PrimitiveArray};
use vx_test_help::ints;
use vx_tree::TypedArray;

// A dictionary of so many values by so many codes, all of them below `range`.
#[derive(Clone, Copy)]
struct Form {
    values: u16,
    rows: u16,
    range: u16,
}

const FORMS: [(u16, u16, u16); 9] = [
    (1, 2049, 1),
    (16, 5000, 16),
    (64, 10000, 63),
    (1000, 10000, 1000),
    (1023, 30000, 1023),
    (1024, 1000, 1024),
    (2047, 9000, 2047),
    (4001, 60000, 4001),
    (4096, 60000, 4096),
];

impl Form {
    // The code of a row: 31 times the row, round the range. Each third row is null.
    fn code(&self, row: u16) -> Option<u32> {
        if row % 3 == 1 {
            return None;
        }
        Some(u32::from(row) * 31 % u32::from(self.range.max(1)))
    }

    // The dictionary, whose values are all 7.
    fn dictionary(&self, alloc: Global) -> Result<DictArray, VortexError> {
        let mut codes = Vec::new(alloc);
        for row in 0..self.rows {
            codes.push(self.code(row))?;
        }
        let codes = PrimitiveArray::from_option_iter(alloc, codes.iter().copied())?;
        let numbers = vec![in alloc; 7u8; usize::from(self.values)]?;
        DictArray::try_new(alloc, codes.into_array(), ints(alloc, &numbers)?)
    }

    // For each value the first row whose code names it, by a plain loop.
    fn first_rows(&self, alloc: Global) -> Result<Vec<Option<u16>>, VortexError> {
        let mut first = vec![in alloc; None; usize::from(self.values)]?;
        for row in 0..self.rows {
            if let Some(code) = self.code(row) {
                let place = code as usize;
                if place < first.len() && first[place].is_none() {
                    first[place] = Some(row);
                }
            }
        }
        Ok(first)
    }

    // Where the scan ends: after the block of 2,048 codes by which each value is named, or else
    // after the last code.
    fn end(&self, first: &[Option<u16>]) -> usize {
        let mut last = 0;
        for row in first {
            match row {
                Some(row) => last = (*row).max(last),
                None => return usize::from(self.rows),
            }
        }
        let last = usize::from(last);
        let block = (last - last % 2048).saturating_add(2048);
        block.min(usize::from(self.rows))
    }

    // Whether one scan gives the bits and the end that the plain loop gives.
    fn is_scanned(&self, alloc: Global, referenced: bool) -> Result<bool, VortexError> {
        let (bits, end) = self
            .dictionary(alloc)?
            .referenced_values_scan(alloc, referenced)?;
        let first = self.first_rows(alloc)?;
        let mut wanted = Vec::new(alloc);
        for row in &first {
            wanted.push(row.is_some() == referenced)?;
        }
        Ok(end == self.end(&first) && bits == BitBuffer::from_bools(alloc, &wanted)?)
    }
}

#[test]
fn used_values_and_the_end_of_the_scan(rt: HostRuntime) {
    for (values, rows, range) in FORMS {
        let form = Form {
            values,
            rows,
            range,
        };
        assert!(rt; form.is_scanned(rt.alloc(), true).expect(&rt, "made"));
    }
}

#[test]
fn unused_values_and_the_end_of_the_scan(rt: HostRuntime) {
    for (values, rows, range) in FORMS {
        let form = Form {
            values,
            rows,
            range,
        };
        assert!(rt; form.is_scanned(rt.alloc(), false).expect(&rt, "made"));
    }
}
