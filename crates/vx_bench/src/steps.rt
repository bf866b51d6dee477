// A list of eight steps, and the same calls made directly.

use std::alloc::Global;
use vx_base::Mask;
use vx_canonical::{Concatenate, ToCanonical};
use vx_leaves::{PrimitiveArray, PrimitiveArrayExt};
use vx_run::{Step, run};
use vx_timed::{Fault, Made, Operation, Scale, limit_of, numbers_below, truths};
use vx_tree::{ArrayRef, TypedArray, Validity};

// Numbers, indices of half of the rows, and truth values.
#[derive(Drop)]
pub(crate) struct Inputs {
    numbers: ArrayRef,
    indices: ArrayRef,
    truths: ArrayRef,
}

impl Inputs {
    // All three, shared.
    fn shared(&self, alloc: Global) -> Result<Vec<ArrayRef>, Fault> {
        let mut arrays = Vec::with_capacity(alloc, 3)?;
        for array in [&self.numbers, &self.indices, &self.truths] {
            arrays.push(array.try_clone(alloc)?)?;
        }
        Ok(arrays)
    }

    // The mask of the truth values.
    fn mask(&self, alloc: Global) -> Result<Mask, Fault> {
        let truths = Validity::Array(self.truths.try_clone(alloc)?);
        Ok(truths.execute_mask(alloc, self.truths.len())?)
    }

    // The numbers at which the truth values are true, in the narrowest type.
    fn narrowed(&self, alloc: Global) -> Result<ArrayRef, Fault> {
        let mask = self.mask(alloc)?;
        let kept = self.numbers.filter(alloc, &mask);
        drop(mask);
        match PrimitiveArray::try_from_array(kept?) {
            Ok(numbers) => Ok(numbers.narrow(alloc)?.into_array()),
            Err(_) => Err(Fault::Usage),
        }
    }

    // The numbers, null where the truth values are false, and half of them in another order.
    fn joined(&self, alloc: Global) -> Result<ArrayRef, Fault> {
        let masked = self.numbers.mask(alloc, &self.truths)?;
        let half = masked.slice(alloc, 0..masked.len() / 2)?;
        let taken = half.take(alloc, &self.indices)?;
        Ok(ArrayRef::concat(alloc, &[masked, taken])?)
    }
}

// The steps, or their calls.
#[derive(Drop)]
pub(crate) enum StepsOperation {
    // The calls of the steps, made directly.
    Direct(Inputs),
    // The steps.
    Steps(Inputs, Vec<Step>),
}

impl Operation for StepsOperation {
    fn run(&mut self, alloc: Global) -> Result<Made, Fault> {
        match &*self {
            StepsOperation::Direct(inputs) => inputs.called(alloc),
            StepsOperation::Steps(inputs, steps) => inputs.stepped(alloc, steps),
        }
    }
}

impl Inputs {
    // What the calls make.
    fn called(&self, alloc: Global) -> Result<Made, Fault> {
        let rows = self.numbers.len();
        let _narrowed = self.narrowed(alloc)?;
        let plain = self.joined(alloc)?.to_canonical(alloc)?;
        Ok(Made::Array(plain.slice(alloc, rows / 4..rows)?))
    }

    // What the steps make.
    fn stepped(&self, alloc: Global, steps: &[Step]) -> Result<Made, Fault> {
        match run(alloc, self.shared(alloc)?, steps) {
            Ok(mut results) => match results.pop() {
                Some(array) => Ok(Made::Array(array)),
                None => Err(Fault::Usage),
            },
            Err(fault) => Err(Fault::Refused(fault.error)),
        }
    }
}

// Two steps that narrow what a filter keeps, and six that join rows with half of them in another
// order.
fn steps_on(alloc: Global, rows: usize) -> Result<Vec<Step>, Fault> {
    let arrays = vec![in alloc; 5, 7]?;
    let steps = [
        Step::Filter { array: 0, mask: 2 },
        Step::Narrow { array: 3 },
        Step::Mask { array: 0, mask: 2 },
        Step::Slice {
            array: 5,
            start: 0,
            end: rows / 2,
        },
        Step::Take {
            array: 6,
            indices: 1,
        },
        Step::Concat { arrays },
        Step::Canonical { array: 8 },
        Step::Slice {
            array: 9,
            start: rows / 4,
            end: rows,
        },
    ];
    Ok(Vec::from_array(alloc, steps)?)
}

// Numbers below 60000, indices of half of them and truth values, of which one in four is false.
fn inputs_of(alloc: Global, rows: usize) -> Result<Inputs, Fault> {
    let half = rows / 2;
    Ok(Inputs {
        numbers: numbers_below(alloc, rows, 60000, 10)?,
        indices: numbers_below(alloc, half, limit_of(half), 5)?,
        truths: truths(alloc, rows, 4, 8)?,
    })
}

// Eight steps, or the same calls.
pub(crate) fn ready(alloc: Global, scale: Scale, name: &str) -> Result<StepsOperation, Fault> {
    let inputs = inputs_of(alloc, scale.rows())?;
    if name == "steps_direct" {
        return Ok(StepsOperation::Direct(inputs));
    }
    Ok(StepsOperation::Steps(inputs, steps_on(alloc, scale.rows())?))
}
