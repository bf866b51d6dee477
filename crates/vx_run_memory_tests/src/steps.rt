// Lists of steps, and scripts.

use std::alloc::Global;
use std::io::Cursor;
use vx_base::{FieldName, VortexError};
use vx_lists::ListViewRebuildMode;
use vx_memory_help::{End, are_alike, judged, one_name};
use vx_run::{RunFault, Step, WriteFault, run, run_script, write_rows};
use vx_test_help::samples::{lists, records};
use vx_test_help::{bools, ints};
use vx_tree::ArrayRef;

// Numbers, indices, truth values, list views and records, as arrays 0 to 4.
fn given(alloc: Global) -> Result<Vec<ArrayRef>, VortexError> {
    let mut arrays = Vec::with_capacity(alloc, 5)?;
    arrays.push(ints(alloc, &[7i16, 0, -9])?)?;
    arrays.push(ints(alloc, &[2u8, 0])?)?;
    arrays.push(bools(alloc, &[true, false, true])?)?;
    arrays.push(lists(alloc)?)?;
    arrays.push(records(alloc)?)?;
    Ok(arrays)
}

// A step of each kind that arrays alone need.
fn steps(alloc: Global) -> Result<Vec<Step>, VortexError> {
    let mode = ListViewRebuildMode::MakeZeroCopyToList;
    Ok(vec![in alloc;
        Step::Slice {
            array: 0,
            start: 1,
            end: 3
        },
        Step::Take {
            array: 3,
            indices: 1
        },
        Step::Filter { array: 4, mask: 2 },
        Step::Mask { array: 0, mask: 2 },
        Step::Concat {
            arrays: vec![in alloc; 0, 0]?
        },
        Step::Canonical { array: 3 },
        Step::Rebuild { array: 3, mode },
        Step::Narrow { array: 0 },
    ]?)
}

// A step of each kind on records.
fn record_steps(alloc: Global) -> Result<Vec<Step>, VortexError> {
    let mut steps = Vec::with_capacity(alloc, 4)?;
    let names = one_name(alloc, "b")?;
    steps.push(Step::Project { array: 4, names })?;
    let (name, column) = (FieldName::try_new(alloc, "c")?, 0);
    steps.push(Step::WithColumn {
        array: 4,
        name,
        column,
    })?;
    let name = FieldName::try_new(alloc, "a")?;
    steps.push(Step::RemoveColumn { array: 4, name })?;
    steps.push(Step::PushValidity {
        array: 4,
        remove: true,
    })?;
    Ok(steps)
}

// What a list of steps gives, and whether the arrays that stand are the first ones of these.
fn outcome(
    answer: Result<Vec<ArrayRef>, RunFault>,
    wanted: &[ArrayRef],
    given: usize,
) -> Result<(), End> {
    match answer {
        Ok(arrays) => judged(Ok(are_alike(&arrays, wanted)), true),
        Err(fault) => {
            let stand = fault.arrays.len();
            if stand > wanted.len() || stand.checked_sub(fault.step) != Some(given) {
                return Err(End::Wrong);
            }
            let is_kept = are_alike(&fault.arrays, &wanted[..stand]);
            judged(Err(fault.error), is_kept)
        }
    }
}

// `run`: refused at a step, it gives back what stood before the step.
fn taken(alloc: Global, steps: &[Step]) -> Result<(), End> {
    let Ok(wanted) = run(alloc, given(alloc)?, steps) else {
        return Err(End::Memory);
    };
    outcome(run(alloc, given(alloc)?, steps), &wanted, 5)
}

#[test]
fn steps_on_arrays(rt: HostRuntime) -> Result<(), End> {
    taken(rt.alloc(), &steps(rt.alloc())?)
}

#[test]
fn steps_on_records(rt: HostRuntime) -> Result<(), End> {
    taken(rt.alloc(), &record_steps(rt.alloc())?)
}

// `Step::apply`.
fn applied(alloc: Global, arrays: &[ArrayRef]) -> Result<bool, VortexError> {
    let step = Step::Narrow { array: 0 };
    let made = step.apply(alloc, arrays)?;
    Ok(made.len() == 3)
}

#[test]
fn a_step_by_itself(rt: HostRuntime) -> Result<(), End> {
    let (arrays, copy) = (given(rt.alloc())?, given(rt.alloc())?);
    judged(applied(rt.alloc(), &arrays), are_alike(&arrays, &copy))
}

// What is written of the truth values true, false, true, of which two are asked for.
const SHOWN: &[u8] = b"[true,false,..] of 3";

// `write_rows`: where memory is refused, nothing is written.
#[test]
fn rows_as_text(rt: HostRuntime) -> Result<(), End> {
    let arrays = given(rt.alloc())?;
    let Some(truths) = arrays.get(2) else {
        return Err(End::Wrong);
    };
    let mut output = Cursor::new([0u8; 32]);
    let answer = write_rows(rt.alloc(), truths, 2, &mut output);
    let len = output.position().min(32) as usize;
    let written = &output.get_ref()[..len];
    match answer {
        Ok(()) => judged(Ok(written == SHOWN), true),
        Err(WriteFault::Memory) => judged(Err(VortexError::Memory), written.is_empty()),
        Err(WriteFault::Output(_)) => Err(End::Wrong),
    }
}

// A script, and what it prints.
const SCRIPT: &[u8] = b"ints u8? 0,null,2
texts utf8 x6869,x,xc3a9
dict 0 1
show 2
parts 2
";

const PRINTED: &[u8] = b"[x6869,null,xc3a9]
dict codes [0,null,2] values 3 flag false
";

// `run_script`: the line that was refused is told.
#[test]
fn a_script(rt: HostRuntime) -> Result<(), End> {
    let mut output = Cursor::new([0u8; 128]);
    let mut input = SCRIPT;
    let status = run_script(rt.alloc(), &mut input, &mut output);
    let len = output.position().min(128) as usize;
    let printed = &output.get_ref()[..len];
    if status == 0 {
        return judged(Ok(printed == PRINTED), true);
    }
    judged(
        Err(VortexError::Memory),
        printed.ends_with(b" Memory\n".as_slice()),
    )
}
