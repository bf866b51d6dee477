// The commands of the script language.

use crate::faults::LineFault;
use crate::literals::{Literal, boolean_array, constant_array, integer_array, text_array};
use crate::operands::{
    RegisterWord, ValidityWord, dtype_named, field_name, list_size, named_register, whole_number,
};
use crate::words::Words;
use std::alloc::Global;
use vx_base::{DType, FieldName, FieldNames};
use vx_lists::ListViewRebuildMode;

// A line that is in the grammar, with its operands.
#[derive(Drop)]
pub(crate) enum Command {
    // `ints T LIST`, `bools T LIST`, `texts T LIST`, `const T ITEM N`: the array that the line
    // spells out, or why it is refused.
    Literal(Literal),
    // `listview R R R V`: a list view.
    ListView(ListViewWords),
    // `fixed R N V N`: lists of one size.
    FixedSizeList(FixedSizeListWords),
    // `dict R R`: a dictionary.
    Dictionary {
        codes: RegisterWord,
        values: RegisterWord,
    },
    // `struct N V NAME=R ...`: records.
    Struct(StructWords),
    // `slice`, `take`, `filter`, `mask`, `concat`, `rebuild`, `narrow`, `project`: one step.
    Step(StepWords),
    // `show R`: prints the rows.
    Show {
        array: RegisterWord,
    },
    // `parts R`: prints the parts.
    Parts {
        array: RegisterWord,
    },
}

// One step on registers, as a line names them.
#[derive(Drop)]
pub(crate) enum StepWords {
    // `slice R N N`: the rows from `start` up to `end`.
    Slice {
        array: RegisterWord,
        start: usize,
        end: usize,
    },
    // `take R R`: the rows at indices.
    Take {
        array: RegisterWord,
        indices: RegisterWord,
    },
    // `filter R R`: the rows at which truth values are true.
    Filter {
        array: RegisterWord,
        mask: RegisterWord,
    },
    // `mask R R`: the rows, null where truth values are false.
    Mask {
        array: RegisterWord,
        mask: RegisterWord,
    },
    // `concat R ...`: the rows of arrays, one array after another.
    Concat {
        arrays: Vec<RegisterWord>,
    },
    // `rebuild R MODE`: a list view rebuilt.
    Rebuild {
        array: RegisterWord,
        mode: ListViewRebuildMode,
    },
    // `narrow R`: numbers in the narrowest type that has them.
    Narrow {
        array: RegisterWord,
    },
    // `project R NAME ...`: records with the first field of each of these names.
    Project {
        array: RegisterWord,
        names: Vec<FieldName>,
    },
}

// The parts of a list view, as a line names them.
#[derive(Clone, Copy, Debug)]
pub(crate) struct ListViewWords {
    pub elements: RegisterWord,
    pub offsets: RegisterWord,
    pub sizes: RegisterWord,
    pub validity: ValidityWord,
}

// The parts of lists of one size, as a line names them.
#[derive(Clone, Copy, Debug)]
pub(crate) struct FixedSizeListWords {
    pub elements: RegisterWord,
    pub size: u32,
    pub validity: ValidityWord,
    pub len: usize,
}

// The parts of records, as a line names them.
#[derive(Drop)]
pub(crate) struct StructWords {
    pub len: usize,
    pub validity: ValidityWord,
    pub names: FieldNames,
    // One a name.
    pub columns: Vec<RegisterWord>,
}

// The command of a line without its line feed, or `None` where the line has no words. Refuses
// `Syntax` where the line is not in the grammar, or memory.
pub(crate) fn parse_command(alloc: Global, line: &[u8]) -> Result<Option<Command>, LineFault> {
    let mut words = Words::new(line);
    let Some(name) = words.next() else {
        return Ok(None);
    };
    let command = command_named(alloc, name, &mut words)?;
    match words.next() {
        None => Ok(Some(command)),
        Some(_) => Err(LineFault::Syntax),
    }
}

// The command of this name, with the operands that it takes from the words after it.
fn command_named(alloc: Global, name: &[u8], words: &mut Words<'_>) -> Result<Command, LineFault> {
    match name {
        b"ints" => integers(alloc, words),
        b"bools" => booleans(alloc, words),
        b"texts" => texts(alloc, words),
        b"const" => constant(alloc, words),
        b"listview" => list_view(words),
        b"fixed" => fixed_size_list(words),
        b"dict" => dictionary(words),
        b"struct" => records(alloc, words),
        b"show" => Ok(Command::Show {
            array: register(words)?,
        }),
        b"parts" => Ok(Command::Parts {
            array: register(words)?,
        }),
        name => Ok(Command::Step(step_named(alloc, name, words)?)),
    }
}

// The step of this name, with the operands that it takes from the words after it.
fn step_named(alloc: Global, name: &[u8], words: &mut Words<'_>) -> Result<StepWords, LineFault> {
    match name {
        b"slice" => slice(words),
        b"take" => take(words),
        b"filter" => filter(words),
        b"mask" => mask(words),
        b"concat" => concat(alloc, words),
        b"rebuild" => rebuild(words),
        b"narrow" => Ok(StepWords::Narrow {
            array: register(words)?,
        }),
        b"project" => project(alloc, words),
        _ => Err(LineFault::Syntax),
    }
}

fn integers(alloc: Global, words: &mut Words<'_>) -> Result<Command, LineFault> {
    let DType::Primitive(ptype, nullability) = dtype(words)? else {
        return Err(LineFault::Syntax);
    };
    let array = integer_array(alloc, ptype, nullability, word(words)?)?;
    Ok(Command::Literal(array))
}

fn booleans(alloc: Global, words: &mut Words<'_>) -> Result<Command, LineFault> {
    let DType::Bool(nullability) = dtype(words)? else {
        return Err(LineFault::Syntax);
    };
    let array = boolean_array(alloc, nullability, word(words)?)?;
    Ok(Command::Literal(array))
}

fn texts(alloc: Global, words: &mut Words<'_>) -> Result<Command, LineFault> {
    let dtype = dtype(words)?;
    if !matches!(dtype, DType::Utf8(_) | DType::Binary(_)) {
        return Err(LineFault::Syntax);
    }
    let array = text_array(alloc, dtype, word(words)?)?;
    Ok(Command::Literal(array))
}

fn constant(alloc: Global, words: &mut Words<'_>) -> Result<Command, LineFault> {
    let dtype = dtype(words)?;
    let item = word(words)?;
    let array = constant_array(alloc, dtype, item, number(words)?)?;
    Ok(Command::Literal(array))
}

fn list_view(words: &mut Words<'_>) -> Result<Command, LineFault> {
    Ok(Command::ListView(ListViewWords {
        elements: register(words)?,
        offsets: register(words)?,
        sizes: register(words)?,
        validity: validity(words)?,
    }))
}

fn fixed_size_list(words: &mut Words<'_>) -> Result<Command, LineFault> {
    Ok(Command::FixedSizeList(FixedSizeListWords {
        elements: register(words)?,
        size: list_size(word(words)?).ok_or(LineFault::Syntax)?,
        validity: validity(words)?,
        len: number(words)?,
    }))
}

fn dictionary(words: &mut Words<'_>) -> Result<Command, LineFault> {
    Ok(Command::Dictionary {
        codes: register(words)?,
        values: register(words)?,
    })
}

fn records(alloc: Global, words: &mut Words<'_>) -> Result<Command, LineFault> {
    let len = number(words)?;
    let validity = validity(words)?;
    let mut names = Vec::new(alloc);
    let mut columns = Vec::new(alloc);
    for word in words.by_ref() {
        let (name, column) = named_register(word).ok_or(LineFault::Syntax)?;
        names.push(name)?;
        columns.push(column)?;
    }
    Ok(Command::Struct(StructWords {
        len,
        validity,
        names: FieldNames::try_new(alloc, &names)?,
        columns,
    }))
}

fn slice(words: &mut Words<'_>) -> Result<StepWords, LineFault> {
    Ok(StepWords::Slice {
        array: register(words)?,
        start: number(words)?,
        end: number(words)?,
    })
}

fn take(words: &mut Words<'_>) -> Result<StepWords, LineFault> {
    Ok(StepWords::Take {
        array: register(words)?,
        indices: register(words)?,
    })
}

fn filter(words: &mut Words<'_>) -> Result<StepWords, LineFault> {
    Ok(StepWords::Filter {
        array: register(words)?,
        mask: register(words)?,
    })
}

fn mask(words: &mut Words<'_>) -> Result<StepWords, LineFault> {
    Ok(StepWords::Mask {
        array: register(words)?,
        mask: register(words)?,
    })
}

fn concat(alloc: Global, words: &mut Words<'_>) -> Result<StepWords, LineFault> {
    let mut arrays = Vec::new(alloc);
    for word in words.by_ref() {
        arrays.push(RegisterWord::from_word(word).ok_or(LineFault::Syntax)?)?;
    }
    Ok(StepWords::Concat { arrays })
}

fn rebuild(words: &mut Words<'_>) -> Result<StepWords, LineFault> {
    let array = register(words)?;
    let mode = match word(words)? {
        b"zctl" => ListViewRebuildMode::MakeZeroCopyToList,
        b"trim" => ListViewRebuildMode::TrimElements,
        b"exact" => ListViewRebuildMode::MakeExact,
        b"overlap" => ListViewRebuildMode::OverlapCompression,
        _ => return Err(LineFault::Syntax),
    };
    Ok(StepWords::Rebuild { array, mode })
}

fn project(alloc: Global, words: &mut Words<'_>) -> Result<StepWords, LineFault> {
    let array = register(words)?;
    let mut names = Vec::new(alloc);
    for word in words.by_ref() {
        let name = field_name(word).ok_or(LineFault::Syntax)?;
        names.push(FieldName::try_new(alloc, name)?)?;
    }
    Ok(StepWords::Project { array, names })
}

// The next word, which the grammar asks for.
fn word<'a>(words: &mut Words<'a>) -> Result<&'a [u8], LineFault> {
    words.next().ok_or(LineFault::Syntax)
}

// The data type that the next word names.
fn dtype(words: &mut Words<'_>) -> Result<DType, LineFault> {
    dtype_named(word(words)?).ok_or(LineFault::Syntax)
}

// The register that the next word names.
fn register(words: &mut Words<'_>) -> Result<RegisterWord, LineFault> {
    RegisterWord::from_word(word(words)?).ok_or(LineFault::Syntax)
}

// The validity that the next word names.
fn validity(words: &mut Words<'_>) -> Result<ValidityWord, LineFault> {
    ValidityWord::from_word(word(words)?).ok_or(LineFault::Syntax)
}

// The number that the next word writes.
fn number(words: &mut Words<'_>) -> Result<usize, LineFault> {
    whole_number(word(words)?).ok_or(LineFault::Syntax)
}
