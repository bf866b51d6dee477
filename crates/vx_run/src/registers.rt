// The arrays that a script has made, and the commands on them.

ghost use Rattle.std.specs.Prelude.{◌≡◌, ◌∷◌, [], OnOk, OnErr, IfErr};
ghost use Rattle.vx_run.specs.Script.{IsRefusedStep};
ghost use Rattle.vx_run.specs.Steps.{HasRun};

use crate::command::{Command, FixedSizeListWords, ListViewWords, StepWords, StructWords};
use crate::faults::LineFault;
use crate::operands::{RegisterWord, ValidityWord};
use crate::parts::show_parts;
use crate::run_steps::{drop_last_first, run};
use crate::show::show_array;
use crate::steps::Step;
use std::alloc::Global;
use std::mem;
use vx_leaves::DictArray;
use vx_lists::{FixedSizeListArray, ListViewArray};
use vx_structs::StructArray;
use vx_tree::{ArrayRef, TypedArray, Validity};

// The arrays that a script has made, by the numbers of their registers.
pub(crate) struct Registers {
    arrays: Vec<ArrayRef>,
}

impl Drop for Registers {
    fn drop(self) {
        let Registers { arrays } = self;
        drop_last_first(arrays);
    }
}

impl Registers {
    // No arrays.
    pub(crate) fn new(alloc: Global) -> Registers {
        Registers {
            arrays: Vec::new(alloc),
        }
    }

    // Runs one command: makes the next register, or answers the line to print, which ends in a
    // line feed.
    //
    // Refuses `NoRegister` where an operand is not made yet, then what the call refuses.
    pub(crate) fn run(
        &mut self,
        alloc: Global,
        command: Command,
    ) -> Result<Option<String>, LineFault> {
        let array = match command {
            Command::Literal(array) => array?,
            Command::ListView(parts) => self.list_view(alloc, parts)?,
            Command::FixedSizeList(parts) => self.fixed_size_list(alloc, parts)?,
            Command::Dictionary { codes, values } => self.dictionary(alloc, codes, values)?,
            Command::Struct(parts) => self.records(alloc, parts)?,
            Command::Step(words) => {
                let step = self.step(alloc, words)?;
                self.take_step(alloc, step)?;
                return Ok(None);
            }
            Command::Show { array } => return Ok(Some(self.show(alloc, array)?)),
            Command::Parts { array } => return Ok(Some(self.parts(alloc, array)?)),
        };
        self.arrays.push(array)?;
        Ok(None)
    }

    // The array of a register. Refuses `NoRegister` where it is not made yet.
    fn get(&self, register: RegisterWord) -> Result<&ArrayRef, LineFault> {
        register
            .number()
            .and_then(|number| self.arrays.get(number))
            .ok_or(LineFault::NoRegister)
    }

    // The position of a register. Refuses `NoRegister` where it is not made yet.
    fn position(&self, register: RegisterWord) -> Result<usize, LineFault> {
        register
            .number()
            .filter(|number| *number < self.arrays.len())
            .ok_or(LineFault::NoRegister)
    }

    // The positions of registers.
    fn positions(
        &self,
        alloc: Global,
        registers: &[RegisterWord],
    ) -> Result<Vec<usize>, LineFault> {
        let mut positions = Vec::with_capacity(alloc, registers.len())?;
        for register in registers {
            positions.push(self.position(*register)?)?;
        }
        Ok(positions)
    }

    // The arrays of registers, shared.
    fn get_all(
        &self,
        alloc: Global,
        registers: &[RegisterWord],
    ) -> Result<Vec<ArrayRef>, LineFault> {
        let mut arrays = Vec::with_capacity(alloc, registers.len())?;
        for register in registers {
            arrays.push(self.get(*register)?.try_clone(alloc)?)?;
        }
        Ok(arrays)
    }

    // A list view over three registers.
    fn list_view(&self, alloc: Global, parts: ListViewWords) -> Result<ArrayRef, LineFault> {
        let elements = self.get(parts.elements)?;
        let offsets = self.get(parts.offsets)?;
        let sizes = self.get(parts.sizes)?;
        let validity = self.validity(alloc, parts.validity)?;
        let list_view = ListViewArray::try_new(
            alloc,
            elements.try_clone(alloc)?,
            offsets.try_clone(alloc)?,
            sizes.try_clone(alloc)?,
            validity,
        )?;
        Ok(list_view.into_array())
    }

    // Lists of one size over a register.
    fn fixed_size_list(
        &self,
        alloc: Global,
        parts: FixedSizeListWords,
    ) -> Result<ArrayRef, LineFault> {
        let elements = self.get(parts.elements)?;
        let validity = self.validity(alloc, parts.validity)?;
        let lists = FixedSizeListArray::try_new(
            alloc,
            elements.try_clone(alloc)?,
            parts.size,
            validity,
            parts.len,
        )?;
        Ok(lists.into_array())
    }

    // The values of one register that the codes of another name.
    fn dictionary(
        &self,
        alloc: Global,
        codes: RegisterWord,
        values: RegisterWord,
    ) -> Result<ArrayRef, LineFault> {
        let codes = self.get(codes)?;
        let values = self.get(values)?;
        let dictionary = DictArray::try_new(
            alloc,
            codes.try_clone(alloc)?,
            values.try_clone(alloc)?,
        )?;
        Ok(dictionary.into_array())
    }

    // Records whose columns are registers.
    fn records(&self, alloc: Global, parts: StructWords) -> Result<ArrayRef, LineFault> {
        let columns = self.get_all(alloc, &parts.columns)?;
        let validity = self.validity(alloc, parts.validity)?;
        let records = StructArray::try_new(
            alloc,
            parts.names,
            columns.into_iter(),
            parts.len,
            validity,
        )?;
        Ok(records.into_array())
    }

    // The validity that a word names.
    fn validity(&self, alloc: Global, validity: ValidityWord) -> Result<Validity, LineFault> {
        Ok(match validity {
            ValidityWord::NonNull => Validity::NonNullable,
            ValidityWord::AllValid => Validity::AllValid,
            ValidityWord::AllInvalid => Validity::AllInvalid,
            ValidityWord::Register(register) => {
                Validity::Array(self.get(register)?.try_clone(alloc)?)
            }
        })
    }

    // The step that a line names, on the registers that it names. Refuses `NoRegister` where one of
    // them is not made yet.
    fn step(&self, alloc: Global, words: StepWords) -> Result<Step, LineFault> {
        Ok(match words {
            StepWords::Slice { array, start, end } => Step::Slice {
                array: self.position(array)?,
                start,
                end,
            },
            StepWords::Take { array, indices } => Step::Take {
                array: self.position(array)?,
                indices: self.position(indices)?,
            },
            StepWords::Filter { array, mask } => Step::Filter {
                array: self.position(array)?,
                mask: self.position(mask)?,
            },
            StepWords::Mask { array, mask } => Step::Mask {
                array: self.position(array)?,
                mask: self.position(mask)?,
            },
            StepWords::Concat { arrays } => Step::Concat {
                arrays: self.positions(alloc, &arrays)?,
            },
            StepWords::Rebuild { array, mode } => Step::Rebuild {
                array: self.position(array)?,
                mode,
            },
            StepWords::Narrow { array } => Step::Narrow {
                array: self.position(array)?,
            },
            StepWords::Project { array, names } => Step::Project {
                array: self.position(array)?,
                names,
            },
        })
    }

    // Takes one step on the arrays. They are handed over and come back: with the step's result, or
    // as they were.
    fn take_step(&mut self, alloc: Global, step: Step) -> Result<(), LineFault>
        ensures taken { OnOk result (HasRun (step ∷ []) self.old.arrays.items self.new.arrays.items) }
        ensures kept { OnErr result (self.new.arrays.items ≡ self.old.arrays.items) }
        ensures refused { IfErr result (IsRefusedStep step self.old.arrays.items) }
    {
        let arrays = mem::replace(&mut self.arrays, Vec::new(alloc));
        match run(alloc, arrays, &[step]) {
            Ok(results) => {
                self.arrays = results;
                Ok(())
            }
            Err(fault) => {
                let error = fault.error;
                self.arrays = fault.into_arrays();
                Err(LineFault::Refused(error))
            }
        }
    }

    // The rows of a register, and a line feed.
    fn show(&self, alloc: Global, array: RegisterWord) -> Result<String, LineFault> {
        let array = self.get(array)?;
        let mut line = String::new(alloc);
        show_array(alloc, array, &mut line)?;
        line.push('\n')?;
        Ok(line)
    }

    // The parts of a register, and a line feed.
    fn parts(&self, alloc: Global, array: RegisterWord) -> Result<String, LineFault> {
        let array = self.get(array)?;
        let mut line = String::new(alloc);
        show_parts(alloc, array, &mut line)?;
        line.push('\n')?;
        Ok(line)
    }
}
