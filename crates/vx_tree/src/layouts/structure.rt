// Records, by columns.

ghost use Rattle.std.specs.Prelude.{◌≡◌, ◌<◌, ◌≤◌, ◌+◌, ◌-◌, ℕ, true, false, None, Some, if◌then◌else◌, length, map};
ghost use Rattle.vx_base.specs.Refusals.{Gives, overflow};
ghost use Rattle.vx_base.specs.Kinds.{records};
ghost use Rattle.vx_base.specs.ValueRows.{row_under};
ghost use Rattle.vx_base.specs.DTypes.{dtype_meaning, is_nullable};
ghost use Rattle.vx_tree.specs.Tree.{structure};
ghost use Rattle.vx_tree.specs.Layouts.{is_struct};
ghost use Rattle.vx_tree.specs.Meaning.{tree_len, kind_of, kinds_of, trees_from, row_at, is_valid_at};
ghost use Rattle.vx_tree.specs.Formed.{ValidFits, IsStruct, column_count};
ghost use Rattle.vx_tree.specs.Fitting.{ColumnsFormed};
ghost use Rattle.vx_tree.specs.Parts.{valid_of};
ghost use Rattle.vx_tree.specs.Faults.{take_overflow, columns_overflow};
ghost use Rattle.vx_tree.specs.Columns.{AllReach, AllHave, AreAlike, AreSlices, AreSelected, AreFields};
ghost use Rattle.vx_tree.specs.Operations.{IsSlice, IsSelected, IsNulls, AreBelow};

use crate::array::{ArrayRef, Layout, Validity};
use std::alloc::Global;
use std::rc::Rc;
use vx_base::{
    DType, FieldNames, Nullability, ScalarValue, ScalarValues, Selection, StructFields, VortexError,
};

impl ArrayRef {
    /// Records, null where the validity is false: row `i` has the rows `i` of the columns, each
    /// under the name at its place. Asks that there is one column a name, and that each column and
    /// the validity have `len` rows. A name may stand more than once. The columns `[1, 2]` and
    /// `[true, false]` under the names a and b are the records `{a:1,b:true}`, `{a:2,b:false}`.
    pub fn structure(
        alloc: Global,
        names: FieldNames,
        columns: Vec<ArrayRef>,
        validity: Validity,
        len: usize,
    ) -> Result<ArrayRef, VortexError>
        requires fits { ValidFits (valid_of validity) len }
        requires columns { IsStruct names (trees_from columns.items) len }
        ensures { Gives result (λ a. a ≡ structure names (trees_from columns.items) (valid_of validity) len) }
    {
        ArrayRef::from_parts(
            alloc,
            Layout::Struct {
                names,
                columns,
                validity,
                len,
            },
        )
    }

    #[cycle(slice)]
    pub(crate) fn slice_struct(
        &self,
        alloc: Global,
        start: usize,
        end: usize,
    ) -> Result<ArrayRef, VortexError>
        requires layout { is_struct self.now ≡ true }
        requires start_le_end { start ≤ end }
        requires in_bounds { end ≤ tree_len self.now }
        ensures { Gives result (IsSlice self.now start (end - start)) }
    {
        let Layout::Struct {
            names,
            columns,
            validity,
            ..
        } = self.layout()
        else {
            unreachable!();
        };
        let names = names.try_clone(alloc)?;
        let columns = match ArrayRef::slice_columns(alloc, columns, start, end) {
            Ok(columns) => columns,
            Err(error) => {
                drop(names);
                return Err(error);
            }
        };
        let validity = match validity.slice_within(alloc, start, end) {
            Ok(validity) => validity,
            Err(error) => {
                drop(names);
                drop(columns);
                return Err(error);
            }
        };
        let layout = Layout::Struct {
            names,
            columns,
            validity,
            len: end - start,
        };
        self.with_parts(alloc, layout)
    }

    // The rows from `start` up to `end` of each column, where they lie within.
    #[cycle(slice)]
    fn slice_columns(
        alloc: Global,
        columns: &[ArrayRef],
        start: usize,
        end: usize,
    ) -> Result<Vec<ArrayRef>, VortexError>
        requires start_le_end { start ≤ end }
        requires in_bounds { AllReach end (trees_from columns.now) }
        ensures { Gives result (λ cs. AreSlices (trees_from columns.now) start (end - start) (trees_from cs.items)) }
    {
        let mut sliced = Vec::with_capacity(alloc, columns.len())?;
        for column in columns {
            sliced.push(column.slice_within(alloc, start, end)?)?;
        }
        Ok(sliced)
    }

    #[cycle(select)]
    pub(crate) fn select_struct(
        &self,
        alloc: Global,
        selection: &Selection,
    ) -> Result<ArrayRef, VortexError>
        requires layout { is_struct self.now ≡ true }
        requires within { AreBelow (tree_len self.now) selection.now }
        requires countable { take_overflow self.now (length selection.now) ≡ None }
        ensures { Gives result (IsSelected self.now selection.now) }
    {
        let Layout::Struct {
            names,
            columns,
            validity,
            ..
        } = self.layout()
        else {
            unreachable!();
        };
        let names = names.try_clone(alloc)?;
        let columns = match ArrayRef::select_columns(alloc, columns, selection) {
            Ok(columns) => columns,
            Err(error) => {
                drop(names);
                return Err(error);
            }
        };
        let validity = match validity.select_within(alloc, selection) {
            Ok(validity) => validity,
            Err(error) => {
                drop(names);
                drop(columns);
                return Err(error);
            }
        };
        let layout = Layout::Struct {
            names,
            columns,
            validity,
            len: selection.len(),
        };
        self.with_parts(alloc, layout)
    }

    // The rows of each column that are picked.
    #[cycle(select)]
    fn select_columns(
        alloc: Global,
        columns: &[ArrayRef],
        selection: &Selection,
    ) -> Result<Vec<ArrayRef>, VortexError>
        requires within { AllHave selection.now (trees_from columns.now) }
        requires countable { columns_overflow (trees_from columns.now) (length selection.now) ≡ None }
        ensures { Gives result (λ cs. AreSelected (trees_from columns.now) selection.now (trees_from cs.items)) }
    {
        let mut selected = Vec::with_capacity(alloc, columns.len())?;
        for column in columns {
            selected.push(column.select_within(alloc, selection)?)?;
        }
        Ok(selected)
    }

    // Whether so many rows of each column need no more elements than can be counted.
    #[cycle(can_select)]
    pub(crate) fn can_select_columns(columns: &[ArrayRef], count: usize) -> bool
        ensures { columns_overflow (trees_from columns.now) count ≡ (if result then None else Some overflow) }
    {
        for column in columns {
            if !column.can_select(count) {
                return false;
            }
        }
        true
    }

    // The columns keep their data types.
    pub(crate) fn null_records(
        &self,
        alloc: Global,
        len: usize,
        nulls: &Validity,
    ) -> Result<ArrayRef, VortexError>
        requires layout { is_struct self.now ≡ true }
        requires fits { ValidFits (valid_of nulls.now) len }
        requires none { (i : ℕ) → i < len → is_valid_at (valid_of nulls.now) i ≡ false }
        ensures { Gives result (IsNulls self.now len (valid_of nulls.now)) }
    {
        let Layout::Struct {
            names,
            columns,
            validity,
            ..
        } = self.layout()
        else {
            unreachable!();
        };
        let validity = validity.nulls(alloc, len, nulls)?;
        let names = match names.try_clone(alloc) {
            Ok(names) => names,
            Err(error) => {
                drop(validity);
                return Err(error);
            }
        };
        match default_columns(alloc, columns, len) {
            Ok(columns) => ArrayRef::structure(alloc, names, columns, validity, len),
            Err(error) => {
                drop(validity);
                drop(names);
                Err(error)
            }
        }
    }

    // The record that row `i` is, `None` where it is null.
    #[cycle(value)]
    #[tactic(auto, using(crate::specs::Formed::valid_reads))]
    pub(crate) fn record_value(
        &self,
        alloc: Global,
        i: usize,
    ) -> Result<Option<ScalarValue>, VortexError>
        requires layout { is_struct self.now ≡ true }
        requires in_bounds { i < tree_len self.now }
        ensures { Gives result (λ v. row_under (kind_of self.now) v ≡ row_at self.now i) }
    {
        let Layout::Struct {
            columns,
            validity,
            ..
        } = self.layout()
        else {
            unreachable!();
        };
        if !validity.is_valid_at(i) {
            return Ok(None);
        }
        let values = ArrayRef::column_values(alloc, columns, i)?;
        let values = ScalarValues::from_vec(alloc, values)?;
        Ok(Some(ScalarValue::Record(values)))
    }

    // The value of row `i` of each column.
    #[cycle(value)]
    fn column_values(
        alloc: Global,
        columns: &[ArrayRef],
        i: usize,
    ) -> Result<Vec<Option<ScalarValue>>, VortexError>
        requires { AllReach (i + 1) (trees_from columns.now) }
        ensures { Gives result (λ vs. AreFields (trees_from columns.now) i vs.items) }
    {
        let mut values = Vec::with_capacity(alloc, columns.len())?;
        for column in columns {
            values.push(column.value_at(alloc, i)?)?;
        }
        Ok(values)
    }
}

// What is always true of columns, at every depth. It does nothing.
pub(crate) fn all_known(columns: &[ArrayRef])
    ensures { ColumnsFormed (trees_from columns.now) }
{
    for column in columns {
        column.known();
    }
}

// The data type of records of these columns.
pub(crate) fn record_dtype(
    alloc: Global,
    names: &FieldNames,
    columns: &[ArrayRef],
    nullability: Nullability,
) -> Result<DType, VortexError>
    requires { length names.now ≡ column_count (trees_from columns.now) }
    ensures { Gives result (λ d. dtype_meaning d ≡ records names.now (kinds_of (trees_from columns.now)) (is_nullable nullability)) }
{
    let names = names.try_clone(alloc)?;
    let dtypes = Rc::new(alloc, column_dtypes(alloc, columns)?)?;
    Ok(DType::new_struct(StructFields::new(names, dtypes), nullability))
}

// The data types of columns, in order.
fn column_dtypes(alloc: Global, columns: &[ArrayRef]) -> Result<Vec<DType>, VortexError>
    ensures { Gives result (λ ds. map dtype_meaning ds.items ≡ map kind_of columns.now) }
{
    let mut dtypes = Vec::with_capacity(alloc, columns.len())?;
    for column in columns {
        dtypes.push(column.dtype().try_clone(alloc)?)?;
    }
    Ok(dtypes)
}

// The same columns, shared.
fn share_columns(alloc: Global, columns: &[ArrayRef]) -> Result<Vec<ArrayRef>, VortexError>
    ensures { Gives result (λ cs. cs.items ≡ columns.now) }
{
    let mut shared = Vec::with_capacity(alloc, columns.len())?;
    for column in columns {
        shared.push(column.try_clone(alloc)?)?;
    }
    Ok(shared)
}

// `len` default rows for each column, of its data type.
fn default_columns(
    alloc: Global,
    columns: &[ArrayRef],
    len: usize,
) -> Result<Vec<ArrayRef>, VortexError>
    ensures { Gives result (λ cs. AreAlike (trees_from columns.now) len (trees_from cs.items)) }
{
    let mut made = Vec::with_capacity(alloc, columns.len())?;
    for column in columns {
        made.push(column.default_rows(alloc, len)?)?;
    }
    Ok(made)
}

// Records of these columns, shared, under this validity.
pub(crate) fn records_under(
    alloc: Global,
    names: &FieldNames,
    columns: &[ArrayRef],
    validity: Validity,
    len: usize,
) -> Result<ArrayRef, VortexError>
    requires fits { ValidFits (valid_of validity) len }
    requires columns { IsStruct names.now (trees_from columns.now) len }
    ensures { Gives result (λ a. a ≡ structure names.now (trees_from columns.now) (valid_of validity) len) }
{
    let names = match names.try_clone(alloc) {
        Ok(names) => names,
        Err(error) => {
            drop(validity);
            return Err(error);
        }
    };
    match share_columns(alloc, columns) {
        Ok(columns) => ArrayRef::structure(alloc, names, columns, validity, len),
        Err(error) => {
            drop(names);
            drop(validity);
            Err(error)
        }
    }
}
