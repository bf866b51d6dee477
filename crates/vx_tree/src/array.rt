// An array, and the layouts that it may have.

ghost use Rattle.std.specs.Prelude.{◌≡◌, ◌==◌, ◌<◌, ◌^◌};
ghost use Rattle.vx_base.specs.DTypes.{dtype_meaning};
ghost use Rattle.vx_base.specs.Refusals.{Gives};
ghost use Rattle.vx_tree.specs.Meaning.{tree_len, kind_of};
ghost use Rattle.vx_tree.specs.Formed.{WellFormed};
ghost use Rattle.vx_tree.specs.Fitting.{AllFormed};
ghost use Rattle.vx_tree.specs.Parts.{tree_of};

use crate::layouts::dict::dictionary_dtype;
use crate::layouts::fixed_size_list::fixed_lists_dtype;
use crate::layouts::list_view::lists_dtype;
use crate::layouts::structure::{all_known, record_dtype};
use crate::layouts::var_bin_view::known_views;
use std::alloc::Global;
use std::marker::Model;
use std::rc::Rc;
use vx_base::{
    BitBuffer, Buffer, ByteBuffer, DType, FieldNames, PType, Scalar, VortexError, number_count,
};
use vx_views::BinaryView;

/// A column of rows: a layout whose parts are shared, with the data type and the number of its
/// rows. Its parts are well formed at every depth.
#[cycle(tree)]
#[derive(Drop)]
pub struct ArrayRef {
    node: Rc<Node>,
}

#[cycle(tree)]
#[derive(Drop)]
struct Node {
    dtype: DType,
    len: usize,
    layout: Layout,
}

/// Which rows are valid; the others are null.
#[cycle(tree)]
#[derive(Drop)]
pub enum Validity {
    /// Every row is valid, and the data type takes no null.
    NonNullable,
    /// Every row is valid, and the data type takes null.
    AllValid,
    /// Every row is null.
    AllInvalid,
    /// An array of plain booleans, in any layout, is true where the row is valid.
    Array(ArrayRef),
}

/// The layouts of an array.
#[cycle(tree)]
#[derive(Drop)]
pub enum Layout {
    /// Truth values, one to a bit.
    Bool {
        bits: BitBuffer,
        validity: Validity,
    },
    /// Whole numbers of one type, one after another, their lowest byte first.
    Primitive {
        ptype: PType,
        bytes: ByteBuffer,
        validity: Validity,
    },
    /// One row, `len` times.
    Constant {
        scalar: Scalar,
        len: usize,
    },
    /// Row `i` is the value at the position `codes[i]`, null where the code is null. A set flag
    /// says that every value is referenced.
    Dict {
        codes: ArrayRef,
        values: ArrayRef,
        flag: bool,
    },
    /// Row `i` is the list of the `size` rows of the elements from `i * size` on.
    FixedSizeList {
        elements: ArrayRef,
        size: u32,
        validity: Validity,
        len: usize,
    },
    /// Row `i` is the list of `sizes[i]` rows of the elements from `offsets[i]` on. A set flag
    /// says that each list ends where the next one begins, null rows counted.
    ListView {
        elements: ArrayRef,
        offsets: ArrayRef,
        sizes: ArrayRef,
        validity: Validity,
        flag: bool,
    },
    /// Texts or byte lists: row `i` is the value of `views[i]`, which stands in the view or in one
    /// of the buffers. The view of a null row is 16 zero bytes.
    VarBinView {
        views: Buffer<BinaryView>,
        buffers: Vec<ByteBuffer>,
        dtype: DType,
        validity: Validity,
    },
    /// Row `i` is the record of the rows `i` of the columns, in order, each under its name.
    Struct {
        names: FieldNames,
        columns: Vec<ArrayRef>,
        validity: Validity,
        len: usize,
    },
}

impl Model for ArrayRef {
    ghost use Rattle.vx_tree.specs.Tree.{Tree, tree_code, depth};
    ghost use Rattle.vx_tree.specs.Fitting.{IsKept};

    ghost Value = { Tree };

    ghost coded = { tree_code };

    ghost use Rattle.vx_tree.specs.Parts.{tree_of};
    ghost use Rattle.vx_base.specs.DTypes.{dtype_meaning};

    ghost view = { λ a. tree_of a.node.value.layout };

    ghost invariant = { λ a. IsKept (tree_of a.node.value.layout) a.node.value.len (dtype_meaning a.node.value.dtype) };

    ghost size = { depth };

    ghost use Rattle.vx_tree.specs.Falls.{layout_falls};

    ghost size_decreases = { λ a h. layout_falls a.node.value.layout };
}

impl ArrayRef {
    /// How many rows there are.
    pub fn len(&self) -> usize
        ensures { result ≡ tree_len self.now }
    {
        self.node.len
    }

    /// Whether there is no row.
    pub fn is_empty(&self) -> bool
        ensures { result ≡ (tree_len self.now == 0) }
    {
        self.len() == 0
    }

    /// What the rows are.
    pub fn dtype(&self) -> &DType
        ensures { dtype_meaning result.now ≡ kind_of self.now }
    {
        &self.node.dtype
    }

    /// The layout with its parts, which are well formed.
    pub fn layout(&self) -> &Layout
        ensures parts { tree_of result.now ≡ self.now }
        ensures formed { WellFormed (tree_of result.now) }
    {
        &self.node.layout
    }

    /// An array of these parts. Asks that they are well formed: that the validity has as many
    /// rows, and is of plain booleans where it is an array, that the bytes of numbers are whole
    /// numbers, that a dictionary's codes are integers and each valid one the position of a value,
    /// that lists of a fixed size have all their elements and no more, that a list view's offsets
    /// and sizes are counts, as many of the one as of the other, that its lists end within the
    /// elements, that a struct has one column a name, each of its length, that a set flag holds,
    /// that views are of texts or byte lists, each of a valid row sound and that of a null row 16
    /// zero bytes, and that texts and byte lists are nullable just where their validity is.
    #[inline(always)]
    pub fn from_parts(alloc: Global, layout: Layout) -> Result<ArrayRef, VortexError>
        requires { WellFormed (tree_of layout) }
        ensures { Gives result (λ a. a ≡ tree_of layout) }
    {
        match layout.dtype(alloc) {
            Ok(dtype) => ArrayRef::of_dtype(alloc, dtype, layout),
            Err(error) => {
                drop(layout);
                Err(error)
            }
        }
    }

    // An array of other parts, of the same data type, which is shared. Asks that they are well
    // formed and of that data type.
    #[inline(always)]
    pub(crate) fn with_parts(&self, alloc: Global, layout: Layout) -> Result<ArrayRef, VortexError>
        requires formed { WellFormed (tree_of layout) }
        requires kind { kind_of (tree_of layout) ≡ kind_of self.now }
        ensures { Gives result (λ a. a ≡ tree_of layout) }
    {
        match self.dtype().try_clone(alloc) {
            Ok(dtype) => ArrayRef::of_dtype(alloc, dtype, layout),
            Err(error) => {
                drop(layout);
                Err(error)
            }
        }
    }

    // An array of these parts, of the data type that they have.
    #[inline(always)]
    fn of_dtype(alloc: Global, dtype: DType, layout: Layout) -> Result<ArrayRef, VortexError>
        requires formed { WellFormed (tree_of layout) }
        requires kind { dtype_meaning dtype ≡ kind_of (tree_of layout) }
        ensures { Gives result (λ a. a ≡ tree_of layout) }
    {
        layout.known();
        let len = layout.len();
        let node = Rc::new(alloc, Node { dtype, len, layout })?;
        Ok(ArrayRef { node })
    }

    /// What is always true of it, at every depth. It does nothing. For the crates above.
    pub fn known(&self)
        ensures { AllFormed self.now }
    {
        let _ = &self.node;
    }

    /// That its length is one that a machine word holds. It does nothing. For the crates above.
    pub fn known_len(&self)
        ensures { tree_len self.now < 2 ^ 64 }
    {
        let _len = self.len();
    }

    /// The same array, its parts shared.
    pub fn try_clone(&self, _alloc: Global) -> Result<ArrayRef, VortexError>
        ensures { Gives result (λ a. a ≡ self.now) }
    {
        let node = self.node.clone()?;
        Ok(ArrayRef { node })
    }
}

impl Layout {
    // What is true at every depth of parts that are well formed. It does nothing.
    fn known(&self)
        requires { WellFormed (tree_of self.now) }
        ensures { AllFormed (tree_of self.now) }
    {
        match self {
            Layout::Bool { validity, .. } => validity.known(),
            Layout::Primitive {
                bytes,
                validity,
                ..
            } => {
                let _bytes = bytes.as_slice();
                validity.known();
            }
            Layout::Constant { .. } => {}
            Layout::Dict { codes, values, .. } => {
                codes.known();
                values.known();
            }
            Layout::FixedSizeList {
                elements,
                validity,
                ..
            } => {
                elements.known();
                elements.known_len();
                validity.known();
            }
            Layout::ListView {
                elements,
                offsets,
                sizes,
                validity,
                ..
            } => {
                elements.known();
                offsets.known();
                sizes.known();
                validity.known();
            }
            Layout::VarBinView {
                views,
                buffers,
                validity,
                ..
            } => {
                known_views(views.as_slice(), buffers);
                validity.known();
            }
            Layout::Struct {
                columns,
                validity,
                ..
            } => {
                all_known(columns);
                validity.known();
            }
        }
    }

    // How many rows the parts have.
    fn len(&self) -> usize
        ensures { result ≡ tree_len (tree_of self.now) }
    {
        match self {
            Layout::Bool { bits, .. } => bits.len(),
            Layout::Primitive { ptype, bytes, .. } => number_count(bytes.as_slice(), *ptype),
            Layout::Constant { len, .. } => *len,
            Layout::Dict { codes, .. } => codes.len(),
            Layout::FixedSizeList { len, .. } => *len,
            Layout::ListView { offsets, .. } => offsets.len(),
            Layout::VarBinView { views, .. } => views.len(),
            Layout::Struct { len, .. } => *len,
        }
    }

    // The data type of the rows.
    fn dtype(&self, alloc: Global) -> Result<DType, VortexError>
        requires { WellFormed (tree_of self.now) }
        ensures { Gives result (λ d. dtype_meaning d ≡ kind_of (tree_of self.now)) }
    {
        match self {
            Layout::Bool { validity, .. } => Ok(DType::Bool(validity.nullability())),
            Layout::Primitive {
                ptype,
                validity,
                ..
            } => Ok(DType::Primitive(*ptype, validity.nullability())),
            Layout::Constant { scalar, .. } => scalar.dtype().try_clone(alloc),
            Layout::Dict { codes, values, .. } => dictionary_dtype(alloc, codes, values),
            Layout::FixedSizeList {
                elements,
                size,
                validity,
                ..
            } => fixed_lists_dtype(alloc, elements, *size, validity.nullability()),
            Layout::ListView {
                elements,
                validity,
                ..
            } => lists_dtype(alloc, elements, validity.nullability()),
            Layout::VarBinView { dtype, .. } => dtype.try_clone(alloc),
            Layout::Struct {
                names,
                columns,
                validity,
                ..
            } => record_dtype(alloc, names, columns, validity.nullability()),
        }
    }
}
