// A column as C hands it over: nodes, each before the nodes of its parts.

ghost use Rattle.std.specs.Prelude.{◌≡◌, slice_get};
ghost use Rattle.vx_c.specs.NodeKinds.{kind_numbered, kind_number};
ghost use Rattle.vx_c.specs.Told.{offset_kinds, offset_kind_numbered};

use vx_base::PType;

/// Some bytes: in C a pointer, which is never null, and a count.
#[repr(C)]
#[derive(Drop)]
pub struct CodraskBytes<'a> {
    pub bytes: &'a [u8],
}

/// A view of a text or of a byte list, in its 16 bytes.
#[repr(C)]
#[derive(Drop)]
pub struct CodraskView {
    pub bytes: [u8; 16],
}

/// One array of a column, as it stands in the table, before the nodes of its parts. What the kind
/// does not use is not looked at.
#[repr(C)]
#[derive(Drop)]
pub struct CodraskNode<'a> {
    /// Which layout, and of numbers which type: a number of `NodeKind`.
    pub kind: u32,
    /// Which rows are null: 0 none can be, 1 none is, 2 every row is, 3 those at which the first
    /// array of the nodes that follow is false. A dictionary has 0.
    pub validity: u32,
    /// How many rows each list of one size has.
    pub size: u32,
    /// How many rows the array has.
    pub length: usize,
    /// The bit of `bytes` at which truth values begin.
    pub offset: usize,
    /// Truth values, one to a bit, or numbers, their lowest byte first.
    pub bytes: &'a [u8],
    /// The views of texts or byte lists.
    pub views: &'a [CodraskView],
    /// What the views refer to; of records, the names of the columns.
    pub buffers: &'a [CodraskBytes<'a>],
}

/// The nodes of a column.
#[repr(C)]
#[derive(Drop)]
pub struct CodraskTable<'a> {
    pub nodes: &'a [CodraskNode<'a>],
}

/// The tables that a call wrote, in blocks that are the caller's.
#[repr(C)]
#[derive(Drop)]
pub struct CodraskTables {
    pub tables: &'static [CodraskTable<'static>],
}

// What a node says that it is.
#[derive(Clone, Copy, Debug, PartialEq, Eq)]
pub(crate) enum NodeKind {
    // Truth values.
    Bool,
    // Whole numbers of a type.
    Number(PType),
    // Texts by views.
    Utf8,
    // Byte lists by views.
    Binary,
    // The arrays of two nodes: codes, values.
    Dictionary,
    // The array of one node: elements.
    FixedSizeList,
    // The arrays of three nodes: elements, offsets, sizes.
    ListView,
    // An array for each name.
    Struct,
}

impl NodeKind {
    // The kind of this number.
    pub(crate) fn numbered(number: u32) -> Option<NodeKind>
        ensures { result ≡ kind_numbered number }
    {
        let kinds = [
            NodeKind::Bool,
            NodeKind::Number(PType::U8),
            NodeKind::Number(PType::U16),
            NodeKind::Number(PType::U32),
            NodeKind::Number(PType::U64),
            NodeKind::Number(PType::I8),
            NodeKind::Number(PType::I16),
            NodeKind::Number(PType::I32),
            NodeKind::Number(PType::I64),
            NodeKind::Utf8,
            NodeKind::Binary,
            NodeKind::Dictionary,
            NodeKind::FixedSizeList,
            NodeKind::ListView,
            NodeKind::Struct,
        ];
        kinds.get(number as usize).copied()
    }

    // The number of this kind.
    pub(crate) fn number(self) -> u32
        ensures { result ≡ kind_number self }
    {
        match self {
            NodeKind::Bool => 0,
            NodeKind::Number(PType::U8) => 1,
            NodeKind::Number(PType::U16) => 2,
            NodeKind::Number(PType::U32) => 3,
            NodeKind::Number(PType::U64) => 4,
            NodeKind::Number(PType::I8) => 5,
            NodeKind::Number(PType::I16) => 6,
            NodeKind::Number(PType::I32) => 7,
            NodeKind::Number(PType::I64) => 8,
            NodeKind::Utf8 => 9,
            NodeKind::Binary => 10,
            NodeKind::Dictionary => 11,
            NodeKind::FixedSizeList => 12,
            NodeKind::ListView => 13,
            NodeKind::Struct => 14,
        }
    }
}

// What offsets stand for in a node of a table that is only tested.
#[derive(Clone, Copy, Debug, PartialEq, Eq)]
pub(crate) enum OffsetKind {
    // Texts between them.
    Utf8(PType),
    // Byte lists between them.
    Binary(PType),
    // Numbers: the offsets, counted from the first one.
    Starts(PType),
    // Numbers: each offset but the first, less the one before it.
    Sizes(PType),
}

impl OffsetKind {
    // What they stand for by this number.
    pub(crate) fn numbered(number: u32) -> Option<OffsetKind>
        ensures { result ≡ offset_kind_numbered number }
    {
        if number < 15 {
            return None;
        }
        OffsetKind::at(number - 15)
    }

    // What they stand for by this place among all of them.
    fn at(place: u32) -> Option<OffsetKind>
        ensures { result ≡ slice_get offset_kinds place }
    {
        let kinds = [
            OffsetKind::Utf8(PType::I32),
            OffsetKind::Utf8(PType::I64),
            OffsetKind::Binary(PType::I32),
            OffsetKind::Binary(PType::I64),
            OffsetKind::Starts(PType::I32),
            OffsetKind::Starts(PType::I64),
            OffsetKind::Sizes(PType::I32),
            OffsetKind::Sizes(PType::I64),
        ];
        kinds.get(place as usize).copied()
    }
}
