// A table that is being made: its nodes have blocks of their own.

ghost use Rattle.std.specs.Prelude.{◌≡◌, ◌≤◌, [], length};
ghost use Rattle.std.specs.Vec.{vec_capacity};
ghost use Rattle.vx_base.specs.Refusals.{Gives};

use crate::table::{CodraskBytes, CodraskNode, CodraskView, NodeKind};
use std::alloc::Global;
use vx_base::VortexError;

// Buffers of a node, and room for what C gets of them.
#[derive(Drop)]
pub(crate) struct WrittenBuffers {
    pub blocks: Vec<Vec<u8>>,
    pub room: Vec<CodraskBytes<'static>>,
    ghost empty: { room.items ≡ [] },
    ghost fits: { length blocks.items ≤ vec_capacity room },
}

// One array of a table, with blocks of its own.
#[derive(Drop)]
pub(crate) struct WrittenNode {
    pub kind: NodeKind,
    pub validity: u32,
    pub size: u32,
    pub length: usize,
    pub offset: usize,
    pub bytes: Vec<u8>,
    pub views: Vec<CodraskView>,
    pub buffers: WrittenBuffers,
}

// The nodes of a column, and room for what C gets of them.
#[derive(Drop)]
pub(crate) struct WrittenTable {
    pub nodes: Vec<WrittenNode>,
    pub room: Vec<CodraskNode<'static>>,
    ghost empty: { room.items ≡ [] },
    ghost fits: { length nodes.items ≤ vec_capacity room },
}

impl WrittenBuffers {
    // No buffer.
    pub(crate) fn none(alloc: Global) -> WrittenBuffers
        ensures { result.blocks.items ≡ [] }
    {
        WrittenBuffers {
            blocks: Vec::new(alloc),
            room: Vec::new(alloc),
        }
    }

    // These buffers. Fails only for want of memory.
    pub(crate) fn of(alloc: Global, blocks: Vec<Vec<u8>>) -> Result<WrittenBuffers, VortexError>
        ensures { Gives result (λ b. b.blocks.items ≡ blocks.items) }
    {
        let room = Vec::with_capacity(alloc, blocks.len())?;
        Ok(WrittenBuffers { blocks, room })
    }
}

impl WrittenTable {
    // A table of these nodes. Fails only for want of memory.
    pub(crate) fn of(alloc: Global, nodes: Vec<WrittenNode>) -> Result<WrittenTable, VortexError>
        ensures { Gives result (λ t. t.nodes.items ≡ nodes.items) }
    {
        let room = Vec::with_capacity(alloc, nodes.len())?;
        Ok(WrittenTable { nodes, room })
    }
}
