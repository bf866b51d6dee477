// Tables whose blocks are C's from then on. What takes memory was done before, so no block is lost.

ghost use Rattle.std.specs.Prelude.{◌≡◌, ◌≤◌, [], length, map};
ghost use Rattle.std.specs.Vec.{vec_capacity};
ghost use Rattle.vx_c.specs.Written.{plainly, node_of};

use crate::table::{CodraskBytes, CodraskNode, CodraskTable};
use crate::written::{WrittenBuffers, WrittenNode, WrittenTable};

// The buffers, in blocks that C has.
fn lend_buffers(buffers: WrittenBuffers) -> &'static [CodraskBytes<'static>]
    ensures { map (λ b. b.bytes.now) result.now ≡ map (λ b. b.items) buffers.blocks.items }
{
    let WrittenBuffers {
        mut blocks,
        mut room,
    } = buffers;
    while let Some(block) = blocks.pop() {
        room.push_reserved(CodraskBytes {
            bytes: block.leak(),
        });
    }
    room.reverse();
    room.leak()
}

// The node, in blocks that C has.
fn lend_node(node: WrittenNode) -> CodraskNode<'static>
    ensures { plainly result ≡ node_of node }
{
    let WrittenNode {
        kind,
        validity,
        size,
        length,
        offset,
        bytes,
        views,
        buffers,
    } = node;
    CodraskNode {
        kind: kind.number(),
        validity,
        size,
        length,
        offset,
        bytes: bytes.leak(),
        views: views.leak(),
        buffers: lend_buffers(buffers),
    }
}

// The table, in blocks that C has.
fn lend_table(table: WrittenTable) -> CodraskTable<'static>
    ensures { map plainly result.nodes.now ≡ map node_of table.nodes.items }
{
    let WrittenTable {
        mut nodes,
        mut room,
    } = table;
    while let Some(node) = nodes.pop() {
        room.push_reserved(lend_node(node));
    }
    room.reverse();
    CodraskTable { nodes: room.leak() }
}

// The tables, in blocks that C has. Asks room for them.
pub(crate) fn lend_tables(
    mut tables: Vec<WrittenTable>,
    mut room: Vec<CodraskTable<'static>>,
) -> &'static [CodraskTable<'static>]
    requires empty { room.items ≡ [] }
    requires fits { length tables.items ≤ vec_capacity room }
    ensures { map (λ t. map plainly t.nodes.now) result.now ≡ map (λ t. map node_of t.nodes.items) tables.items }
{
    while let Some(table) = tables.pop() {
        room.push_reserved(lend_table(table));
    }
    room.reverse();
    room.leak()
}
