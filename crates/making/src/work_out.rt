// A pattern worked out from its parts, in prefix order. Finished tables stand one behind the other on a stack, each with room for
// `most` rows; a pattern's own is left at the stack's front. What is lent is said by clauses, as in the steps of parts.
ghost use Rattle.std.specs.Prelude.{ℕ, ◌*◌, ◌≤◌, length, slice_index};
ghost use Rattle.parts.specs.Rooms.{Rooms, RoomsApart};
ghost use Rattle.parts.specs.Combining.{PartInside, Combines};
ghost use Rattle.making.specs.Working.{over, Workable, WorkableTwo, WorkedSays, TwoSays};

use crate::binary::Binary;
use crate::order::Order;
use crate::plan::Plan;
use exploration::pairs::Connective::{And, Or};
use machines::columns::ByteColumns;
use parts::leaf::Leaf;
use parts::part::Part;
use parts::steps::{complement, connect_in, leaf_in, repetition_in, sequence_in};
use patterns::node::{Node, read_node};

// The step at a node that takes two parts.
fn combine(
    kind: Binary,
    first: Part,
    second: Part,
    columns: ByteColumns<'_>,
    most: usize,
    stack: &mut [u32],
    raw: &mut [u32],
    block: &mut [u32],
    work: &mut [u32],
) -> Option<usize>
    requires room { RoomsApart most (length stack.old) (length raw.old) (length block.old) (length work.old) }
    requires first { PartInside columns.count first stack.old }
    requires second { PartInside columns.count second stack.old }
    requires few { second.rows ≤ most }
    ensures { Combines (over kind) (λ b. slice_index columns.entry.column.now b) columns.entry.count first second most stack.old stack.new result }
{
    match kind {
        Binary::Followed => sequence_in(first, second, columns, most, stack, raw, block, work),
        Binary::Connected(join) => connect_in(
            join, first, second, columns, most, stack, raw, block, work,
        ),
    }
}

// Works out both parts of a node, then the node over them.
#[cycle(working)]
fn two_parts(
    plan: Plan<'_>,
    kind: Binary,
    next: usize,
    most: usize,
    stack: &mut [u32],
    raw: &mut [u32],
    block: &mut [u32],
    work: &mut [u32],
) -> Option<usize>
    requires room { RoomsApart most (length stack.old) (length raw.old) (length block.old) (length work.old) }
    requires here { WorkableTwo plan.list.now next (257 * most) (length stack.old) }
    ensures { TwoSays (λ b. slice_index plan.entry.columns.column.now b) plan.entry.columns.count plan.entry.list.now kind next most stack.new result }
{
    let tables = plan.extents.tables;
    let second = plan.extents.ends[next] as usize;
    let order = Order::by_tables(tables[next], tables[second]);
    let (one, other) = order.arrange(next, second);
    let ones = work_out_in(plan, one, most, stack, raw, block, work)?;
    let behind = 257 * most;
    let others = work_out_in(plan, other, most, &mut stack[behind..], raw, block, work)?;
    let one = Part { at: 0, rows: ones };
    let other = Part {
        at: behind,
        rows: others,
    };
    let (first, second) = order.arrange(one, other);
    combine(
        kind,
        first,
        second,
        plan.columns,
        most,
        stack,
        raw,
        block,
        work,
    )
}

// Works out the pattern that stands at a place of the list.
#[cycle(working)]
pub fn work_out_in(
    plan: Plan<'_>,
    at: usize,
    most: usize,
    stack: &mut [u32],
    raw: &mut [u32],
    block: &mut [u32],
    work: &mut [u32],
) -> Option<usize>
    requires room { RoomsApart most (length stack.old) (length raw.old) (length block.old) (length work.old) }
    requires here { Workable plan.list.now at (257 * most) (length stack.old) }
    ensures { WorkedSays (λ b. slice_index plan.entry.columns.column.now b) plan.entry.columns.count plan.entry.list.now at most stack.new result }
{
    let Some(node) = read_node(plan.list, at) else {
        return unreachable();
    };
    let next = at + node.width();
    match node {
        Node::Nothing => leaf_in(Leaf::Nothing, plan.columns, most, stack, raw, block, work),
        Node::Empty => leaf_in(Leaf::Empty, plan.columns, most, stack, raw, block, work),
        Node::Range(low, high) => {
            let range = Leaf::Range(low, high);
            leaf_in(range, plan.columns, most, stack, raw, block, work)
        }
        Node::Complement => {
            let rows = work_out_in(plan, next, most, stack, raw, block, work)?;
            complement(rows, stack);
            Some(rows)
        }
        Node::Star => {
            let rows = work_out_in(plan, next, most, stack, raw, block, work)?;
            let part = Part { at: 0, rows };
            repetition_in(part, plan.columns, most, stack, raw, block, work)
        }
        Node::Sequence => two_parts(plan, Binary::Followed, next, most, stack, raw, block, work),
        Node::Union => {
            let either = Binary::Connected(Or);
            two_parts(plan, either, next, most, stack, raw, block, work)
        }
        Node::Intersection => {
            let both = Binary::Connected(And);
            two_parts(plan, both, next, most, stack, raw, block, work)
        }
    }
}

// The same in one slice of work: the table of a step's rows comes first, then their blocks.
pub fn work_out(
    plan: Plan<'_>,
    at: usize,
    most: usize,
    stack: &mut [u32],
    work: &mut [u32],
) -> Option<usize>
    requires room { Rooms most (length stack.old) (length work.old) }
    requires here { Workable plan.list.now at (257 * most) (length stack.old) }
    ensures { WorkedSays (λ b. slice_index plan.entry.columns.column.now b) plan.entry.columns.count plan.entry.list.now at most stack.new result }
{
    let (raw, rest) = work.split_at_mut(257 * most);
    let (block, rest) = rest.split_at_mut(most);
    work_out_in(plan, at, most, stack, raw, block, rest)
}
