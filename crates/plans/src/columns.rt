// The bytes in columns: bytes that no range of a list tells apart share one.
ghost use Rattle.std.specs.Prelude.{◌≡◌, length};
ghost use Rattle.plans.specs.Dividing.{marks, Marked, Divided, ColumnsOf};

use patterns::node::{Node, read_node};

// Marks where a range begins and where it is over.
fn mark(node: Node, cuts: &mut [u32])
    requires { length cuts.old ≡ 257 }
    ensures { cuts.new ≡ marks node cuts.old }
{
    if let Node::Range(first, last) = node {
        cuts[first as usize] = 1;
        cuts[last as usize + 1] = 1;
    }
}

// Marks where the ranges of a list begin and where they are over. Every place is tried, also one inside a range's own bytes:
// what is taken for a range there costs two columns at most and changes nothing else.
fn mark_cuts(list: &[u8], cuts: &mut [u32])
    requires { length cuts.old ≡ 257 }
    ensures { Marked list.now cuts.new (length list.now) }
{
    cuts.fill(0);
    // By place: a node is read from a place of the list on.
    for at in 0..list.len() {
        if let Some(node) = read_node(list, at) {
            mark(node, cuts);
        }
    }
}

// Numbers the columns from byte 0 up, and says which is the last.
fn number_bytes(cuts: &[u32], column: &mut [u32], least: &mut [u32]) -> usize
    requires cuts { length cuts.now ≡ 257 }
    requires column { length column.old ≡ 256 }
    requires least { length least.old ≡ 256 }
    ensures { Divided cuts.now column.new least.new result 256 }
{
    let mut j = 0;
    column[0] = 0;
    least[0] = 0;
    // By its number, as a byte names a place in all three.
    for b in 1..256 {
        if cuts[b] != 0 {
            j += 1;
            least[j] = b as u32;
        }
        column[b] = j as u32;
    }
    j
}

// The column of each byte and the least byte of each column, and how many columns there are. Slices of a fixed length, and no
// arrays: each is an area of one lent slice.
pub fn number_columns(list: &[u8], cuts: &mut [u32], column: &mut [u32], least: &mut [u32]) -> usize
    requires cuts { length cuts.old ≡ 257 }
    requires column { length column.old ≡ 256 }
    requires least { length least.old ≡ 256 }
    ensures { ColumnsOf list.now result column.new least.new }
{
    mark_cuts(list, cuts);
    number_bytes(cuts, column, least) + 1
}
