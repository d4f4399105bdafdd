// Small patterns over two letters, in prefix order: in bytes, so that they are written without what is tried.
ghost use Rattle.std.specs.Prelude.{◌≡◌, ◌<◌, IfOk, vec_len};

use std::alloc::{AllocError, Global};

// Nothing, empty, the ranges from a to a and from b to b.
const LEAVES: [&[u8]; 4] = [b"\x00", b"\x01", b"\x02aa", b"\x02bb"];

// Not, many.
const OVER_ONE: [u8; 2] = [6, 7];

// Sequence, or, and.
const OVER_TWO: [u8; 3] = [3, 4, 5];

// All patterns of so many nodes at most, by how many nodes they have, one first.
pub fn by_nodes(heap: Global, most: usize) -> Result<Vec<Vec<Vec<u8>>>, AllocError>
    ensures { IfOk result (λ all. 0 < most → vec_len all ≡ most) }
{
    let mut all = vec![in heap; leaves(heap)?]?;
    for _nodes in 1..most {
        let larger = one_larger(heap, all.as_slice())?;
        all.push(larger)?;
    }
    Ok(all)
}

fn leaves(heap: Global) -> Result<Vec<Vec<u8>>, AllocError> {
    let mut leaves = Vec::new(heap);
    for leaf in LEAVES {
        leaves.push(leaf.to_vec(heap)?)?;
    }
    Ok(leaves)
}

// The patterns with one node more than the last of these have: a node over one of the last, or over two that have as many nodes
// together.
fn one_larger(heap: Global, smaller: &[Vec<Vec<u8>>]) -> Result<Vec<Vec<u8>>, AllocError> {
    let mut larger = Vec::new(heap);
    if let [shorter @ .., last] = smaller {
        put_over_one(heap, last.as_slice(), &mut larger)?;
        for (firsts, seconds) in shorter.iter().zip(shorter.iter().rev()) {
            put_over_two(heap, firsts.as_slice(), seconds.as_slice(), &mut larger)?;
        }
    }
    Ok(larger)
}

// Adds the nodes over one part.
fn put_over_one(
    heap: Global,
    parts: &[Vec<u8>],
    larger: &mut Vec<Vec<u8>>,
) -> Result<(), AllocError> {
    for part in parts {
        for kind in OVER_ONE {
            let mut pattern = vec![in heap; kind]?;
            pattern.extend_from_slice(part.as_slice())?;
            larger.push(pattern)?;
        }
    }
    Ok(())
}

// Adds the nodes over a first part and a second.
fn put_over_two(
    heap: Global,
    firsts: &[Vec<u8>],
    seconds: &[Vec<u8>],
    larger: &mut Vec<Vec<u8>>,
) -> Result<(), AllocError> {
    for first in firsts {
        for second in seconds {
            for kind in OVER_TWO {
                let mut pattern = vec![in heap; kind]?;
                pattern.extend_from_slice(first.as_slice())?;
                pattern.extend_from_slice(second.as_slice())?;
                larger.push(pattern)?;
            }
        }
    }
    Ok(())
}
