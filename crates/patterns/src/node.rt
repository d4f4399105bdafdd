// One node of a pattern, read from a list's bytes.
ghost use Rattle.std.specs.Prelude.{◌≡◌, ℕ, ◌<◌, length, slice_index};
ghost use Rattle.patterns.specs.Nodes.{node_bytes, arity as parts};
ghost use Rattle.patterns.specs.Promises.{NodeRead};

#[derive(Clone, Copy)]
pub enum Node {
    Nothing,
    Empty,
    Range(u8, u8),
    Sequence,
    Union,
    Intersection,
    Complement,
    Star,
}

impl Node {
    // The byte that it begins with, which says its kind.
    pub fn tag(self) -> u8
        ensures { result ≡ slice_index (node_bytes self) 0 }
    {
        match self {
            Node::Nothing => 0,
            Node::Empty => 1,
            Node::Range(_, _) => 2,
            Node::Sequence => 3,
            Node::Union => 4,
            Node::Intersection => 5,
            Node::Complement => 6,
            Node::Star => 7,
        }
    }

    // How many bytes the node itself takes.
    pub fn width(self) -> usize
        ensures { result ≡ length (node_bytes self) }
    {
        match self {
            Node::Range(_, _) => 3,
            _ => 1,
        }
    }

    // How many patterns follow it as its parts.
    pub fn arity(self) -> usize
        ensures { result ≡ parts self }
    {
        match self {
            Node::Nothing | Node::Empty | Node::Range(_, _) => 0,
            Node::Complement | Node::Star => 1,
            Node::Sequence | Node::Union | Node::Intersection => 2,
        }
    }
}

// The node that stands at a place of a list, if one does.
pub fn read_node(list: &[u8], at: usize) -> Option<Node>
    ensures { NodeRead list.now at result }
{
    let kind = *list.get(at)?;
    // The inverse of `tag` for the kinds, and no TryFrom: a tag is one byte, and a range is read from three of a list.
    match kind {
        0 => Some(Node::Nothing),
        1 => Some(Node::Empty),
        2 => read_range(list, at),
        3 => Some(Node::Sequence),
        4 => Some(Node::Union),
        5 => Some(Node::Intersection),
        6 => Some(Node::Complement),
        7 => Some(Node::Star),
        _ => None,
    }
}

// The range whose first byte stands at a place: two bytes more, the second not smaller.
fn read_range(list: &[u8], at: usize) -> Option<Node>
    requires there { at < length list.now }
    requires range { slice_index list.now at ≡ 2 }
    ensures { NodeRead list.now at result }
{
    let low = *list.get(at + 1)?;
    let high = *list.get(at + 2)?;
    if high < low {
        return None;
    }
    Some(Node::Range(low, high))
}
