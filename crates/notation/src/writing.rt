// Writing a pattern's nodes behind the bytes of a list, up to as many as a list may have.
ghost use Rattle.std.specs.Prelude.{◌≡◌, ◌+◌, ◌≤◌, ◌++◌, length, take, drop, vec_len, OnOk};
ghost use Rattle.patterns.specs.Nodes.{node_bytes};
ghost use Rattle.notation.specs.Writing.{Put};

use crate::error::{Expected, Fault};
use crate::scan::Reader;
use patterns::list::MOST_BYTES;
use patterns::node::Node;

impl Reader<'_> {
    // Writes one more node.
    pub fn put(&self, list: &mut Vec<u8>, node: Node) -> Result<(), Fault>
        ensures { OnOk result (Put list.old.items (node_bytes node) list.new.items) }
    {
        let tag = node.tag();
        match node {
            Node::Range(low, high) => self.put_bytes(list, &[tag, low, high]),
            _ => self.put_bytes(list, &[tag]),
        }
    }

    // Writes a node in front of what stands from a place on.
    pub fn put_before(&self, list: &mut Vec<u8>, start: usize, node: Node) -> Result<(), Fault>
        requires { start ≤ vec_len list.old }
        ensures items { OnOk result (list.new.items ≡ take start list.old.items ++ (node_bytes node ++ drop start list.old.items)) }
        ensures len { OnOk result (vec_len list.new ≡ vec_len list.old + length (node_bytes node)) }
        ensures short { OnOk result (length list.new.items ≤ 4096) }
    {
        self.put(list, node)?;
        list[start..].rotate_right(node.width());
        Ok(())
    }

    fn put_bytes(&self, list: &mut Vec<u8>, bytes: &[u8]) -> Result<(), Fault>
        ensures { OnOk result (Put list.old.items bytes.now list.new.items) }
    {
        if list.len() + bytes.len() > MOST_BYTES {
            return Err(self.fault(Expected::FewerBytes));
        }
        list.extend_from_slice(bytes)?;
        Ok(())
    }
}
