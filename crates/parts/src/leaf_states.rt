// The system of a pattern that has no parts.
ghost use Rattle.std.specs.Prelude.{◌≡◌, ℕ, ◌≤◌, List, [], ◌∷◌, length, slice_index};
ghost use Rattle.machines.specs.Columns.{Columns};
ghost use Rattle.parts.specs.Leaves.{leaf_next, leaf_shows, leaf_step, LeafColumns};

use crate::leaf::Leaf;
use exploration::system::System;
use machines::columns::ByteColumns;

// The state after one more letter: a number, as keys are words.
fn after(leaf: Leaf, state: u32, letter: u32) -> u32
    ensures { result ≡ leaf_next leaf state letter }
{
    match leaf {
        Leaf::Nothing => 0,
        Leaf::Empty => 1,
        Leaf::Range(from, to) => if state == 0 && from as u32 <= letter && letter <= to as u32 {
            1
        } else {
            2
        },
    }
}

// A key is a state: nothing read, one byte read, too late.
#[derive(Drop)]
pub struct LeafStates<'a> {
    pub leaf: Leaf,
    pub columns: ByteColumns<'a>,
}

impl<'a> System for LeafStates<'a> {
    ghost width = { λ _. 1 };

    ghost count = { λ s. s.columns.count };

    ghost column = { λ s b. slice_index s.columns.column.now b };

    ghost least = { λ s j. slice_index s.columns.least.now j };

    ghost begin = { λ _. 0 ∷ [] };

    ghost next = { λ s. leaf_step s.leaf };

    ghost shows = { λ s k. leaf_shows s.leaf (slice_index k 0) };

    ghost ready = { λ s. LeafColumns (λ b. slice_index s.columns.column.now b) (λ j. slice_index s.columns.least.now j) s.leaf × (s.columns.count ≤ length s.columns.least.now) };

    ghost good = { λ _ k. length k ≡ 1 };

    fn size(&self) -> usize {
        1
    }

    fn columns(&self) -> usize {
        self.columns.count
    }

    fn start(&self, out: &mut [u32]) {
        out[0] = 0;
    }

    fn step(&self, key: &[u32], at: usize, out: &mut [u32]) {
        let least = self.columns.least;
        out[0] = after(self.leaf, key[0], least[at]);
    }

    fn show(&self, key: &[u32]) -> u32 {
        match self.leaf {
            Leaf::Nothing => 0,
            Leaf::Empty => u32::from(key[0] == 0),
            Leaf::Range(_, _) => u32::from(key[0] == 1),
        }
    }
}
