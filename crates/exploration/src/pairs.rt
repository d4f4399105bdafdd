// The system of pairs of rows: two tables over the same columns, read side by side.
ghost use Rattle.std.specs.Prelude.{◌≡◌, ℕ, List, [], ◌∷◌, slice_index};
ghost use Rattle.exploration.specs.Pairs.{joined, pair_next, pair_shows, PairKey};

use crate::system::System;
use machines::columns::ByteColumns;
use machines::raw::RawTable;

// How two outputs join.
pub trait Join {
    ghost joins: { Self → ℕ → ℕ → ℕ };

    // What two outputs give together.
    fn join(&self, one: u32, other: u32) -> u32
        ensures { result ≡ joins self.now one other };
}

// One of two outputs is enough, or both are needed.
#[derive(Clone, Copy)]
pub enum Connective {
    Or,
    And,
}

impl Join for Connective {
    ghost joins = { joined };

    fn join(&self, one: u32, other: u32) -> u32 {
        match self {
            Connective::Or => if one == 0 { other } else { one },
            Connective::And => if one == 0 { 0 } else { other },
        }
    }
}

// Two tables over the columns.
#[derive(Drop)]
pub struct Pair<'a, J> {
    pub join: J,
    pub left: RawTable<'a>,
    pub right: RawTable<'a>,
    pub columns: ByteColumns<'a>,
}

impl<'a, J: Join + Drop> System for Pair<'a, J> {
    ghost width = { λ _. 2 };

    ghost count = { λ s. s.columns.count };

    ghost column = { λ s b. slice_index s.columns.column.now b };

    ghost least = { λ s j. slice_index s.columns.least.now j };

    ghost begin = { λ _. 0 ∷ 0 ∷ [] };

    ghost next = { λ s. pair_next (λ b. slice_index s.columns.column.now b) s.left.words.now s.right.words.now };

    ghost shows = { λ s. pair_shows (J.joins s.join) s.left.words.now s.right.words.now };

    ghost ready = { λ s. (s.left.columns ≡ s.columns.count) × (s.right.columns ≡ s.columns.count) };

    ghost good = { λ s k. PairKey s.left.rows s.right.rows k };

    fn size(&self) -> usize {
        2
    }

    fn columns(&self) -> usize {
        self.columns.count
    }

    fn start(&self, out: &mut [u32]) {
        out[0] = 0;
        out[1] = 0;
    }

    fn step(&self, key: &[u32], at: usize, out: &mut [u32]) {
        out[0] = self.left.cells(key[0] as usize)[at];
        out[1] = self.right.cells(key[1] as usize)[at];
    }

    fn show(&self, key: &[u32]) -> u32 {
        let one = self.left.shown(key[0] as usize);
        let other = self.right.shown(key[1] as usize);
        self.join.join(one, other)
    }
}
