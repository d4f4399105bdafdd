// One table read on, and another from each place where the first shows 1.
ghost use Rattle.std.specs.Prelude.{◌≡◌, ℕ, ◌+◌, ◌/◌, ◌<◌, List, length, slice_index};
ghost use Rattle.subsets.specs.Sets.{followed, unread, follow_shows};

use crate::bits;
use exploration::system::System;
use machines::columns::ByteColumns;
use machines::raw::RawTable;

// A key is a row of the front table, and the set of the rows of the back table but its dead one.
#[derive(Drop)]
pub struct Follow<'a> {
    pub front: RawTable<'a>,
    pub back: RawTable<'a>,
    pub dead: Option<usize>,
    pub columns: ByteColumns<'a>,
}

impl<'a> System for Follow<'a> {
    ghost width = { λ s. 1 + (s.back.rows / 32 + 1) };

    ghost count = { λ s. s.columns.count };

    ghost column = { λ s b. slice_index s.columns.column.now b };

    ghost least = { λ s j. slice_index s.columns.least.now j };

    ghost begin = { λ s. unread s.front.words.now s.dead (s.back.rows / 32 + 1) };

    ghost next = { λ s k b. followed s.front.words.now s.back.words.now s.dead (s.back.rows / 32 + 1) s.back.rows k (slice_index s.columns.column.now b) };

    ghost shows = { λ s. follow_shows s.back.words.now s.back.rows };

    ghost ready = { λ s. (s.front.columns ≡ s.columns.count) × (s.back.columns ≡ s.columns.count) };

    ghost good = { λ s k. (length k ≡ 1 + (s.back.rows / 32 + 1)) × (slice_index k 0 < s.front.rows) };

    fn size(&self) -> usize {
        1 + (self.back.rows() / 32 + 1)
    }

    fn columns(&self) -> usize {
        self.columns.count
    }

    fn start(&self, out: &mut [u32]) {
        bits::first(&mut out[1..], self.front.shown(0) == 1, self.dead);
        out[0] = 0;
    }

    fn step(&self, key: &[u32], at: usize, out: &mut [u32]) {
        let row = self.front.cell(key[0] as usize, at);
        let mark = self.front.shown(row) == 1;
        let reached = &mut out[1..];
        bits::moves(self.back, self.dead, at, &key[1..], reached);
        bits::mark_first(reached, mark, self.dead);
        out[0] = row as u32;
    }

    fn show(&self, key: &[u32]) -> u32 {
        u32::from(bits::accepts(self.back, &key[1..]))
    }
}
