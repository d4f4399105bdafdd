// One table read from the start, and again from each place where it shows 1.
ghost use Rattle.std.specs.Prelude.{◌≡◌, ℕ, ◌+◌, ◌/◌, List, length, slice_index};
ghost use Rattle.subsets.specs.Sets.{again, whole};

use crate::bits;
use exploration::system::System;
use machines::columns::ByteColumns;
use machines::raw::RawTable;

// A key is whether the whole is accepted, and the set of the table's rows but its dead one. It is no case of `Follow`: what comes
// first in a key is another thing there, and so is what puts row 0 in.
#[derive(Drop)]
pub struct Repeat<'a> {
    pub table: RawTable<'a>,
    pub dead: Option<usize>,
    pub columns: ByteColumns<'a>,
}

impl<'a> System for Repeat<'a> {
    ghost width = { λ s. 1 + (s.table.rows / 32 + 1) };

    ghost count = { λ s. s.columns.count };

    ghost column = { λ s b. slice_index s.columns.column.now b };

    ghost least = { λ s j. slice_index s.columns.least.now j };

    ghost begin = { λ s. whole s.dead (s.table.rows / 32 + 1) };

    ghost next = { λ s k b. again s.table.words.now s.dead (s.table.rows / 32 + 1) s.table.rows k (slice_index s.columns.column.now b) };

    ghost shows = { λ s k. slice_index k 0 };

    ghost ready = { λ s. s.table.columns ≡ s.columns.count };

    ghost good = { λ s k. length k ≡ 1 + (s.table.rows / 32 + 1) };

    fn size(&self) -> usize {
        1 + (self.table.rows() / 32 + 1)
    }

    fn columns(&self) -> usize {
        self.columns.count
    }

    fn start(&self, out: &mut [u32]) {
        bits::first(&mut out[1..], true, self.dead);
        out[0] = 1;
    }

    fn step(&self, key: &[u32], at: usize, out: &mut [u32]) {
        let reached = &mut out[1..];
        bits::moves(self.table, self.dead, at, &key[1..], reached);
        let mark = bits::accepts(self.table, reached);
        bits::mark_first(reached, mark, self.dead);
        out[0] = u32::from(mark);
    }

    fn show(&self, key: &[u32]) -> u32 {
        key[0]
    }
}
