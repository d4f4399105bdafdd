// What a list and one pattern more show together, in pairs of rows of both tables: the list's bits and the new one.
ghost use Rattle.std.specs.Prelude.{◌≡◌, ℕ, ◌<◌};
ghost use Rattle.listing.specs.LastBit.{with_bit};

use exploration::pairs::Join;

// The place of the new bit.
#[derive(Clone, Copy)]
pub struct LastBit {
    pub index: u32,
    ghost small: { index < 32 },
}

impl Join for LastBit {
    ghost joins = { λ s. with_bit s.index };

    fn join(&self, one: u32, other: u32) -> u32 {
        one | (other << self.index)
    }
}
