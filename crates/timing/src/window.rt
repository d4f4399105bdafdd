// A system whose least table has as many rows as it is made for: the last letters that were read, of two, as a number.
ghost use Rattle.std.specs.Prelude.{◌≡◌, ℕ, ◌+◌, ◌*◌, ◌/◌, ◌^◌, ◌<◌, List, [], ◌∷◌, length, slice_index};
ghost use Rattle.timing.specs.Windows.{wrap as wrapped, upper};

use exploration::system::System;

#[derive(Drop)]
pub struct Window {
    pub size: u32,
    ghost some: { 0 < size },
    ghost small: { size < 2 ^ 30 },
}

// A byte of 128 and more is the second letter.
impl System for Window {
    ghost width = { λ _. 1 };

    ghost count = { λ _. 2 };

    ghost column = { λ _ b. b / 128 };

    ghost least = { λ _ j. 128 * j };

    ghost begin = { λ _. 0 ∷ [] };

    ghost next = { λ s k b. wrapped s.size (2 * slice_index k 0 + b / 128) ∷ [] };

    ghost shows = { λ s k. upper s.size (slice_index k 0) };

    ghost ready = { λ _. Unit {0} };

    ghost good = { λ s k. (length k ≡ 1) × (slice_index k 0 < s.size) };

    fn size(&self) -> usize {
        1
    }

    fn columns(&self) -> usize {
        2
    }

    fn start(&self, out: &mut [u32]) {
        out[0] = 0;
    }

    fn step(&self, key: &[u32], at: usize, out: &mut [u32]) {
        out[0] = wrap(self.size, 2 * key[0] + at as u32);
    }

    fn show(&self, key: &[u32]) -> u32 {
        u32::from(self.size <= 2 * key[0])
    }
}

fn wrap(size: u32, number: u32) -> u32
    ensures { result ≡ wrapped size number }
{
    if number < size { number } else { number - size }
}
