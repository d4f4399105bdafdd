// A system made by hand and explored: how many bytes were 128 or more, by threes. The bytes have two columns.
ghost use Rattle.std.specs.Prelude.{◌≡◌, ℕ, ◌+◌, ◌*◌, ◌/◌, ◌%◌, ◌<◌, List, [], ◌∷◌, length, slice_index};

use exploration::explore::explore;
use exploration::system::System;

#[derive(Drop)]
struct Thirds {
    least: u32,
}

impl System for Thirds {
    ghost width = { λ _. 1 };

    ghost count = { λ _. 2 };

    ghost column = { λ _ b. b / 128 };

    ghost least = { λ _ j. 128 * j };

    ghost begin = { λ _. 0 ∷ [] };

    ghost next = { λ _ k b. (slice_index k 0 + b / 128) % 3 ∷ [] };

    ghost shows = { λ s k. s.least % 16 + slice_index k 0 };

    ghost ready = { λ _. Unit {0} };

    ghost good = { λ _ k. (length k ≡ 1) × (slice_index k 0 < 3) };

    fn size(&self) -> usize {
        1
    }

    fn columns(&self) -> usize {
        2
    }

    fn start(&self, out: &mut [u32]) {
        out[0] = 0;
    }

    fn step(&self, key: &[u32], at: usize, out: &mut [u32]) {
        out[0] = (key[0] + at as u32) % 3;
    }

    fn show(&self, key: &[u32]) -> u32 {
        self.least % 16 + key[0]
    }
}

// The first words are the empty one, 128, and 128 128; a small byte stays, a large one goes on, and from the third back.
#[test]
fn three_rows_by_two_columns(rt: HostRuntime) {
    let system = Thirds { least: 10 };
    let mut table = [9u32; 771];
    let mut work = [7u32; 4103];
    let rows = explore(&system, 3, &mut table, &mut work);
    assert_eq!(rt; rows, Some(3));
    assert_eq!(rt; table[0], 10, "row 0 shows");
    assert_eq!(rt; table[1], 0, "row 0, a small byte");
    assert_eq!(rt; table[2], 1, "row 0, a large byte");
    assert_eq!(rt; table[3], 9, "there is no third column");
    assert_eq!(rt; table[257], 11, "row 1 shows");
    assert_eq!(rt; table[258], 1, "row 1, a small byte");
    assert_eq!(rt; table[259], 2, "row 1, a large byte");
    assert_eq!(rt; table[514], 12, "row 2 shows");
    assert_eq!(rt; table[515], 2, "row 2, a small byte");
    assert_eq!(rt; table[516], 0, "row 2, a large byte");
}

// There are three keys: no room for them among two.
#[test]
fn two_rows_are_too_few(rt: HostRuntime) {
    let system = Thirds { least: 10 };
    let mut table = [9u32; 515];
    let mut work = [7u32; 4101];
    let rows = explore(&system, 2, &mut table, &mut work);
    assert_eq!(rt; rows, None);
    assert_eq!(rt; table[514], 9, "what lies behind stays");
}
