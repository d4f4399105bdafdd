// A deterministic system over bytes whose states are keys of a fixed number of words.
ghost use Rattle.std.specs.Prelude.{◌≡◌, ℕ, ◌<◌, List, length};
ghost use Rattle.machines.specs.Columns.{Columns};
ghost use Rattle.machines.specs.Systems.{Lawful};

// That a system is ready is a clause of each call: a trait has no fields, so no ghost field says it once for all systems.
// Each system names its own columns: some compute them, and have no lists as `ByteColumns` has.
pub trait System {
    // how many words a key has, and how many columns the bytes have
    ghost width: { Self → ℕ };

    ghost count: { Self → ℕ };

    ghost column: { Self → ℕ → ℕ };

    ghost least: { Self → ℕ → ℕ };

    // the first key, where a byte leads from a key, and what a key shows
    ghost begin: { Self → List ℕ };

    ghost next: { Self → List ℕ → ℕ → List ℕ };

    ghost shows: { Self → List ℕ → ℕ };

    // what the system needs of its parts, and the keys that it can step from
    ghost ready: { Self → Type 0 };

    ghost good: { Self → List ℕ → Type 0 };

    // How many words a key has.
    fn size(&self) -> usize
        requires { ready self.now }
        ensures is { result ≡ width self.now }
        ensures lawful { Lawful (begin self.now) (next self.now) (good self.now) (width self.now) (column self.now) (least self.now) };

    // How many columns the bytes have.
    fn columns(&self) -> usize
        requires { ready self.now }
        ensures is { result ≡ count self.now }
        ensures columns { Columns (count self.now) (column self.now) (least self.now) };

    // Writes the first key.
    fn start(&self, out: &mut [u32])
        requires { (ready self.now) × (length out.old ≡ width self.now) }
        ensures { out.new ≡ begin self.now };

    // Writes the key that the bytes of a column lead to.
    fn step(&self, key: &[u32], at: usize, out: &mut [u32])
        requires { (ready self.now) × ((good self.now key.now) × ((at < count self.now) × (length out.old ≡ width self.now))) }
        ensures { out.new ≡ next self.now key.now (least self.now at) };

    // What a key shows.
    fn show(&self, key: &[u32]) -> u32
        requires { (ready self.now) × (good self.now key.now) }
        ensures { result ≡ shows self.now key.now };
}
