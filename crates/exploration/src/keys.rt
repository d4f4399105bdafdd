// Keys side by side in lent words, each of so many words: no struct, as they are read in one place and written in another.
ghost use Rattle.std.specs.Prelude.{◌≡◌, ℕ, ◌+◌, ◌*◌, ◌≤◌, length};
ghost use Rattle.exploration.specs.Keys.{key_at, Kept};

// Key `i`, as a part of the words.
pub fn at(keys: &[u32], size: usize, i: usize) -> &[u32]
    requires { (i + 1) * size ≤ length keys.now }
    ensures { (result.now ≡ key_at keys.now size i) × (length result.now ≡ size) }
{
    &keys[i * size..i * size + size]
}

// Writes `key` as key `i`.
pub fn put(keys: &mut [u32], size: usize, i: usize, key: &[u32])
    requires { ((i + 1) * size ≤ length keys.old) × (length key.now ≡ size) }
    ensures { Kept keys.old keys.new size i key.now }
{
    keys[i * size..i * size + size].copy_from_slice(key);
}
