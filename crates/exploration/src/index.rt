// Keys in lent words, and an index of buckets, each a chain of keys from the last one back.
// In `heads` and `links` a key's number is one more than its class, and 0 ends a chain: lent words hold no Option.
ghost use Rattle.std.specs.Prelude.{◌≡◌, ℕ, ◌+◌, ◌-◌, ◌*◌, ◌^◌, ◌<◌, ◌≤◌, length};
ghost use Rattle.exploration.specs.Keys.{key_at, Finds, Settled};
ghost use Rattle.exploration.specs.Hashed.{hashed, Indexed, Reindexed};
ghost use Rattle.exploration.specs.Standing.{Stands, Same, Counts};

use crate::keys;

// How many buckets an index has.
pub const BUCKETS: usize = 4096;

// A class's number: that of its key, and of its row in a table.
#[derive(Clone, Copy)]
pub struct Class(pub usize);

// The primes keep the product and the sum within 64 bits.
fn hash(key: &[u32]) -> u64
    ensures { result ≡ hashed 0 key.now }
{
    let mut h: u64 = 0;
    for w in key {
        h = (h * 2654435761 + *w as u64) % 4294967291;
    }
    h
}

// The first `count` keys of `size` words each, only to be read, with their buckets.
#[derive(Clone, Copy)]
pub struct Keys<'a> {
    pub words: &'a [u32],
    pub size: usize,
    pub count: usize,
    pub heads: &'a [u32],
    pub links: &'a [u32],
    pub ghost room: { count * size ≤ length words.now },
    pub ghost buckets: { length heads.now ≡ 4096 },
    pub ghost chains: { count ≤ length links.now },
    pub ghost indexed: { Indexed 4096 (key_at words.now size) count heads.now links.now },
}

impl<'a> Keys<'a> {
    // The class of `key`. Inlined, as what `Index` does is, so that a system's width is known where keys are compared.
    #[inline]
    pub fn find(self, key: &[u32]) -> Option<Class>
        requires { length key.now ≡ self.size }
        ensures { Finds self.entry.words.now self.entry.size self.entry.count key.now result }
    {
        let (words, heads, links) = (self.words, self.heads, self.links);
        let mut next = heads[(hash(key) % BUCKETS as u64) as usize] as usize;
        // No `for`: a chain in lent words ends where a link is 0.
        while next > 0 {
            if keys::at(words, self.size, next - 1) == key {
                return Some(Class(next - 1));
            }
            next = links[next - 1] as usize;
        }
        None
    }
}

// The first `count` keys of `size` words each, with room for `most`. What holds of the parts is `Stands`, as a ghost field can't
// stand beside a `&mut`; and the lifetimes are three, as one for all would lose what is left behind each.
#[derive(Drop)]
pub struct Index<'k, 'h, 'l> {
    pub keys: &'k mut [u32],
    pub size: usize,
    pub most: usize,
    pub heads: &'h mut [u32],
    pub links: &'l mut [u32],
    pub count: usize,
}

impl<'k, 'h, 'l> Index<'k, 'h, 'l> {
    // No keys, with room for so many.
    pub fn new(
        keys: &'k mut [u32],
        size: usize,
        most: usize,
        heads: &'h mut [u32],
        links: &'l mut [u32],
    ) -> Index<'k, 'h, 'l>
        requires keys { most * size ≤ length keys.old }
        requires heads { length heads.old ≡ 4096 }
        requires links { most ≤ length links.old }
        ensures stands { Stands result }
        ensures none { result.count ≡ 0 }
        ensures sizes { (result.size ≡ size) × (result.most ≡ most) }
        ensures same { (result.keys.ghost_name ≡ keys.entry.ghost_name) × (result.heads.ghost_name ≡ heads.entry.ghost_name) × (result.links.ghost_name ≡ links.entry.ghost_name) }
    {
        heads.fill(0);
        Index {
            keys,
            size,
            most,
            heads,
            links,
            count: 0,
        }
    }

    // How many keys there are.
    pub(crate) fn count(&self) -> usize
        ensures { result ≡ self.now.count }
    {
        self.count
    }

    // The key of a class.
    pub fn key(&self, i: usize) -> &[u32]
        requires stands { Stands self.now }
        requires there { i < self.now.count }
        ensures { (result.now ≡ key_at self.now.keys.now self.now.size i) × (length result.now ≡ self.now.size) }
    {
        keys::at(self.keys, self.size, i)
    }

    // The class of `key`.
    #[inline]
    pub fn find(&self, key: &[u32]) -> Option<Class>
        requires stands { Stands self.now }
        requires long { length key.now ≡ self.now.size }
        ensures { Finds self.now.keys.now self.now.size self.now.count key.now result }
    {
        let keys = Keys {
            words: &*self.keys,
            size: self.size,
            count: self.count,
            heads: &*self.heads,
            links: &*self.links,
        };
        keys.find(key)
    }

    // The class of `key`, which is put behind the other keys if it is new; nothing if there is no room for it.
    #[inline]
    pub fn settle(&mut self, key: &[u32]) -> Option<Class>
        requires stands { Stands self.old }
        requires most { self.old.most < 2 ^ 32 - 1 }
        requires long { length key.now ≡ self.old.size }
        ensures settled { Settled self.old.keys.now self.new.keys.now self.old.size self.old.count self.old.most key.now result }
        ensures counts { Counts self.old.count self.new.count result }
        ensures stands { Stands self.new }
        ensures same { Same self.old self.new }
    {
        if let Some(class) = self.find(key) {
            return Some(class);
        }
        let count = self.count;
        if count == self.most {
            return None;
        }
        let keys = &mut *self.keys;
        keys::put(keys, self.size, count, key);
        let h = (hash(key) % BUCKETS as u64) as usize;
        self.links[count] = self.heads[h];
        self.heads[h] = (count + 1) as u32;
        self.count = count + 1;
        Some(Class(count))
    }
}

// The class of `key` among the first `count` keys, behind which it is put if it is new; nothing if `most` keys are there already.
// For a caller that lends the parts of an index one by one, and goes on with them.
pub fn settle(
    keys: &mut [u32],
    size: usize,
    count: usize,
    most: usize,
    key: &[u32],
    heads: &mut [u32],
    links: &mut [u32],
) -> Option<Class>
    requires count { count ≤ most }
    requires most { most < 2 ^ 32 - 1 }
    requires room { most * size ≤ length keys.old }
    requires long { length key.now ≡ size }
    requires buckets { length heads.old ≡ 4096 }
    requires links { most ≤ length links.old }
    requires indexed { Indexed 4096 (key_at keys.old size) count heads.old links.old }
    ensures settled { Settled keys.old keys.new size count most key.now result }
    ensures indexed { Reindexed 4096 (key_at keys.new size) count heads.new links.new result }
{
    let mut index = Index {
        keys,
        size,
        most,
        heads,
        links,
        count,
    };
    index.settle(key)
}
