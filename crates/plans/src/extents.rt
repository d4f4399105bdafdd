// Where the pattern at each place of a list ends, and how many tables working it out needs.
ghost use Rattle.std.specs.Prelude.{◌≡◌, ◌+◌, ◌<◌, ◌≤◌, length};
ghost use Rattle.plans.specs.Strahler.{higher, ExtentAt, Recorded, Measured, TwelveTables};

use patterns::node::read_node;

// Where a pattern ends, and how many tables it needs.
#[derive(Clone, Copy)]
pub struct Extent {
    pub end: u32,
    pub needed: u32,
}

// Of a place behind the list, where no pattern stands.
const NOTHING: Extent = Extent { end: 0, needed: 0 };

// The extents that were written for a list's places: where patterns end, and how many tables they need.
#[derive(Clone, Copy)]
pub struct Extents<'a> {
    pub ends: &'a [u32],
    pub tables: &'a [u32],
}

impl<'a> Extents<'a> {
    // What was written for a place.
    pub fn get(self, at: usize) -> Option<Extent>
        ensures { Recorded self.entry at result }
    {
        let end = *self.ends.get(at)?;
        let needed = *self.tables.get(at)?;
        Some(Extent { end, needed })
    }
}

// The tables that two parts need. The sum is never cut off where patterns stand, as none needs more than twelve; elsewhere any
// number may be here.
fn of_both(first: u32, second: u32) -> u32
    ensures { first ≤ 12 → result ≡ higher first second }
{
    if first < second {
        second
    } else if second < first {
        first
    } else {
        first.saturating_add(1)
    }
}

// The extent of the pattern at a place, from those that were written for the places behind it.
fn extent_at(list: &[u8], extents: Extents<'_>, at: usize) -> Option<Extent>
    requires short { length list.now ≤ 4096 }
    requires ends { length list.now ≤ length extents.ends.now }
    requires tables { length list.now ≤ length extents.tables.now }
    requires behind { Measured list.now extents.ends.now extents.tables.now (at + 1) }
    ensures { ExtentAt list.now at result }
{
    let node = read_node(list, at)?;
    let next = at + node.width();
    match node.arity() {
        0 => Some(Extent {
            end: next as u32,
            needed: 1,
        }),
        1 => extents.get(next),
        _ => {
            let first = extents.get(next)?;
            let second = extents.get(first.end as usize).unwrap_or(NOTHING);
            Some(Extent {
                end: second.end,
                needed: of_both(first.needed, second.needed),
            })
        }
    }
}

// Writes for each place of a list at which a pattern stands where it ends and how many tables it needs. Two slices, and none of
// `Extent`: both are areas of lent words.
pub fn measure(list: &[u8], ends: &mut [u32], tables: &mut [u32])
    requires short { length list.now ≤ 4096 }
    requires ends { length list.now ≤ length ends.old }
    requires tables { length list.now ≤ length tables.old }
    ensures { Measured list.now ends.new tables.new 0 }
{
    // So that what is left where no pattern stands comes from the list alone.
    ends[..list.len()].fill(0);
    tables[..list.len()].fill(0);
    // By place, from the last: an extent is worked out from those of the places behind it.
    for at in (0..list.len()).rev() {
        let extents = Extents {
            ends: &ends[..list.len()],
            tables: &tables[..list.len()],
        };
        if let Some(here) = extent_at(list, extents, at) {
            ends[at] = here.end;
            tables[at] = here.needed;
        }
    }
}

// No pattern of a list needs more.
pub fn twelve_tables_suffice()
    ensures { TwelveTables }
{}
