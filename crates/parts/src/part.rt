// Tables that stand one behind the other in lent words.
ghost use Rattle.std.specs.Prelude.{◌≡◌, ◌≤◌, length, drop};
ghost use Rattle.parts.specs.Combining.{PartInside, part_words};

use machines::raw::RawTable;

// A finished table that stands in lent words from `at` on.
#[derive(Clone, Copy)]
pub struct Part {
    pub at: usize,
    pub rows: usize,
}

impl Part {
    // The words from the table's first on.
    pub fn words(self, tables: &[u32]) -> &[u32]
        requires { self.at ≤ length tables.now }
        ensures { result.now ≡ drop self.at tables.now }
    {
        let at = self.at;
        &tables[at..]
    }

    // The table, where it stands in the words.
    pub fn table(self, columns: usize, tables: &[u32]) -> RawTable<'_>
        requires { PartInside columns self tables.now }
        ensures { (result.words.now ≡ part_words self tables.now) × (result.columns ≡ columns) × (result.rows ≡ self.rows) }
    {
        RawTable::new(self.words(tables), columns, self.rows)
    }
}
