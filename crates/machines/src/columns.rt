// The bytes in columns: bytes that nothing tells apart share one.
ghost use Rattle.std.specs.Prelude.{◌≡◌, ◌<◌, slice_index};
ghost use Rattle.machines.specs.Columns.{Columns};

// How many columns there are, the column of each byte, and the least byte of each column.
#[derive(Clone, Copy)]
pub struct ByteColumns<'a> {
    pub count: usize,
    pub column: &'a [u32],
    pub least: &'a [u32],
    pub ghost sound: { Columns count (λ b. slice_index column.now b) (λ j. slice_index least.now j) },
}
