// What is known of a list before it is worked out.
ghost use Rattle.making.specs.Planning.{Planned};

use machines::columns::ByteColumns;
use plans::extents::Extents;

// The list, for each of its places where its pattern ends and how many tables it needs, and the columns of the bytes.
#[derive(Clone, Copy)]
pub struct Plan<'a> {
    pub list: &'a [u8],
    pub extents: Extents<'a>,
    pub columns: ByteColumns<'a>,
    pub ghost planned: { Planned list.now extents.ends.now extents.tables.now columns.count columns.column.now columns.least.now },
}
