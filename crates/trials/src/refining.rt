// Rows that do alike, and the least table, on machines worked out by hand.
use machines::raw::RawTable;
use refinement::dead_row::dead_row;
use refinement::quotient::quotient;
use refinement::refine::refine;

// How many rows the least table has, which is written to `table`, if `raw` is one. `block` has each row's block. The tests give words,
// columns and rows as they are, which are looked at here.
fn least_table(
    raw: &[u32],
    columns: usize,
    rows: usize,
    block: &mut [u32],
    names: &mut [u32],
    table: &mut [u32],
) -> Option<usize> {
    let raw = RawTable::checked(raw, columns, rows)?;
    if rows > 100 {
        return None;
    }
    if block.len() != rows || names.len() != rows {
        return None;
    }
    if table.len() < 257 * rows {
        return None;
    }
    refine(raw, block, names);
    Some(quotient(raw, block, names, table))
}

// The dead row of a table, if it has one.
fn dead(table: &[u32], columns: usize, rows: usize) -> Option<usize> {
    dead_row(RawTable::checked(table, columns, rows)?)
}

#[test]
fn one_row(rt: HostRuntime) {
    let raw = [0u32; 257];
    let mut block = [9u32; 1];
    let mut names = [9u32; 1];
    let mut table = [9u32; 257];
    assert_eq!(rt;
        least_table(&raw, 1, 1, &mut block, &mut names, &mut table),
        Some(1)
    );
    assert_eq!(rt; block[0], 0);
    assert_eq!(rt; table[0], 0, "it shows 0");
    assert_eq!(rt; table[1], 0, "and leads to itself");
    assert_eq!(rt; table[2], 9, "no second column is written");
    assert_eq!(rt; dead(&table, 1, 1), Some(0), "so it is dead");
}

// Three rows that show 1: each leads to the next and the last to itself, so from all of them 1 is shown for ever.
#[test]
fn all_rows_alike(rt: HostRuntime) {
    let mut raw = [0u32; 771];
    raw[0] = 1;
    raw[1] = 1;
    raw[257] = 1;
    raw[258] = 2;
    raw[514] = 1;
    raw[515] = 2;
    let mut block = [9u32; 3];
    let mut names = [9u32; 3];
    let mut table = [9u32; 771];
    assert_eq!(rt;
        least_table(&raw, 1, 3, &mut block, &mut names, &mut table),
        Some(1)
    );
    assert_eq!(rt; block[2], 0, "one block");
    assert_eq!(rt; table[0], 1);
    assert_eq!(rt; table[1], 0);
    assert_eq!(rt; dead(&table, 1, 1), None, "none is dead");
}

// A chain: rows 0 to 3 show 0 and lead on, row 4 shows 1 and leads to itself. Row i is told from the others by how many
// bytes it takes to row 4, and each round finds one more of these numbers; so all five rows stay.
#[test]
fn a_chain_needs_a_round_for_each_row(rt: HostRuntime) {
    let mut raw = [0u32; 1285];
    raw[1] = 1;
    raw[258] = 2;
    raw[515] = 3;
    raw[772] = 4;
    raw[1028] = 1;
    raw[1029] = 4;
    let mut block = [9u32; 5];
    let mut names = [9u32; 5];
    let mut table = [9u32; 1285];
    assert_eq!(rt;
        least_table(&raw, 1, 5, &mut block, &mut names, &mut table),
        Some(5)
    );
    assert_eq!(rt; block[1], 1);
    assert_eq!(rt; block[4], 4);
    assert_eq!(rt; table[772], 4, "row 3 leads to row 4");
    assert_eq!(rt; table[1028], 1, "which shows 1");
    assert_eq!(rt;
        dead(&table, 1, 5),
        None,
        "from each row 1 is still reached"
    );
}

// Two columns. Rows 1 and 3 show 1, rows 2 and 4 show 0 and lead to themselves; row 0 leads to 1 and 2 and row 1 to 3 and
// 4, row 3 to 3 and 2. So 1 and 3 do alike, and 2 and 4, which are dead; the blocks 0, {1, 3}, {2, 4} are rows 0, 1, 2.
#[test]
fn two_components(rt: HostRuntime) {
    let mut raw = [0u32; 1285];
    raw[1] = 1;
    raw[2] = 2;
    raw[257] = 1;
    raw[258] = 3;
    raw[259] = 4;
    raw[515] = 2;
    raw[516] = 2;
    raw[771] = 1;
    raw[772] = 3;
    raw[773] = 2;
    raw[1029] = 4;
    raw[1030] = 4;
    let mut block = [9u32; 5];
    let mut names = [9u32; 5];
    let mut table = [9u32; 1285];
    assert_eq!(rt;
        least_table(&raw, 2, 5, &mut block, &mut names, &mut table),
        Some(3)
    );
    assert_eq!(rt; block[3], 1);
    assert_eq!(rt; block[4], 2);
    assert_eq!(rt; table[1], 1);
    assert_eq!(rt; table[2], 2);
    assert_eq!(rt; table[258], 1, "row 1 leads to itself");
    assert_eq!(rt; table[259], 2, "and to the dead row");
    assert_eq!(rt; dead(&table, 2, 3), Some(2));
    assert_eq!(rt; dead(&raw, 2, 5), Some(2), "the first of the two");
}
