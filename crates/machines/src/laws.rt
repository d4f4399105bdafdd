// What holds of every table and every system of keys, as contracts: a crate that calls one of these has the law. A function for
// each, as each is a theorem of its own.
ghost use Rattle.machines.specs.Dead.{DeadRows};
ghost use Rattle.machines.specs.Laws.{Exact, OneTable, LeastTable, HasTable, MinimalTable, Crowded, KeyClasses};

// A table of f's classes shows f after every text, in any pieces, and its rows are the classes.
pub fn exact_stands()
    ensures { Exact }
{}

// An output function has one table at most, first words and numbers.
pub fn one_table_stands()
    ensures { OneTable }
{}

// No table gives f with fewer rows than f has classes.
pub fn least_table_stands()
    ensures { LeastTable }
{}

// An output function that some sound table gives has its table.
pub fn has_table_stands()
    ensures { HasTable }
{}

// A minimal machine in memory is the one table of its function.
pub fn minimal_table_stands()
    ensures { MinimalTable }
{}

// In a minimal machine each row is live, with a word after which something is shown, or the one dead row.
pub fn dead_rows_stand()
    ensures { DeadRows }
{}

// n + 1 words of which no two are in one class refute that there are n classes; where a test decides, one or the other holds.
pub fn crowded_stands()
    ensures { Crowded }
{}

// The keys of a system part the words into classes, as many as keys are reached.
pub fn key_classes_stand()
    ensures { KeyClasses }
{}
