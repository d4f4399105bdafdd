// What a text can lack, and where.
use std::alloc::{AllocError, AllocFailed};
use thiserror::Error;

// What was expected at a place of the text.
#[derive(Clone, Copy, PartialEq, Debug, Error)]
pub enum Expected {
    #[error("a name")]
    Name,
    #[error("a colon after the name")]
    Colon,
    #[error("an expression")]
    Expression,
    #[error("a closing bracket")]
    ClosingBracket,
    #[error("a closing quote")]
    ClosingQuote,
    #[error("the end of the class")]
    ClosingClass,
    #[error("a byte of the class")]
    ClassByte,
    #[error("two hex digits")]
    HexDigits,
    #[error("an escape")]
    Escape,
    #[error("a range's end not below its start")]
    RangeEnd,
    #[error("the end of the line")]
    LineEnd,
    #[error("a name that isn't used yet")]
    NewName,
    #[error("at most 32 patterns")]
    FewerPatterns,
    #[error("patterns of at most 4096 bytes in all")]
    FewerBytes,
    #[error("brackets at most 500 deep")]
    LessNesting,
    #[error("a text of at most 16777216 bytes")]
    ShorterText,
}

// A place of the text, both numbers from 1 and the column in bytes, and what was expected there.
#[derive(Clone, Copy, PartialEq, Debug, Error)]
#[error("line {line}, column {column}: expected {expected}")]
pub struct Mistake {
    pub line: usize,
    pub column: usize,
    pub expected: Expected,
}

// Why a text was not read.
#[derive(Clone, Copy, PartialEq, Debug, Error)]
pub enum Error {
    #[error("{0}")]
    Misread(Mistake),
    #[error("out of memory")]
    OutOfMemory,
}

// The same while the text is read: the place is counted in bytes.
#[derive(Clone, Copy)]
pub enum Fault {
    At(usize, Expected),
    OutOfMemory,
}

// By hand: thiserror's #[from] needs a variant that holds the error, and texts that nobody would print.
impl From<AllocError> for Fault {
    fn from(_e: AllocError) -> Fault {
        Fault::OutOfMemory
    }
}

impl<T: Drop> From<AllocFailed<T>> for Fault {
    fn from(_e: AllocFailed<T>) -> Fault {
        Fault::OutOfMemory
    }
}
