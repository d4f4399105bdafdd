// The patterns that have no parts.
#[derive(Clone, Copy)]
pub enum Leaf {
    Nothing,
    Empty,
    Range(u8, u8),
}
