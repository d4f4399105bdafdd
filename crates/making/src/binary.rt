// The kinds of nodes that take two parts: one followed by the other, or both connected.
use exploration::pairs::Connective;

#[derive(Clone, Copy)]
pub enum Binary {
    Followed,
    Connected(Connective),
}
