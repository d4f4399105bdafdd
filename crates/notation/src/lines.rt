// One line of a text: a new name, a colon and an expression.
ghost use Rattle.std.specs.Prelude.{◌≡◌, false, IfOk};
ghost use Rattle.std.specs.List.{All};
ghost use Rattle.notation.specs.Reading.{Within};
ghost use Rattle.notation.specs.Names.{Unlike};
ghost use Rattle.notation.specs.Promises.{Line};

use crate::error::{Expected, Fault};
use crate::scan::{Reader, Span};
use patterns::list::MOST_PATTERNS;

impl Reader<'_> {
    // Reads the line, writes its pattern and gives its name, which none of the names before it is.
    pub fn line(&mut self, list: &mut Vec<u8>, names: &[Span]) -> Result<Span, Fault>
        requires { All (Within self.old.text.now) names.now }
        ensures { IfOk result (λ n. Line self.old self.new list.old.items list.new.items names.now n) }
    {
        let text = self.text;
        let name = self.word(Expected::Name)?;
        if names.len() >= MOST_PATTERNS {
            return Err(Fault::At(name.start, Expected::FewerPatterns));
        }
        if is_used(text, names, name) {
            return Err(Fault::At(name.start, Expected::NewName));
        }
        self.expect(b':', Expected::Colon)?;
        self.expression(list, 0)?;
        match self.peek() {
            None | Some(b'\n') => Ok(name),
            Some(_) => Err(self.fault(Expected::LineEnd)),
        }
    }
}

// Whether the name is the same word as one of the names before it.
fn is_used(text: &[u8], names: &[Span], name: Span) -> bool
    requires names { All (Within text.now) names.now }
    requires name { Within text.now name }
    ensures { result ≡ false → All (Unlike text.now name) names.now }
{
    names.iter().any(|other| other.of(text) == name.of(text))
}
