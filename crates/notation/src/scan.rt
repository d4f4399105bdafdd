// The text and the place that reading has come to: bytes, what separates them, and names.
ghost use Rattle.std.specs.Prelude.{◌≡◌, ◌+◌, ◌<◌, ◌≤◌, [], length, IfOk, MatchBool, MatchOption, OnOk, ◌||◌, ◌==◌, slice_index};
ghost use Rattle.std.specs.Char.{is_ascii_alphabetic};
ghost use Rattle.notation.specs.Names.{word_of};
ghost use Rattle.notation.specs.Reading.{On, Past, Within};

use crate::error::{Expected, Fault};

// The bytes of a text from `start` up to, and without, `end`.
#[derive(Clone, Copy, PartialEq, Debug)]
pub struct Span {
    pub start: usize,
    pub end: usize,
}

impl Span {
    // The bytes that it holds of a text; none where it lies outside.
    pub fn of(self, text: &[u8]) -> &[u8]
        ensures within { Within text.now self → result.now ≡ word_of text.now self }
        ensures outside { length text.now < self.end → result.now ≡ [] }
    {
        text.get(self.start..self.end).unwrap_or(&[])
    }
}

// The text, and the place of the next byte to read.
#[derive(Clone, Copy)]
pub struct Reader<'a> {
    pub text: &'a [u8],
    pub at: usize,
}

impl Reader<'_> {
    // What is missing at the place.
    pub fn fault(&self, expected: Expected) -> Fault
        ensures { result ≡ Fault.At self.now.at expected }
    {
        Fault::At(self.at, expected)
    }

    // The byte at the place, if the text goes on.
    pub fn peek(&self) -> Option<u8>
        ensures { MatchOption result (length self.now.text.now ≤ self.now.at) (λ b. (self.now.at < length self.now.text.now) × (b ≡ slice_index self.now.text.now self.now.at)) }
    {
        self.text.get(self.at).copied()
    }

    // Steps over the byte, if it stands at the place.
    pub fn step_over(&mut self, byte: u8) -> bool
        ensures { MatchBool result (Past self.old self.new) (self.new ≡ self.old) }
    {
        if self.peek() == Some(byte) {
            self.at += 1;
            true
        } else {
            false
        }
    }

    // Steps over what separates: spaces, tabs, carriage returns, and a comment up to the line's end.
    pub fn skip_spaces(&mut self)
        ensures { On self.old self.new }
    {
        let mut comment = false;
        // A loop: what a byte means depends on whether a comment has begun.
        while let Some(byte) = self.peek() {
            match byte {
                b'\n' => return,
                b' ' | b'\t' | b'\r' => {}
                b'#' => comment = true,
                _ if comment => {}
                _ => return,
            }
            self.at += 1;
        }
    }

    // Steps over the byte and what separates it from the next, if it stands at the place.
    pub fn accept(&mut self, byte: u8) -> bool
        ensures { MatchBool result (Past self.old self.new) (self.new ≡ self.old) }
    {
        if !self.step_over(byte) {
            return false;
        }
        self.skip_spaces();
        true
    }

    // The same of a byte that has to stand there.
    pub fn expect(&mut self, byte: u8, expected: Expected) -> Result<(), Fault>
        ensures { OnOk result (Past self.old self.new) }
    {
        if self.accept(byte) {
            Ok(())
        } else {
            Err(self.fault(expected))
        }
    }

    // Goes to the first byte of the next line that says something, and says whether there is one.
    pub fn next_line(&mut self) -> bool
        ensures { On self.old self.new }
    {
        self.skip_spaces();
        while self.accept(b'\n') {}
        self.at < self.text.len()
    }

    // A word: a letter or _, then letters, digits, _ and -.
    pub fn word(&mut self, expected: Expected) -> Result<Span, Fault>
        ensures { IfOk result (λ n. Past self.old self.new × Within self.old.text.now n) }
    {
        let start = self.at;
        match self.peek() {
            Some(byte) if begins_word(byte) => self.at += 1,
            _ => return Err(self.fault(expected)),
        }
        self.skip_word();
        let end = self.at;
        self.skip_spaces();
        Ok(Span { start, end })
    }

    // Steps over what can go on a word.
    fn skip_word(&mut self)
        ensures on { On self.old self.new }
        ensures within { self.old.at ≤ length self.old.text.now → self.new.at ≤ length self.old.text.now }
    {
        let rest = self.text.get(self.at..).unwrap_or(&[]);
        self.at += rest.iter().take_while(|byte| goes_on_word(**byte)).count();
    }
}

pub fn begins_word(byte: u8) -> bool
    ensures { result ≡ (is_ascii_alphabetic byte || byte == 95) }
{
    byte.is_ascii_alphabetic() || byte == b'_'
}

fn goes_on_word(byte: u8) -> bool {
    byte.is_ascii_alphanumeric() || byte == b'_' || byte == b'-'
}
