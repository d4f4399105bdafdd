// Literals, as "ab\n", and the escapes that classes have too.
ghost use Rattle.std.specs.Prelude.{◌<◌, IfOk, OnOk};
ghost use Rattle.notation.specs.Reading.{Past};
ghost use Rattle.notation.specs.Writing.{Parsed};

use crate::error::{Expected, Fault};
use crate::scan::Reader;
use patterns::node::Node;

impl Reader<'_> {
    // A literal from its first quote on: its bytes one after the other, or the empty word.
    pub fn literal(&mut self, list: &mut Vec<u8>) -> Result<(), Fault>
        ensures { OnOk result (Parsed self.old self.new list.old.items list.new.items) }
    {
        if !self.step_over(b'"') {
            return Err(self.fault(Expected::Expression));
        }
        if self.accept(b'"') {
            return self.put(list, Node::Empty);
        }
        self.literal_rest(list)
    }

    // The bytes up to the closing quote, of which there is one at least.
    fn literal_rest(&mut self, list: &mut Vec<u8>) -> Result<(), Fault>
        ensures { OnOk result (Parsed self.old self.new list.old.items list.new.items) }
    {
        let byte = self.plain_byte(b"\"", Expected::ClosingQuote)?;
        if self.accept(b'"') {
            return self.put(list, Node::Range(byte, byte));
        }
        self.put(list, Node::Sequence)?;
        self.put(list, Node::Range(byte, byte))?;
        self.literal_rest(list)
    }

    // One byte, as itself or as an escape; `missing` is what is expected where the text or the line ends.
    pub fn plain_byte(&mut self, special: &[u8], missing: Expected) -> Result<u8, Fault>
        ensures past { OnOk result (Past self.old self.new) }
        ensures byte { IfOk result (λ b. b < 256) }
    {
        match self.peek() {
            Some(b'\\') => {
                self.at += 1;
                self.escape(special)
            }
            None | Some(b'\n') => Err(self.fault(missing)),
            Some(byte) => {
                self.at += 1;
                Ok(byte)
            }
        }
    }

    // What follows a backslash: n, r, t, a backslash, x and two hex digits, or one of the bytes that mean something
    // where the escape stands.
    pub fn escape(&mut self, special: &[u8]) -> Result<u8, Fault>
        ensures past { OnOk result (Past self.old self.new) }
        ensures byte { IfOk result (λ b. b < 256) }
    {
        let Some(byte) = self.peek() else {
            return Err(self.fault(Expected::Escape));
        };
        let meant = match byte {
            b'n' => b'\n',
            b'r' => b'\r',
            b't' => b'\t',
            b'x' => return self.hex_byte(),
            b'\\' => byte,
            _ if special.contains(&byte) => byte,
            _ => return Err(self.fault(Expected::Escape)),
        };
        self.at += 1;
        Ok(meant)
    }

    // The byte of an x and two hex digits.
    fn hex_byte(&mut self) -> Result<u8, Fault>
        ensures past { OnOk result (Past self.old self.new) }
        ensures byte { IfOk result (λ b. b < 256) }
    {
        let _ = self.step_over(b'x');
        let high = self.hex_digit()?;
        let low = self.hex_digit()?;
        Ok(high * 16 + low)
    }

    // The value of one hex digit.
    fn hex_digit(&mut self) -> Result<u8, Fault>
        ensures past { OnOk result (Past self.old self.new) }
        ensures small { IfOk result (λ n. n < 16) }
    {
        let Some(value) = self.peek().and_then(|byte| char::from(byte).to_digit(16)) else {
            return Err(self.fault(Expected::HexDigits));
        };
        self.at += 1;
        Ok(value as u8)
    }
}
