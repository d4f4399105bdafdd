// Expressions, loosest first: or, and, one after the other, not, repetitions, and what stands for itself. Each function
// writes the pattern that it reads behind the bytes of the list; that it does is its own promise, which no value carries.
//
// They call one another, and so go as deep as brackets nest and as operators follow one another. The first is bounded by
// MOST_NESTING; each of the second has written a byte before it goes deeper, and a list has few.
ghost use Rattle.std.specs.Prelude.{◌≡◌, ◌≤◌, IfOk, vec_len, MatchBool, OnOk};
ghost use Rattle.notation.specs.Reading.{On, Past};
ghost use Rattle.notation.specs.Writing.{Parsed, Keeps};

use crate::error::{Expected, Fault};
use crate::scan::{Reader, begins_word};
use patterns::node::Node;

// How deep brackets may nest.
pub const MOST_NESTING: usize = 500;

impl Reader<'_> {
    // A function for each line of the grammar: one for the three operators would have to match on which it is three times.

    // p | q
    #[cycle(parsing)]
    pub fn expression(&mut self, list: &mut Vec<u8>, depth: usize) -> Result<(), Fault>
        ensures { OnOk result (Parsed self.old self.new list.old.items list.new.items) }
    {
        let start = list.len();
        self.conjunction(list, depth)?;
        if !self.accept(b'|') {
            return Ok(());
        }
        self.put_before(list, start, Node::Union)?;
        self.expression(list, depth)
    }

    // p & q
    #[cycle(parsing)]
    fn conjunction(&mut self, list: &mut Vec<u8>, depth: usize) -> Result<(), Fault>
        ensures { OnOk result (Parsed self.old self.new list.old.items list.new.items) }
    {
        let start = list.len();
        self.sequence(list, depth)?;
        if !self.accept(b'&') {
            return Ok(());
        }
        self.put_before(list, start, Node::Intersection)?;
        self.conjunction(list, depth)
    }

    // p q
    #[cycle(parsing)]
    fn sequence(&mut self, list: &mut Vec<u8>, depth: usize) -> Result<(), Fault>
        ensures { OnOk result (Parsed self.old self.new list.old.items list.new.items) }
    {
        let start = list.len();
        self.negation(list, depth)?;
        if !self.goes_on() {
            return Ok(());
        }
        self.put_before(list, start, Node::Sequence)?;
        self.sequence(list, depth)
    }

    // Whether the byte at the place begins a part of a sequence.
    fn goes_on(&self) -> bool {
        match self.peek() {
            Some(b'!' | b'"' | b'[' | b'.' | b'(') => true,
            Some(byte) => begins_word(byte),
            None => false,
        }
    }

    // !p
    #[cycle(parsing)]
    fn negation(&mut self, list: &mut Vec<u8>, depth: usize) -> Result<(), Fault>
        ensures { OnOk result (Parsed self.old self.new list.old.items list.new.items) }
    {
        if !self.accept(b'!') {
            return self.repetition(list, depth);
        }
        self.put(list, Node::Complement)?;
        self.negation(list, depth)
    }

    // p*, p+ and p?
    #[cycle(parsing)]
    fn repetition(&mut self, list: &mut Vec<u8>, depth: usize) -> Result<(), Fault>
        ensures { OnOk result (Parsed self.old self.new list.old.items list.new.items) }
    {
        let start = list.len();
        self.atom(list, depth)?;
        self.repetitions(list, start)
    }

    // What stands for itself, or an expression in brackets.
    #[cycle(parsing)]
    fn atom(&mut self, list: &mut Vec<u8>, depth: usize) -> Result<(), Fault>
        ensures { OnOk result (Parsed self.old self.new list.old.items list.new.items) }
    {
        match self.peek() {
            Some(b'"') => self.literal(list),
            Some(b'[') => self.class(list),
            Some(b'.') => self.any_byte(list),
            Some(b'(') => self.group(list, depth),
            _ => self.constant(list),
        }
    }

    // (p)
    #[cycle(parsing)]
    fn group(&mut self, list: &mut Vec<u8>, depth: usize) -> Result<(), Fault>
        ensures { OnOk result (Parsed self.old self.new list.old.items list.new.items) }
    {
        if depth >= MOST_NESTING {
            return Err(self.fault(Expected::LessNesting));
        }
        self.expect(b'(', Expected::Expression)?;
        self.expression(list, depth + 1)?;
        self.expect(b')', Expected::ClosingBracket)
    }

    // Any byte.
    fn any_byte(&mut self, list: &mut Vec<u8>) -> Result<(), Fault>
        ensures { OnOk result (Parsed self.old self.new list.old.items list.new.items) }
    {
        self.expect(b'.', Expected::Expression)?;
        self.put(list, Node::Range(0, 255))
    }

    // The words for no word at all and for the empty one.
    fn constant(&mut self, list: &mut Vec<u8>) -> Result<(), Fault>
        ensures { OnOk result (Parsed self.old self.new list.old.items list.new.items) }
    {
        let text = self.text;
        let word = self.word(Expected::Expression)?;
        match word.of(text) {
            b"nothing" => self.put(list, Node::Nothing),
            b"empty" => self.put(list, Node::Empty),
            _ => Err(Fault::At(word.start, Expected::Expression)),
        }
    }

    // The repetitions of the pattern that stands from a place of the list on. That the place is in the list is a clause: the list
    // is lent, and grows.
    fn repetitions(&mut self, list: &mut Vec<u8>, start: usize) -> Result<(), Fault>
        requires { start ≤ vec_len list.old }
        ensures on { OnOk result (On self.old self.new) }
        ensures keeps { OnOk result (Keeps start list.old.items list.new.items) }
    {
        while self.repeated(list, start)? {}
        Ok(())
    }

    // One repetition of it, if one follows.
    fn repeated(&mut self, list: &mut Vec<u8>, start: usize) -> Result<bool, Fault>
        requires { start ≤ vec_len list.old }
        ensures past { IfOk result (λ b. MatchBool b (Past self.old self.new) (self.new ≡ self.old)) }
        ensures long { OnOk result (start ≤ vec_len list.new) }
        ensures keeps { OnOk result (Keeps start list.old.items list.new.items) }
    {
        if self.accept(b'*') {
            self.put_before(list, start, Node::Star)?;
            return Ok(true);
        }
        if self.accept(b'+') {
            self.put_again(list, start)?;
            return Ok(true);
        }
        if self.accept(b'?') {
            self.put_before(list, start, Node::Empty)?;
            self.put_before(list, start, Node::Union)?;
            return Ok(true);
        }
        Ok(false)
    }

    // Makes the pattern that stands from a place on 'it, then any number of it'.
    fn put_again(&self, list: &mut Vec<u8>, start: usize) -> Result<(), Fault>
        requires { start ≤ vec_len list.old }
        ensures long { OnOk result (start ≤ vec_len list.new) }
        ensures keeps { OnOk result (Keeps start list.old.items list.new.items) }
    {
        let end = list.len();
        list.extend_from_within(start..end)?;
        self.put_before(list, end, Node::Star)?;
        self.put_before(list, start, Node::Sequence)
    }
}
