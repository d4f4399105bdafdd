// Classes, as [a-z0-9] and [^"\n]: sets of single bytes, written as the fewest ranges in order.
ghost use Rattle.std.specs.Prelude.{◌<◌, ◌≤◌, IfOk, IfSome, OnOk};
ghost use Rattle.notation.specs.Reading.{Past};
ghost use Rattle.notation.specs.Writing.{Added, Parsed};

use crate::error::{Expected, Fault};
use crate::scan::Reader;
use patterns::node::Node;

// Which bytes a class has.
#[derive(Clone, Copy)]
pub struct Class {
    members: [bool; 256],
}

impl Class {
    fn new() -> Class {
        Class {
            members: [false; 256],
        }
    }

    // Takes in what it lacked, and nothing else.
    fn invert(&mut self) {
        for member in &mut self.members {
            *member = !*member;
        }
    }

    // The first member from a byte on.
    fn next(&self, from: usize) -> Option<u8>
        ensures { IfSome result (λ b. (from ≤ b) × (b < 256)) }
    {
        let byte = (from..256).find(|byte| self.members[*byte])?;
        Some(byte as u8)
    }

    // The last byte up to which each byte from `low` on is a member.
    fn run_end(&self, low: u8) -> u8
        ensures { (low ≤ result) × (result < 256) }
    {
        let behind = &self.members[low as usize + 1..];
        let more = behind.iter().take_while(|member| **member).count();
        low + more as u8
    }
}

impl Reader<'_> {
    // A class from its opening bracket on.
    pub fn class(&mut self, list: &mut Vec<u8>) -> Result<(), Fault>
        ensures { OnOk result (Parsed self.old self.new list.old.items list.new.items) }
    {
        let class = self.class_set()?;
        let Some(low) = class.next(0) else {
            return self.put(list, Node::Nothing);
        };
        self.put_runs(list, &class, low)
    }

    // The set that a class says, with at least one item between its brackets.
    fn class_set(&mut self) -> Result<Class, Fault>
        ensures { OnOk result (Past self.old self.new) }
    {
        if !self.step_over(b'[') {
            return Err(self.fault(Expected::Expression));
        }
        let inverted = self.step_over(b'^');
        let mut class = Class::new();
        self.class_items(&mut class)?;
        if inverted {
            class.invert();
        }
        Ok(class)
    }

    // The items up to the closing bracket.
    fn class_items(&mut self, class: &mut Class) -> Result<(), Fault>
        ensures { OnOk result (Past self.old self.new) }
    {
        self.class_item(class)?;
        while !self.accept(b']') {
            self.class_item(class)?;
        }
        Ok(())
    }

    // One item: a byte, or all from one byte to another.
    fn class_item(&mut self, class: &mut Class) -> Result<(), Fault>
        ensures { OnOk result (Past self.old self.new) }
    {
        let low = self.class_byte()?;
        let high = if self.step_over(b'-') {
            self.range_end(low)?
        } else {
            low
        };
        class.members[low as usize..=high as usize].fill(true);
        Ok(())
    }

    // The byte behind the dash, which may not be below the one before it.
    fn range_end(&mut self, low: u8) -> Result<u8, Fault>
        ensures past { OnOk result (Past self.old self.new) }
        ensures high { IfOk result (λ high. (low ≤ high) × (high < 256)) }
    {
        let place = self.at;
        let high = self.class_byte()?;
        if high < low {
            return Err(Fault::At(place, Expected::RangeEnd));
        }
        Ok(high)
    }

    // One byte of a class, as itself or as an escape.
    fn class_byte(&mut self) -> Result<u8, Fault>
        ensures past { OnOk result (Past self.old self.new) }
        ensures byte { IfOk result (λ byte. byte < 256) }
    {
        if let Some(b']' | b'-') = self.peek() {
            return Err(self.fault(Expected::ClassByte));
        }
        self.plain_byte(b"\"]-^", Expected::ClosingClass)
    }

    // Writes the members from `low` on: their runs, joined by 'or'.
    fn put_runs(&self, list: &mut Vec<u8>, class: &Class, low: u8) -> Result<(), Fault>
        ensures { OnOk result (Added list.old.items list.new.items) }
    {
        let high = class.run_end(low);
        let Some(next) = class.next(high as usize + 1) else {
            return self.put(list, Node::Range(low, high));
        };
        self.put(list, Node::Union)?;
        self.put(list, Node::Range(low, high))?;
        self.put_runs(list, class, next)
    }
}
