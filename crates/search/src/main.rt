// Searches a text for the patterns of a list and prints for each the places after which it ends.

#![tactic(auto)]

mod printing;

use patterns::direct::{matches, search};
use printing::{divider, places};
use std::alloc::{AllocError, Global};
use std::fmt::{Display, Write};
use std::io::Read;
use std::process::ExitCode;
use std::{env, fs, io};
use thiserror::Error;

// Why a run ends: what there is to say of the list, or what the system says.
#[derive(Debug, Drop, Error)]
enum Failure {
    #[error("{0}")]
    Message(String),
    #[error("no list: name a file, or write the list, a line '---' and the text")]
    NoList,
    #[error("the list cannot be searched")]
    NotSearched,
    #[error("{0}")]
    Io(#[from] io::Error),
    #[error("{0}")]
    Memory(#[from] AllocError),
}

impl Failure {
    // What is wrong with a list, with the name of where it comes from in front.
    fn of(heap: Global, source: &str, error: &impl Display) -> Failure {
        format!(in heap; "{source}: {error}").map_or_else(Failure::Memory, Failure::Message)
    }
}

fn main(rt: HostRuntime) -> io::Result<ExitCode> {
    match run(&rt) {
        Ok(()) => Ok(ExitCode::SUCCESS),
        Err(error) => {
            eprintln!(rt; "search: {error}")?;
            Ok(ExitCode::FAILURE)
        }
    }
}

// The list is a file that the first argument names, and the text is the standard input. With no argument both are the standard
// input, divided by a line of three dashes.
fn run(rt: &HostRuntime) -> Result<(), Failure> {
    let mut input = Vec::new(rt.alloc());
    rt.stdin().read_to_end(&mut input)?;
    let mut args = env::args(rt)?;
    let _program = args.next();
    let input = input.as_slice();
    if let Some(path) = args.next() {
        let source = path.as_str();
        let list = fs::read(rt, source).map_err(|error| Failure::of(rt.alloc(), source, &error))?;
        return print_places(rt, source, list.as_slice(), input);
    }
    let at = divider(input).ok_or(Failure::NoList)?;
    let text = input.len().min(at + 4);
    print_places(rt, "standard input", &input[..at], &input[text..])
}

// Reads the list, searches the text by definition and prints a line for each pattern: its name, and behind a colon each place
// after which it ends. Place 0 is before the first byte.
fn print_places(rt: &HostRuntime, source: &str, list: &[u8], text: &[u8]) -> Result<(), Failure> {
    let heap = rt.alloc();
    let notation = notation::read(heap, list).map_err(|error| Failure::of(heap, source, &error))?;
    let bytes = notation.bytes.as_slice();
    let mut ends = vec![in heap; 0u32; text.len()]?;
    search(bytes, text, ends.as_mut_slice()).map_err(|_| Failure::NotSearched)?;
    for (index, name) in notation.names.iter().enumerate() {
        let mut line = String::from_utf8_lossy(heap, name.of(list))?;
        line.push(':')?;
        if let Some(true) = matches(bytes, index, b"") {
            line.push_str(" 0")?;
        }
        for place in places(heap, ends.as_slice(), index)?.iter() {
            write!(line, " {place}")?;
        }
        rt.println(line.as_str())?;
    }
    Ok(())
}
