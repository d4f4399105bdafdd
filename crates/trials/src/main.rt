// Cases that are run: worked out by hand, and not taken from what a program printed. They are this program's tests; the program
// itself says where the three patterns of the worked example end in all words of a and b of up to four bytes.

#![tactic(auto)]

#[cfg(test)]
mod exploring;
#[cfg(test)]
mod order;
#[cfg(test)]
mod reading;
#[cfg(test)]
mod refining;
#[cfg(test)]
mod searching;

use patterns::direct::search;
use std::io;

// ab; b's, one at least; bb.
const THREE: &[u8] = b"\x03\x02aa\x02bb\x03\x02bb\x07\x02bb\x03\x02bb\x02bb";

fn main(rt: HostRuntime) -> io::Result<()> {
    for number in 0..16u8 {
        print_word(&rt, number)?;
    }
    Ok(())
}

// The word of four bytes whose b's are the bits of a number, the first byte's bit lowest, and the bits after each byte.
fn print_word(rt: &HostRuntime, number: u8) -> io::Result<()> {
    let word = [
        letter(number),
        letter(number / 2),
        letter(number / 4),
        letter(number / 8),
    ];
    let mut ends = [0u32; 4];
    if search(THREE, &word, &mut ends).is_ok() {
        let [a, b, c, d] = ends;
        println!(rt; "{number:2}: {a} {b} {c} {d}")?;
    }
    Ok(())
}

fn letter(number: u8) -> u8 {
    if number % 2 == 1 { b'b' } else { b'a' }
}
