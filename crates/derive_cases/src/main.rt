// Runs the derivation on the cases of standard input and prints a line for each: its label, the answer, and digests of the list,
// the guest and the work space as they are at return, whole as lent. A case is twelve numbers (the lengths of the label, of the
// host's front, of the zeros in its middle and of its rest, of the configured and the excluded list, the count of ids, the words
// and the room for list and guest that are lent, the lengths of spans and runs) and then the label, front, rest, lists, ids, spans
// and runs. Where there are runs, the derivation is run again on the host with the bytes changed that they say (leak.rt).
// tools/derive_cases.py makes the cases and the lines that are expected.
#![tactic(auto)]

mod leak;
mod outcome;

use cases::{case, digest, digest_words, up, within};
use casework::take_case;
use outcome::{TOLD, print_told, put_outcome};
use std::io;
use std::io::{Read, Write};
use streams::print_digest;

// Room for the longest host, and for what the rest of a case has at most.
const CASE: usize = 1048640 + 66000;

const OUT: usize = TOLD + outcome::LIST + outcome::GUEST;

const WORDS: usize = 16400;

// What every word of a work space is before the derivation gets it.
const FILL: u32 = 0xa5a5a5a5;

// Prints the answer, and what is left in the buffers, of which the list has so many bytes.
fn show<W: Write>(to: &mut W, out: &[u8], list: usize, work: &[u32]) -> io::Result<()> {
    print_told(to, out)?;
    print_digest(to, b", left ", digest(octets::part(out, TOLD, list)))?;
    print_digest(
        to,
        b" ",
        digest(octets::part(out, up(TOLD, list), out.len())),
    )?;
    print_digest(to, b" ", digest_words(work))
}

// Prints the outcome of a case, and runs what it says to run again.
fn tell<W: Write>(to: &mut W, case: &[u8], work: &mut [u32], out: &[u8]) -> io::Result<()> {
    show(to, out, case::number(case, case::LIST), work)?;
    leak::report(to, case, work, out)?;
    to.write_all(b"\n")
}

// Derives on as many words as the case lends.
fn lent<W: Write>(to: &mut W, case: &[u8], work: &mut [u32], out: &mut [u8]) -> io::Result<()> {
    let w = within(case::number(case, case::WORDS), work);
    let words = &mut work[..w];
    put_outcome(case, words, out);
    tell(to, case, words, outcome::outcome(case, out))
}

fn run<W: Write>(
    to: &mut W,
    case: &[u8],
    work: &mut [u32; WORDS],
    out: &mut [u8; OUT],
) -> io::Result<()> {
    to.write_all(case::part(case, case::LABEL))?;
    lent(to, case, work, out)
}

// One case; false where there is none left.
fn next<R: Read, W: Write>(
    input: &mut R,
    to: &mut W,
    case: &mut [u8; CASE],
    out: &mut [u8; OUT],
) -> io::Result<bool> {
    let mut work = [FILL; WORDS];
    if !take_case(input, case)? {
        return Ok(false);
    }
    run(to, case, &mut work, out)?;
    Ok(true)
}

fn main(rt: HostRuntime) -> io::Result<()> {
    let mut case = [0u8; CASE];
    let mut out = [0u8; OUT];
    let mut input = rt.stdin();
    let mut to = rt.stdout();
    for _ in 0..100000 {
        if !next(&mut input, &mut to, &mut case, &mut out)? {
            break;
        }
    }
    Ok(())
}
