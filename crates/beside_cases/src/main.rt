// Runs the derivation on the cases of standard input and prints a line for each: the answer, and digests of list, guest and work
// space at return. oracle/ asks it while it runs the given Rust beside; the file `stdin` beside this source holds cases that it
// once asked, and `stdout` what was expected of them.
//
// A case is laid out as one of derive_cases, but has no label, no rest behind the zeros of its host, no spans and no runs.
#![tactic(auto)]

mod line;

use cases::{case, within};
use casework::{derived, take_case};
use std::io;
use std::io::{Read, Write};

// Room for the longest host, the two lists and the ids, with the head.
const CASE: usize = case::HEAD + 3 * 70000 + 8 * case::MOST_IDS;

const WORDS: usize = 16400;

const LIST: usize = 70000;

const GUEST: usize = 70000;

// What every byte and every word that is lent is before.
const FILL: u8 = 0xa5;

const FILL_WORD: u32 = 0xa5a5a5a5;

// Derives, and tells of it.
fn tell<W: Write>(
    out: &mut W,
    case: &[u8],
    work: &mut [u32],
    list: &mut [u8],
    guest: &mut [u8],
) -> io::Result<()> {
    let answer = derived(case, work, list, guest);
    line::print_line(out, answer, list, guest, work)
}

// Lends as much of each as the case says.
fn lend<W: Write>(
    out: &mut W,
    case: &[u8],
    work: &mut [u32],
    list: &mut [u8],
    guest: &mut [u8],
) -> io::Result<()> {
    let w = within(case::number(case, case::WORDS), work);
    let l = within(case::number(case, case::LIST), list);
    let g = within(case::number(case, case::GUEST), guest);
    tell(out, case, &mut work[..w], &mut list[..l], &mut guest[..g])
}

// The same, of arrays.
fn run<W: Write>(
    out: &mut W,
    case: &[u8],
    work: &mut [u32; WORDS],
    list: &mut [u8; LIST],
    guest: &mut [u8; GUEST],
) -> io::Result<()> {
    lend(out, case, work, list, guest)
}

// One case; false where there is none left.
fn next<R: Read, W: Write>(input: &mut R, out: &mut W, case: &mut [u8; CASE]) -> io::Result<bool> {
    if !take_case(input, case)? {
        return Ok(false);
    }
    let mut work = [FILL_WORD; WORDS];
    let mut list = [FILL; LIST];
    let mut guest = [FILL; GUEST];
    run(out, case, &mut work, &mut list, &mut guest)?;
    Ok(true)
}

fn main(rt: HostRuntime) -> io::Result<()> {
    let mut case = [0u8; CASE];
    let mut input = rt.stdin();
    let mut out = rt.stdout();
    for _ in 0..100000000 {
        if !next(&mut input, &mut out, &mut case)? {
            break;
        }
    }
    Ok(())
}
