// Derives again from a host of which some bytes are changed, and counts the runs whose outcome is not the first one's. The script
// says which bytes: those that are withheld, and, so that a difference is seen to be one, some that are not.
use crate::outcome::{TOLD, put_outcome};
use cases::{case, up};
use std::io;
use std::io::Write;
use streams::print_number;

// What stands for all the spans where a run names the byte to change.
const ALL: u32 = 0xffffffff;

// Room for a case that is run again, and for its outcome.
const CASE: usize = 66000;

const OUT: usize = TOLD + 66000;

fn changed(b: u8, how: u32) -> u8 {
    match how {
        0 => 0,
        1 => 255,
        _ => b ^ 0x55,
    }
}

fn change(case: &mut [u8], from: usize, n: usize, how: u32) {
    for b in case.iter_mut().skip(from).take(n) {
        *b = changed(*b, how);
    }
}

// Changes all the spans of the host, each a place and a length.
fn change_all(case: &mut [u8], spans: &[u8], how: u32) {
    let host = case::start(case, case::FRONT);
    for span in spans.chunks_exact(8) {
        let from = octets::word(span, 0) as usize;
        let n = octets::word(span, 4) as usize;
        change(case, up(host, from), n, how);
    }
}

// How many bytes the spans have.
fn spanned(spans: &[u8]) -> usize {
    let mut sum = 0;
    for span in spans.chunks_exact(8) {
        sum = up(sum, octets::word(span, 4) as usize);
    }
    sum
}

// Where run k stands in the case.
fn run_at(case: &[u8], k: usize) -> usize {
    if k < 4294967296 {
        up(case::start(case, case::RUNS), k * 8)
    } else {
        0
    }
}

// Makes `other` the case with the change of run k: a place, or ALL, and how.
fn prepare(case: &[u8], other: &mut [u8], k: usize) {
    let at = run_at(case, k);
    let place = octets::word(case, at);
    let how = octets::word(case, up(at, 4));
    octets::put(other, 0, case);
    if place == ALL {
        change_all(other, case::part(case, case::SPANS), how);
    } else {
        change(
            other,
            up(case::start(case, case::FRONT), place as usize),
            1,
            how,
        );
    }
}

// 1 where an outcome is another than the first, else 0. What is behind it in its room is left aside.
fn differs(out: &[u8], again: &[u8]) -> usize {
    if octets::begins(out, again) { 0 } else { 1 }
}

// How many of the runs differ from the first outcome, each made in the room that is lent.
fn differing(
    case: &[u8],
    work: &mut [u32],
    out: &[u8],
    other: &mut [u8; CASE],
    again: &mut [u8; OUT],
) -> usize {
    let mut count = 0;
    for k in (0..case::number(case, case::RUNS) / 8).rev() {
        prepare(case, other, k);
        put_outcome(other, work, again);
        count = up(count, differs(out, again));
    }
    count
}

fn compared(case: &[u8], work: &mut [u32], out: &[u8]) -> usize {
    let mut other = [0u8; CASE];
    let mut again = [0u8; OUT];
    differing(case, work, out, &mut other, &mut again)
}

// Prints how many bytes the spans have, how many runs there were, and how many of them differ.
fn print_runs<W: Write>(to: &mut W, case: &[u8], count: usize) -> io::Result<()> {
    print_number(
        to,
        b", bytes ",
        spanned(case::part(case, case::SPANS)) as u64,
    )?;
    print_number(to, b" runs ", (case::number(case, case::RUNS) / 8) as u64)?;
    print_number(to, b" differ ", count as u64)
}

// Runs all that the case says to run again, and where there is any, prints what came of it.
pub fn report<W: Write>(to: &mut W, case: &[u8], work: &mut [u32], out: &[u8]) -> io::Result<()> {
    let count = compared(case, work, out);
    if case::number(case, case::RUNS) > 0 {
        print_runs(to, case, count)?;
    }
    Ok(())
}
