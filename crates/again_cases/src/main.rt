// Reads each blob of standard input, writes what it says again by the writer's calls, reads that, and prints whether both say
// the same. A case is five numbers (the lengths of the label, of the blob's front, of the zeros behind that and of the blob's
// rest, and how many bytes are lent for the second blob), the label, the front and the rest. tools/again_cases.py makes the
// cases and the lines that are expected.
#![tactic(auto)]

mod compare;
mod rewrite;
mod told;

use cases::{up, within};
use reader::Refusal;
use std::io;
use std::io::{Read, Write};
use streams::read_full;

// Room for the longest blob, and for the reader.
const BLOB: usize = 1048640;

const WORDS: usize = 16384;

const LABEL: usize = 256;

// The bytes of five numbers.
const HEAD: usize = 20;

// A second blob up to this length is printed.
const SHOWN: usize = 2048;

// The number at a place of a case's head.
fn number(s: &[u8; HEAD], at: usize) -> usize {
    octets::word(s, at) as usize
}

// Reads n bytes, or as many as there is room for, and answers how many that is.
fn take<R: Read>(input: &mut R, into: &mut [u8], n: usize) -> io::Result<usize> {
    let m = within(n, into);
    read_full(input, &mut into[..m])?;
    Ok(m)
}

// Reads n bytes to a place, as `take` does.
fn take_at<R: Read>(input: &mut R, into: &mut [u8], place: usize, n: usize) -> io::Result<usize> {
    let at = within(place, into);
    take(input, &mut into[at..], n)
}

fn read(blob: &[u8]) -> Result<usize, Refusal> {
    let mut work = [0u32; WORDS];
    reader::read(blob, &mut work)
}

// What the second reading answers of the blob that was written.
fn judge<W: Write>(out: &mut W, blob: &[u8], second: &[u8], count: usize) -> io::Result<()> {
    match read(second) {
        Err(refusal) => told::refused(out, refusal),
        Ok(again) => told::verdict(out, count == again && compare::same(blob, second)),
    }
}

// Prints what came of the second blob.
fn written<W: Write>(
    out: &mut W,
    label: &[u8],
    blob: &[u8],
    count: usize,
    second: &[u8],
) -> io::Result<()> {
    told::length(out, second.len())?;
    told::digests(out, compare::events(blob), compare::events(second))?;
    judge(out, blob, second, count)?;
    if second.len() <= SHOWN {
        told::shown(out, label, second)?;
    }
    Ok(())
}

// Writes an accepted blob again, with no more than `room` bytes lent for it, and prints what came of it.
fn trip<W: Write>(
    out: &mut W,
    label: &[u8],
    blob: &[u8],
    count: usize,
    room: usize,
    data: &mut [u8],
) -> io::Result<()> {
    told::nodes(out, count)?;
    let m = within(room, data);
    match rewrite::again(blob, &mut data[..m]) {
        Err(refused) => told::stopped(out, refused.error),
        Ok(w) => written(out, label, blob, count, octets::part(data, 0, w.data_len)),
    }
}

fn run<W: Write>(
    out: &mut W,
    label: &[u8],
    blob: &[u8],
    room: usize,
    data: &mut [u8],
) -> io::Result<()> {
    out.write_all(label)?;
    match read(blob) {
        Err(refusal) => told::refused(out, refusal),
        Ok(count) => trip(out, label, blob, count, room, data),
    }
}

// One case; false where there is none left.
fn next<R: Read, W: Write>(
    input: &mut R,
    out: &mut W,
    blob: &mut [u8; BLOB],
    data: &mut [u8; BLOB],
) -> io::Result<bool> {
    let mut head = [0u8; HEAD];
    let got = read_full(input, &mut head)?;
    if got < HEAD {
        return Ok(false);
    }
    let mut label = [0u8; LABEL];
    let text = take(input, &mut label, number(&head, 0))?;
    let front = take(input, blob, number(&head, 4))?;
    let zeros = number(&head, 8);
    octets::put_zeros(blob, front, zeros);
    let place = up(front, zeros);
    let rest = take_at(input, blob, place, number(&head, 12))?;
    run(
        out,
        octets::part(&label, 0, text),
        octets::part(blob, 0, up(place, rest)),
        number(&head, 16),
        data,
    )?;
    Ok(true)
}

fn main(rt: HostRuntime) -> io::Result<()> {
    let mut blob = [0u8; BLOB];
    let mut data = [0u8; BLOB];
    let mut input = rt.stdin();
    let mut out = rt.stdout();
    for _ in 0..100000 {
        if !next(&mut input, &mut out, &mut blob, &mut data)? {
            break;
        }
    }
    Ok(())
}
