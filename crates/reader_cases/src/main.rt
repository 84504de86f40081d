// Runs the reader on the blobs of standard input and prints a line for each: its label, the answer, and a digest of the work
// space at return. A case is four numbers (the label's length, the blob's, how many zeros follow it, how many words are lent),
// the label and the blob. tools/reader_cases.py makes the cases and the lines that are expected.
#![tactic(auto)]

use cases::within;
use reader::Refusal;
use std::io;
use std::io::{Read, Write};
use streams::{print_decimal, print_hex, read_full};

// Room for the longest blob, with a byte over the ceiling, and for the most words that a case lends.
const BLOB: usize = 1048640;

const WORDS: usize = 16400;

const LABEL: usize = 256;

// What every word of a work space is before the reader gets it.
const FILL: u32 = 0xa5a5a5a5;

#[derive(Drop)]
struct Head {
    label: usize,
    kept: usize,
    zeros: usize,
    words: usize,
}

fn number(s: &[u8], at: usize) -> usize {
    octets::word(s, at) as usize
}

fn head_of(s: &[u8; 16]) -> Head {
    Head {
        label: number(s, 0),
        kept: number(s, 4),
        zeros: number(s, 8),
        words: number(s, 12),
    }
}

fn print_answer<W: Write>(out: &mut W, answer: Result<usize, Refusal>) -> io::Result<()> {
    match answer {
        Ok(count) => {
            out.write_all(b": nodes ")?;
            print_decimal(out, count as u64)
        }
        Err(refusal) => {
            let t = reader::told(refusal);
            out.write_all(b": refused ")?;
            print_decimal(out, t.number)?;
            out.write_all(b" at ")?;
            print_decimal(out, t.place as u64)
        }
    }
}

fn run<W: Write>(out: &mut W, blob: &[u8], work: &mut [u32]) -> io::Result<()> {
    cases::fill(work, FILL);
    print_answer(out, reader::read(blob, work))?;
    out.write_all(b", work ")?;
    print_hex(out, cases::digest_words(work) as u64, 8)?;
    out.write_all(b"\n")
}

// Reads n bytes of the case, or as many as there is room for, and answers how many.
fn take<R: Read>(input: &mut R, buf: &mut [u8], n: usize) -> io::Result<usize> {
    let m = within(n, buf);
    read_full(input, &mut buf[..m])
}

// The blob with its zeros: how many bytes that makes.
fn grown(blob: &mut [u8], kept: usize, zeros: usize) -> usize {
    octets::put_zeros(blob, kept, zeros);
    if kept < blob.len() {
        if zeros < blob.len() - kept {
            return kept + zeros;
        }
    }
    blob.len()
}

fn lent<W: Write>(
    out: &mut W,
    blob: &[u8],
    len: usize,
    work: &mut [u32],
    words: usize,
) -> io::Result<()> {
    let bytes = octets::part(blob, 0, len);
    let n = within(words, work);
    run(out, bytes, &mut work[..n])
}

// One case; false where there is none left.
fn next<R: Read, W: Write>(
    input: &mut R,
    out: &mut W,
    label: &mut [u8; LABEL],
    blob: &mut [u8; BLOB],
    work: &mut [u32; WORDS],
) -> io::Result<bool> {
    let mut s = [0u8; 16];
    let got = read_full(input, &mut s)?;
    if got < 16 {
        return Ok(false);
    }
    let head = head_of(&s);
    let text = take(input, label, head.label)?;
    out.write_all(octets::part(label, 0, text))?;
    let kept = take(input, blob, head.kept)?;
    let len = grown(blob, kept, head.zeros);
    lent(out, blob, len, work, head.words)?;
    Ok(true)
}

fn main(rt: HostRuntime) -> io::Result<()> {
    let mut label = [0u8; LABEL];
    let mut blob = [0u8; BLOB];
    let mut work = [0u32; WORDS];
    let mut input = rt.stdin();
    let mut out = rt.stdout();
    for _ in 0..100000 {
        if !next(&mut input, &mut out, &mut label, &mut blob, &mut work)? {
            break;
        }
    }
    Ok(())
}
