// Asks for the list alone, of the bench tree on standard input, and prints a line for each case: its label, the answer, and digests
// of the list's room and of the work space at return. tools/device_cases.py says what is expected.
#![tactic(auto)]

use cases::within;
use device::{Listed, Refusal, find_all_passthrough_devices};
use std::io;
use std::io::Write;
use streams::{print_digest, print_number, read_full};
use told::told_of_list;

// Room for the host, for the most words that a case lends, and for the longest list.
const HOST: usize = 512;

const WORDS: usize = 16400;

const LIST: usize = 64;

// What stands in list and work space before a call.
const LIST_FILL: u8 = 0x5a;

const WORK_FILL: u32 = 0xa5a5a5a5;

fn tell<W: Write>(out: &mut W, answer: Result<Listed, Refusal>) -> io::Result<()> {
    match answer {
        Ok(listed) => {
            print_number(out, b": paths ", listed.paths as u64)?;
            print_number(out, b" list ", listed.list as u64)
        }
        Err(refusal) => {
            let told = told_of_list(refusal);
            print_number(out, b": refused ", told.number)?;
            print_number(out, b" at ", told.place as u64)
        }
    }
}

fn left<W: Write>(out: &mut W, list: &[u8], work: &[u32]) -> io::Result<()> {
    print_digest(out, b", left ", cases::digest(list))?;
    print_digest(out, b" ", cases::digest_words(work))?;
    out.write_all(b"\n")
}

// Where the first bar of a case's text is; its length where there is none.
fn bar(text: &[u8]) -> usize {
    text.iter().position(|x| *x == b'|').unwrap_or(text.len())
}

fn before(text: &[u8]) -> &[u8] {
    octets::part(text, 0, bar(text))
}

fn after(text: &[u8]) -> &[u8] {
    let n = bar(text);
    if n < text.len() {
        return octets::part(text, n + 1, text.len());
    }
    text
}

// What the list is asked of: the host, and the two path lists with a bar between.
fn ask<W: Write>(
    out: &mut W,
    host: &[u8],
    lists: &[u8],
    work: &mut [u32],
    list: &mut [u8],
) -> io::Result<()> {
    let answer = find_all_passthrough_devices(host, before(lists), after(lists), work, list);
    tell(out, answer)?;
    left(out, list, work)
}

fn lend<W: Write>(
    out: &mut W,
    host: &[u8],
    lists: &[u8],
    words: usize,
    list: &mut [u8],
) -> io::Result<()> {
    let mut work = [WORK_FILL; WORDS];
    let n = within(words, &work);
    ask(out, host, lists, &mut work[..n], list)
}

// One case, with so many words and so many bytes lent. Its text is the label, the configured and the excluded paths, with bars
// between: a function with many byte strings takes long to prove.
fn run<W: Write>(
    out: &mut W,
    host: &[u8],
    text: &[u8],
    words: usize,
    room: usize,
) -> io::Result<()> {
    out.write_all(before(text))?;
    let mut list = [LIST_FILL; LIST];
    let m = within(room, &list);
    lend(out, host, after(text), words, &mut list[..m])
}

fn bench<W: Write>(out: &mut W, host: &[u8]) -> io::Result<()> {
    run(out, host, b"T|/soc/uart@100\0|", 16384, 64)?;
    run(
        out,
        host,
        b"T excluding /clk|/soc/uart@100\0|/clk\0",
        16384,
        64,
    )?;
    run(out, host, b"T, nothing configured||", 16384, 64)?;
    run(out, host, b"T, the root configured|/\0|", 16400, 64)?;
    run(
        out,
        host,
        b"T, an exclusion that names no node|/soc/uart@100\0|/none\0",
        16384,
        23,
    )
}

fn unread<W: Write>(out: &mut W, host: &[u8]) -> io::Result<()> {
    run(out, host, b"40|/soc/uart@100\0|", 16383, 64)?;
    run(out, b"", b"1||", 16384, 64)?;
    run(out, octets::part(host, 0, 100), b"3|/clk|", 16384, 64)
}

fn refusals<W: Write>(out: &mut W, host: &[u8]) -> io::Result<()> {
    run(
        out,
        host,
        b"41, a path without its NUL|/clk\0/pd|",
        16384,
        64,
    )?;
    run(
        out,
        host,
        b"41, an exclusion without its slash|/none\0|clk\0",
        16384,
        64,
    )?;
    run(out, host, b"42, no such node|/clk\0/none\0|", 16384, 64)?;
    run(out, host, b"42, a repeat|/clk\0/pd\0/clk\0|", 16384, 64)?;
    run(out, host, b"45, one byte short|/soc/uart@100\0|", 16384, 22)
}

fn main(rt: HostRuntime) -> io::Result<()> {
    let mut host = [0u8; HOST];
    let n = read_full(&mut rt.stdin(), &mut host)?;
    let blob = octets::part(&host, 0, n);
    let mut out = rt.stdout();
    bench(&mut out, blob)?;
    unread(&mut out, blob)?;
    refusals(&mut out, blob)
}
