// Runs a script of the writer's calls from standard input, and tells a line of each: the call as it stands in the script, the
// number of its refusal or 0, its place; of the state handed back the lengths of data, strings and phandle table, the depth,
// whether a node was ended, whether it is finished, the boot CPU; and digests of data, strings and phandle table. Buffers
// begin as bytes 238 and numbers 7, so that what is not written shows.
//
// The script is cases, an empty line between two. A case is a line `CASE DATA STRINGS PHANDLES`, how much of each is lent, and
// then its calls; or it is `made ADDRESS SIZE`.
#![tactic(auto)]

mod script;
mod tell;

ghost use Rattle.std.specs.Prelude.{◌<◌};

use cases::within;
use reservation::Reservation;
use rules::{BLOB_CEILING, RESERVATION_CEILING};
use script::{count, field, number, word};
use std::io::Write;
use std::{array, io};
use streams::read_full;
use writer::{FdtWriter, Refused};

// Room for the script.
const SCRIPT: usize = 65536;

// As much data as a case can be lent: more than counts.
const DATA_LENT: usize = BLOB_CEILING + 8;

const STRINGS_LENT: usize = 4096;

const PHANDLES_LENT: usize = 8;

// As many reservations as a start can be lent: one more than it takes.
const ENTRIES: usize = RESERVATION_CEILING + 1;

// What stands in the buffers before a case.
const FILL: u8 = 238;

const FILL_WORD: u32 = 7;

// The writer's state, how much of each buffer is lent, and whether the next line is the first of a case.
#[derive(Clone, Copy)]
struct Session {
    w: FdtWriter,
    data: usize,
    strings: usize,
    phandles: usize,
    first: bool,
}

impl Session {
    fn with(mut self, w: FdtWriter) -> Session {
        self.w = w;
        self
    }
}

// One of those of `start COUNT ADDRESS SIZE ..`, or of `rows COUNT`, which lie apart.
fn nth(line: &[u8], i: usize) -> Reservation
    requires { i < 64 }
{
    if octets::byte(line, 0) == b'r' {
        return scripts::reservation((i * 16) as u64, 8);
    }
    scripts::reservation(number(line, i * 2 + 2), number(line, i * 2 + 3))
}

fn start(line: &[u8], data: &mut [u8]) -> Result<FdtWriter, Refused> {
    let all: [Reservation; ENTRIES] = array::from_fn(|i| nth(line, i));
    let n = count(line, 1).min(ENTRIES);
    FdtWriter::new_with_mem_reserv(data, &all[..n])
}

// Of the numbers of `cells NAME ..` and `doubles NAME ..` there are three or none.
fn some<'a, T>(line: &[u8], three: &'a [T]) -> &'a [T] {
    if field(line, 2).is_empty() {
        &[]
    } else {
        three
    }
}

// The calls that take a property's name.
// A match on the letters: an enum of the calls would be this match, and one more that makes the calls.
fn property(
    line: &[u8],
    w: FdtWriter,
    data: &mut [u8],
    strings: &mut [u8],
) -> Result<FdtWriter, Refused> {
    let name = field(line, 1);
    let val = field(line, 2);
    match octets::byte(line, 0) {
        b'p' => w.property(data, strings, name, val),
        b'z' => w.property_null(data, strings, name),
        b't' => w.property_string(data, strings, name, val),
        b'l' => w.property_string_list(data, strings, name, val),
        b'w' => w.property_u32(data, strings, name, word(line, 2)),
        b'q' => w.property_u64(data, strings, name, number(line, 2)),
        b'c' => {
            let three: [u32; 3] = array::from_fn(|i| word(line, i + 2));
            w.property_array_u32(data, strings, name, some(line, &three))
        }
        _ => {
            let three: [u64; 3] = array::from_fn(|i| number(line, i + 2));
            w.property_array_u64(data, strings, name, some(line, &three))
        }
    }
}

// The other calls, by their letters as above.
fn call(
    line: &[u8],
    w: FdtWriter,
    data: &mut [u8],
    strings: &mut [u8],
    phandles: &mut [u32],
) -> Result<FdtWriter, Refused> {
    match octets::byte(line, 0) {
        b'n' => FdtWriter::new(data),
        b's' | b'r' => start(line, data),
        b'b' => w.begin_node(data, field(line, 1)),
        b'e' => w.end_node(data, count(line, 1)),
        b'h' => w.property_phandle(data, strings, phandles, word(line, 1)),
        b'f' => w.finish(data, strings),
        b'i' => Ok(w.set_boot_cpuid_phys(word(line, 1))),
        b'a' => Ok(scripts::altered(w, number(line, 1), count(line, 2))),
        _ => property(line, w, data, strings),
    }
}

// Makes a call of the writer on what is lent, and tells of it. The three buffers stay parameters of their own: the borrow checker
// has no rule yet for calls that take them out of a struct behind a reference.
fn on<O: Write>(
    out: &mut O,
    line: &[u8],
    s: Session,
    data: &mut [u8],
    strings: &mut [u8],
    phandles: &mut [u32],
) -> io::Result<Session> {
    let d = within(s.data, data);
    let t = within(s.strings, strings);
    let p = within(s.phandles, phandles);
    let data = &mut data[..d];
    let strings = &mut strings[..t];
    let phandles = &mut phandles[..p];
    let answer = call(line, s.w, data, strings, phandles);
    let after = tell::told(out, answer, data, strings, phandles)?;
    Ok(s.with(after))
}

// What the first line of a case lends; an empty line lends nothing, and the next is the first of a case.
fn lent(line: &[u8]) -> Session {
    Session {
        w: scripts::nothing(),
        data: count(line, 1),
        strings: count(line, 2),
        phandles: count(line, 3),
        first: line.is_empty(),
    }
}

fn before() -> Session {
    lent(b"")
}

// Tells of the first line of a case.
fn head<O: Write>(out: &mut O, line: &[u8]) -> io::Result<()> {
    if octets::begins(b"made", line) {
        tell::made(out, Reservation::new(number(line, 1), number(line, 2)))?;
    }
    tell::end(out)
}

// What a line of the script does.
fn turn<O: Write>(
    out: &mut O,
    line: &[u8],
    s: Session,
    data: &mut [u8; DATA_LENT],
    strings: &mut [u8; STRINGS_LENT],
    phandles: &mut [u32; PHANDLES_LENT],
) -> io::Result<Session> {
    tell::line(out, line)?;
    if line.is_empty() {
        return Ok(lent(line));
    }
    if s.first {
        head(out, line)?;
        cases::fill(data, FILL);
        cases::fill(strings, FILL);
        cases::fill(phandles, FILL_WORD);
        return Ok(lent(line));
    }
    on(out, line, s, data, strings, phandles)
}

fn run<O: Write>(
    out: &mut O,
    script: &[u8],
    data: &mut [u8; DATA_LENT],
    strings: &mut [u8; STRINGS_LENT],
    phandles: &mut [u32; PHANDLES_LENT],
) -> io::Result<()> {
    let mut s = before();
    for ended in script.split_inclusive(|x| *x == b'\n') {
        let line = ended.strip_suffix(b"\n").unwrap_or(ended);
        s = turn(out, line, s, data, strings, phandles)?;
    }
    Ok(())
}

fn main(rt: HostRuntime) -> io::Result<()> {
    let mut script = [0u8; SCRIPT];
    let n = read_full(&mut rt.stdin(), &mut script)?;
    script::nuls(&mut script);
    let mut data = [0u8; DATA_LENT];
    let mut strings = [0u8; STRINGS_LENT];
    let mut phandles = [0u32; PHANDLES_LENT];
    run(
        &mut rt.stdout(),
        octets::part(&script, 0, n),
        &mut data,
        &mut strings,
        &mut phandles,
    )
}
