// Answers questions from standard input, a line to each: the tests of names, the maker of reservations, the table of references
// and every call of the writer. oracle/ asks it while it runs the given Rust beside; the file `stdin` beside this source holds
// questions that it once asked, and `stdout` what the Rust answered.
//
// A question is a line of 45 characters and one of bytes. The first has a letter, two numbers of 16 hexadecimal digits, and two
// of 4, which say how many characters of the second line are the name and how many the value. Of the buffers as much is lent as
// the last `l` said; it fills them with 238 and 7, so that what is not written shows.
#![tactic(auto)]

mod script;
mod tell;

use cases::within;
use references::rows;
use reservation::Reservation;
use rules::RESERVATION_CEILING;
use script::unhex;
use scripts::{number, word};
use std::io::{Read, Write};
use std::{array, io};
use streams::read_full;
use writer::{FdtWriter, Refused};

const DATA: usize = 4096;

const STRINGS: usize = 1024;

const PHANDLES: usize = 64;

const HEAD: usize = 46;

// As many reservations as a start can be lent: one more than it takes.
const ENTRIES: usize = RESERVATION_CEILING + 1;

const TEXT: usize = 1024;

const RAW: usize = 4100;

// What stands in the buffers that are lent anew.
const FILL: u8 = 238;

const FILL_WORD: u32 = 7;

// The writer's state, and how much of each buffer is lent.
#[derive(Clone, Copy)]
struct Session {
    w: FdtWriter,
    data: usize,
    strings: usize,
    phandles: usize,
}

impl Session {
    fn with(mut self, w: FdtWriter) -> Session {
        self.w = w;
        self
    }
}

// A question: its letter, its two numbers, and the bytes of its name and of its value.
#[derive(Clone, Copy)]
struct Asked<'a> {
    op: u8,
    a: u64,
    b: u64,
    name: &'a [u8],
    val: &'a [u8],
}

// A start with the first `count` reservations of those that the bytes spell, sixteen to each.
fn start(data: &mut [u8], count: usize, val: &[u8]) -> Result<FdtWriter, Refused> {
    let all: [Reservation; ENTRIES] = array::from_fn(|i| {
        scripts::reservation(octets::long(val, i * 16), octets::long(val, i * 16 + 8))
    });
    let n = count.min(ENTRIES);
    FdtWriter::new_with_mem_reserv(data, &all[..n])
}

// The first n, or all of them where there are fewer.
fn first<T>(n: usize, s: &[T]) -> &[T] {
    &s[..within(n, s)]
}

// The calls that take a property's name. Of numbers, the value spells up to three.
// A match on the letters: an enum of the calls would be this match, and one more that makes the calls.
fn property(
    q: Asked,
    w: FdtWriter,
    data: &mut [u8],
    strings: &mut [u8],
) -> Result<FdtWriter, Refused> {
    let val = q.val;
    match q.op {
        b'p' => w.property(data, strings, q.name, val),
        b'z' => w.property_null(data, strings, q.name),
        b't' => w.property_string(data, strings, q.name, val),
        b'k' => w.property_string_list(data, strings, q.name, val),
        b'w' => w.property_u32(data, strings, q.name, word(q.a)),
        b'q' => w.property_u64(data, strings, q.name, q.a),
        b'c' => {
            let three: [u32; 3] = array::from_fn(|i| octets::word(val, i * 4));
            w.property_array_u32(data, strings, q.name, first(val.len() / 4, &three))
        }
        _ => {
            let three: [u64; 3] = array::from_fn(|i| octets::long(val, i * 8));
            w.property_array_u64(data, strings, q.name, first(val.len() / 8, &three))
        }
    }
}

// The other calls, by their letters as above.
fn call(
    q: Asked,
    w: FdtWriter,
    data: &mut [u8],
    strings: &mut [u8],
    phandles: &mut [u32],
) -> Result<FdtWriter, Refused> {
    match q.op {
        b'0' => FdtWriter::new(data),
        b's' => start(data, q.a as usize, q.val),
        b'b' => w.begin_node(data, q.name),
        b'e' => w.end_node(data, q.a as usize),
        b'h' => w.property_phandle(data, strings, phandles, word(q.a)),
        b'f' => w.finish(data, strings),
        b'i' => Ok(w.set_boot_cpuid_phys(word(q.a))),
        b'a' => Ok(scripts::altered(w, q.a, q.b as usize)),
        _ => property(q, w, data, strings),
    }
}

fn judged<O: Write>(out: &mut O, name: &[u8]) -> io::Result<()> {
    tell::name(
        out,
        names::node_name_valid(name),
        names::property_name_valid(name),
        names::node_name_reads(name),
        names::property_name_reads(name),
    )
}

// Whether a property of this name holds references, and whether it asks its targets for this cells property.
fn refers<O: Write>(out: &mut O, name: &[u8], cells: &[u8]) -> io::Result<()> {
    tell::refers(
        out,
        rows::is_phandle_property(name),
        rows::is_cells(rows::cells_name(name), cells),
    )
}

fn made<O: Write>(out: &mut O, address: u64, size: u64) -> io::Result<()> {
    match Reservation::new(address, size) {
        Ok(r) => tell::made(out, 0, r.address(), r.size()),
        Err(_) => tell::made(out, 0x27, 0, 0),
    }
}

// Lends anew.
fn lend(q: Asked, phandles: usize) -> Session {
    Session {
        w: scripts::nothing(),
        data: q.a as usize,
        strings: q.b as usize,
        phandles,
    }
}

// Makes a call of the writer on what is lent, and tells of it. The three buffers stay parameters of their own: the borrow checker
// has no rule yet for calls that take them out of a struct behind a reference.
fn on<O: Write>(
    out: &mut O,
    q: Asked,
    s: Session,
    data: &mut [u8],
    strings: &mut [u8],
    phandles: &mut [u32],
) -> io::Result<Session> {
    let d = within(s.data, data);
    let t = within(s.strings, strings);
    let p = within(s.phandles, phandles);
    let data = &mut data[..d];
    let strings = &mut strings[..t];
    let phandles = &mut phandles[..p];
    let answer = call(q, s.w, data, strings, phandles);
    let after = tell::told(out, answer, data, strings, phandles)?;
    Ok(s.with(after))
}

// Answers a question, by its letter as above.
fn answer<O: Write>(
    out: &mut O,
    q: Asked,
    s: Session,
    data: &mut [u8],
    strings: &mut [u8],
    phandles: &mut [u32],
) -> io::Result<Session> {
    match q.op {
        b'n' => {
            judged(out, q.name)?;
            Ok(s)
        }
        b'm' => {
            made(out, q.a, q.b)?;
            Ok(s)
        }
        b'r' => {
            refers(out, q.name, q.val)?;
            Ok(s)
        }
        b'l' => {
            cases::fill(data, FILL);
            cases::fill(strings, FILL);
            cases::fill(phandles, FILL_WORD);
            Ok(lend(q, octets::word(q.val, 0) as usize))
        }
        _ => on(out, q, s, data, strings, phandles),
    }
}

// Reads n bytes, or as many as there is room for.
fn take<R: Read>(input: &mut R, raw: &mut [u8], n: usize) -> io::Result<()> {
    let m = within(n, raw);
    read_full(input, &mut raw[..m])?;
    Ok(())
}

// The bytes that n characters of the second line spell, from a place on, put into `out`.
fn spelt<'a>(raw: &[u8; RAW], at: usize, n: usize, out: &'a mut [u8; TEXT]) -> &'a [u8] {
    let k = unhex(octets::part(raw, at, n), out);
    octets::part(out, 0, k)
}

// The second line of a question: its name and its value. Its last character, the line's end, is of neither.
fn behind<'a, R: Read>(
    input: &mut R,
    head: &[u8; HEAD],
    name: &'a mut [u8; TEXT],
    val: &'a mut [u8; TEXT],
) -> io::Result<Asked<'a>> {
    let n = count(head, 36) as usize;
    let m = count(head, 41) as usize;
    let mut raw = [0u8; RAW];
    take(input, &mut raw, n + m + 1)?;
    Ok(Asked {
        op: octets::byte(head, 0),
        a: number(octets::part(head, 2, 16)),
        b: number(octets::part(head, 19, 16)),
        name: spelt(&raw, 0, n, name),
        val: spelt(&raw, n, m, val),
    })
}

// How many characters a field of four says.
fn count(head: &[u8; HEAD], at: usize) -> u16 {
    (number(octets::part(head, at, 4)) % 65536) as u16
}

// The next question; None where there is none left, or a NUL stands for its letter.
fn question<'a, R: Read>(
    input: &mut R,
    name: &'a mut [u8; TEXT],
    val: &'a mut [u8; TEXT],
) -> io::Result<Option<Asked<'a>>> {
    let mut head = [0u8; HEAD];
    let got = read_full(input, &mut head)?;
    if got < HEAD {
        return Ok(None);
    }
    let asked = behind(input, &head, name, val)?;
    if asked.op == 0 {
        return Ok(None);
    }
    Ok(Some(asked))
}

// One question; None where there is none left.
fn next<R: Read, O: Write>(
    input: &mut R,
    out: &mut O,
    s: Session,
    data: &mut [u8; DATA],
    strings: &mut [u8; STRINGS],
    phandles: &mut [u32; PHANDLES],
) -> io::Result<Option<Session>> {
    let mut name = [0u8; TEXT];
    let mut val = [0u8; TEXT];
    let Some(q) = question(input, &mut name, &mut val)? else {
        return Ok(None);
    };
    Ok(Some(answer(out, q, s, data, strings, phandles)?))
}

fn main(rt: HostRuntime) -> io::Result<()> {
    let mut data = [0u8; DATA];
    let mut strings = [0u8; STRINGS];
    let mut phandles = [0u32; PHANDLES];
    let mut s = Session {
        w: scripts::nothing(),
        data: 0,
        strings: 0,
        phandles: 0,
    };
    let mut input = rt.stdin();
    let mut out = rt.stdout();
    for _ in 0..4000000000u32 {
        match next(
            &mut input,
            &mut out,
            s,
            &mut data,
            &mut strings,
            &mut phandles,
        )? {
            Some(kept) => s = kept,
            None => return Ok(()),
        }
    }
    Ok(())
}
