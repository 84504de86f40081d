// The command program. It reads standard input and `host.dtb`, and has the crate `program` say what to print and what the
// guest is; then it writes `guest.dtb`, and prints. Nothing is decided here but what to do where a file can't be had.
#![tactic(auto)]

use program::TEXT_ROOM;
use rules::PROGRAM_CEILING;
use std::fs::{File, OpenFile, OpenOptions};
use std::io::{Cursor, ErrorKind, Write};
use std::rt::Files;
use std::{fs, io, str};

// Room for all that is handled, and a byte more, which tells that there is more.
const READ_ROOM: usize = PROGRAM_CEILING + 1;

const NAME: usize = 12;

// Room for the text of an error.
const REASON: usize = 320;

// ---- what failed

// The text of an error, without the number of it that the library puts behind.
fn reason(error: &str) -> &str {
    match error.split_once(" (os error ") {
        Some((text, _)) => text,
        None => error,
    }
}

// Writes a line to standard error: what failed, and why.
fn fail(rt: &impl Eprint, what: &str, error: &io::Error) {
    let mut text = Cursor::new([0u8; REASON]);
    let _ = write!(text, "{error}");
    let n = text.position() as usize;
    let all = text.into_inner();
    let why = reason(str::from_utf8(octets::part(&all, 0, n)).unwrap_or(""));
    let _ = eprintln!(rt; "{what}: {why}");
}

// ---- reading

// Reads the host, and answers how many bytes it has: none where it can't be opened or read.
fn take_host(rt: &impl Files, buf: &mut [u8]) -> usize {
    match File::open(rt, "host.dtb") {
        Ok(mut file) => streams::read_full(&mut file, buf).unwrap_or(0),
        Err(_) => 0,
    }
}

// ---- writing

// A name as text. All names here are.
fn text(name: &[u8]) -> &str {
    str::from_utf8(name).unwrap_or("")
}

// Makes the file guest.dtb.N, N with two digits, and leaves its name in `name`. An error where there is such a file.
fn attempt<R: Files>(rt: &R, name: &mut [u8], n: u8) -> io::Result<R::File> {
    write!(Cursor::new(&mut *name), "guest.dtb.{n:02}")?;
    OpenOptions::new()
        .write(true)
        .create_new(true)
        .open(rt, text(name))
}

// Makes a file with a name that no other has, guest.dtb.00 to guest.dtb.99: one that is there may be another run's.
fn make<R: Files>(rt: &R, name: &mut [u8]) -> io::Result<R::File> {
    for n in 0..99 {
        match attempt(rt, name, n) {
            Ok(file) => return Ok(file),
            Err(error) => {
                if error.kind() != ErrorKind::AlreadyExists {
                    return Err(error);
                }
            }
        }
    }
    attempt(rt, name, 99)
}

// Writes the guest into a new file, whole, and closes it. Closing tells of no failure, so it is synced before.
fn fill<F: Write + OpenFile + Drop>(mut file: F, guest: &[u8]) -> io::Result<()> {
    file.write_all(guest)?;
    file.sync_all()
}

// Fills a new file of this name, and gives it the guest's.
fn place<R: Files>(rt: &R, file: R::File, name: &str, guest: &[u8]) -> io::Result<()> {
    fill(file, guest)?;
    fs::rename(rt, name, "guest.dtb")
}

// Writes the guest whole under another name, and then gives it its own, so that whoever reads `guest.dtb` finds the older one
// or all of the new one. Where that fails it takes its own file away, and the older one stays.
fn write_guest<R: Files>(rt: &R, guest: &[u8]) -> io::Result<()> {
    let mut name = [0u8; NAME];
    let file = make(rt, &mut name)?;
    let placed = place(rt, file, text(&name), guest);
    if placed.is_err() {
        let _ = fs::remove_file(rt, text(&name));
    }
    placed
}

fn print<R: Print + Eprint>(rt: &R, text: &[u8]) {
    if let Err(error) = rt.write_all(text) {
        fail(rt, "cannot print", &error);
    }
}

// Runs on what was read. The guest is in its place before anything is printed.
fn run<R: Files + Print + Eprint>(rt: &R, host: &[u8], input: &[u8]) {
    let mut guest = [0u8; PROGRAM_CEILING];
    let mut text = [0u8; TEXT_ROOM];
    let ran = program::run(host, input, &mut guest, &mut text);
    let written = match ran.guest {
        Some(len) => write_guest(rt, octets::part(&guest, 0, len)),
        None => Ok(()),
    };
    match written {
        Ok(()) => print(rt, octets::part(&text, 0, ran.text)),
        Err(error) => fail(rt, "cannot write guest.dtb", &error),
    }
}

// Standard input is read before any file is opened: were it closed, the file would get its number. Where it can't be read,
// nothing is written or printed, since a request that is cut short may lack its exclusions.
fn main(rt: HostRuntime) {
    let mut host = [0u8; READ_ROOM];
    let mut input = [0u8; READ_ROOM];
    match streams::read_full(&mut rt.stdin(), &mut input) {
        Ok(n) => {
            let m = take_host(&rt, &mut host);
            run(&rt, octets::part(&host, 0, m), octets::part(&input, 0, n));
        }
        Err(error) => fail(&rt, "cannot read standard input", &error),
    }
}
