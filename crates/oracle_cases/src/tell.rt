// What is told of a question: a line of hexadecimal numbers, each as wide as its place is.
use cases::{digest, digest_words};
use scripts::parts;
use std::io;
use std::io::{Cursor, Write};
use streams::print_hex;
use writer::{FdtWriter, Refused};

const LINE: usize = 140;

// A number below 100 as two digits that read as decimal ones.
fn decimal(n: u64) -> u64 {
    n % 100 / 10 * 16 + n % 10
}

fn digits(text: &[u8; 16], n: usize) -> &[u8] {
    octets::part(text, 0, n)
}

// Puts a number, of at most 16 digits, at a place of the line.
fn put(line: &mut [u8; LINE], at: usize, n: u64, width: usize) {
    let mut text = Cursor::new([0u8; 16]);
    let _ = print_hex(&mut text, n, width);
    let k = text.position() as usize;
    octets::put(line, at, digits(&text.into_inner(), k));
}

fn state(line: &mut [u8; LINE], w: FdtWriter) {
    put(line, 3, w.data_len as u64, 16);
    put(line, 20, w.off_dt_struct as u64, 16);
    put(line, 37, w.strings_len as u64, 16);
    put(line, 54, w.phandles_len as u64, 16);
    put(line, 71, w.node_depth as u64, 16);
    put(line, 88, u64::from(w.node_ended), 1);
    put(line, 90, u64::from(w.finished), 1);
    put(line, 92, w.boot_cpuid_phys as u64, 8);
}

// Writes the first n characters.
fn show<O: Write>(out: &mut O, line: &[u8; LINE], n: usize) -> io::Result<()> {
    out.write_all(octets::part(line, 0, n))
}

fn blank() -> [u8; LINE] {
    let mut line = [b' '; LINE];
    line[127] = b'\n';
    line
}

// Writes the line of a call: its refusal or 00, the state that it hands back (lengths of data, structure's offset, strings and
// phandle table, the depth, whether a node was ended, whether it is finished, the boot CPU), and digests of data, strings and
// phandle table. Hands back the state.
pub(crate) fn told<O: Write>(
    out: &mut O,
    answer: Result<FdtWriter, Refused>,
    data: &[u8],
    strings: &[u8],
    phandles: &[u32],
) -> io::Result<FdtWriter> {
    let (w, refusal) = parts(answer);
    let mut line = blank();
    put(&mut line, 0, decimal(refusal), 2);
    state(&mut line, w);
    put(&mut line, 101, digest(data) as u64, 8);
    put(&mut line, 110, digest(strings) as u64, 8);
    put(&mut line, 119, digest_words(phandles) as u64, 8);
    show(out, &line, 128)?;
    Ok(w)
}

// Writes a digit for each test of a name: as the writer takes it for a node and for a property, and as the reader does.
pub(crate) fn name<O: Write>(
    out: &mut O,
    node: bool,
    property: bool,
    node_reads: bool,
    property_reads: bool,
) -> io::Result<()> {
    let mut line = [b'\n'; LINE];
    put(&mut line, 0, u64::from(node), 1);
    put(&mut line, 1, u64::from(property), 1);
    put(&mut line, 2, u64::from(node_reads), 1);
    put(&mut line, 3, u64::from(property_reads), 1);
    show(out, &line, 5)
}

// Writes a digit for each.
pub(crate) fn refers<O: Write>(out: &mut O, reference: bool, cells: bool) -> io::Result<()> {
    let mut line = [b'\n'; LINE];
    put(&mut line, 0, u64::from(reference), 1);
    put(&mut line, 1, u64::from(cells), 1);
    show(out, &line, 3)
}

// Writes what the maker of reservations answers: 27 or 00, and what the reservation holds.
pub(crate) fn made<O: Write>(out: &mut O, refusal: u64, address: u64, size: u64) -> io::Result<()> {
    let mut line = [b' '; LINE];
    line[36] = b'\n';
    put(&mut line, 0, refusal, 2);
    put(&mut line, 3, address, 16);
    put(&mut line, 20, size, 16);
    show(out, &line, 37)
}
