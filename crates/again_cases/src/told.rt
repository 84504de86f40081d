// What is printed of a case.
use reader::Refusal;
use std::io;
use std::io::Write;
use streams::print_decimal;
use writer::Error;

// What a reading refuses; it ends the line.
pub fn refused<W: Write>(out: &mut W, refusal: Refusal) -> io::Result<()> {
    let t = reader::told(refusal);
    out.write_all(b": refused ")?;
    print_decimal(out, t.number)?;
    out.write_all(b" at ")?;
    print_decimal(out, t.place as u64)?;
    out.write_all(b"\n")
}

// What the writing refuses; it ends the line.
pub fn stopped<W: Write>(out: &mut W, error: Error) -> io::Result<()> {
    out.write_all(b", refused ")?;
    print_decimal(out, error.into())?;
    out.write_all(b"\n")
}

pub fn nodes<W: Write>(out: &mut W, count: usize) -> io::Result<()> {
    out.write_all(b": nodes ")?;
    print_decimal(out, count as u64)
}

pub fn length<W: Write>(out: &mut W, n: usize) -> io::Result<()> {
    out.write_all(b", again ")?;
    print_decimal(out, n as u64)
}

pub fn digests<W: Write>(out: &mut W, first: u32, second: u32) -> io::Result<()> {
    out.write_all(b", events ")?;
    streams::print_hex(out, first as u64, 8)?;
    out.write_all(b" ")?;
    streams::print_hex(out, second as u64, 8)
}

// Whether the two agree; it ends the line. The bool is what is told, and picks no step.
pub fn verdict<W: Write>(out: &mut W, same: bool) -> io::Result<()> {
    if same {
        out.write_all(b", same\n")
    } else {
        out.write_all(b", different\n")
    }
}

// ---- a blob in full

// The bytes of a label, with `_` for each space.
fn spaceless(b: u8) -> u8 {
    if b == b' ' { b'_' } else { b }
}

fn print_label<W: Write>(out: &mut W, label: &[u8]) -> io::Result<()> {
    for b in label {
        out.write_all(&[spaceless(*b)])?;
    }
    Ok(())
}

fn print_hex<W: Write>(out: &mut W, s: &[u8]) -> io::Result<()> {
    for b in s {
        streams::print_hex(out, *b as u64, 2)?;
    }
    Ok(())
}

// The line `blob LABEL HEX`.
pub fn shown<W: Write>(out: &mut W, label: &[u8], blob: &[u8]) -> io::Result<()> {
    out.write_all(b"blob ")?;
    print_label(out, label)?;
    out.write_all(b" ")?;
    print_hex(out, blob)?;
    out.write_all(b"\n")
}
