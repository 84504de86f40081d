// What is told of a call.
use cases::{digest, digest_words};
use reservation::{InvalidMemoryReservation, Reservation};
use scripts::parts;
use std::io;
use std::io::Write;
use streams::print_decimal;
use writer::{FdtWriter, Refused};

fn column<O: Write>(out: &mut O, n: u64) -> io::Result<()> {
    out.write_all(b" ")?;
    print_decimal(out, n)
}

fn state<O: Write>(out: &mut O, w: FdtWriter) -> io::Result<()> {
    column(out, w.data_len as u64)?;
    column(out, w.strings_len as u64)?;
    column(out, w.phandles_len as u64)?;
    column(out, w.node_depth as u64)?;
    column(out, u64::from(w.node_ended))?;
    column(out, u64::from(w.finished))?;
    column(out, u64::from(w.boot_cpuid_phys))
}

// A NUL as the script has it.
fn shown(x: u8) -> u8 {
    if x == 0 { b'~' } else { x }
}

// Writes a line of the script, without its end.
pub(crate) fn line<O: Write>(out: &mut O, s: &[u8]) -> io::Result<()> {
    for x in s {
        out.write_all(&[shown(*x)])?;
    }
    Ok(())
}

pub(crate) fn end<O: Write>(out: &mut O) -> io::Result<()> {
    out.write_all(b"\n")
}

// Ends the line of a call with its refusal or 0, its place, the state that it hands back, and the digests of what is lent.
// Hands back the state.
pub(crate) fn told<O: Write>(
    out: &mut O,
    answer: Result<FdtWriter, Refused>,
    data: &[u8],
    strings: &[u8],
    phandles: &[u32],
) -> io::Result<FdtWriter> {
    let (w, refusal) = parts(answer);
    column(out, refusal)?;
    column(out, 0)?;
    state(out, w)?;
    column(out, digest(data) as u64)?;
    column(out, digest(strings) as u64)?;
    column(out, digest_words(phandles) as u64)?;
    end(out)?;
    Ok(w)
}

// What the maker of reservations answers: 27 or 0.
pub(crate) fn made<O: Write>(
    out: &mut O,
    answer: Result<Reservation, InvalidMemoryReservation>,
) -> io::Result<()> {
    let refusal = match answer {
        Ok(_) => 0,
        Err(_) => 27,
    };
    column(out, refusal)?;
    column(out, 0)
}
