// What comes of a derivation, in one buffer, so that two outcomes can be compared and one printed: four numbers of 64 bits, and
// behind them the list and the guest, whole as lent.
use cases::{case, up, within};
use casework::derived;
use derive::{Derived, Refusal};
use std::io;
use std::io::Write;
use streams::print_number;

// The four numbers: 0, the paths, the bytes of list and guest; or a refusal's number, its place, 0 and 0.
pub const TOLD: usize = 32;

// Room for the longest list, and for the longest guest with some bytes over the ceiling.
pub const LIST: usize = 66000;

pub const GUEST: usize = 1048640;

// What every byte of a list and a guest is before the derivation gets it.
const FILL: u8 = 0xa5;

// ---- what is derived

fn put(told: &mut [u8], number: u64, a: usize, b: usize, c: usize) {
    octets::put_long(told, 0, number);
    octets::put_long(told, 8, a as u64);
    octets::put_long(told, 16, b as u64);
    octets::put_long(told, 24, c as u64);
}

fn put_answer(out: &mut [u8], answer: Result<Derived, Refusal>) {
    match answer {
        Ok(derived) => put(out, 0, derived.paths, derived.list, derived.guest),
        Err(refusal) => put(out, told::number(refusal), told::place(refusal), 0, 0),
    }
}

// Lends as much of the two buffers as the case says.
fn lent(
    case: &[u8],
    work: &mut [u32],
    list: &mut [u8],
    guest: &mut [u8],
) -> Result<Derived, Refusal> {
    let l = within(case::number(case, case::LIST), list);
    let g = within(case::number(case, case::GUEST), guest);
    derived(case, work, &mut list[..l], &mut guest[..g])
}

// Puts the buffers, of which the list has so many bytes.
fn put_buffers(out: &mut [u8], list: &[u8], guest: &[u8], n: usize) {
    octets::put(out, TOLD, octets::part(list, 0, n));
    octets::put(out, up(TOLD, n), guest);
}

// Derives, and puts the outcome.
fn put_derived(
    case: &[u8],
    work: &mut [u32],
    list: &mut [u8; LIST],
    guest: &mut [u8; GUEST],
    out: &mut [u8],
) {
    put_answer(out, lent(case, work, list, guest));
    put_buffers(out, list, guest, case::number(case, case::LIST));
}

// Derives into buffers that show what is written, and puts the outcome. They are lent as arrays from here: a proof that has them at
// hand and must find their length takes long.
pub fn put_outcome(case: &[u8], work: &mut [u32], out: &mut [u8]) {
    let mut list = [FILL; LIST];
    let mut guest = [FILL; GUEST];
    put_derived(case, work, &mut list, &mut guest, out);
}

// The outcome of a case, of what may have more room.
pub fn outcome<'a>(case: &'a [u8], out: &'a [u8]) -> &'a [u8] {
    let list = case::number(case, case::LIST);
    octets::part(out, 0, up(up(TOLD, list), case::number(case, case::GUEST)))
}

// Prints an outcome's numbers.
pub fn print_told<W: Write>(to: &mut W, out: &[u8]) -> io::Result<()> {
    if octets::long(out, 0) == 0 {
        print_number(to, b": paths ", octets::long(out, 8))?;
        print_number(to, b" list ", octets::long(out, 16))?;
        print_number(to, b" guest ", octets::long(out, 24))
    } else {
        print_number(to, b": refused ", octets::long(out, 0))?;
        print_number(to, b" at ", octets::long(out, 8))
    }
}
