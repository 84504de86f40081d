// The line that is printed of a case.
use cases::{digest, digest_words};
use derive::{Derived, Refusal};
use std::io;
use std::io::Write;
use streams::{print_digest, print_number};

fn print_answer<W: Write>(out: &mut W, answer: Result<Derived, Refusal>) -> io::Result<()> {
    match answer {
        Ok(derived) => {
            print_number(out, b"paths ", derived.paths as u64)?;
            print_number(out, b" list ", derived.list as u64)?;
            print_number(out, b" guest ", derived.guest as u64)
        }
        Err(refusal) => {
            print_number(out, b"refused ", told::number(refusal))?;
            print_number(out, b" at ", told::place(refusal) as u64)
        }
    }
}

// Writes the line of a case.
pub fn print_line<W: Write>(
    out: &mut W,
    answer: Result<Derived, Refusal>,
    list: &[u8],
    guest: &[u8],
    work: &[u32],
) -> io::Result<()> {
    print_answer(out, answer)?;
    print_digest(out, b", list ", digest(list))?;
    print_digest(out, b", guest ", digest(guest))?;
    print_digest(out, b", work ", digest_words(work))?;
    out.write_all(b"\n")
}
