// What the programs share of reading and printing, over any reader and any writer. Where the bytes of the reader or the writer are
// known, the contracts say which are read and which are written.
#![tactic(auto)]

ghost use Rattle.std.specs.Prelude.{◌<◌, ◌≤◌, ◌++◌, IfOk, OnOk, length, take};
ghost use Rattle.std.specs.Fmt.{decimal};
ghost use Rattle.std.specs.Io.KnownBytes.{Appends, Consumes, IsAtEnd};
ghost use Rattle.streams.specs.Printed.{hex};

use std::io;
use std::io::{Read, Write};

// Reads until `buf` is full or the input ends, and answers how many bytes it put at the front of `buf`.
pub fn read_full<R: Read>(input: &mut R, buf: &mut [u8]) -> io::Result<usize>
    ensures bound { IfOk result (λ n. n ≤ length buf.new) }
    ensures bytes { IfOk result (λ n. Consumes (R.remaining input.old) (R.remaining input.new) (take n buf.new)) }
    ensures end { IfOk result (λ n. n < length buf.new → IsAtEnd (R.remaining input.new)) }
{
    // A read takes what it likes of what is left, so that no iterator steps through `buf`.
    let mut done = 0;
    while done < buf.len() {
        let n = input.read(&mut buf[done..])?;
        if n == 0 {
            return Ok(done);
        }
        done += n;
    }
    Ok(done)
}

// Writes a number in decimal.
pub fn print_decimal<W: Write>(out: &mut W, n: u64) -> io::Result<()>
    ensures { OnOk result (Appends (W.contents out.old) (W.contents out.new) (decimal n)) }
{
    write!(out, "{n}")
}

// Writes a number in hexadecimal, in lower case, with zeros in front up to `width` digits.
pub fn print_hex<W: Write>(out: &mut W, n: u64, width: usize) -> io::Result<()>
    ensures { OnOk result (Appends (W.contents out.old) (W.contents out.new) (hex width n)) }
{
    write!(out, "{n:0width$x}")
}

// Writes a label, and a number in decimal behind it.
pub fn print_number<W: Write>(out: &mut W, label: &[u8], n: u64) -> io::Result<()>
    ensures { OnOk result (Appends (W.contents out.old) (W.contents out.new) (label.now ++ decimal n)) }
{
    out.write_all(label)?;
    print_decimal(out, n)
}

// Writes a label, and a digest in eight hexadecimal digits behind it.
pub fn print_digest<W: Write>(out: &mut W, label: &[u8], digest: u32) -> io::Result<()>
    ensures { OnOk result (Appends (W.contents out.old) (W.contents out.new) (label.now ++ hex 8 digest)) }
{
    out.write_all(label)?;
    print_hex(out, u64::from(digest), 8)
}
