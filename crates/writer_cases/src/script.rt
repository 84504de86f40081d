// Reading the script: lines of fields, one space between two. A number is hexadecimal; in a byte string ~ stands for NUL.
fn plain(x: u8) -> u8 {
    if x == b'~' { 0 } else { x }
}

// Puts the NULs in their places.
pub(crate) fn nuls(s: &mut [u8]) {
    for x in s.iter_mut() {
        *x = plain(*x);
    }
}

// A field of a line, counted from 0; empty where it has none such.
pub(crate) fn field(line: &[u8], k: usize) -> &[u8] {
    line.split(|x| *x == b' ').nth(k).unwrap_or(&[])
}

// The number in a field; 0 where there is none.
pub(crate) fn number(line: &[u8], k: usize) -> u64 {
    scripts::number(field(line, k))
}

pub(crate) fn count(line: &[u8], k: usize) -> usize {
    number(line, k) as usize
}

pub(crate) fn word(line: &[u8], k: usize) -> u32 {
    scripts::word(number(line, k))
}
