// Reading a question: hexadecimal digits, of letters the small ones.
use scripts::digit;

// The bytes that s spells, two digits to each, in `out`; answers how many.
pub(crate) fn unhex(s: &[u8], out: &mut [u8; 1024]) -> usize {
    let n = (s.len() / 2).min(1024);
    for i in 0..n {
        out[i] = digit(octets::byte(s, i * 2)) * 16 + digit(octets::byte(s, i * 2 + 1));
    }
    n
}
