// Total leaves on slices: reading numbers, comparing byte strings, laying bytes into a lent buffer. No call asks anything of
// its caller: what stands past the end reads 0, and what would be written past the end is dropped.
#![tactic(auto)]

ghost use Rattle.std.specs.Prelude.{◌≡◌, ℕ, [], ◌∷◌, ◌+◌, ◌≤◌, ◌<◌, length, get_or, take, drop, replicate};
ghost use Rattle.rules.specs.Octets.{byte_at, word_at, long_at, length_to, nul_in, part, same, begins, ends, holds, lay, zeros, be32, be64};
ghost use Rattle.rules.specs.Events.{string_at};

use std::array;

// ---- reading

// What stands from a place on; nothing where that is past the end.
fn rest<T>(s: &[T], at: usize) -> &[T]
    ensures { result.now ≡ drop at s.now }
{
    &s[at.min(s.len())..]
}

// The first n elements; all of them, where there are fewer.
fn first<T>(s: &[T], n: usize) -> &[T]
    ensures { result.now ≡ take n s.now }
{
    &s[..n.min(s.len())]
}

// The byte at a place; 0 past the end. `word_of` is the same of words: one function for both would ask of a type what its 0 is, and
// be no plainer.
pub fn byte(s: &[u8], at: usize) -> u8
    ensures { result ≡ byte_at s.now at }
{
    s.get(at).copied().unwrap_or(0)
}

// The N bytes from a place on; 0 for those past the end.
fn bytes<const N: usize>(s: &[u8], at: usize) -> [u8; N]
    ensures { (k : ℕ) → k < N → get_or result k 0 ≡ byte_at s.now (at + k) }
{
    let left = rest(s, at);
    if let Some((found, _)) = left.split_first_chunk::<N>() {
        return *found;
    }
    array::from_fn(|k| byte(left, k))
}

// The 32-bit number at a place, the highest byte first; bytes past the end count as 0.
pub fn word(s: &[u8], at: usize) -> u32
    ensures { result ≡ word_at s.now at }
{
    u32::from_be_bytes(bytes(s, at))
}

// The 64-bit number at a place, the highest byte first; bytes past the end count as 0.
pub fn long(s: &[u8], at: usize) -> u64
    ensures { result ≡ long_at s.now at }
{
    u64::from_be_bytes(bytes(s, at))
}

// How many bytes stand from a place on before the first of this value; all that are left where there is none, and 0 past the
// end.
pub fn length_to(s: &[u8], at: usize, value: u8) -> usize
    ensures { result ≡ length_to value (drop at s.now) }
{
    let left = rest(s, at);
    for (i, b) in left.iter().enumerate() {
        if *b == value {
            return i;
        }
    }
    left.len()
}

// How many bytes stand from a place on before the first NUL; all that are left where there is none, and 0 past the end.
pub fn nul(s: &[u8], at: usize) -> usize
    ensures { result ≡ nul_in (drop at s.now) }
{
    length_to(s, at, 0)
}

// The n bytes from a place on; those that there are, where there are fewer.
pub fn part(s: &[u8], at: usize, n: usize) -> &[u8]
    ensures { result.now ≡ part s.now at n }
{
    first(rest(s, at), n)
}

// The string at a place, up to its first NUL; all that are left where there is none, and empty past the end.
pub fn string_at(s: &[u8], at: usize) -> &[u8]
    ensures { result.now ≡ string_at s.now at }
{
    part(s, at, nul(s, at))
}

// The bytes that two words say: the one at `from` where they begin, the one at `size` how many there are; those that there are,
// where there are fewer.
pub fn block(s: &[u8], from: usize, size: usize) -> &[u8]
    ensures { result.now ≡ part s.now (word_at s.now from) (word_at s.now size) }
{
    part(s, word(s, from) as usize, word(s, size) as usize)
}

// The word at an index; 0 past the end.
pub fn word_of(d: &[u32], at: usize) -> u32
    ensures { result ≡ get_or d.now at 0 }
{
    d.get(at).copied().unwrap_or(0)
}

// The first n words; all of them, where there are fewer.
pub fn first_words(d: &[u32], n: usize) -> &[u32]
    ensures { result.now ≡ take n d.now }
{
    first(d, n)
}

// ---- comparing: std's tests of slices, in the definitions' words

// Whether s begins with p.
pub fn begins(p: &[u8], s: &[u8]) -> bool
    ensures { result ≡ begins p.now s.now }
{
    s.starts_with(p)
}

// Whether the two are the same bytes.
pub fn same(a: &[u8], b: &[u8]) -> bool
    ensures { result ≡ same a.now b.now }
{
    a == b
}

// Whether the two are the same bytes, by their first and their last N, which are all where they have N to 2 N of them. The library's
// test is a call; it is made where they have fewer, or more that agree in both. A part of whoever asks, as is `same_short`: asked in a
// loop, of one string and many others, its length is told apart once.
#[inline(always)]
fn same_by<const N: usize>(a: &[u8], b: &[u8]) -> bool
    requires { N ≤ 8 }
    ensures { result ≡ same a.now b.now }
{
    if a.len() != b.len() {
        return false;
    }
    let (Some(p), Some(q)) = (a.first_chunk::<N>(), b.first_chunk::<N>()) else {
        return same(a, b);
    };
    let (Some(r), Some(t)) = (a.last_chunk::<N>(), b.last_chunk::<N>()) else {
        return same(a, b);
    };
    if p != q || r != t {
        return false;
    }
    a.len() <= 2 * N || same(a, b)
}

// Whether the two are the same bytes, as `same` tells; for a name that is compared with many others. It costs no call where their
// lengths differ, nor of 1 to 16 bytes, nor where the first or the last 8 of more differ.
#[inline(always)]
pub fn same_short(a: &[u8], b: &[u8]) -> bool
    ensures { result ≡ same a.now b.now }
{
    match a.len() {
        8.. => same_by::<8>(a, b),
        4.. => same_by::<4>(a, b),
        2.. => same_by::<2>(a, b),
        _ => same_by::<1>(a, b),
    }
}

// Whether s ends with e.
pub fn ends(e: &[u8], s: &[u8]) -> bool
    ensures { result ≡ ends e.now s.now }
{
    s.ends_with(e)
}

// Whether p stands somewhere in s.
pub fn holds(p: &[u8], s: &[u8]) -> bool
    ensures { result ≡ holds p.now s.now }
{
    for i in 0..s.len() {
        if begins(p, &s[i..]) {
            return true;
        }
    }
    p.is_empty()
}

// ---- writing

// Lays src into d from a place on. What would come to stand past the end is dropped, and the rest of d stays.
pub fn put<T: Copy>(d: &mut [T], at: usize, src: &[T])
    ensures { d.new ≡ lay d.old at src.now }
{
    let start = at.min(d.len());
    let room = d.len() - start;
    if src.len() <= room {
        d[start..start + src.len()].copy_from_slice(src);
    } else {
        d[start..].copy_from_slice(&src[..room]);
    }
}

// Lays n times a value, whose clones are the value itself, into d from a place on, as `put` does.
fn fill<T: Clone>(d: &mut [T], at: usize, n: usize, value: T)
    requires clones { T.is_infallible value }
    requires clones_are_the_same { (copy : T) → T.is_clone value copy → copy ≡ value }
    ensures { d.new ≡ lay d.old at (replicate n value) }
{
    let start = at.min(d.len());
    let end = start + n.min(d.len() - start);
    d[start..end].fill(value);
}

// Lays n zeros into d from a place on, as `put` does. `clear_from` is the same of words, and both are `fill`.
pub fn put_zeros(d: &mut [u8], at: usize, n: usize)
    ensures { d.new ≡ lay d.old at (zeros n) }
{
    fill(d, at, n, 0u8);
}

// Lays a 32-bit number into d, the highest byte first, as `put` does.
pub fn put_word(d: &mut [u8], at: usize, v: u32)
    ensures { d.new ≡ lay d.old at (be32 v) }
{
    put(d, at, &u32::to_be_bytes(v));
}

// Lays a 64-bit number into d, the highest byte first, as `put` does.
pub fn put_long(d: &mut [u8], at: usize, v: u64)
    ensures { d.new ≡ lay d.old at (be64 v) }
{
    put(d, at, &u64::to_be_bytes(v));
}

// Makes n words from a place on zero; those that there are, where there are fewer. The rest stays.
pub fn clear_from(d: &mut [u32], at: usize, n: usize)
    ensures { d.new ≡ lay d.old at (zeros n) }
{
    fill(d, at, n, 0u32);
}

// Makes the first n words zero, as `clear_from` does.
pub fn clear(d: &mut [u32], n: usize)
    ensures { d.new ≡ lay d.old 0 (zeros n) }
{
    clear_from(d, 0, n);
}

// Puts a word at an index; past the end it is dropped.
pub fn put_word_of(d: &mut [u32], at: usize, v: u32)
    ensures { d.new ≡ lay d.old at (v ∷ []) }
{
    put(d, at, &[v]);
}
