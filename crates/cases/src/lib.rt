// What the case programs share: digests of what a call leaves in the buffers that it was lent, what fills them before, how much
// of them is lent, and how a case of the derivation is laid out. Each function answers for every input.
#![tactic(auto)]

pub mod case;

ghost use Rattle.std.specs.Prelude.{◌≡◌, min, length};
ghost use Rattle.cases.specs.Case.{up_by};
ghost use Rattle.cases.specs.Digests.{mixed, digest_behind, digest_of};
ghost use Rattle.cases.specs.Lent.{filled, Lends};

// ---- digests

// The digest of one more number behind those that came to h.
pub fn mixed(h: u32, x: u32) -> u32
    ensures { result ≡ mixed h x }
{
    let wide = u64::from(h) * 16777619 + u64::from(x) + 1;
    (wide % 4294967296) as u32
}

// The digest of bytes behind the numbers that came to `first`.
pub fn digest_behind(first: u32, s: &[u8]) -> u32
    ensures { result ≡ digest_behind first s.now }
{
    s.iter().fold(first, |h, b| mixed(h, u32::from(*b)))
}

// The digest of bytes; 0 where there are none.
pub fn digest(s: &[u8]) -> u32
    ensures { result ≡ digest_of s.now }
{
    digest_behind(0, s)
}

// The digest of words; 0 where there are none.
// One function for bytes and words would be no plainer: its contract would speak of what each of them becomes as a number.
pub fn digest_words(words: &[u32]) -> u32
    ensures { result ≡ digest_of words.now }
{
    words.iter().fold(0, |h, word| mixed(h, *word))
}

// ---- buffers

// Makes every element x, so that what is not written shows.
// A loop in place of std's `fill`, which asks of a type parameter that its clones are the value itself.
pub fn fill<T: Copy>(s: &mut [T], x: T)
    ensures { s.new ≡ filled s.old x }
{
    for place in s.iter_mut() {
        *place = x;
    }
}

// n, or how many elements there are where n is more: so many of them can be lent.
pub fn within<T>(n: usize, s: &[T]) -> usize
    ensures value { result ≡ min n (length s.now) }
    ensures lends { Lends s.now result }
{
    n.min(s.len())
}

// ---- places

// The place n further on. The place itself where one of the two is 2^32 or more, which no place of a case comes near: so the sum
// cannot wrap.
pub fn up(at: usize, n: usize) -> usize
    ensures { result ≡ up_by at n }
{
    if at < 4294967296 && n < 4294967296 {
        at + n
    } else {
        at
    }
}
