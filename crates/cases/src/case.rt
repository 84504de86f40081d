// A case of the derivation as a program holds it: its head of twelve numbers, and behind it the parts, in one buffer, so that a
// function need be given no more than that. A part is named by the number that says how long it is.
ghost use Rattle.std.specs.Prelude.{◌≡◌, length};
ghost use Rattle.rules.specs.Octets.{part};
ghost use Rattle.cases.specs.Case.{number_of, size_of, start_of, host_of, id_bytes, ids_in};

use crate::up;

// The numbers of a head: lengths, but for the count of ids, and for the words and the room of list and guest, which have no part.
// They are indices, and an enum would be no plainer: `start` counts over all the parts before one, and END is where the last ends.
pub const LABEL: usize = 0;

pub const FRONT: usize = 1;

pub const ZEROS: usize = 2;

pub const REST: usize = 3;

pub const CONFIGURED: usize = 4;

pub const EXCLUDED: usize = 5;

pub const IDS: usize = 6;

pub const WORDS: usize = 7;

pub const LIST: usize = 8;

pub const GUEST: usize = 9;

pub const SPANS: usize = 10;

pub const RUNS: usize = 11;

pub const END: usize = 12;

// The bytes of a head.
pub const HEAD: usize = 48;

// The most ids that a case has.
pub const MOST_IDS: usize = 80;

// The number k of a head; 0 where it has none such.
pub fn number(case: &[u8], k: usize) -> usize
    ensures { result ≡ number_of case.now k }
{
    if k < END {
        octets::word(case, k * 4) as usize
    } else {
        0
    }
}

// How many bytes n ids have in a case; none where there is no room for them.
fn id_bytes(n: usize) -> usize
    ensures { result ≡ id_bytes n }
{
    if n <= MOST_IDS { n * 8 } else { 0 }
}

// How many bytes part k has.
fn size(case: &[u8], k: usize) -> usize
    ensures { result ≡ size_of case.now k }
{
    match k {
        IDS => id_bytes(number(case, k)),
        WORDS | LIST | GUEST => 0,
        _ => number(case, k),
    }
}

// Where part k begins: behind the head and the parts before it.
pub fn start(case: &[u8], k: usize) -> usize
    ensures { result ≡ start_of case.now k }
{
    (0..k).fold(HEAD, |at, i| up(at, size(case, i)))
}

// The bytes of part k; those that there are, where there are fewer.
pub fn part(case: &[u8], k: usize) -> &[u8]
    ensures { result.now ≡ part case.now (start_of case.now k) (size_of case.now k) }
{
    octets::part(case, start(case, k), size(case, k))
}

// The host, whose front, zeros and rest stand one behind the other.
pub fn host(case: &[u8]) -> &[u8]
    ensures { result.now ≡ host_of case.now }
{
    let rest = up(number(case, ZEROS), number(case, REST));
    octets::part(case, start(case, FRONT), up(number(case, FRONT), rest))
}

// Makes each id the number that stands for it in the bytes, 0 past their end.
pub fn put_ids(ids: &mut [u64], raw: &[u8])
    ensures { ids.new ≡ ids_in raw.now 0 (length ids.old) }
{
    for (i, id) in ids.iter_mut().enumerate() {
        *id = octets::long(raw, i * 8);
    }
}
