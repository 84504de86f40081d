// The properties of one node, one after the other, and the first of them whose name an earlier one has.
ghost use Rattle.std.specs.Prelude.{[], ◌≡◌, ℕ, ◌≤◌, length};
ghost use Rattle.rules.specs.Octets.{Bytes};
ghost use Rattle.rules.specs.Tree.{doubled_props};
ghost use Rattle.doubled.specs.Passes.{props_at, verdict, Inside};
ghost use Rattle.doubled.specs.Sorted.{chunk_room, taken, Ordered, Framed};
ghost use Rattle.doubled.specs.Props.{Meets, Builds, Clear};
ghost use Rattle.rules.specs.Ceilings.{work_words};

use crate::sorted::{CHUNK_ROOM, CHUNK_START, find, insert, taken};
use rules::{Block, WORK_WORDS};

// The first of some properties whose name is in a chunk: how many stand before it, and where it stands.
#[derive(Clone, Copy)]
pub struct Hit {
    pub index: usize,
    pub at: usize,
}

// What a chunk of properties comes to.
#[derive(Clone, Copy)]
pub enum Built {
    // This one has the name of one before it.
    Twice(usize),
    // All were different.
    Done,
    // They were different; the chunk is full, and what follows begins here.
    Full(usize),
}

// How many properties stand from a place on.
fn count(structure: &[u8], from: usize) -> usize
    requires { from ≤ length structure.now }
    ensures { (strings : Bytes) (place : ℕ) → result ≡ length (props_at structure.now strings place from) }
{
    let mut n = 0;
    let mut at = from;
    while let Some(property) = tokens::property_at(structure, at) {
        n += 1;
        at = property.next;
    }
    n
}

// The first of `left` properties from a place on whose name is in the chunk, which is full; None where none is.
fn lookup(block: &Block, work: &[u32], from: usize, left: usize) -> Option<Hit>
    requires { (from ≤ length block.now.structure.now) × (work_words ≤ length work.now) × Ordered block.now.strings.now work.now chunk_room }
    ensures { Meets block.now.structure.now block.now.strings.now work.now from left result }
{
    let mut here = from;
    for index in 0..left {
        let property = tokens::property_at(block.structure, here)?;
        let wanted = octets::string_at(block.strings, property.name);
        if find(block.strings, work, CHUNK_ROOM, wanted).is_ok() {
            return Some(Hit {
                index,
                at: property.at,
            });
        }
        here = property.next;
    }
    None
}

// Makes a chunk of the first of `left` properties from a place on.
fn build(block: &Block, work: &mut [u32], from: usize, left: usize) -> Built
    requires { (from ≤ length block.now.structure.now) × (work_words ≤ length work.old) }
    ensures built { Builds block.now.structure.now block.now.strings.now from left work.new result }
    ensures framed { Framed work.old (taken left) work.new }
{
    let mut here = from;
    for n in 0..CHUNK_ROOM {
        if left <= n {
            return Built::Done;
        }
        let Some(property) = tokens::property_at(block.structure, here) else {
            return Built::Done;
        };
        let wanted = octets::string_at(block.strings, property.name);
        let Err(spot) = find(block.strings, work, n, wanted) else {
            return Built::Twice(property.at);
        };
        // the offset again, as the word that it is
        insert(
            work,
            n,
            spot,
            octets::word(block.structure, property.at + 8),
        );
        here = property.next;
    }
    Built::Full(here)
}

// The first property from a place on, where so many stand, that has the name of one before it; None where none has. Each chunk is
// looked for in what is behind it, up to the earliest that is found so far.
fn chunks(block: &Block, work: &mut [u32], from: usize, all: usize) -> Option<usize>
    requires { (from ≤ length block.now.structure.now) × (work_words ≤ length work.old) × ((place : ℕ) → all ≡ length (props_at block.now.structure.now block.now.strings.now place from)) }
    ensures judged { (place : ℕ) → verdict 10 place result ≡ doubled_props [] (props_at block.now.structure.now block.now.strings.now place from) }
    ensures inside { Inside block.now.structure.now result }
    ensures framed { Framed work.old (taken all) work.new }
{
    let mut left = all;
    let mut here = from;
    let mut found = None;
    // `left` falls by whole chunks, or to where one was met again, which no range counts.
    while 0 < left {
        match build(block, work, here, left) {
            Built::Twice(at) => return Some(at),
            Built::Done => return found,
            Built::Full(next) => {
                left -= CHUNK_ROOM;
                here = next;
                if let Some(hit) = lookup(block, work, next, left) {
                    left = hit.index;
                    found = Some(hit.at);
                }
            }
        }
    }
    found
}

// The first property from a place on that has the name of one before it; None where none has. The words of the chunk are zero
// again at return.
pub fn doubled_props(block: &Block, work: &mut [u32], from: usize) -> Option<usize>
    requires { from ≤ length block.now.structure.now }
    ensures judged { work_words ≤ length work.old → (place : ℕ) → verdict 10 place result ≡ doubled_props [] (props_at block.now.structure.now block.now.strings.now place from) }
    ensures inside { Inside block.now.structure.now result }
    ensures kept { Clear work.old → work.new ≡ work.old }
{
    if work.len() < WORK_WORDS {
        return None;
    }
    let all = count(block.structure, from);
    let found = chunks(block, work, from, all);
    octets::clear_from(work, CHUNK_START, taken(all));
    found
}
