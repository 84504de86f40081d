// Names in byte order: a chunk of property names, kept as offsets of the strings block in the words of the work space behind the
// node table. A name is found or gets its place by halving, so that a node with very many properties takes no longer than others.
ghost use Rattle.std.specs.Prelude.{◌≡◌, ◌+◌, ◌≤◌, ◌<◌, length};
ghost use Rattle.doubled.specs.Sorted.{chunk_start, taken, Ordered, Finds, Inserted};

use rules::{NODE_CEILING, NODE_WORDS, WORK_WORDS};

// Where the chunk begins, and how many names it holds at most.
pub const CHUNK_START: usize = NODE_WORDS * NODE_CEILING;

pub const CHUNK_ROOM: usize = WORK_WORDS - CHUNK_START;

// Finds a name among the n of the chunk, as `binary_search` does: Ok where it is one of them, or Err with where it would stand.
pub fn find(strings: &[u8], work: &[u32], n: usize, name: &[u8]) -> Result<usize, usize>
    requires { (chunk_start + n ≤ length work.now) × Ordered strings.now work.now n }
    ensures { Finds strings.now work.now n name.now result }
{
    let chunk = &work[CHUNK_START..CHUNK_START + n];
    chunk.binary_search_by(|offset| {
        let key = octets::string_at(strings, *offset as usize);
        key.cmp(&name)
    })
}

// Puts an offset at an index among the n of the chunk; those from there on move up.
pub fn insert(work: &mut [u32], n: usize, at: usize, offset: u32)
    requires { (at ≤ n) × (chunk_start + n < length work.old) }
    ensures { Inserted work.old n at offset work.new }
{
    let place = CHUNK_START + at;
    work.copy_within(place..CHUNK_START + n, place + 1);
    work[place] = offset;
}

// How many words of the chunk n names take at most.
pub fn taken(n: usize) -> usize
    ensures { result ≡ taken n }
{
    n.min(CHUNK_ROOM)
}
