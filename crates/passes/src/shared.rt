// Refusal 12: two nodes have one phandle. On its way the pass writes each node's phandle into its row of the node table.
ghost use Rattle.std.specs.Prelude.{◌≡◌, ℕ, ◌<◌, length};
ghost use Rattle.doubled.specs.Passes.{nodes_in, verdict, Inside};
ghost use Rattle.passes.specs.Rows.{row_has, row_below, row_given, passed, row_give, row_turn, rows_from};

use crate::words::is_phandle_name;
use doubled::row;
use rules::{Block, Kind, NODE_WORDS, Token};

// How far the pass has come: the number of the node whose phandle is still to be found, or of the next node where it wants none.
#[derive(Clone, Copy)]
pub struct Search {
    pub number: usize,
    pub wants: bool,
}

impl Search {
    // The number of the next node.
    fn next_node(self) -> usize
        requires { self.number < usize.MAX }
        ensures { result ≡ passed self }
    {
        if self.wants {
            self.number + 1
        } else {
            self.number
        }
    }
}

// Whether the row of node i says that its phandle is v.
fn row_has(work: &[u32], i: usize, v: u32) -> bool
    ensures { result ≡ row_has work.now i v }
{
    let Some(&[.., given, phandle]) = row(work, i) else {
        return false;
    };
    // The number first: it differs nearly always, which a test that is made for every row should.
    phandle == v && given == 1
}

// Whether the row of a node before i says that its phandle is v.
fn row_below(work: &[u32], i: usize, v: u32) -> bool
    ensures { result ≡ row_below work.now i v }
{
    (0..i).any(|j| row_has(work, j, v))
}

// Says in the row of node i that its phandle is v. By the place of its words: the library does not say what becomes of a table
// whose rows are lent as arrays to be written.
fn put_row(work: &mut [u32], i: usize, v: u32)
    ensures { work.new ≡ row_given work.old i v }
{
    if work.len() / NODE_WORDS <= i {
        return;
    }
    let at = NODE_WORDS * i;
    work[at + 2] = 1;
    work[at + 3] = v;
}

// The first phandle of node i: the search from the next node on, or None where an earlier node has this phandle.
fn give(work: &mut [u32], i: usize, v: u32) -> Option<Search>
    requires { i < usize.MAX }
    ensures { (result, work.new) ≡ row_give work.old i v }
{
    if row_below(work, i, v) {
        return None;
    }
    put_row(work, i, v);
    Some(Search {
        number: i + 1,
        wants: false,
    })
}

// One token's part: the search behind it, or None where the token is at fault.
fn row_turn(block: &Block, work: &mut [u32], kind: Kind, search: Search) -> Option<Search>
    requires { search.number < length block.now.structure.now }
    ensures { (result, work.new) ≡ row_turn block.now.structure.now block.now.strings.now kind search work.old }
{
    match kind {
        Kind::Begin { .. } => Some(Search {
            number: search.next_node(),
            wants: true,
        }),
        Kind::EndNode => Some(Search {
            number: search.next_node(),
            wants: false,
        }),
        Kind::Nop => Some(search),
        Kind::Prop { len, name, value } => {
            if !search.wants || !is_phandle_name(octets::string_at(block.strings, name)) {
                return Some(search);
            }
            let v = octets::word(octets::part(block.structure, value, len), 0);
            give(work, search.number, v)
        }
    }
}

// Judges refusal 12 in a block, and says in the row of each node in `work` whether it has a phandle, and which. Answers None, or
// the place in the structure of the first phandle of the first node whose phandle an earlier node has; the rows from that node on
// are then left as they were. Rows for which there is no room are not written and not found again.
pub fn shared(block: &Block, work: &mut [u32]) -> Option<usize>
    ensures judged { (place : ℕ) → (verdict 12 place result, work.new) ≡ rows_from work.old 0 (nodes_in block.now.structure.now block.now.strings.now place) }
    ensures inside { Inside block.now.structure.now result }
{
    let mut at = 0;
    let mut search = Search {
        number: 0,
        wants: false,
    };
    while let Token::Item { kind, next } = tokens::token_at(block.structure, at) {
        let Some(behind) = row_turn(block, work, kind, search) else {
            return Some(at);
        };
        search = behind;
        at = next;
    }
    None
}
