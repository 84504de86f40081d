// Refusal 10: two siblings, or two properties of a node, share a name. A walk over the tokens of a structure block whose shape has
// passed.
#![tactic(auto)]

mod props;
mod sorted;

ghost use Rattle.std.specs.Prelude.{◌≡◌, ℕ, ◌+◌, ◌≤◌, length};
ghost use Rattle.std.specs.Option.{option_copied};
ghost use Rattle.rules.specs.Tree.{doubled_judged};
ghost use Rattle.doubled.specs.Passes.{nodes_lent, row_in, verdict, Inside};
ghost use Rattle.rules.specs.Ceilings.{work_words};
ghost use Rattle.doubled.specs.Props.{Clear};
ghost use Rattle.doubled.specs.Siblings.{named_at, row_named, sibling_below, row_parent, node_judged, Table};

use props::doubled_props;
use rules::{Block, Kind, NODE_WORDS, Token};

// Whether a name without NUL is the name that stands at the start of `tail`, up to its NUL or the end.
fn named_at(name: &[u8], tail: &[u8]) -> bool
    ensures { result ≡ named_at name.now tail.now }
{
    let Some(here) = tail.get(..name.len()) else {
        return false;
    };
    octets::same_short(name, here) && octets::byte(tail, name.len()) == 0
}

// The row of node i in the node table; None where the work space has no room for it.
pub fn row(work: &[u32], i: usize) -> Option<&[u32; NODE_WORDS]>
    ensures { option_copied result ≡ row_in work.now i }
{
    let (rows, _) = work.as_chunks();
    rows.get(i)
}

// Whether node j has this parent and this name, by its row.
fn row_named(block: &Block, work: &[u32], j: usize, parent: u32, name: &[u8]) -> bool
    ensures { result ≡ row_named block.now.structure.now block.now.place work.now j parent name.now }
{
    let Some(&[begin, above, ..]) = row(work, j) else {
        return false;
    };
    let begin = begin as usize;
    if above != parent || begin < block.place {
        return false;
    }
    let from = begin - block.place + 4;
    named_at(name, octets::part(block.structure, from, usize::MAX))
}

// Whether a node before i has this parent and this name, by its row. A node stands behind its parent, so that no row before the
// parent's is looked at.
fn sibling_below(block: &Block, work: &[u32], i: usize, parent: u32, name: &[u8]) -> bool
    ensures { result ≡ sibling_below block.now.structure.now block.now.place work.now i parent name.now }
{
    (parent as usize..i).any(|j| row_named(block, work, j, parent, name))
}

// The parent of node i, by its row.
fn row_parent(work: &[u32], i: usize) -> u32
    ensures { result ≡ row_parent work.now i }
{
    row(work, i).map_or(0, |row| row[1])
}

// Judges node i, whose BEGIN stands at a place and whose properties begin at `next`: its name, then its properties. Answers None,
// or the first of these tokens that is at fault.
fn node(
    block: &Block,
    work: &mut [u32],
    i: usize,
    at: usize,
    len: usize,
    next: usize,
) -> Option<usize>
    requires { (at + 4 ≤ length block.now.structure.now) × (next ≤ length block.now.structure.now) }
    ensures judged { work_words ≤ length work.old → (p : ℕ) → verdict 10 p result ≡ node_judged block.now.structure.now block.now.strings.now block.now.place work.old i at len next p }
    ensures inside { Inside block.now.structure.now result }
    ensures kept { Clear work.old → work.new ≡ work.old }
{
    let name = octets::part(block.structure, at + 4, len);
    if sibling_below(block, work, i, row_parent(work, i), name) {
        return Some(at);
    }
    doubled_props(block, work, next)
}

// Judges refusal 10 in a block; `work` holds the node table, and zeros behind it, which are used on the way and are zero again at
// return. Answers None, or the place in the structure of the first token whose name an earlier sibling, or an earlier property of
// its node, has.
pub fn doubled(block: &Block, work: &mut [u32]) -> Option<usize>
    ensures judged { Table work.old (nodes_lent block.now) → verdict 10 block.now.place result ≡ doubled_judged (nodes_lent block.now) }
    ensures inside { Inside block.now.structure.now result }
    ensures kept { Table work.old (nodes_lent block.now) → work.new ≡ work.old }
{
    let mut at = 0;
    let mut count = 0;
    while let Token::Item { kind, next } = tokens::token_at(block.structure, at) {
        if let Kind::Begin { len } = kind {
            if let Some(fault) = node(block, work, count, at, len, next) {
                return Some(fault);
            }
            count += 1;
        }
        at = next;
    }
    None
}
