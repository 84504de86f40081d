// The scan of a reference property's value, one reference after the other.
ghost use Rattle.std.specs.Prelude.{◌≡◌};
ghost use Rattle.rules.specs.Laws.Lent.{block_lent};
ghost use Rattle.rules.specs.Laws.Tabled.{props_at, begin_of, count_named};
ghost use Rattle.references.specs.Rows.{meaning};
ghost use Rattle.references.specs.Scan.{refers_at, Scanned};

use crate::cells::cells_of;
use crate::rows::Cells;
use crate::table::{begin_of, node_of};
use rules::Tree;

// A reference: the node that it names, the index of the phandle's word, how many words belong to it besides, and the index from
// which the scan goes on.
#[derive(Clone, Copy)]
pub struct Reference {
    pub target: usize,
    pub index: usize,
    pub cells: usize,
    pub next: usize,
}

// What the phandle at word i of n is, given the node that it names and how many words are to follow it: a reference, or None where
// fewer do. The count may be any 32-bit number, so that i + cells is not made before it is known to be small.
pub fn refers(n: usize, i: usize, target: usize, cells: usize) -> Option<Reference>
    ensures { result ≡ refers_at n i target cells }
{
    if n.saturating_sub(i) <= cells {
        return None;
    }
    Some(Reference {
        target,
        index: i,
        cells,
        next: i + cells + 1,
    })
}

// The value of this cells property of node m; 0 where it has none, or none is asked for.
fn cells_at(tree: &Tree, m: usize, cells: Option<Cells>) -> usize
    ensures { result ≡ count_named (meaning cells) (props_at (block_lent tree.now.block) (begin_of tree.now.block.place tree.now.work.now m)) }
{
    cells_of(&tree.block, begin_of(tree, m), cells) as usize
}

// The first reference from word i of the value on, with this cells property; None where there is none any more, the value's length
// is no multiple of 4, or too few words follow a phandle.
pub fn next_reference(
    tree: &Tree,
    value: &[u8],
    cells: Option<Cells>,
    i: usize,
) -> Option<Reference>
    ensures { Scanned (block_lent tree.now.block) tree.now.work.now tree.now.count (meaning cells) value.now i result }
{
    if value.len() % 4 != 0 {
        return None;
    }
    let n = value.len() / 4;
    for at in i..n {
        if let Some(m) = node_of(tree, octets::word(value, 4 * at)) {
            return refers(n, at, m, cells_at(tree, m, cells));
        }
    }
    None
}
