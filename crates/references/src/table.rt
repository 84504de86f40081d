// The node table that the reader leaves in the work space, four words a node: where its BEGIN stands in the blob, its parent's
// number, whether it has a phandle, and which. Rows of words and no structs, since the work space is lent and its layout is fixed.
ghost use Rattle.std.specs.Prelude.{◌≡◌, ◌&&◌, eqb};
ghost use Rattle.rules.specs.Laws.Tabled.{cell, begin_of, look_in};
ghost use Rattle.references.specs.Table.{found};

use rules::{NODE_WORDS, Tree};

// Word k of the row of node i; 0 past the end.
pub fn cell(work: &[u32], i: usize, k: usize) -> u32
    ensures { result ≡ cell work.now i k }
{
    // A row past the end has no words; the place of any other is a usize.
    if work.len() <= i {
        return 0;
    }
    let at = (NODE_WORDS * i).saturating_add(k);
    work.get(at).copied().unwrap_or(0)
}

// Where the BEGIN of node i stands in the structure: its row has the offset in the blob. 0 where that is before the structure.
pub fn begin_of(tree: &Tree, i: usize) -> usize
    ensures { result ≡ begin_of tree.now.block.place tree.now.work.now i }
{
    let begin = cell(tree.work, i, 0) as usize;
    begin.saturating_sub(tree.block.place)
}

// Whether the row of node i says that its phandle is this one. It is asked of each row for each reference: so a whole row is read by
// its place, and the number first, which nearly always differs.
fn has(work: &[u32], i: usize, phandle: u32) -> bool
    ensures { result ≡ (eqb (cell work.now i 2) 1 && eqb phandle (cell work.now i 3)) }
{
    if i < work.len() / NODE_WORDS {
        let at = NODE_WORDS * i;
        return work[at + 3] == phandle && work[at + 2] == 1;
    }
    cell(work, i, 3) == phandle && cell(work, i, 2) == 1
}

// The node that has this phandle; None where none has.
pub fn node_of(tree: &Tree, phandle: u32) -> Option<usize>
    ensures { found result ≡ look_in tree.now.work.now tree.now.count phandle }
{
    let work = tree.work;
    (0..tree.count).find(|i| has(work, *i, phandle))
}
