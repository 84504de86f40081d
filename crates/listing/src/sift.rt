// What is listed of all that is reached: neither the root nor what is excluded or below an exclusion. These are taken out of the
// list at its end, so that what an excluded node references is reached all the same.
// Block, work space and count are lent side by side, for the reason that lib.rt has.
ghost use Rattle.std.specs.Prelude.{◌≡◌, List, ℕ, ◌+◌, ◌<◌, ◌≤◌, length};
ghost use Rattle.rules.specs.Ceilings.{node_ceiling, work_words};
ghost use Rattle.rules.specs.Laws.Lent.{block_lent};
ghost use Rattle.listing.specs.Sift.{spared, Sifts, Sifted};

use rules::{Block, LIST_AT, Tree};

// Whether node x is listed if it is reached.
fn is_spared(tree: &Tree, excl: &[u32], x: usize) -> bool
    ensures { result ≡ spared (block_lent tree.now.block) tree.now.work.now tree.now.count excl.now x }
{
    x != 0 && !order::within_any(tree, excl, x)
}

// Moves node i of the list up to j, if it is to stay. Answers how many stay so far.
fn sift_one(
    block: &Block,
    work: &mut [u32],
    count: usize,
    excl: &[u32],
    i: usize,
    j: usize,
) -> usize
    requires { (j ≤ i) × (i < node_ceiling) }
    ensures sifts { (ws : List ℕ) (n : ℕ) → i < n → n ≤ node_ceiling → Sifts (block_lent block.now) ws count excl.now n work.old i j → Sifts (block_lent block.now) ws count excl.now n work.new (i + 1) result }
    ensures few { result ≤ i + 1 }
{
    let x = octets::word_of(work, LIST_AT + i);
    let tree = Tree {
        block: *block,
        work,
        count,
    };
    if !is_spared(&tree, excl, x as usize) {
        return j;
    }
    octets::put_word_of(work, LIST_AT + j, x);
    j + 1
}

// Takes out of the first n of the list what is not to be listed. Answers how many stay, in their order.
pub fn sift(block: &Block, work: &mut [u32], count: usize, n: usize, excl: &[u32]) -> usize
    requires { (n ≤ node_ceiling) × (count ≤ node_ceiling) × (work_words ≤ length work.old) }
    ensures { Sifted (block_lent block.now) work.old count excl.now n work.new result }
{
    let mut j = 0;
    for i in 0..n {
        j = sift_one(block, work, count, excl, i, j);
    }
    j
}
