// The start nodes in byte order of path: the configured nodes and those below them, put into the work space from STACK_AT on.
// Block, work space and count are lent side by side: a contract over one `&mut` of the three would have to say besides that block,
// count and lent slice stay what they were, and so would every caller's.
#![tactic(auto)]

ghost use Rattle.std.specs.Prelude.{◌≡◌, List, ℕ, ◌+◌, ◌≤◌, ◌<◌, length};
ghost use Rattle.rules.specs.Ceilings.{node_ceiling, work_words};
ghost use Rattle.rules.specs.Tree.{frame};
ghost use Rattle.rules.specs.Listing.{within};
ghost use Rattle.rules.specs.Laws.Lent.{block_lent, tree_lent};
ghost use Rattle.order.specs.Starts.{Asked, Placed, Started};

use crate::sorted::{insert, rank};
use paths::nodes::below;
use rules::{Block, Tree, WORK_WORDS};

mod sorted;

// Whether node i is one of these nodes, or below one.
pub fn within_any(tree: &Tree, nodes: &[u32], i: usize) -> bool
    ensures { result ≡ within (frame (tree_lent tree.now)) nodes.now i }
{
    nodes
        .iter()
        .any(|p| i == *p as usize || below(tree, *p as usize, i))
}

// Gives node i its place among n start nodes of greater numbers, if it is one itself. Answers how many there are then.
fn turn(block: &Block, work: &mut [u32], count: usize, conf: &[u32], n: usize, i: usize) -> usize
    requires { (i < count) × (n < count) × (count ≤ node_ceiling) × (work_words ≤ length work.old) }
    ensures few { result ≤ n + 1 }
    ensures placed { (ws : List ℕ) → Asked (block_lent block.now) ws count conf.now → Placed (block_lent block.now) ws count conf.now (i + 1) n work.old → Placed (block_lent block.now) ws count conf.now i result work.new }
{
    let tree = Tree {
        block: *block,
        work,
        count,
    };
    if !within_any(&tree, conf, i) {
        return n;
    }
    let at = rank(&tree, n, i);
    insert(work, n, at, i as u32);
    n + 1
}

// Puts the start nodes into the work space, in byte order of path, and answers how many there are, which is `count` at most. The
// rest of the work space stays. Asked of an accepted tree whose table the work space keeps, and of nodes of it, none twice. 0, and
// nothing put, where the work space is too short to keep a table.
pub fn starts(block: &Block, work: &mut [u32], count: usize, conf: &[u32]) -> usize
    requires { count ≤ node_ceiling }
    ensures few { result ≤ count }
    ensures started { Asked (block_lent block.now) work.old count conf.now → Started (block_lent block.now) work.old count conf.now result work.new }
{
    if work.len() < WORK_WORDS {
        return 0;
    }
    let mut n = 0;
    for i in (0..count).rev() {
        n = turn(block, work, count, conf, n, i);
    }
    n
}
