// Which nodes are copied, a mark for each in the work space. Whether a node is copied hangs on what is above it, so that nodes are
// taken in blob order, each from its parent; and on what is below it, so that the nodes above a listed one are marked first.
// Block, work space and count are lent side by side: a contract over one `&mut` of the three would have to say besides that block,
// count and lent slice stay what they were, and so would every caller's.
#![tactic(auto)]

mod marks;
mod standing;

ghost use Rattle.std.specs.Prelude.{◌≡◌, ℕ, ◌+◌, ◌≤◌, ◌<◌, get_or};
ghost use Rattle.rules.specs.Ceilings.{node_ceiling};
ghost use Rattle.rules.specs.Space.{list_at};
ghost use Rattle.rules.specs.Laws.Kept.{Kept};
ghost use Rattle.rules.specs.Laws.Lent.{block_lent};
ghost use Rattle.picks.specs.Turns.{turned, Each, Picks};

use marks::ways;
use rules::{Block, MARKS_AT, NAMES_AT, STACK_AT, Tree};
use standing::Standing;

// What is left to do for node i, once the marks are made: how it stands, and its mark.
fn pick(block: &Block, work: &mut [u32], count: usize, excl: &[u32], ids: &[u64], i: usize)
    requires i_lt_count { i < count }
    requires count_le_node_ceiling { count ≤ node_ceiling }
    ensures { work.new ≡ turned (block_lent block.now) work.old count excl.now ids.now i }
{
    let tree = Tree {
        block: *block,
        work,
        count,
    };
    let standing = Standing::of(&tree, excl, ids, i);
    let over = octets::word_of(work, NAMES_AT + i) == 1;
    let mark = u32::from(standing.is_taken(i, over));
    octets::put_word_of(work, STACK_AT + i, u32::from(standing));
    octets::put_word_of(work, MARKS_AT + i, mark);
}

// The same for every node, in blob order.
fn each(block: &Block, work: &mut [u32], count: usize, excl: &[u32], ids: &[u64])
    requires { count ≤ node_ceiling }
    ensures { Each (block_lent block.now) count excl.now ids.now work.old work.new }
{
    for i in 0..count {
        pick(block, work, count, excl, ids, i);
    }
}

// Marks each node that is copied with 1 and every other with 0, given the n nodes listed, the nodes excluded and the ids.
pub fn picks(block: &Block, work: &mut [u32], count: usize, n: usize, excl: &[u32], ids: &[u64])
    requires kept { Kept (block_lent block.now) work.old count }
    requires n_le_node_ceiling { n ≤ node_ceiling }
    requires by_index { (k : ℕ) → k < n → get_or work.old (list_at + k) 0 < count }
    ensures { Picks (block_lent block.now) count n excl.now ids.now work.old work.new }
{
    ways(block, work, count, n);
    each(block, work, count, excl, ids);
}
