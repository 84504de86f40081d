// The list of what a passthrough reaches, `find_all_passthrough_devices` of the source: the configured nodes, those below them,
// and what the reference properties of all of these reach, in the order in which it is found. All of it stands in the work space
// behind the node table: a mark for each node, the list, and the stack of nodes that are still to be visited. There is no heap, so
// that they are words with a count beside them, and no set and no vectors.
// Block, work space and count are lent side by side: a contract over one `&mut` of the three would have to say besides that block,
// count and lent slice stay what they were, and so would every caller's.
#![tactic(auto)]

ghost use Rattle.rules.specs.Laws.Lent.{block_lent};
ghost use Rattle.order.specs.Starts.{Asked};
ghost use Rattle.listing.specs.Lists.{Reaches, Lists};

use crate::given::{clear_marks, list_each};
use crate::note::Ends;
use crate::sift::sift;
use crate::walk::walk;
use rules::Block;

mod given;
mod note;
mod sift;
mod visit;
mod walk;

// Lists the nodes that are reached from the configured ones, in the order of 01, from LIST_AT on, and answers how many there are.
// The node table and all behind the work space's words stay. Asked of a work space that keeps an accepted tree's table, and of
// nodes of it, none twice. `count` is the number of rows.
pub fn reached(block: &Block, work: &mut [u32], count: usize, conf: &[u32]) -> usize
    requires { Asked (block_lent block.now) work.old count conf.now }
    ensures { Reaches (block_lent block.now) work.old count conf.now work.new result }
{
    let starts = order::starts(block, work, count, conf);
    clear_marks(work, count);
    // with none of the start nodes, so that all of the configured ones come first
    let configured = list_each(block, work, count, conf, 0, 0);
    let given = list_each(block, work, count, conf, starts, configured);
    let ends = Ends {
        list: given,
        stack: starts,
    };
    walk(block, work, count, ends)
}

// Lists the nodes that are reached from the configured ones, but for the root and for what is excluded or below an exclusion, as
// `reached` does, and answers how many there are.
pub fn listed(block: &Block, work: &mut [u32], count: usize, conf: &[u32], excl: &[u32]) -> usize
    requires { Asked (block_lent block.now) work.old count conf.now }
    ensures { Lists (block_lent block.now) work.old count conf.now excl.now work.new result }
{
    let n = reached(block, work, count, conf);
    sift(block, work, count, n, excl)
}
