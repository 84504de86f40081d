// Nodes in byte order of path, kept in the words of the work space from STACK_AT on. A node gets its place by halving.
ghost use Rattle.std.specs.Prelude.{◌≡◌, ◌≤◌, ◌<◌, length};
ghost use Rattle.rules.specs.Ceilings.{node_ceiling, work_words};
ghost use Rattle.rules.specs.Laws.Lent.{tree_lent};
ghost use Rattle.order.specs.Region.{Halves, inserted};

use paths::order::path_before;
use rules::{STACK_AT, Tree};

// How many of n nodes come before node x, where they are in byte order of path.
pub fn rank(tree: &Tree, n: usize, x: usize) -> usize
    requires { (n ≤ node_ceiling) × (work_words ≤ length tree.now.work.now) }
    ensures few { result ≤ n }
    ensures met { Halves (tree_lent tree.now) tree.now.work.now tree.now.count n x result }
{
    let nodes = &tree.work[STACK_AT..STACK_AT + n];
    nodes.partition_point(|y| {
        let y = *y as usize;
        // the order of paths is one of nodes alone
        y < tree.count && path_before(tree, y, x)
    })
}

// Puts node x at an index among n nodes; those from there on move up. `doubled` does the same in its own words: one function for
// both would have to stand in octets, where no call asks anything of its caller, and be no plainer.
pub fn insert(work: &mut [u32], n: usize, at: usize, x: u32)
    requires { (at ≤ n) × (n < node_ceiling) × (work_words ≤ length work.old) }
    ensures { work.new ≡ inserted work.old n at x }
{
    let place = STACK_AT + at;
    work.copy_within(place..STACK_AT + n, place + 1);
    work[place] = x;
}
