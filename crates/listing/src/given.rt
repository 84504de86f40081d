// The given nodes: the configured ones as they are given, then for each of them what is new below it, in byte order of path. The
// start nodes, which are the same nodes in byte order of path, stand where the stack is to be.
// Block, work space and count are lent side by side, for the reason that lib.rt has.
ghost use Rattle.std.specs.Prelude.{[], ◌∷◌, ℕ, ◌<◌, ◌≤◌, length};
ghost use Rattle.rules.specs.Ceilings.{node_ceiling, work_words};
ghost use Rattle.rules.specs.Lists.{keep};
ghost use Rattle.rules.specs.Tree.{below};
ghost use Rattle.rules.specs.Listing.{◌∈◌};
ghost use Rattle.rules.specs.Laws.Lent.{block_lent, tree_with};
ghost use Rattle.rules.specs.Space.{stack_in};
ghost use Rattle.listing.specs.State.{Marked, Gains};
ghost use Rattle.listing.specs.Given.{below_in, with_below, Gathers};

use crate::note::enter;
use paths::nodes::below;
use rules::{Block, MARKS_AT, STACK_AT, Tree};

// Clears the marks of `count` nodes: none is listed.
pub fn clear_marks(work: &mut [u32], count: usize)
    requires { (count ≤ node_ceiling) × (work_words ≤ length work.old) }
    ensures { Gains count work.old 0 [] work.new 0 [] }
{
    octets::clear_from(work, MARKS_AT, count);
}

// Lists node x unless it is listed. Answers how many are listed then.
fn list(work: &mut [u32], n: usize, x: usize) -> usize
    requires { (x < node_ceiling) × (n ≤ node_ceiling) }
    ensures { (count : ℕ) → x < count → Marked work.old count n → Gains count work.old n (x ∷ []) work.new result [] }
{
    if octets::word_of(work, MARKS_AT + x) != 0 {
        return n;
    }
    enter(work, n, x);
    n + 1
}

// Lists node x if it is below node p and is not listed.
fn list_if_below(
    block: &Block,
    work: &mut [u32],
    count: usize,
    p: usize,
    x: usize,
    n: usize,
) -> usize
    requires x_lt_count { x < count }
    requires marked { Marked work.old count n }
    ensures { Gains count work.old n (keep (below (tree_with block.now work.old count) p) (x ∷ [])) work.new result [] }
{
    let tree = Tree {
        block: *block,
        work,
        count,
    };
    if !below(&tree, p, x) {
        return n;
    }
    list(work, n, x)
}

// Lists those of the first `starts` start nodes that are below node p and are not listed. Answers how many are listed then.
fn list_below(
    block: &Block,
    work: &mut [u32],
    count: usize,
    p: usize,
    starts: usize,
    listed: usize,
) -> usize
    requires starts_le_node_ceiling { starts ≤ node_ceiling }
    requires by_index { (x : ℕ) → x ∈ stack_in work.old starts → x < count }
    requires marked { Marked work.old count listed }
    ensures { Gains count work.old listed (below_in (block_lent block.now) work.old count starts p) work.new result [] }
{
    let mut n = listed;
    for k in 0..starts {
        let x = octets::word_of(work, STACK_AT + k) as usize;
        n = list_if_below(block, work, count, p, x, n);
    }
    n
}

// Lists node p, then those of the first `starts` start nodes that are below it, each unless it is listed. Answers how many are
// listed then.
fn list_with(
    block: &Block,
    work: &mut [u32],
    count: usize,
    p: usize,
    starts: usize,
    listed: usize,
) -> usize
    requires p_lt_count { (p < count) × (starts ≤ node_ceiling) }
    requires by_index { (x : ℕ) → x ∈ stack_in work.old starts → x < count }
    requires marked { Marked work.old count listed }
    ensures { Gains count work.old listed (with_below (block_lent block.now) work.old count starts p) work.new result [] }
{
    let n = list(work, listed, p);
    list_below(block, work, count, p, starts, n)
}

// Lists each of the configured nodes, in their order, with those of the first `starts` start nodes that are below it, each unless
// it is listed. Answers how many are listed then.
pub fn list_each(
    block: &Block,
    work: &mut [u32],
    count: usize,
    conf: &[u32],
    starts: usize,
    listed: usize,
) -> usize
    requires by_index { ((x : ℕ) → x ∈ conf.now → x < count) × (starts ≤ node_ceiling) }
    requires by_index_2 { (x : ℕ) → x ∈ stack_in work.old starts → x < count }
    requires marked { Marked work.old count listed }
    ensures { Gathers count work.old listed (with_below (block_lent block.now) work.old count starts) conf.now work.new result [] }
{
    let mut n = listed;
    for p in conf {
        n = list_with(block, work, count, *p as usize, starts, n);
    }
    n
}
