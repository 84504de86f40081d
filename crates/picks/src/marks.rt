// Marks in the work space: of the nodes listed, and of those above them.
// Block, work space and count are lent side by side, for the reason that lib.rt has.
ghost use Rattle.std.specs.Prelude.{◌≡◌, ◌||◌, ℕ, ◌+◌, ◌≤◌, ◌<◌, get_or};
ghost use Rattle.rules.specs.Ceilings.{node_ceiling, work_words};
ghost use Rattle.rules.specs.Blob.{Block as AnyBlock};
ghost use Rattle.rules.specs.Tree.{below};
ghost use Rattle.rules.specs.Space.{list_at, names_at, list_in};
ghost use Rattle.rules.specs.Laws.Kept.{Only};
ghost use Rattle.rules.specs.Laws.Tabled.{tree_in};
ghost use Rattle.picks.specs.Marks.{marked, Keeps, Unmarked, Noted};

use paths::nodes::up;
use rules::{Block, LIST_AT, MARKS_AT, NAMES_AT, NODE_CEILING, Tree};

// Marks the nodes above node j.
fn above(block: &Block, work: &mut [u32], count: usize, j: usize)
    requires keeps { Keeps work.old count }
    requires j_lt_count { j < count }
    ensures only { Only names_at work_words work.old work.new }
    ensures over { (b : AnyBlock) (x : ℕ) → x < count → marked work.new names_at x ≡ (marked work.old names_at x || below (tree_in b work.old count) x j) }
{
    let mut at = j;
    while 0 < at {
        let tree = Tree {
            block: *block,
            work,
            count,
        };
        at = up(&tree, at);
        octets::put_word_of(work, NAMES_AT + at, 1);
    }
}

// Marks the n nodes of the list, and, apart, those above one of them. No mark is set before.
fn note(block: &Block, work: &mut [u32], count: usize, n: usize)
    requires keeps { Keeps work.old count }
    requires n_le_node_ceiling { n ≤ node_ceiling }
    requires by_index { (k : ℕ) → k < n → get_or work.old (list_at + k) 0 < count }
    requires unmarked { Unmarked work.old }
    ensures { Noted count work.old work.new (list_in work.old n) }
{
    for k in 0..n {
        let j = octets::word_of(work, LIST_AT + k) as usize;
        octets::put_word_of(work, MARKS_AT + j, 1);
        above(block, work, count, j);
    }
}

// The same, whatever marks are set before.
pub fn ways(block: &Block, work: &mut [u32], count: usize, n: usize)
    requires keeps { Keeps work.old count }
    requires n_le_node_ceiling { n ≤ node_ceiling }
    requires by_index { (k : ℕ) → k < n → get_or work.old (list_at + k) 0 < count }
    ensures { Noted count work.old work.new (list_in work.old n) }
{
    octets::clear_from(work, MARKS_AT, NODE_CEILING);
    octets::clear_from(work, NAMES_AT, NODE_CEILING);
    note(block, work, count, n);
}
