// The list as it is answered: the paths of the nodes listed, each closed by NUL, measured first and then written. The nodes stand
// in the work space as numbers. The ceilings stand as clauses and not in Tree, since most functions over a tree take any that is
// lent.
#![tactic(auto)]

ghost use Rattle.std.specs.Prelude.{◌≡◌, ◌≤◌, length, take, drop};
ghost use Rattle.rules.specs.Ceilings.{blob_ceiling, node_ceiling, work_words};
ghost use Rattle.rules.specs.Octets.{lay};
ghost use Rattle.rules.specs.Space.{list_at};
ghost use Rattle.rules.specs.Laws.Lent.{tree_lent};
ghost use Rattle.spelled.specs.Lists.{list_bytes};

use paths::spelling::{path_len, spell};
use rules::{LIST_AT, Tree};

// The numbers of the first n nodes listed.
fn listed<'a>(tree: &Tree<'_, 'a>, n: usize) -> &'a [u32]
    requires n_le_node_ceiling { n ≤ node_ceiling }
    requires work_words_in_bounds { work_words ≤ length tree.now.work.now }
    ensures { result.now ≡ take n (drop list_at tree.now.work.now) }
{
    &tree.work[LIST_AT..LIST_AT + n]
}

// How many bytes the list of the first n nodes listed has. The ceilings keep the sum a usize.
pub fn list_len(tree: &Tree, n: usize) -> usize
    requires structure_len_bound { length tree.now.block.structure.now ≤ blob_ceiling }
    requires count_le_node_ceiling { tree.now.count ≤ node_ceiling }
    requires n_le_node_ceiling { n ≤ node_ceiling }
    requires work_words_in_bounds { work_words ≤ length tree.now.work.now }
    ensures { result ≡ length (list_bytes (tree_lent tree.now) tree.now.work.now n) }
{
    let mut len = 0;
    for i in listed(tree, n) {
        len += path_len(tree, *i as usize) + 1;
    }
    len
}

// Lays the list of the first n nodes listed into a buffer from its front on. What would come to stand past the end is dropped, and
// the rest of the buffer stays.
pub fn list_out(tree: &Tree, n: usize, out: &mut [u8])
    requires structure_len_bound { length tree.now.block.structure.now ≤ blob_ceiling }
    requires count_le_node_ceiling { tree.now.count ≤ node_ceiling }
    requires n_le_node_ceiling { n ≤ node_ceiling }
    requires work_words_in_bounds { work_words ≤ length tree.now.work.now }
    ensures { out.new ≡ lay out.old 0 (list_bytes (tree_lent tree.now) tree.now.work.now n) }
{
    let mut at = 0;
    for i in listed(tree, n) {
        spell(tree, *i as usize, out, at);
        at += path_len(tree, *i as usize) + 1;
    }
}
