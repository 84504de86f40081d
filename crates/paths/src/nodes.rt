// A node's parent and name, and climbing from parent to parent.
ghost use Rattle.std.specs.Prelude.{◌≡◌};
ghost use Rattle.rules.specs.Tree.{node, below};
ghost use Rattle.rules.specs.Laws.Lent.{tree_lent};

use references::table::{begin_of, cell};
use rules::Tree;

// The number of the parent of node i; 0 for the root and past the last row.
pub fn up(tree: &Tree, i: usize) -> usize
    ensures { result ≡ (node (tree_lent tree.now) i).parent }
{
    if tree.count <= i {
        return 0;
    }
    cell(tree.work, i, 1) as usize
}

// The name of node i; empty for the root and past the last row.
pub fn name<'a>(tree: &Tree<'a, '_>, i: usize) -> &'a [u8]
    ensures { result.now ≡ (node (tree_lent tree.now) i).name }
{
    if tree.count <= i {
        return &[];
    }
    // It stands behind its token; a place that is no usize is past the end.
    octets::string_at(tree.block.structure, begin_of(tree, i).saturating_add(4))
}

// Whether node m is below node p. A parent's number is smaller than its child's, so that m steps up are enough.
pub fn below(tree: &Tree, p: usize, m: usize) -> bool
    ensures { result ≡ below (tree_lent tree.now) p m }
{
    let mut at = m;
    for _ in 0..m {
        if at == 0 {
            return false;
        }
        at = up(tree, at);
        if at == p {
            return true;
        }
    }
    false
}
