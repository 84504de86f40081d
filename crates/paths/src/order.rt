// Byte order of whole paths, without spelling them: two paths first differ in the names of the two siblings below the last node
// that they share. Where a name ends, a slash follows if its node is only on the way, and nothing if it is the node itself.
// Byte order of paths is not that of names level by level: `-`, `,`, `.` and `+` come before the slash.
ghost use Rattle.std.specs.Prelude.{◌≡◌, ◌++◌, ◌<◌};
ghost use Rattle.rules.specs.Octets.{before};
ghost use Rattle.rules.specs.Laws.Lent.{tree_lent};
ghost use Rattle.paths.specs.Order.{slash, nearer, Met, Orders};

use crate::nodes::{name, up};
use rules::Tree;

// The nodes just below the last node that two nodes share, on the way to each; None where the shared node is the one itself.
#[derive(Clone, Copy)]
pub struct Fork {
    pub left: Option<usize>,
    pub right: Option<usize>,
}

// What follows a name in a path: a slash where its node is only on the way.
fn slash(more: bool) -> &'static [u8]
    ensures { result.now ≡ slash more }
{
    if more { b"/" } else { b"" }
}

// Whether one name, with the slash that may follow it, comes before another.
fn name_before(n: &[u8], more: bool, o: &[u8], other: bool) -> bool
    ensures { result ≡ before (n.now ++ slash more) (o.now ++ slash other) }
{
    n.iter()
        .chain(slash(more))
        .cmp(o.iter().chain(slash(other)))
        .is_lt()
}

// The parent of node i, or the root where the table has no smaller number for it: a climb always ends.
fn above(tree: &Tree, i: usize) -> usize
    ensures near { result ≡ nearer (tree_lent tree.now) i }
    ensures less { 0 < i → result < i }
{
    let q = up(tree, i);
    if q < i { q } else { 0 }
}

// Where the ways from the root to two nodes part. Of two nodes the one with the larger number is never above the other, so that
// it is the one to climb from.
fn parting(tree: &Tree, i: usize, j: usize) -> Fork
    ensures { Met (tree_lent tree.now) tree.now.count i j result }
{
    let mut a = i;
    let mut b = j;
    let mut fork = Fork {
        left: None,
        right: None,
    };
    while a != b {
        if a < b {
            fork.right = Some(b);
            b = above(tree, b);
        } else {
            fork.left = Some(a);
            a = above(tree, a);
        }
    }
    fork
}

// Whether the path of node i comes before that of node j, in a tree in which parents have smaller numbers than their children,
// names are not empty and hold no slash, and siblings have different names.
pub fn path_before(tree: &Tree, i: usize, j: usize) -> bool
    ensures { Orders (tree_lent tree.now) tree.now.count i j result }
{
    let fork = parting(tree, i, j);
    let Some(right) = fork.right else {
        return false;
    };
    let Some(left) = fork.left else {
        return true;
    };
    name_before(name(tree, left), left != i, name(tree, right), right != j)
}
