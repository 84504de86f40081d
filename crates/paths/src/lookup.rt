// The node with a given path. A path is matched from its end on, name by name, as the parents are climbed; as many steps as the
// node's number says are enough.
ghost use Rattle.std.specs.Prelude.{◌≡◌, ◌≢◌, ◌∷◌, ◌++◌, MatchOption};
ghost use Rattle.rules.specs.Octets.{Bytes, same};
ghost use Rattle.rules.specs.Tree.{path, frame};
ghost use Rattle.rules.specs.Derivation.{node_at};
ghost use Rattle.rules.specs.Laws.Lent.{tree_lent};
ghost use Rattle.references.specs.Table.{found};

use crate::nodes::{name, up};
use rules::Tree;

// What stands in a path in front of a slash and this name; None where it doesn't end in them.
fn before_name<'a>(p: &'a [u8], name: &[u8]) -> Option<&'a [u8]>
    ensures { MatchOption result ((front : Bytes) → p.now ≢ front ++ 47 ∷ name.now) (λ front. p.now ≡ front.now ++ 47 ∷ name.now) }
{
    // The slash comes first: one byte turns nearly every node away.
    let (front, last) = p.split_at(p.len().checked_sub(name.len())?);
    let (slash, front) = front.split_last()?;
    (*slash == b'/' && last == name).then_some(front)
}

// Whether node i has this path.
pub fn has_path(tree: &Tree, i: usize, p: &[u8]) -> bool
    ensures { result ≡ same (path (tree_lent tree.now) i) p.now }
{
    if i == 0 {
        return octets::same(b"/", p);
    }
    let mut at = i;
    let mut rest = p;
    for _ in 0..i {
        if at == 0 {
            break;
        }
        let Some(front) = before_name(rest, name(tree, at)) else {
            return false;
        };
        rest = front;
        at = up(tree, at);
    }
    rest.is_empty()
}

// The node with this path: the first where several have it; None where none has.
pub fn node_at(tree: &Tree, p: &[u8]) -> Option<usize>
    ensures { found result ≡ node_at (frame (tree_lent tree.now)) p.now }
{
    (0..tree.count).find(|i| has_path(tree, *i, p))
}
