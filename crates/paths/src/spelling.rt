// A path spelled out: measured first, then laid down from its end, as the parents are climbed; as many steps as the node's number
// says are enough. The ceilings stand as clauses and not in Tree, since the other functions over a tree take any that is lent.
ghost use Rattle.std.specs.Prelude.{◌≡◌, ◌+◌, ◌≤◌, length};
ghost use Rattle.rules.specs.Ceilings.{blob_ceiling, node_ceiling};
ghost use Rattle.rules.specs.Octets.{lay, closed};
ghost use Rattle.rules.specs.Tree.{path};
ghost use Rattle.rules.specs.Laws.Lent.{tree_lent};

use crate::nodes::{name, up};
use rules::Tree;

// How many bytes the path of node i has. The ceilings keep the sum of its names a usize.
pub fn path_len(tree: &Tree, i: usize) -> usize
    requires structure_len_bound { length tree.now.block.structure.now ≤ blob_ceiling }
    requires count_le_node_ceiling { tree.now.count ≤ node_ceiling }
    ensures { result ≡ length (path (tree_lent tree.now) i) }
{
    if i == 0 || tree.count <= i {
        return 1;
    }
    let mut at = i;
    let mut len = 0;
    for _ in 0..i {
        if at == 0 {
            return len;
        }
        len = len + name(tree, at).len() + 1;
        at = up(tree, at);
    }
    len
}

// Lays bytes into a buffer k behind a place. The sum may be no usize, and is past the end then.
fn put_behind(out: &mut [u8], at: usize, k: usize, bytes: &[u8])
    ensures { out.new ≡ lay out.old (at + k) bytes.now }
{
    if let Some(place) = at.checked_add(k) {
        octets::put(out, place, bytes);
    }
}

// Lays the path of node i, closed by NUL, into a buffer from a place on. What would come to stand past the end is dropped, and
// the rest of the buffer stays.
pub fn spell(tree: &Tree, i: usize, out: &mut [u8], at: usize)
    requires structure_len_bound { length tree.now.block.structure.now ≤ blob_ceiling }
    requires count_le_node_ceiling { tree.now.count ≤ node_ceiling }
    ensures { out.new ≡ lay out.old at (closed (path (tree_lent tree.now) i)) }
{
    if i == 0 {
        octets::put(out, at, b"/\0");
        return;
    }
    let mut end = path_len(tree, i);
    put_behind(out, at, end, b"\0");
    let mut node = i;
    for _ in 0..i {
        if node == 0 {
            return;
        }
        let last = name(tree, node);
        end -= last.len();
        put_behind(out, at, end, last);
        end -= 1;
        put_behind(out, at, end, b"/");
        node = up(tree, node);
    }
}
