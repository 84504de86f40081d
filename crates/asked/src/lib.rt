// What a request's path lists name in a tree: the numbers of its nodes, in the order of the lists. A configured path must name a
// node, and no node twice; an excluded path that names none has no effect. The lists have passed 41, so that an array of 64
// numbers is long enough.
#![tactic(auto)]

ghost use Rattle.std.specs.Prelude.{◌≡◌, ◌≤◌, length, take};
ghost use Rattle.rules.specs.Ceilings.{node_ceiling};
ghost use Rattle.rules.specs.Octets.{lay};
ghost use Rattle.rules.specs.Lists.{one_of};
ghost use Rattle.rules.specs.Tree.{frame};
ghost use Rattle.rules.specs.Derivation.{given, nodes_named};
ghost use Rattle.rules.specs.Laws.Lent.{tree_lent};
ghost use Rattle.asked.specs.Answers.{meaning};
ghost use Rattle.asked.specs.Nodes.{configured_nodes, configured_outcome};

use given::Paths;
use paths::lookup::node_at;
use rules::Tree;

// The first configured path that names no node or repeats, which is refusal 42: its place in the list.
#[derive(Clone, Copy)]
pub struct Fault {
    pub at: usize,
}

// Whether node i is one of the first n of these. The count is lent beside them, since it may pass their end: nothing is asked of
// the caller.
pub fn one_of(nodes: &[u32], n: usize, i: usize) -> bool
    ensures { result ≡ one_of i (take n nodes.now) }
{
    let first = octets::first_words(nodes, n);
    first.iter().any(|node| *node as usize == i)
}

// Lays the nodes that the configured paths name into `out` from its front on, up to the first path at fault. Ok: there is no
// such path, and so many nodes are laid. Err: `at` is the offset of the first path that names no node, or the node of a path
// before it. The rest of `out` stays.
pub fn configured(tree: &Tree, list: &[u8], out: &mut [u32]) -> Result<usize, Fault>
    requires count_le_node_ceiling { tree.now.count ≤ node_ceiling }
    requires list_in_bounds { length (given list.now) ≤ length out.old }
    ensures result_value { meaning result ≡ configured_outcome (frame (tree_lent tree.now)) list.now }
    ensures out_after { out.new ≡ lay out.old 0 (configured_nodes (frame (tree_lent tree.now)) list.now) }
{
    let mut n = 0;
    for given in Paths::of(list) {
        let Some(i) = node_at(tree, given.path) else {
            return Err(Fault { at: given.offset });
        };
        if one_of(out, n, i) {
            return Err(Fault { at: given.offset });
        }
        octets::put_word_of(out, n, i as u32);
        n += 1;
    }
    Ok(n)
}

// Lays the nodes that the excluded paths name into `out` from its front on, and answers how many there are. The rest of `out`
// stays.
pub fn excluded(tree: &Tree, list: &[u8], out: &mut [u32]) -> usize
    requires { tree.now.count ≤ node_ceiling }
    ensures value { result ≡ length (nodes_named (frame (tree_lent tree.now)) (given list.now)) }
    ensures out_after { out.new ≡ lay out.old 0 (nodes_named (frame (tree_lent tree.now)) (given list.now)) }
{
    let mut n = 0;
    for given in Paths::of(list) {
        if let Some(i) = node_at(tree, given.path) {
            octets::put_word_of(out, n, i as u32);
            n += 1;
        }
    }
    n
}
