// `/cpus`, its CPU children, and which of them are not among the ids of a request.
ghost use Rattle.std.specs.Prelude.{◌≡◌};
ghost use Rattle.rules.specs.Lists.{one_of};
ghost use Rattle.rules.specs.Tree.{frame};
ghost use Rattle.rules.specs.Copy.{is_cpus, cpu_child, stranger};
ghost use Rattle.rules.specs.Laws.Lent.{tree_lent};
ghost use Rattle.cpus.specs.Registers.{names_cpu};

use crate::register::reg_at;
use paths::nodes::{name, up};
use rules::Tree;

// Whether node i is `/cpus`.
pub fn is_cpus(tree: &Tree, i: usize) -> bool
    ensures { result ≡ is_cpus (frame (tree_lent tree.now)) i }
{
    i != 0 && up(tree, i) == 0 && octets::same(name(tree, i), b"cpus")
}

// Whether this is the name of a CPU: `cpu`, or one that begins with `cpu@`.
fn names_cpu(name: &[u8]) -> bool
    ensures { result ≡ names_cpu name.now }
{
    octets::same(name, b"cpu") || octets::begins(b"cpu@", name)
}

// Whether node i is a CPU child: a direct child of `/cpus` that is named `cpu` or begins with `cpu@`.
pub fn cpu_child(tree: &Tree, i: usize) -> bool
    ensures { result ≡ cpu_child (frame (tree_lent tree.now)) i }
{
    is_cpus(tree, up(tree, i)) && names_cpu(name(tree, i))
}

// Whether a number is one of the ids.
fn is_id(ids: &[u64], n: u64) -> bool
    ensures { result ≡ one_of n ids.now }
{
    ids.contains(&n)
}

// Whether node i is a CPU child whose `reg`, read as one number, is not an id. The whole number counts, not its low 32 bits.
pub fn stranger(tree: &Tree, ids: &[u64], i: usize) -> bool
    ensures { result ≡ stranger (tree_lent tree.now) ids.now i }
{
    if !cpu_child(tree, i) {
        return false;
    }
    match reg_at(tree, i) {
        Some(n) => !is_id(ids, n),
        None => true,
    }
}
