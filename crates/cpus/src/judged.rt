// Refusals 43 and 44: every CPU child has a `reg` of 4 or 8 bytes, and every id meets one.
ghost use Rattle.std.specs.Prelude.{◌≡◌, ◌&&◌, [], ◌∷◌};
ghost use Rattle.rules.specs.Blob.{missing};
ghost use Rattle.rules.specs.Tree.{node, frame, numbers};
ghost use Rattle.rules.specs.Copy.{cpu_child, reg_of, is_id};
ghost use Rattle.rules.specs.Derivation.{cpus_from, met, ids_from};
ghost use Rattle.rules.specs.Laws.Lent.{tree_lent};
ghost use Rattle.cpus.specs.Answers.{unnumbered_meaning, unmet_meaning};

use crate::children::cpu_child;
use crate::register::reg_at;
use references::table::cell;
use rules::Tree;

// A CPU child without a number, which is refusal 43: where its BEGIN stands.
#[derive(Clone, Copy)]
pub struct Unnumbered {
    pub at: usize,
}

// An id that meets no CPU child, which is refusal 44: its index.
#[derive(Clone, Copy)]
pub struct Unmet {
    pub at: usize,
}

// Whether node i is a CPU child without a number.
fn bare(tree: &Tree, i: usize) -> bool
    ensures { result ≡ (cpu_child (frame (tree_lent tree.now)) i && missing (reg_of (node (tree_lent tree.now) i))) }
{
    cpu_child(tree, i) && reg_at(tree, i).is_none()
}

// Judges the CPU children. Ok, or Err: `at` is the BEGIN of the first CPU child in blob order whose `reg` is missing or has
// neither 4 nor 8 bytes.
pub fn cpus_judged(tree: &Tree) -> Result<(), Unnumbered>
    ensures { unnumbered_meaning result ≡ cpus_from (tree_lent tree.now) (numbers (frame (tree_lent tree.now))) }
{
    for i in 0..tree.count {
        if bare(tree, i) {
            return Err(Unnumbered {
                at: cell(tree.work, i, 0) as usize,
            });
        }
    }
    Ok(())
}

// Whether node i is a CPU child with this number.
fn meets(tree: &Tree, id: u64, i: usize) -> bool
    ensures { result ≡ (cpu_child (frame (tree_lent tree.now)) i && is_id (id ∷ []) (reg_of (node (tree_lent tree.now) i))) }
{
    cpu_child(tree, i) && reg_at(tree, i) == Some(id)
}

// Whether an id meets a CPU child.
fn met(tree: &Tree, id: u64) -> bool
    ensures { result ≡ met (tree_lent tree.now) id }
{
    (0..tree.count).any(|i| meets(tree, id, i))
}

// Judges the ids. Ok, or Err: `at` is the index of the first id that meets no CPU child.
pub fn ids_judged(tree: &Tree, ids: &[u64]) -> Result<(), Unmet>
    ensures { unmet_meaning result ≡ ids_from (tree_lent tree.now) 0 ids.now }
{
    for (at, id) in ids.iter().enumerate() {
        if !met(tree, *id) {
            return Err(Unmet { at });
        }
    }
    Ok(())
}
