// Noting a node: it is marked, listed and put on the stack, once.
ghost use Rattle.std.specs.Prelude.{◌≡◌, [], ◌∷◌, ℕ, ◌<◌, ◌≤◌};
ghost use Rattle.rules.specs.Ceilings.{node_ceiling};
ghost use Rattle.listing.specs.State.{entered, Piled, Stacks};

use rules::{LIST_AT, MARKS_AT, STACK_AT};

// How many nodes are listed, and how many are on the stack.
#[derive(Clone, Copy)]
pub struct Ends {
    pub list: usize,
    pub stack: usize,
}

// Marks node x and puts it behind the first n of the list.
pub fn enter(work: &mut [u32], n: usize, x: usize)
    requires { (x < node_ceiling) × (n ≤ node_ceiling) }
    ensures { work.new ≡ entered work.old n x }
{
    octets::put_word_of(work, MARKS_AT + x, 1);
    octets::put_word_of(work, LIST_AT + n, x as u32);
}

impl Ends {
    // Notes node x unless it is noted: it is marked, listed last, and put on top of the stack.
    pub fn note(&mut self, work: &mut [u32], x: usize)
        requires { (x < node_ceiling) × ((self.old.list ≤ node_ceiling) × (self.old.stack ≤ node_ceiling)) }
        ensures { (count : ℕ) → x < count → Piled work.old count self.old.list self.old.stack → Stacks count work.old self.old.list self.old.stack (x ∷ []) work.new self.new.list self.new.stack [] }
    {
        if octets::word_of(work, MARKS_AT + x) != 0 {
            return;
        }
        enter(work, self.list, x);
        octets::put_word_of(work, STACK_AT + self.stack, x as u32);
        self.list += 1;
        self.stack += 1;
    }
}
