// The walk of the copy over the tokens of the host. A node that is not copied has nothing below it that is, so that the walk
// keeps no stack of open nodes: it counts those among them that are not copied, and while there are any, copies nothing.
ghost use Rattle.std.specs.Prelude.{◌≡◌};
ghost use Rattle.guest.specs.Walked.{marked, copies, onward_of, Near};
ghost use Rattle.guest.specs.Measured.{prop_of};

use rules::{Kind, MARKS_AT, NODE_CEILING};

// The number of the next node, and how many of the open nodes are not copied.
#[derive(Clone, Copy)]
pub struct Walk {
    pub next: usize,
    pub skipped: usize,
}

// Whether the marks say that node i is copied.
fn marked(work: &[u32], i: usize) -> bool
    ensures { result ≡ marked work.now i }
{
    i < NODE_CEILING && octets::word_of(work, MARKS_AT + i) == 1
}

impl Walk {
    // The walk before the first token.
    pub const START: Walk = Walk {
        next: 0,
        skipped: 0,
    };

    // Whether a token is copied.
    pub fn copies(self, work: &[u32], kind: Kind) -> bool
        ensures { result ≡ copies (marked work.now) self.next self.skipped kind }
    {
        let open = self.skipped == 0;
        match kind {
            Kind::Begin { .. } => open && marked(work, self.next),
            Kind::EndNode | Kind::Prop { .. } => open,
            Kind::Nop => false,
        }
    }

    // The offset of the name, in the host's strings block, of a token that is a property and copied; None for any other.
    pub fn property_of(self, kind: Kind) -> Option<usize>
        ensures { result ≡ prop_of self.skipped kind }
    {
        match kind {
            Kind::Prop { name, .. } if self.skipped == 0 => Some(name),
            _ => None,
        }
    }

    // The walk behind a token.
    pub fn onward(self, work: &[u32], kind: Kind) -> Walk
        requires { Near self }
        ensures { result ≡ onward_of (marked work.now) self kind }
    {
        match kind {
            Kind::Begin { .. } => {
                let next = self.next + 1;
                if self.copies(work, kind) {
                    return Walk { next, ..self };
                }
                Walk {
                    next,
                    skipped: self.skipped + 1,
                }
            }
            Kind::EndNode => Walk {
                skipped: self.skipped.saturating_sub(1),
                ..self
            },
            Kind::Prop { .. } | Kind::Nop => self,
        }
    }
}
