// Refusal 11: a property that is read as a 32-bit word isn't one, or a node's two phandle names disagree.
ghost use Rattle.std.specs.Prelude.{◌≡◌, ℕ};
ghost use Rattle.passes.specs.Cells.{on_given, on_property, on_kind};
ghost use Rattle.doubled.specs.Passes.{nodes_in, verdict, Inside};
ghost use Rattle.rules.specs.Tree.{words_judged};

use crate::words::{is_cells_name, is_phandle_name};
use rules::{Block, Kind, Token};

// What is known of the node whose properties are read.
#[derive(Clone, Copy)]
pub enum Seen {
    // No node's properties are read here.
    Outside,
    // It has no phandle so far.
    Within,
    // Its phandle.
    Given(u32),
}

// A value that gives a phandle: what is known behind it, or None where it is at fault.
fn given(value: &[u8], seen: Seen) -> Option<Seen>
    ensures { result ≡ on_given seen value.now }
{
    if value.len() != 4 {
        return None;
    }
    let v = octets::word(value, 0);
    match seen {
        Seen::Given(known) if known != v => None,
        _ => Some(Seen::Given(v)),
    }
}

// A property of the node: what is known behind it, or None where it is at fault.
fn property(name: &[u8], value: &[u8], seen: Seen) -> Option<Seen>
    ensures { result ≡ on_property seen name.now value.now }
{
    if is_phandle_name(name) {
        return given(value, seen);
    }
    if value.len() != 4 && is_cells_name(name) {
        return None;
    }
    Some(seen)
}

// One token's part: what is known behind it, or None where it is at fault.
fn after_token(block: &Block, kind: Kind, seen: Seen) -> Option<Seen>
    ensures { result ≡ on_kind block.now.structure.now block.now.strings.now seen kind }
{
    match kind {
        Kind::Begin { .. } => Some(Seen::Within),
        Kind::EndNode => Some(Seen::Outside),
        Kind::Nop => Some(seen),
        Kind::Prop { len, name, value } => {
            if let Seen::Outside = seen {
                return Some(seen);
            }
            property(
                octets::string_at(block.strings, name),
                octets::part(block.structure, value, len),
                seen,
            )
        }
    }
}

// Judges refusal 11 in a block. Answers None, or the place in the structure of the first property that isn't 4 bytes long under a
// name that is read as a word, or that gives a node another phandle than it has.
pub fn cells(block: &Block) -> Option<usize>
    ensures judged { (place : ℕ) → verdict 11 place result ≡ words_judged (nodes_in block.now.structure.now block.now.strings.now place) }
    ensures inside { Inside block.now.structure.now result }
{
    let mut at = 0;
    let mut seen = Seen::Outside;
    while let Token::Item { kind, next } = tokens::token_at(block.structure, at) {
        let Some(after) = after_token(block, kind, seen) else {
            return Some(at);
        };
        seen = after;
        at = next;
    }
    None
}
