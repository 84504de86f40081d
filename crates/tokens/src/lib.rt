// The tokens of a structure block (DTSpec 5.4), read one at a time from the block alone. This is the inner loop of every walk.
#![tactic(auto)]

ghost use Rattle.std.specs.Prelude.{◌≡◌, ◌≤◌, length};
ghost use Rattle.rules.specs.Tokens.{begin_at, prop_at, token_at};
ghost use Rattle.tokens.specs.Properties.{behind_at, property_at};

use rules::{FDT_BEGIN_NODE, FDT_END, FDT_END_NODE, FDT_NOP, FDT_PROP, Kind, Token};

// A property of a node: where it stands, the length of its value, its name's offset in the strings block, where its value begins,
// and where what follows it begins.
#[derive(Clone, Copy)]
pub struct Property {
    pub at: usize,
    pub len: usize,
    pub name: usize,
    pub value: usize,
    pub next: usize,
}

// BEGIN, whose name begins at b. A name without NUL has no room for one, and so is cut.
fn begin_at(structure: &[u8], b: usize) -> Token
    requires { b ≤ length structure.now }
    ensures { result ≡ begin_at structure.now b }
{
    let len = octets::nul(structure, b);
    let next = b + (len + 1 + 3) / 4 * 4;
    if next <= structure.len() {
        Token::Item {
            kind: Kind::Begin { len },
            next,
        }
    } else {
        Token::Cut
    }
}

// PROP, whose length and name offset begin at b. The length is below 2^32, so that no sum wraps.
fn prop_at(structure: &[u8], b: usize) -> Token
    requires { b ≤ length structure.now }
    ensures { result ≡ prop_at structure.now b }
{
    let value = b + 8;
    if structure.len() < value {
        return Token::Cut;
    }
    let len = octets::word(structure, b) as usize;
    let name = octets::word(structure, b + 4) as usize;
    let next = value + (len + 3) / 4 * 4;
    if next <= structure.len() {
        Token::Item {
            kind: Kind::Prop { len, name, value },
            next,
        }
    } else {
        Token::Cut
    }
}

// The token at a place of a structure block: an item and where the next one begins; End; or Cut, where fewer than four bytes
// are left, the tag is unknown, or the item does not end inside the block.
pub fn token_at(structure: &[u8], at: usize) -> Token
    ensures { result ≡ token_at structure.now at }
{
    if structure.len() < 4 || structure.len() - 4 < at {
        return Token::Cut;
    }
    let tag = octets::word(structure, at);
    let b = at + 4;
    match tag {
        FDT_BEGIN_NODE => begin_at(structure, b),
        FDT_END_NODE => Token::Item {
            kind: Kind::EndNode,
            next: b,
        },
        FDT_PROP => prop_at(structure, b),
        FDT_NOP => Token::Item {
            kind: Kind::Nop,
            next: b,
        },
        FDT_END => Token::End,
        _ => Token::Cut,
    }
}

// Where what follows the item at a place begins; the block's length where no item stands there.
pub fn behind(structure: &[u8], at: usize) -> usize
    ensures { result ≡ behind_at structure.now at }
{
    match token_at(structure, at) {
        Token::Item { next, .. } => next,
        Token::End | Token::Cut => structure.len(),
    }
}

// The property that stands at a place or behind NOPs there; None where another token comes first, or no item stands there.
pub fn property_at(structure: &[u8], from: usize) -> Option<Property>
    ensures { result ≡ property_at structure.now from }
{
    let mut at = from;
    while let Token::Item { kind, next } = token_at(structure, at) {
        match kind {
            Kind::Nop => at = next,
            Kind::Prop { len, name, value } => {
                return Some(Property {
                    at,
                    len,
                    name,
                    value,
                    next,
                });
            }
            Kind::Begin { .. } | Kind::EndNode => return None,
        }
    }
    None
}
