// The tests of names: which characters a node name or a property name may hold, and how many.
#![tactic(auto)]

ghost use Rattle.std.specs.Prelude.{◌≡◌};
ghost use Rattle.rules.specs.Names.{node_char, property_char, node_name_valid, property_name_valid, node_name_reads, property_name_reads};
ghost use Rattle.rules.specs.Lists.{every};

use rules::{NODE_NAME_MAX_LEN, PROPERTY_NAME_MAX_LEN};

// How a character is judged is said in the next two functions, and nowhere else.

// Whether c may stand in a node name.
fn node_name_valid_char(c: u8) -> bool
    ensures { result ≡ node_char c }
{
    c.is_ascii_alphanumeric() || b",._+-".contains(&c)
}

// Whether c may stand in a property name.
fn property_name_valid_char(c: u8) -> bool
    ensures { result ≡ property_char c }
{
    node_name_valid_char(c) || b"?#".contains(&c)
}

// Whether all of s may stand in a node name.
fn node_name_chars(s: &[u8]) -> bool
    ensures { result ≡ every node_char s.now }
{
    s.iter().all(|c| node_name_valid_char(*c))
}

// Whether `name` is a node name, "node-name" or "node-name@unit-address": empty, or 1 to 31 characters before the `@`, and
// behind it any number of the same characters, none of them another `@`.
pub fn node_name_valid(name: &[u8]) -> bool
    ensures { result ≡ node_name_valid name.now }
{
    // DTSpec has no empty name, but roots have it, and other tools take it.
    if name.is_empty() {
        return true;
    }
    let n = octets::length_to(name, 0, b'@');
    (1..=NODE_NAME_MAX_LEN).contains(&n)
        && node_name_chars(&name[..n])
        && node_name_chars(name.get(n + 1..).unwrap_or(&[]))
}

// Whether `name` is a property name: 1 to 31 characters.
pub fn property_name_valid(name: &[u8]) -> bool
    ensures { result ≡ property_name_valid name.now }
{
    (1..=PROPERTY_NAME_MAX_LEN).contains(&name.len())
        && name.iter().all(|c| property_name_valid_char(*c))
}

// Whether the reader takes `name` for a node below the root: a node name that is not empty.
pub fn node_name_reads(name: &[u8]) -> bool
    ensures { result ≡ node_name_reads name.now }
{
    !name.is_empty() && node_name_valid(name)
}

// Whether the reader takes `name` for a property.
pub fn property_name_reads(name: &[u8]) -> bool
    ensures { result ≡ property_name_reads name.now }
{
    property_name_valid(name)
}
