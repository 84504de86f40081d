// Which names the copied properties before a place have. The names met so far stand in the work space, a word each: the name's
// offset in the host's strings block. Where a tree has more names than there are words, the tokens before are searched, so that
// the answer is right for any number of names.
ghost use Rattle.std.specs.Prelude.{◌≡◌, ◌≤◌, length, take};
ghost use Rattle.rules.specs.Ceilings.{blob_ceiling, work_words};
ghost use Rattle.rules.specs.Octets.{same};
ghost use Rattle.rules.specs.Events.{string_at};
ghost use Rattle.guest.specs.Measured.{is_in, names_in, is_named, less_one, in_table, table_room, Collected};

use crate::measured::Sum;
use crate::walk::Walk;
use rules::{Block, STACK_AT, Token, WORK_WORDS};

// How many words there are for names.
pub const TABLE_ROOM: usize = WORK_WORDS - STACK_AT;

// Whether two offsets have the same name. The same name mostly has the same offset.
fn same_name(strings: &[u8], a: usize, b: usize) -> bool
    ensures { result ≡ same (string_at strings.now a) (string_at strings.now b) }
{
    a == b || octets::same(octets::string_at(strings, a), octets::string_at(strings, b))
}

// Whether the table of names has the one at this offset. A name met again mostly has the offset that it had, and words are searched
// faster than names. The names are searched from both ends at once, as those met again may be the first as well as the last.
fn in_table(strings: &[u8], work: &[u32], names: usize, offset: usize) -> bool
    requires { (names ≤ table_room) × (work_words ≤ length work.now) }
    ensures { result ≡ in_table strings.now work.now names (string_at strings.now offset) }
{
    let table = &work[STACK_AT..STACK_AT + names];
    if let Ok(word) = u32::try_from(offset)
        && table.contains(&word)
    {
        return true;
    }
    let half = names / 2;
    let newest = table[half..].iter().rev();
    table[..names - half].iter().zip(newest).any(|(a, b)| {
        same_name(strings, offset, *a as usize) || same_name(strings, offset, *b as usize)
    })
}

// Whether a copied property has this name.
fn is_named(strings: &[u8], property: Option<usize>, name: &[u8]) -> bool
    ensures { result ≡ is_named strings.now property name.now }
{
    property.is_some_and(|offset| octets::same(name, octets::string_at(strings, offset)))
}

// Whether one of the first `props` copied properties has this name.
fn earlier(block: &Block, work: &[u32], props: usize, name: &[u8]) -> bool
    requires { length block.now.structure.now ≤ blob_ceiling }
    ensures { result ≡ is_in name.now (take props (names_in block.now.structure.now block.now.strings.now work.now)) }
{
    let mut at = 0;
    let mut walk = Walk::START;
    let mut left = props;
    // `left` falls at copied properties alone, which no range counts.
    while 0 < left {
        let Token::Item { kind, next } = tokens::token_at(block.structure, at) else {
            return false;
        };
        let property = walk.property_of(kind);
        if is_named(block.strings, property, name) {
            return true;
        }
        if property.is_some() {
            left -= 1;
        }
        walk = walk.onward(work, kind);
        at = next;
    }
    false
}

// Whether one of the copied properties so far has the name at this offset; the table of names is of these properties.
pub fn known(block: &Block, work: &[u32], sum: Sum, offset: usize) -> bool
    requires structure_len_bound { length block.now.structure.now ≤ blob_ceiling }
    requires collected { Collected block.now.structure.now block.now.strings.now work.now sum }
    ensures { result ≡ is_in (string_at block.now.strings.now offset) (take sum.props (names_in block.now.structure.now block.now.strings.now work.now)) }
{
    if in_table(block.strings, work, sum.names, offset) {
        return true;
    }
    if sum.names < TABLE_ROOM {
        return false;
    }
    earlier(
        block,
        work,
        sum.props,
        octets::string_at(block.strings, offset),
    )
}
