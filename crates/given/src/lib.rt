// Path lists as a request lends them: paths one behind the other, each closed by NUL. Here a list is taken apart entry by
// entry and judged; what its paths name is for others to find. Nothing is copied, and no call asks anything of its caller.
#![tactic(auto)]

ghost use Rattle.std.specs.Prelude.{◌≡◌};
ghost use Rattle.std.specs.Iterator.{YieldsFirstBy, item_count};
ghost use Rattle.rules.specs.Derivation.{given, path_at_fault, paths_judged, lists_judged};
ghost use Rattle.given.specs.Entries.{entry_at, given_path, paths_left};
ghost use Rattle.given.specs.Answers.{meaning, request_lent};

use rules::{ENTRY_CEILING, PATH_CEILING};

// An entry of a list: a path of `len` bytes, whether a NUL closes it, and where the next entry begins.
#[derive(Clone, Copy)]
pub struct Entry {
    pub len: usize,
    pub closed: bool,
    pub next: usize,
}

// A path as a list gives it: its offset in the list, its bytes, and whether a NUL closes it.
#[derive(Clone, Copy)]
pub struct Given<'a> {
    pub offset: usize,
    pub path: &'a [u8],
    pub closed: bool,
}

// The paths of a list from a place on.
#[derive(Drop)]
pub struct Paths<'a> {
    list: &'a [u8],
    at: usize,
}

// The lists of a request: the configured paths, the excluded ones, and the ids of the CPUs.
#[derive(Clone, Copy)]
pub struct Request<'a> {
    pub configured: &'a [u8],
    pub excluded: &'a [u8],
    pub ids: &'a [u64],
}

// The place of the first fault of a request's lists, which is refusal 41.
#[derive(Clone, Copy)]
pub struct Fault {
    pub at: usize,
}

// The entry that begins at a place of a list: up to the next NUL or, where there is none, up to the end, with `next` behind its
// NUL or at the end; None at the end and past it.
pub fn entry_at(list: &[u8], at: usize) -> Option<Entry>
    ensures { result ≡ entry_at list.now at }
{
    if list.len() <= at {
        return None;
    }
    let len = octets::nul(list, at);
    let end = at + len;
    let closed = end < list.len();
    let next = if closed { end + 1 } else { end };
    Some(Entry { len, closed, next })
}

impl<'a> Paths<'a> {
    // The paths of a list.
    pub fn of(list: &'a [u8]) -> Self
        ensures { paths_left result ≡ given list.now }
    {
        Paths { list, at: 0 }
    }
}

impl<'a> Iterator for Paths<'a> {
    type Item = Given<'a>;

    ghost next_gives = { YieldsFirstBy given_path paths_left };

    ghost remaining = { item_count paths_left };

    fn next(&mut self) -> Option<Given<'a>> {
        let offset = self.at;
        let entry = entry_at(self.list, offset)?;
        self.at = entry.next;
        Some(Given {
            offset,
            path: octets::part(self.list, offset, entry.len),
            closed: entry.closed,
        })
    }
}

// Whether the path with this index in its list is at fault: one too many, not closed, without `/` in front, or too long.
fn at_fault(index: usize, given: &Given) -> bool
    ensures { result ≡ path_at_fault index (given_path given.now) }
{
    let many = ENTRY_CEILING <= index;
    many || !given.closed || !octets::begins(b"/", given.path) || PATH_CEILING < given.path.len()
}

// Judges one list. Ok: at most 64 entries, each closed by NUL, beginning with `/`, and of at most 1,024 bytes. Err: `at` is the
// offset of the earliest path at fault; in a long list of good paths that is the 65th.
pub fn paths_judged(list: &[u8]) -> Result<(), Fault>
    ensures { meaning result ≡ paths_judged 0 (given list.now) }
{
    for (index, given) in Paths::of(list).enumerate() {
        if at_fault(index, &given) {
            return Err(Fault { at: given.offset });
        }
    }
    Ok(())
}

// Judges the lists of a request: the configured paths, then the excluded ones, then how many ids there are. Ok, or Err: `at` is
// the offset of the earliest path at fault in the first list that has one, and 64 for more than 64 ids.
pub fn lists_judged(request: &Request) -> Result<(), Fault>
    ensures { meaning result ≡ lists_judged (request_lent request.now) }
{
    paths_judged(request.configured)?;
    paths_judged(request.excluded)?;
    if ENTRY_CEILING < request.ids.len() {
        return Err(Fault { at: ENTRY_CEILING });
    }
    Ok(())
}
