// The request text of the command program: lines `c PATH`, `x PATH`, `i DECIMAL`. Here the text is taken apart line by line,
// judged, and turned into the lists that a derivation is lent. No call asks anything of its caller: what would come to stand
// past the end of a lent buffer is dropped, and the lengths answered are those of the whole lists.
#![tactic(auto)]

ghost use Rattle.std.specs.Prelude.{◌≡◌, length};
ghost use Rattle.std.specs.Iterator.{YieldsFirstBy, item_count};
ghost use Rattle.rules.specs.Octets.{lay};
ghost use Rattle.rules.specs.Program.{lines_of, decimal_said, line_said, input_judged, configured_in, excluded_in, ids_in};
ghost use Rattle.request.specs.Answers.{meaning, said, decimal_of, enters, list_in};
ghost use Rattle.request.specs.Lines.{line_at, placed, lines_left};

use rules::PROGRAM_CEILING;

// A line of an input: of `len` bytes, the next one beginning at `next`.
#[derive(Clone, Copy)]
pub struct Line {
    pub len: usize,
    pub next: usize,
}

// The lines of an input from a place on, each with its offset. The paths of a list are walked likewise (`given`), but a path is
// told with whether it is closed, and the paper takes the two apart by rules of their own: one walk for both would be no plainer.
#[derive(Drop)]
struct Lines<'a> {
    input: &'a [u8],
    at: usize,
}

// What a line says. The path of the first two is what stands behind their first two bytes.
#[derive(Clone, Copy)]
pub enum Said {
    Configures,
    Excludes,
    Names(u64),
    Other,
}

// The place of the first fault of an input, which is refusal 41.
#[derive(Clone, Copy)]
pub struct Fault {
    pub at: usize,
}

// ---- lines

// The line that begins at a place of the input: up to the next newline or, where there is none, up to the end, with `next`
// behind its newline or at the end; None at the end and past it.
pub fn line_at(input: &[u8], at: usize) -> Option<Line>
    ensures { result ≡ line_at input.now at }
{
    if input.len() <= at {
        return None;
    }
    let len = octets::length_to(input, at, b'\n');
    let end = at + len;
    let next = if end < input.len() { end + 1 } else { end };
    Some(Line { len, next })
}

impl<'a> Lines<'a> {
    fn of(input: &'a [u8]) -> Self
        ensures { lines_left result ≡ lines_of input.now }
    {
        Lines { input, at: 0 }
    }
}

impl<'a> Iterator for Lines<'a> {
    type Item = (usize, &'a [u8]);

    ghost next_gives = { YieldsFirstBy placed lines_left };

    ghost remaining = { item_count lines_left };

    fn next(&mut self) -> Option<(usize, &'a [u8])> {
        let at = self.at;
        let line = line_at(self.input, at)?;
        self.at = line.next;
        Some((at, octets::part(self.input, at, line.len)))
    }
}

// ---- what a line says

// The number that digits say; None where there is no digit, a byte is none, or the number is 2^64 or more. Leading zeros may
// be as many as they like.
fn decimal(digits: &[u8]) -> Option<u64>
    ensures { decimal_of result ≡ decimal_said digits.now }
{
    if digits.is_empty() {
        return None;
    }
    let mut n: u64 = 0;
    for b in digits {
        if !b.is_ascii_digit() {
            return None;
        }
        n = n.checked_mul(10)?.checked_add(u64::from(*b - b'0'))?;
    }
    Some(n)
}

// What a line says, its newline not counted: Configures or Excludes a path, Names an id, or Other: anything else, a line with
// a NUL, an id of 2^64 or more.
pub fn line_said(text: &[u8]) -> Said
    ensures { said result text.now ≡ line_said text.now }
{
    if octets::nul(text, 0) < text.len() {
        return Said::Other;
    }
    match text {
        [b'c', b' ', ..] => Said::Configures,
        [b'x', b' ', ..] => Said::Excludes,
        [b'i', b' ', digits @ ..] => decimal(digits).map_or(Said::Other, Said::Names),
        _ => Said::Other,
    }
}

// Judges an input. Ok: at most 65,536 bytes, and each line one of the three. Err: `at` is 65536 where it is longer, and else
// the offset of the first other line.
pub fn input_judged(input: &[u8]) -> Result<(), Fault>
    ensures { meaning result ≡ input_judged input.now }
{
    if PROGRAM_CEILING < input.len() {
        return Err(Fault {
            at: PROGRAM_CEILING,
        });
    }
    for (offset, text) in Lines::of(input) {
        if let Said::Other = line_said(text) {
            return Err(Fault { at: offset });
        }
    }
    Ok(())
}

// ---- the lists, each in the order of its lines

// The two lists of paths.
#[derive(Clone, Copy)]
enum List {
    Configured,
    Excluded,
}

// Whether a line goes into a list of paths.
fn enters(list: List, what: Said) -> bool
    ensures { result ≡ enters list what }
{
    match (list, what) {
        (List::Configured, Said::Configures) | (List::Excluded, Said::Excludes) => true,
        _ => false,
    }
}

// Lays one of the two lists of paths, each closed by NUL, into `out` from its front on, and answers the list's length.
fn paths_in(list: List, input: &[u8], out: &mut [u8]) -> usize
    ensures value { result ≡ length (list_in list (lines_of input.now)) }
    ensures out_after { out.new ≡ lay out.old 0 (list_in list (lines_of input.now)) }
{
    let mut laid = 0;
    for (_, text) in Lines::of(input) {
        if enters(list, line_said(text)) {
            let path = octets::part(text, 2, text.len());
            octets::put(out, laid, path);
            octets::put_zeros(out, laid + path.len(), 1);
            laid += path.len() + 1;
        }
    }
    laid
}

// Lays the list of configured paths, each closed by NUL, into `out` from its front on, and answers the list's length. The
// rest of `out` stays.
pub fn configured_in(input: &[u8], out: &mut [u8]) -> usize
    ensures value { result ≡ length (configured_in (lines_of input.now)) }
    ensures out_after { out.new ≡ lay out.old 0 (configured_in (lines_of input.now)) }
{
    paths_in(List::Configured, input, out)
}

// Lays the list of excluded paths, as `configured_in` does, and answers the list's length.
pub fn excluded_in(input: &[u8], out: &mut [u8]) -> usize
    ensures value { result ≡ length (excluded_in (lines_of input.now)) }
    ensures out_after { out.new ≡ lay out.old 0 (excluded_in (lines_of input.now)) }
{
    paths_in(List::Excluded, input, out)
}

// Lays the ids into `out` from its front on, and answers how many there are. The rest of `out` stays.
pub fn ids_in(input: &[u8], out: &mut [u64]) -> usize
    ensures value { result ≡ length (ids_in (lines_of input.now)) }
    ensures out_after { out.new ≡ lay out.old 0 (ids_in (lines_of input.now)) }
{
    let mut laid = 0;
    for (_, text) in Lines::of(input) {
        if let Said::Names(id) = line_said(text) {
            octets::put(out, laid, &[id]);
            laid += 1;
        }
    }
    laid
}
