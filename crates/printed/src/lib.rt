// What the command program prints: the paths and the guest's length, or a refusal. The text is laid into a lent buffer. No
// call asks anything of its caller: what would come to stand past the end is dropped, and the place answered is inside the
// buffer or its end, so that no sum of lengths can wrap.
#![tactic(auto)]

ghost use Rattle.std.specs.Prelude.{◌≡◌, ◌+◌, ◌%◌, ◌<◌, min, length, drop};
ghost use Rattle.rules.specs.Octets.{lay};
ghost use Rattle.rules.specs.Program.{decimal, printed_refusal};
ghost use Rattle.printed.specs.Text.{in_line, in_lines, answer_text, Laid};

// The most digits that a number of 64 bits has.
const DIGITS: usize = 20;

// ---- pieces

// The last digit of a number.
fn digit(n: u64) -> u8
    ensures { result ≡ 48 + n % 10 }
{
    b'0' + (n % 10) as u8
}

// Spells a number at the end of `text` and answers where its digits begin.
// From the last digit on, as long as there are more: a `for` over the places would leave at the first digit, and be no plainer.
fn spell(n: u64, text: &mut [u8; DIGITS]) -> usize
    ensures { (result < 20) × (drop result text.new ≡ decimal n) }
{
    let mut rest = n;
    let mut first = DIGITS - 1;
    while 10 <= rest {
        text[first] = digit(rest);
        rest /= 10;
        first -= 1;
    }
    text[first] = digit(rest);
    first
}

// Lays bytes into `out` from a place on, and answers where they end, or the end of `out` where that comes first.
fn put(out: &mut [u8], at: usize, bytes: &[u8]) -> usize
    ensures { Laid out.old at bytes.now out.new result }
{
    octets::put(out, at, bytes);
    at.saturating_add(bytes.len()).min(out.len())
}

// Lays a number in decimal into `out` from a place on, and answers where it ends, or the end of `out` where that comes first.
pub fn decimal(n: u64, out: &mut [u8], at: usize) -> usize
    ensures { Laid out.old at (decimal n) out.new result }
{
    let mut text = [0u8; DIGITS];
    let first = spell(n, &mut text);
    put(out, at, &text[first..])
}

// A byte of a path list in print: the NUL that closes a path ends its line.
fn in_line(b: u8) -> u8
    ensures { result ≡ in_line b }
{
    if b == 0 { b'\n' } else { b }
}

// Lays a path list into `out` from a place on, each path in a line, and answers as `put` does.
fn put_lines(out: &mut [u8], at: usize, list: &[u8]) -> usize
    ensures { Laid out.old at (in_lines list.now) out.new result }
{
    let end = at.saturating_add(list.len()).min(out.len());
    for p in at..end {
        out[p] = in_line(list[p - at]);
    }
    end
}

// A text under way: the buffer that it is laid into, and where what is laid so far ends, or the end of the buffer where that
// comes first. Pieces in place of one `write!`, which promises nothing of a text that is cut.
#[derive(Drop)]
struct Text<'a> {
    out: &'a mut [u8],
    end: usize,
}

impl<'a> Text<'a> {
    // Lays bytes behind what is laid so far.
    fn bytes(&mut self, bytes: &[u8])
        ensures laid { Laid self.old.out.now self.old.end bytes.now self.new.out.now self.new.end }
        ensures same_reference { self.new.out.ghost_name ≡ self.old.out.ghost_name }
    {
        self.end = put(self.out, self.end, bytes);
    }

    // Lays a number in decimal behind what is laid so far.
    fn number(&mut self, n: u64)
        ensures laid { Laid self.old.out.now self.old.end (decimal n) self.new.out.now self.new.end }
        ensures same_reference { self.new.out.ghost_name ≡ self.old.out.ghost_name }
    {
        self.end = decimal(n, self.out, self.end);
    }

    // Lays a path list behind what is laid so far, each path in a line.
    fn lines(&mut self, list: &[u8])
        ensures laid { Laid self.old.out.now self.old.end (in_lines list.now) self.new.out.now self.new.end }
        ensures same_reference { self.new.out.ghost_name ≡ self.old.out.ghost_name }
    {
        self.end = put_lines(self.out, self.end, list);
    }
}

// ---- the two texts

// Lays the text of a refusal into `out` from its front on, and answers how many bytes of `out` it takes: its length, or all
// of `out` where that is shorter. The rest of `out` stays.
pub fn refusal(number: u64, place: u64, out: &mut [u8]) -> usize
    ensures value { result ≡ min (length (printed_refusal number place)) (length out.old) }
    ensures out_after { out.new ≡ lay out.old 0 (printed_refusal number place) }
{
    let mut text = Text { out, end: 0 };
    text.bytes(b"refused ");
    text.number(number);
    text.bytes(b" at ");
    text.number(place);
    text.bytes(b"\n");
    text.end
}

// Lays the text of an answer into `out`, as `refusal` does: how many paths, the list with each of its NULs turned into a
// newline, and the guest's length. Of a list of paths without NUL, each closed by NUL, it is the text that is defined
// (specs/Text.antt, answer_printed).
pub fn answer(paths: usize, list: &[u8], guest: usize, out: &mut [u8]) -> usize
    ensures value { result ≡ min (length (answer_text paths list.now guest)) (length out.old) }
    ensures out_after { out.new ≡ lay out.old 0 (answer_text paths list.now guest) }
{
    let mut text = Text { out, end: 0 };
    text.bytes(b"paths ");
    text.number(paths as u64);
    text.bytes(b"\n");
    text.lines(list);
    text.bytes(b"guest ");
    text.number(guest as u64);
    text.bytes(b"\n");
    text.end
}
