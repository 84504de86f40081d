// The command program without its files. Host and input go in; the text to print and the guest to write come out, in lent
// buffers. Whoever calls this reads two files, writes one, and prints, and decides nothing.
#![tactic(auto)]

ghost use Rattle.std.specs.Prelude.{◌≡◌, ◌+◌, ◌≤◌, min, length};
ghost use Rattle.rules.specs.Ceilings.{program_ceiling};
ghost use Rattle.rules.specs.Octets.{lay};
ghost use Rattle.rules.specs.Outcome.{passes, ◌then◌};
ghost use Rattle.rules.specs.Program.{input_judged, host_judged};
ghost use Rattle.program.specs.Run.{text_room, printed_for, answered, guest_left, number_of, place_of, meaning, refused_text, refused_ran, text_of, ran_of};

use reader::Numbered;
use rules::{PROGRAM_CEILING, WORK_WORDS};

// Room for every text that is printed, as specs/Run.antt has it.
pub const TEXT_ROOM: usize = PROGRAM_CEILING + 64;

// Room for every id that an input can name: an id takes four bytes with its newline.
const IDS_ROOM: usize = PROGRAM_CEILING / 4;

// What there is to print and to write: the length of the text, and of the guest. Without a guest the text is a refusal, and no
// guest is written.
#[derive(Clone, Copy)]
pub struct Ran {
    pub text: usize,
    pub guest: Option<usize>,
}

// Why no guest is derived, in the order in which it is judged.
#[derive(Clone, Copy)]
enum Refusal {
    // 41: the input is too long, or a line of it is at fault.
    Input(request::Fault),
    // 3: the host is longer than the program takes.
    Host,
    // The derivation's own.
    Derivation(derive::Refusal),
}

impl From<request::Fault> for Refusal {
    ghost use Rattle.program.specs.declared.Refusal.TheVariants.{Input};

    ghost from_gives = { λ fault refusal. refusal ≡ Input fault };

    fn from(fault: request::Fault) -> Refusal {
        Refusal::Input(fault)
    }
}

impl Refusal {
    // The number and the place, as they are printed.
    fn told(self) -> Numbered
        ensures number { result.number ≡ number_of self }
        ensures place { result.place ≡ place_of self }
    {
        match self {
            Refusal::Input(fault) => Numbered {
                number: 41,
                place: fault.at,
            },
            Refusal::Host => Numbered {
                number: 3,
                place: 0,
            },
            Refusal::Derivation(refusal) => told::told(refusal),
        }
    }
}

// ---- rooms

// A room of N elements, all zero.
fn room<T: Copy + Default, const N: usize>() -> [T; N]
    ensures { length result ≡ N }
{
    [T::default(); N]
}

// ---- the answer in print

// A refusal in print.
fn refused(refusal: Refusal, text: &mut [u8]) -> Ran
    ensures value { result ≡ refused_ran (min (length (refused_text refusal)) (length text.old)) }
    ensures text_after { text.new ≡ lay text.old 0 (refused_text refusal) }
    ensures text_short { length (refused_text refusal) ≤ 64 }
{
    let Numbered { number, place } = refusal.told();
    Ran {
        text: printed::refusal(number, place as u64, text),
        guest: None,
    }
}

// The derivation's answer in print. The list's bytes stand at the front of `list`.
fn told_of(answer: Result<derive::Derived, derive::Refusal>, list: &[u8], text: &mut [u8]) -> Ran
    ensures value { result ≡ ran_of answer (min (length (text_of answer list.now)) (length text.old)) }
    ensures text_after { text.new ≡ lay text.old 0 (text_of answer list.now) }
    ensures list_in_bounds { length (text_of answer list.now) ≤ length list.now + 64 }
{
    match answer {
        Ok(derived) => {
            let paths = octets::part(list, 0, derived.list);
            Ran {
                text: printed::answer(derived.paths, paths, derived.guest, text),
                guest: Some(derived.guest),
            }
        }
        Err(refusal) => refused(Refusal::Derivation(refusal), text),
    }
}

// ---- the program

// Derives a guest from a host and an input that have passed their own tests.
fn derived(host: &[u8], input: &[u8], guest: &mut [u8], text: &mut [u8]) -> Ran
    requires { (input_judged input.now ≡ passes) × (host_judged host.now ≡ passes) × (length input.now ≤ program_ceiling) }
    ensures value { result ≡ answered (printed_for host.now input.now guest.old) (length text.old) }
    ensures text_after { text.new ≡ lay text.old 0 (printed_for host.now input.now guest.old).text }
    ensures guest_after { guest.new ≡ guest_left (printed_for host.now input.now guest.old) guest.old }
    ensures guest_len_bound { length (printed_for host.now input.now guest.old).text ≤ text_room }
{
    let mut configured: [u8; PROGRAM_CEILING] = room();
    let mut excluded: [u8; PROGRAM_CEILING] = room();
    let mut ids: [u64; IDS_ROOM] = room();
    let mut work: [u32; WORK_WORDS] = room();
    let mut list: [u8; PROGRAM_CEILING] = room();
    let c = request::configured_in(input, &mut configured);
    let x = request::excluded_in(input, &mut excluded);
    let n = request::ids_in(input, &mut ids);
    let answer = derive::derive(
        host,
        octets::part(&configured, 0, c),
        octets::part(&excluded, 0, x),
        &ids[..n],
        &mut work,
        &mut list,
        guest,
    );
    told_of(answer, &list, text)
}

// Judges what the program itself asks: the input, and how long the host is. Ok, or Err: the input's refusal, or else the host's.
fn tested(host: &[u8], input: &[u8]) -> Result<(), Refusal>
    ensures { meaning result ≡ (input_judged input.now then host_judged host.now) }
{
    request::input_judged(input)?;
    if PROGRAM_CEILING < host.len() {
        return Err(Refusal::Host);
    }
    Ok(())
}

// Runs the program on a host and an input: the text to print is laid into `text`, and the guest into `guest`, whose length
// is the room that the guest has. What is answered is as said above; a text longer than `text` is cut, and none is longer than
// TEXT_ROOM. A refusal leaves `guest` as it was.
pub fn run(host: &[u8], input: &[u8], guest: &mut [u8], text: &mut [u8]) -> Ran
    ensures value { result ≡ answered (printed_for host.now input.now guest.old) (length text.old) }
    ensures text_after { text.new ≡ lay text.old 0 (printed_for host.now input.now guest.old).text }
    ensures guest_after { guest.new ≡ guest_left (printed_for host.now input.now guest.old) guest.old }
    ensures guest_len_bound { length (printed_for host.now input.now guest.old).text ≤ text_room }
{
    match tested(host, input) {
        Ok(()) => derived(host, input, guest, text),
        Err(refusal) => refused(refusal, text),
    }
}
