// What the programs that run the writer's calls from a script share: numbers as a script spells them, reservations to be lent,
// and the writer's state before, between and behind calls. Each function answers for every input.
#![tactic(auto)]

ghost use Rattle.std.specs.Prelude.{◌≡◌, ◌%◌, ◌<◌, true};
ghost use Rattle.rules.specs.Writer.{fresh};
ghost use Rattle.reservation.specs.Made.{entry_of};
ghost use Rattle.writer.specs.Meaning.{state_of, meaning};
ghost use Rattle.scripts.specs.Scripts.{digit_of, shifted, spelt_of, least, entry_or_least, refusal_of, altered};

use reservation::Reservation;
use writer::{FdtWriter, Refused};

// ---- numbers

// What a hexadecimal digit stands for; another byte stands for some number below 16.
pub fn digit(x: u8) -> u8
    ensures value { result ≡ digit_of x }
    ensures bound { result < 16 }
{
    if x < 58 {
        return x % 16;
    }
    (x % 16 + 9) % 16
}

// The number with one more digit behind it, and without its first where it has 16.
fn shifted(n: u64, x: u8) -> u64
    ensures { result ≡ shifted n x }
{
    n % 1152921504606846976 * 16 + u64::from(digit(x))
}

// The number that all of s spells in hexadecimal, of its last 16 digits; 0 where there are none.
pub fn number(s: &[u8]) -> u64
    ensures { result ≡ spelt_of s.now }
{
    s.iter().fold(0, |n, x| shifted(n, *x))
}

// The low 32 bits of a number.
pub fn word(n: u64) -> u32
    ensures { result ≡ n % 4294967296 }
{
    (n % 4294967296) as u32
}

// ---- reservations

// The first byte of memory, reserved.
pub fn least() -> Reservation
    ensures { entry_of result ≡ least }
{
    match Reservation::new(0, 1) {
        Ok(r) => r,
        Err(_) => unreachable!(),
    }
}

// The reservation of this region; that of the first byte, where the region is none that `Reservation::new` makes.
pub fn reservation(address: u64, size: u64) -> Reservation
    ensures { entry_of result ≡ entry_or_least address size }
{
    Reservation::new(address, size).unwrap_or(least())
}

// ---- the writer's state

// The state of a refused start: zeros, marked finished.
pub fn nothing() -> FdtWriter
    ensures { state_of result ≡ fresh 0 true }
{
    FdtWriter {
        data_len: 0,
        off_dt_struct: 0,
        strings_len: 0,
        phandles_len: 0,
        node_depth: 0,
        node_ended: false,
        finished: true,
        boot_cpuid_phys: 0,
    }
}

// The state that an answer hands back, and the paper's number of its refusal or 0.
pub fn parts(answer: Result<FdtWriter, Refused>) -> (FdtWriter, u64)
    ensures state { state_of result.0 ≡ (meaning answer).state }
    ensures number { result.1 ≡ refusal_of (meaning answer).verdict }
{
    match answer {
        Ok(w) => (w, 0),
        Err(refused) => (refused.writer, refused.error.into()),
    }
}

// The state with another number: 0 is how much of data is in use, 1 where the structure begins, 2 how much of the strings is in
// use, 3 how many phandles are noted, any other how many nodes are open.
// Numbers, as a script has them: an enum of the fields would be this match twice, once from numbers and once to fields.
pub fn altered(mut w: FdtWriter, field: u64, n: usize) -> FdtWriter
    ensures { state_of result ≡ altered (state_of w) field n }
{
    match field {
        0 => w.data_len = n,
        1 => w.off_dt_struct = n,
        2 => w.strings_len = n,
        3 => w.phandles_len = n,
        _ => w.node_depth = n,
    }
    w
}
