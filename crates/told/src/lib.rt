// The number and the place of a refusal, as they are printed.
#![tactic(auto)]

ghost use Rattle.std.specs.Prelude.{◌≡◌};
ghost use Rattle.reader.specs.Answers.{inside_number, place_of as readerPlace};
ghost use Rattle.derive.specs.Answers.{number_of, place_of};
ghost use Rattle.device.specs.Answers.{number_of as list_number, place_of as list_place};

use derive::Refusal;
use reader::Numbered;

// The number and the place of a reader's refusal that is carried inside. 40 is not carried: it is the derivation's own.
fn carried(refusal: reader::Refusal) -> Numbered
    ensures number { result.number ≡ inside_number refusal }
    ensures place { result.place ≡ readerPlace refusal }
{
    let Numbered { number: n, place } = reader::told(refusal);
    let number = if n == 40 { 0 } else { n };
    Numbered { number, place }
}

// The number and the place of a refusal: 1 to 12, or 40 to 46; and an offset, an index, or the bytes that were needed.
pub fn told(refusal: Refusal) -> Numbered
    ensures number { result.number ≡ number_of refusal }
    ensures place { result.place ≡ place_of refusal }
{
    let (number, place) = match refusal {
        Refusal::NoSpace => (40, 0),
        Refusal::Reader(r) => return carried(r),
        Refusal::Lists { at } => (41, at),
        Refusal::Configured { at } => (42, at),
        Refusal::Register { at } => (43, at),
        Refusal::Unmet { at } => (44, at),
        Refusal::List { needed } => (45, needed),
        Refusal::Guest { needed } => (46, needed),
    };
    Numbered { number, place }
}

// The number of a refusal, as `told` has it.
pub fn number(refusal: Refusal) -> u64
    ensures { result ≡ number_of refusal }
{
    told(refusal).number
}

// The place of a refusal, as `told` has it.
pub fn place(refusal: Refusal) -> usize
    ensures { result ≡ place_of refusal }
{
    told(refusal).place
}

// The number and the place of a refusal of the list, asked for alone, as `told` has them: 1 to 12, 40 to 42, or 45.
pub fn told_of_list(refusal: device::Refusal) -> Numbered
    ensures number { result.number ≡ list_number refusal }
    ensures place { result.place ≡ list_place refusal }
{
    let (number, place) = match refusal {
        device::Refusal::NoSpace => (40, 0),
        device::Refusal::Reader(r) => return carried(r),
        device::Refusal::Lists { at } => (41, at),
        device::Refusal::Configured { at } => (42, at),
        device::Refusal::List { needed } => (45, needed),
    };
    Numbered { number, place }
}
