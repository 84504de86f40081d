// What the case programs of the derivation share: a case read into one buffer, laid out as `cases::case` says, and derived.
#![tactic(auto)]

ghost use Rattle.std.specs.Prelude.{◌≡◌, false, length, IfOk};
ghost use Rattle.std.specs.Io.KnownBytes.{IsAtEnd};
ghost use Rattle.rules.specs.References.{edition1};
ghost use Rattle.rules.specs.Derivation.{derive, derive_list, derive_guest, derive_work};
ghost use Rattle.cases.specs.Case.{host_of};
ghost use Rattle.derive.specs.Answers.{meaning};
ghost use Rattle.casework.specs.Request.{request_of};

use cases::{case, within};
use derive::{Derived, Refusal};
use std::io;
use std::io::Read;
use streams::read_full;

// Reads the parts from k to the one before `end`; nothing where there is no room for them.
fn take<R: Read>(input: &mut R, buf: &mut [u8], k: usize, end: usize) -> io::Result<()> {
    let from = case::start(buf, k);
    let to = case::start(buf, end);
    if let Some(parts) = buf.get_mut(from..to) {
        read_full(input, parts)?;
    }
    Ok(())
}

// Reads the parts of which the head is there, and puts the zeros that the script does not hold.
fn take_parts<R: Read>(input: &mut R, buf: &mut [u8]) -> io::Result<()> {
    take(input, buf, case::LABEL, case::ZEROS)?;
    let zeros = case::start(buf, case::ZEROS);
    octets::put_zeros(buf, zeros, case::number(buf, case::ZEROS));
    take(input, buf, case::REST, case::END)
}

// Reads a case into `buf`, and answers true; false where less than a head is left, and then the input is at its end and `buf` as
// it was.
pub fn take_case<R: Read>(input: &mut R, buf: &mut [u8]) -> io::Result<bool>
    ensures over { IfOk result (λ more. more ≡ false → IsAtEnd (R.remaining input.new)) }
    ensures kept { IfOk result (λ more. more ≡ false → buf.new ≡ buf.old) }
{
    let mut head = [0u8; case::HEAD];
    if read_full(input, &mut head)? < case::HEAD {
        return Ok(false);
    }
    octets::put(buf, 0, &head);
    take_parts(input, buf)?;
    Ok(true)
}

// Derives what a case says: its host and its request, in the buffers that are lent. Answers as `derive::derive` does.
pub fn derived(
    case: &[u8],
    work: &mut [u32],
    list: &mut [u8],
    guest: &mut [u8],
) -> Result<Derived, Refusal>
    ensures result_value { meaning result ≡ derive edition1 (host_of case.now) (request_of case.now) (length work.old) (length list.old) (length guest.old) }
    ensures list_after { list.new ≡ derive_list edition1 (host_of case.now) (request_of case.now) (length work.old) (length guest.old) list.old }
    ensures guest_after { guest.new ≡ derive_guest edition1 (host_of case.now) (request_of case.now) (length work.old) (length list.old) guest.old }
    ensures work_after { work.new ≡ derive_work work.old }
{
    let mut ids = [0u64; case::MOST_IDS];
    case::put_ids(&mut ids, case::part(case, case::IDS));
    let n = within(case::number(case, case::IDS), &ids);
    derive::derive(
        case::host(case),
        case::part(case, case::CONFIGURED),
        case::part(case, case::EXCLUDED),
        &ids[..n],
        work,
        list,
        guest,
    )
}
