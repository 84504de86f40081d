// The start of a blob: its tests, and the memory reservation block.
ghost use Rattle.std.specs.Prelude.{◌≡◌, ◌+◌, ◌*◌, length, min};
ghost use Rattle.rules.specs.Octets.{lay};
ghost use Rattle.rules.specs.Reservations.{block};
ghost use Rattle.rules.specs.Writer.{start_bytes, start_judged};
ghost use Rattle.reservation.specs.Made.{entries_of};
ghost use Rattle.judge.specs.Judged.{outcome_of};

use crate::{Error, short};
use reservation::Reservation;
use rules::{FDT_HEADER_SIZE, RESERVATION_CEILING};

// The bytes that a start with so many reservations, at most 32, takes: the header, the reservations, and the pair of zeros.
pub fn start_size(count: usize) -> usize
    ensures { result ≡ 56 + 16 * min count 32 }
{
    FDT_HEADER_SIZE + Reservation::SIZE + Reservation::SIZE * count.min(RESERVATION_CEILING)
}

// The tests of a start: NoRoom (33) for over 32 reservations, InvalidMemoryReservation (27),
// OverlappingMemoryReservations (28), NoRoom (33) in data, the first that fails; or Ok.
pub fn judge_start(data_lent: usize, reservations: &[Reservation]) -> Result<(), Error>
    ensures { outcome_of result ≡ start_judged data_lent (entries_of reservations.now) (length reservations.now) }
{
    if RESERVATION_CEILING < reservations.len() {
        return Err(Error::NoRoom);
    }
    if reservation::any_invalid(reservations) {
        return Err(Error::InvalidMemoryReservation);
    }
    if reservation::any_overlap(reservations) {
        return Err(Error::OverlappingMemoryReservations);
    }
    if short(data_lent, 0, start_size(reservations.len())) {
        return Err(Error::NoRoom);
    }
    Ok(())
}

// Lays the reservations into `data` behind the header, in the order given, and a pair of zeros behind them.
fn write_block(data: &mut [u8], reservations: &[Reservation])
    ensures { «data».new ≡ lay «data».old 40 (block (entries_of reservations.now)) }
{
    let mut at = FDT_HEADER_SIZE;
    for reservation in reservations {
        append::words(data, at, &[reservation.address(), reservation.size()]);
        at += Reservation::SIZE;
    }
    octets::put_zeros(data, at, Reservation::SIZE);
}

// Lays zeros into `data` where the header will stand, and the reservations behind them: as much as there is room for.
pub fn write_start(data: &mut [u8], reservations: &[Reservation])
    ensures { «data».new ≡ lay «data».old 0 (start_bytes (entries_of reservations.now)) }
{
    octets::put_zeros(data, 0, FDT_HEADER_SIZE);
    write_block(data, reservations);
}
