// Reserved regions of memory, as the memory reservation block lists them (DTSpec 5.3).
#![tactic(auto)]

ghost use Rattle.std.specs.Prelude.{◌≡◌};
ghost use Rattle.rules.specs.Reservations.{made, invalid, any_invalid, overlapping};
ghost use Rattle.rules.specs.Laws.Reservations.{meets, any_meets};
ghost use Rattle.reservation.specs.Made.{meaning, entry_of, entries_of};

// A region of memory that the system is to leave alone. Only `Reservation::new` makes one.
#[derive(Clone, Copy)]
pub struct Reservation {
    address: u64,
    size: u64,
}

// That an address and a size are no reservation: there are no bytes, or they end past the last address.
#[derive(Clone, Copy)]
pub struct InvalidMemoryReservation;

impl Reservation {
    // The bytes that an entry takes in the block.
    pub const SIZE: usize = 16;

    // Makes a reservation. A size of 0, or an end of 2^64 or more, is InvalidMemoryReservation.
    pub fn new(address: u64, size: u64) -> Result<Reservation, InvalidMemoryReservation>
        ensures { meaning result ≡ made address size }
    {
        let reservation = Reservation { address, size };
        if reservation.invalid() {
            return Err(InvalidMemoryReservation);
        }
        Ok(reservation)
    }

    // Where the region begins.
    pub fn address(self) -> u64
        ensures { result ≡ self.address }
    {
        self.address
    }

    // How many bytes it has.
    pub fn size(self) -> u64
        ensures { result ≡ self.size }
    {
        self.size
    }

    fn invalid(self) -> bool
        ensures { result ≡ invalid (entry_of self) }
    {
        self.size == 0 || self.address.checked_add(self.size).is_none()
    }

    // Whether the region that begins first runs into the other; where both begin at one address, whether this one has bytes.
    fn meets(self, later: Reservation) -> bool
        ensures { result ≡ meets (entry_of self) (entry_of later) }
    {
        if self.address <= later.address {
            return later.address - self.address < self.size;
        }
        self.address - later.address < later.size
    }
}

// Whether one is none that `Reservation::new` makes: true or false.
pub fn any_invalid(reservations: &[Reservation]) -> bool
    ensures { result ≡ any_invalid (entries_of reservations.now) }
{
    reservations.iter().any(|r| r.invalid())
}

// Whether one meets `later`.
fn any_meets(reservations: &[Reservation], later: Reservation) -> bool
    ensures { result ≡ any_meets (entries_of reservations.now) (entry_of later) }
{
    reservations.iter().any(|r| r.meets(later))
}

// Whether, in address order, one runs into the next: true or false. Each is judged against all before it, which comes to the
// same, whatever the entries are, and needs no sorting.
pub fn any_overlap(reservations: &[Reservation]) -> bool
    ensures { result ≡ overlapping (entries_of reservations.now) }
{
    for (i, later) in reservations.iter().enumerate() {
        if any_meets(&reservations[..i], *later) {
            return true;
        }
    }
    false
}
