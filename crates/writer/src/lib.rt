// The writer of devicetree blobs: a state by value, and the buffers that each call is lent. Why a call is refused, 20 to 34,
// is the `Error` of its tests, passed on.
#![tactic(auto)]

ghost use Rattle.std.specs.Prelude.{[], ◌≡◌, false, ◌+◌, ◌≤◌, length, Ok, Err, MatchResult};
ghost use Rattle.rules.specs.Ceilings.{blob_ceiling};
ghost use Rattle.rules.specs.Octets.{be32, be64, words32, words64, closed, lay};
ghost use Rattle.rules.specs.Writer.{fresh, start, start_data, begin_node, begin_node_data, end_node, end_node_data, set_boot_cpu, property, property_data, property_strings, bad_string, bad_list, phandle, phandle_data, phandle_strings, phandle_table, finish, finish_data};
ghost use Rattle.reservation.specs.Made.{entries_of};
ghost use Rattle.judge.specs.Judged.{grown};
ghost use Rattle.judge.specs.Meaning.{state_of as judged_of};
ghost use Rattle.writer.specs.Meaning.{state_of, meaning};
ghost use Rattle.writer.specs.Longer.{longer};

use append::Word;
pub use judge::Error;
use judge::{State, start};
use reservation::Reservation;
use rules::{FDT_END, FDT_HEADER_SIZE, FDT_LAST_COMP_VERSION, FDT_MAGIC, FDT_VERSION};

// A blob that is being written: how much of each lent buffer is in use, where the structure block begins, how many nodes
// are open, whether the last token closed one, whether `finish` was called, and the boot CPU.
#[derive(Clone, Copy)]
pub struct FdtWriter {
    pub data_len: usize,
    pub off_dt_struct: usize,
    pub strings_len: usize,
    pub phandles_len: usize,
    pub node_depth: usize,
    pub node_ended: bool,
    pub finished: bool,
    pub boot_cpuid_phys: u32,
}

// Why a call is refused, with the state as it was (of a refused start: zeros, marked finished). A refused call changes no buffer.
#[derive(Clone, Copy)]
pub struct Refused {
    pub writer: FdtWriter,
    pub error: Error,
}

// The state as the tests of a call take it.
impl From<FdtWriter> for State {
    ghost from_gives = { λ writer state. judged_of state ≡ state_of writer };

    fn from(writer: FdtWriter) -> State {
        State {
            data_len: writer.data_len,
            off_dt_struct: writer.off_dt_struct,
            strings_len: writer.strings_len,
            phandles_len: writer.phandles_len,
            node_depth: writer.node_depth,
            node_ended: writer.node_ended,
            finished: writer.finished,
            boot_cpuid_phys: writer.boot_cpuid_phys,
        }
    }
}

impl FdtWriter {
    // Starts a blob with no reservations. Refuses NoRoom (33).
    pub fn new(data: &mut [u8]) -> Result<FdtWriter, Refused>
        ensures answer { meaning result ≡ start (length «data».old) [] 0 }
        ensures bytes { «data».new ≡ start_data «data».old [] 0 }
    {
        FdtWriter::new_with_mem_reserv(data, &[])
    }

    // Starts a blob with these reservations. Refuses, in this order: NoRoom (33) for over 32 of them,
    // InvalidMemoryReservation (27), OverlappingMemoryReservations (28), NoRoom (33) in data. A refused start gives zeros
    // marked finished.
    pub fn new_with_mem_reserv(
        data: &mut [u8],
        reservations: &[Reservation],
    ) -> Result<FdtWriter, Refused>
        ensures answer { meaning result ≡ start (length «data».old) (entries_of reservations.now) (length reservations.now) }
        ensures bytes { «data».new ≡ start_data «data».old (entries_of reservations.now) (length reservations.now) }
    {
        FdtWriter::fresh(0, true).or_refused(start::judge_start(data.len(), reservations))?;
        start::write_start(data, reservations);
        Ok(FdtWriter::fresh(start::start_size(reservations.len()), false))
    }

    // A state of n bytes of data, nothing open.
    fn fresh(n: usize, finished: bool) -> FdtWriter
        ensures { state_of result ≡ fresh n finished }
    {
        FdtWriter {
            data_len: n,
            off_dt_struct: n,
            strings_len: 0,
            phandles_len: 0,
            node_depth: 0,
            node_ended: false,
            finished,
            boot_cpuid_phys: 0,
        }
    }

    // What the tests of a call answer, and with a refusal the state as it was.
    fn or_refused<T>(self, answer: Result<T, Error>) -> Result<T, Refused>
        ensures { MatchResult answer (λ x. result ≡ Ok x) (λ e. result ≡ Err (record { writer = self; error = e })) }
    {
        answer.map_err(|error| Refused {
            writer: self,
            error,
        })
    }

    // Sets the boot CPU of the header. Never refuses.
    pub fn set_boot_cpuid_phys(mut self, boot_cpuid_phys: u32) -> FdtWriter
        ensures { state_of result ≡ set_boot_cpu (state_of self) boot_cpuid_phys }
    {
        self.boot_cpuid_phys = boot_cpuid_phys;
        self
    }

    // Opens a node; its depth is `node_depth` of the next state. Refuses, in this order: ImpossibleState (34),
    // NodeDepthTooLarge (31) where 64 nodes are open, InvalidString (24) for a NUL in the name, InvalidNodeName (29),
    // NoRoom (33).
    pub fn begin_node(mut self, data: &mut [u8], name: &[u8]) -> Result<FdtWriter, Refused>
        ensures answer { meaning result ≡ begin_node (state_of self) (length «data».old) name.now }
        ensures bytes { «data».new ≡ begin_node_data (state_of self) «data».old name.now }
    {
        self.or_refused(judge::begin_node(self.into(), data.len(), name))?;
        append::begin(data, self.data_len, name);
        self.data_len += judge::begin_size(name);
        self.node_depth += 1;
        self.node_ended = false;
        Ok(self)
    }

    // Closes the node whose opening gave this depth. Refuses, in this order: ImpossibleState (34), OutOfOrderEndNode (25)
    // for another depth or 0, NoRoom (33).
    pub fn end_node(mut self, data: &mut [u8], depth: usize) -> Result<FdtWriter, Refused>
        ensures answer { meaning result ≡ end_node (state_of self) (length «data».old) depth }
        ensures bytes { «data».new ≡ end_node_data (state_of self) «data».old depth }
    {
        self.or_refused(judge::end_node(self.into(), data.len(), depth))?;
        append::end(data, self.data_len);
        self.data_len += 4;
        self.node_depth -= 1;
        self.node_ended = true;
        Ok(self)
    }

    // The state behind a property of `size` bytes whose name was sought and `offset` was answered; a name that the strings
    // lack goes behind those used.
    fn with_property(
        mut self,
        strings: &mut [u8],
        offset: usize,
        name: &[u8],
        size: usize,
    ) -> FdtWriter
        requires size_bound { self.data_len + size ≤ blob_ceiling }
        requires strings_len_bound { self.strings_len ≤ blob_ceiling }
        ensures state { state_of result ≡ longer (state_of self) size (length (grown offset self.strings_len name.now)) }
        ensures names { strings.new ≡ lay strings.old self.strings_len (grown offset self.strings_len name.now) }
    {
        self.data_len += size;
        if offset < self.strings_len {
            return self;
        }
        append::name(strings, self.strings_len, name);
        self.strings_len += name.len() + 1;
        self
    }

    // Writes a property of these bytes; `own` says that they break the rule of the helper that was called. A string and numbers
    // are written alike: one function with a closure for the line that differs would be longer by that closure's contract.
    fn property_bytes(
        self,
        data: &mut [u8],
        strings: &mut [u8],
        own: bool,
        name: &[u8],
        val: &[u8],
    ) -> Result<FdtWriter, Refused>
        ensures answer { meaning result ≡ property (state_of self) (length «data».old) strings.old own name.now val.now }
        ensures bytes { «data».new ≡ property_data (state_of self) «data».old strings.old own name.now val.now }
        ensures names { strings.new ≡ property_strings (state_of self) (length «data».old) strings.old own name.now val.now }
    {
        let size = judge::property_size(val);
        let offset = self.or_refused(judge::property(
            self.into(),
            data.len(),
            strings,
            own,
            name,
            size,
        ))?;
        append::property(data, self.data_len, offset, val);
        Ok(self.with_property(strings, offset, name, size))
    }

    // Writes a property of the node opened last. Refuses, in this order: ImpossibleState (34), PropertyAfterEndNode (21),
    // PropertyBeforeBeginNode (20), InvalidString (24) for a NUL in the name, InvalidPropertyName (30), NoRoom (33) in data
    // or strings.
    pub fn property(
        mut self,
        data: &mut [u8],
        strings: &mut [u8],
        name: &[u8],
        val: &[u8],
    ) -> Result<FdtWriter, Refused>
        ensures answer { meaning result ≡ property (state_of self) (length «data».old) strings.old false name.now val.now }
        ensures bytes { «data».new ≡ property_data (state_of self) «data».old strings.old false name.now val.now }
        ensures names { strings.new ≡ property_strings (state_of self) (length «data».old) strings.old false name.now val.now }
    {
        self.property_bytes(data, strings, false, name, val)
    }

    // Writes a property without a value. Refuses as `property` does.
    pub fn property_null(
        mut self,
        data: &mut [u8],
        strings: &mut [u8],
        name: &[u8],
    ) -> Result<FdtWriter, Refused>
        ensures answer { meaning result ≡ property (state_of self) (length «data».old) strings.old false name.now [] }
        ensures bytes { «data».new ≡ property_data (state_of self) «data».old strings.old false name.now [] }
        ensures names { strings.new ≡ property_strings (state_of self) (length «data».old) strings.old false name.now [] }
    {
        self.property_bytes(data, strings, false, name, &[])
    }

    // Writes a property whose value is a string; its NUL is not lent. Refuses, behind ImpossibleState (34) and before all
    // else that `property` refuses, a NUL in the string: InvalidString (24).
    pub fn property_string(
        mut self,
        data: &mut [u8],
        strings: &mut [u8],
        name: &[u8],
        val: &[u8],
    ) -> Result<FdtWriter, Refused>
        ensures answer { meaning result ≡ property (state_of self) (length «data».old) strings.old (bad_string val.now) name.now (closed val.now) }
        ensures bytes { «data».new ≡ property_data (state_of self) «data».old strings.old (bad_string val.now) name.now (closed val.now) }
        ensures names { strings.new ≡ property_strings (state_of self) (length «data».old) strings.old (bad_string val.now) name.now (closed val.now) }
    {
        let own = judge::has_nul(val);
        let size = judge::string_size(val);
        let offset = self.or_refused(judge::property(
            self.into(),
            data.len(),
            strings,
            own,
            name,
            size,
        ))?;
        append::property_string(data, self.data_len, offset, val);
        Ok(self.with_property(strings, offset, name, size))
    }

    // Writes a property whose value is strings, each lent with its NUL. Refuses, behind ImpossibleState (34) and before all
    // else that `property` refuses, a last string without NUL: InvalidString (24).
    pub fn property_string_list(
        mut self,
        data: &mut [u8],
        strings: &mut [u8],
        name: &[u8],
        val: &[u8],
    ) -> Result<FdtWriter, Refused>
        ensures answer { meaning result ≡ property (state_of self) (length «data».old) strings.old (bad_list val.now) name.now val.now }
        ensures bytes { «data».new ≡ property_data (state_of self) «data».old strings.old (bad_list val.now) name.now val.now }
        ensures names { strings.new ≡ property_strings (state_of self) (length «data».old) strings.old (bad_list val.now) name.now val.now }
    {
        self.property_bytes(data, strings, judge::bad_list(val), name, val)
    }

    // Writes a property whose value is these numbers.
    fn property_words<T: Word>(
        self,
        data: &mut [u8],
        strings: &mut [u8],
        name: &[u8],
        words: &[T],
    ) -> Result<FdtWriter, Refused>
        ensures answer { meaning result ≡ property (state_of self) (length «data».old) strings.old false name.now (T.bytes words.now) }
        ensures bytes { «data».new ≡ property_data (state_of self) «data».old strings.old false name.now (T.bytes words.now) }
        ensures names { strings.new ≡ property_strings (state_of self) (length «data».old) strings.old false name.now (T.bytes words.now) }
    {
        let size = judge::words_size(words);
        let offset = self.or_refused(judge::property(
            self.into(),
            data.len(),
            strings,
            false,
            name,
            size,
        ))?;
        append::property_words(data, self.data_len, offset, words);
        Ok(self.with_property(strings, offset, name, size))
    }

    // Writes a property whose value is a 32-bit number. Refuses as `property` does.
    pub fn property_u32(
        mut self,
        data: &mut [u8],
        strings: &mut [u8],
        name: &[u8],
        val: u32,
    ) -> Result<FdtWriter, Refused>
        ensures answer { meaning result ≡ property (state_of self) (length «data».old) strings.old false name.now (be32 val) }
        ensures bytes { «data».new ≡ property_data (state_of self) «data».old strings.old false name.now (be32 val) }
        ensures names { strings.new ≡ property_strings (state_of self) (length «data».old) strings.old false name.now (be32 val) }
    {
        self.property_array_u32(data, strings, name, &[val])
    }

    // Writes a property whose value is a 64-bit number. Refuses as `property` does.
    pub fn property_u64(
        mut self,
        data: &mut [u8],
        strings: &mut [u8],
        name: &[u8],
        val: u64,
    ) -> Result<FdtWriter, Refused>
        ensures answer { meaning result ≡ property (state_of self) (length «data».old) strings.old false name.now (be64 val) }
        ensures bytes { «data».new ≡ property_data (state_of self) «data».old strings.old false name.now (be64 val) }
        ensures names { strings.new ≡ property_strings (state_of self) (length «data».old) strings.old false name.now (be64 val) }
    {
        self.property_array_u64(data, strings, name, &[val])
    }

    // Writes a property whose value is 32-bit numbers. Refuses as `property` does.
    pub fn property_array_u32(
        mut self,
        data: &mut [u8],
        strings: &mut [u8],
        name: &[u8],
        cells: &[u32],
    ) -> Result<FdtWriter, Refused>
        ensures answer { meaning result ≡ property (state_of self) (length «data».old) strings.old false name.now (words32 cells.now) }
        ensures bytes { «data».new ≡ property_data (state_of self) «data».old strings.old false name.now (words32 cells.now) }
        ensures names { strings.new ≡ property_strings (state_of self) (length «data».old) strings.old false name.now (words32 cells.now) }
    {
        self.property_words(data, strings, name, cells)
    }

    // Writes a property whose value is 64-bit numbers. Refuses as `property` does.
    pub fn property_array_u64(
        mut self,
        data: &mut [u8],
        strings: &mut [u8],
        name: &[u8],
        longs: &[u64],
    ) -> Result<FdtWriter, Refused>
        ensures answer { meaning result ≡ property (state_of self) (length «data».old) strings.old false name.now (words64 longs.now) }
        ensures bytes { «data».new ≡ property_data (state_of self) «data».old strings.old false name.now (words64 longs.now) }
        ensures names { strings.new ≡ property_strings (state_of self) (length «data».old) strings.old false name.now (words64 longs.now) }
    {
        self.property_words(data, strings, name, longs)
    }

    // Writes the property `phandle` and notes its number behind those noted. Refuses, in this order: ImpossibleState (34),
    // also where more numbers are noted than lent; DuplicatePhandle (32) for a number noted before; what `property` refuses;
    // NoRoom (33) for another number. A refused call notes nothing.
    pub fn property_phandle(
        mut self,
        data: &mut [u8],
        strings: &mut [u8],
        phandles: &mut [u32],
        val: u32,
    ) -> Result<FdtWriter, Refused>
        ensures answer { meaning result ≡ phandle (state_of self) (length «data».old) strings.old phandles.old val }
        ensures bytes { «data».new ≡ phandle_data (state_of self) «data».old strings.old phandles.old val }
        ensures names { strings.new ≡ phandle_strings (state_of self) (length «data».old) strings.old phandles.old val }
        ensures noted { phandles.new ≡ phandle_table (state_of self) (length «data».old) strings.old phandles.old val }
    {
        let offset = self.or_refused(judge::phandle(
            self.into(),
            data.len(),
            strings,
            phandles,
            val,
        ))?;
        append::property_words(data, self.data_len, offset, &[val]);
        octets::put_word_of(phandles, self.phandles_len, val);
        self.phandles_len += 1;
        Ok(self.with_property(strings, offset, b"phandle", 16))
    }

    // Closes the blob: END, the strings behind it, and the header. `data_len` of the next state is the blob's length.
    // Refuses, in this order: ImpossibleState (34), UnclosedNode (26), NoRoom (33).
    pub fn finish(mut self, data: &mut [u8], strings: &[u8]) -> Result<FdtWriter, Refused>
        ensures answer { meaning result ≡ finish (state_of self) (length «data».old) (length strings.now) }
        ensures bytes { «data».new ≡ finish_data (state_of self) «data».old strings.now }
    {
        self.or_refused(judge::finish(self.into(), data.len(), strings.len()))?;
        let used = self.strings_len;
        let off_dt_strings = self.data_len + 4;
        let totalsize = off_dt_strings + used;
        octets::put_word(data, self.data_len, FDT_END);
        octets::put(data, off_dt_strings, octets::part(strings, 0, used));
        append::words(
            data,
            0,
            &[
                FDT_MAGIC,
                totalsize as u32,
                self.off_dt_struct as u32,
                off_dt_strings as u32,
                FDT_HEADER_SIZE as u32,
                FDT_VERSION,
                FDT_LAST_COMP_VERSION,
                self.boot_cpuid_phys,
                used as u32,
                (off_dt_strings - self.off_dt_struct) as u32,
            ],
        );
        self.data_len = totalsize;
        self.finished = true;
        Ok(self)
    }
}
