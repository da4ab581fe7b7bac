// The byte reader (document 01, "A byte arrives"; document 02, 2026-06): running status, and the first data byte of a begun message.
#![tactic(auto)]

ghost use Rattle.std.specs.Prelude.{◌≡◌, ◌/◌, ◌%◌};
ghost use Rattle.ump.specs.Word.{word_of};
ghost use Rattle.byte_reader.specs.Reader.{new_reader, reader_at, reading as readAs, class_of_byte, second_data, data_step, class_step, read_step, WordsFormed};
ghost use Rattle.byte_reader.specs.Claims.{EachByte};

// What kind of byte it is (MIDI 1.0, Table I).
#[derive(Clone, Copy, Debug, PartialEq, Eq)]
pub enum ByteClass {
    // 00 to 7F
    Data,
    // 80 to EF
    Status,
    // F0 to F7: the port-select bytes F4 and F5 too
    Common,
    // F9, FD
    Undefined,
    // F8, FA to FC, FE, FF
    RealTime,
}

// Its numbers for none stay: it stands in the `repr(C)` End that firmware holds (bench_lent_c).
#[repr(C)]
#[derive(Clone, Copy, Debug, PartialEq, Eq)]
pub struct Reader {
    // The running status, 80 to EF, or 0 for none.
    pub status: u8,
    // The first data byte of a begun message, or 80 for none.
    pub first: u8,
}

// What the reader makes of a byte.
#[derive(Clone, Copy, Debug, PartialEq, Eq)]
pub enum Read {
    Quiet,
    Dropped,
    RealTime(u8),
    Message(u32),
}

#[derive(Clone, Copy, Debug, PartialEq, Eq)]
pub struct ReadStep {
    pub reader: Reader,
    pub read: Read,
}

#[tactic(auto, unfolding(crate::specs::Reader::class_of_byte))]
fn class_of(b: u8) -> ByteClass
    ensures { result ≡ class_of_byte b }
{
    match b {
        0x00..=0x7F => ByteClass::Data,
        0x80..=0xEF => ByteClass::Status,
        0xF0..=0xF7 => ByteClass::Common,
        0xF9 | 0xFD => ByteClass::Undefined,
        0xF8..=0xFF => ByteClass::RealTime,
    }
}

// What was read, and a reader with this running status and first data byte.
fn reading(status: u8, first: u8, read: Read) -> ReadStep
    ensures { result ≡ readAs (reader_at status first) read }
{
    ReadStep {
        reader: Reader { status, first },
        read,
    }
}

// The word of a message, with Group 0.
fn word_of(status: u8, first: u8, second: u8) -> u32
    ensures { result ≡ word_of 0 (status / 16) (status % 16) first second }
{
    u32::from_be_bytes([0x20, status, first, second])
}

// A data byte that completes a message, or is its first of two.
fn data_of_two(status: u8, first: u8, b: u8) -> ReadStep
    ensures { result ≡ second_data status first b }
{
    if first < 0x80 {
        reading(status, 0x80, Read::Message(word_of(status, first, b)))
    } else {
        reading(status, b, Read::Quiet)
    }
}

#[tactic(auto, unfolding(crate::specs::Reader::data_step))]
fn data_byte(status: u8, first: u8, b: u8) -> ReadStep
    ensures { result ≡ data_step status first b }
{
    match status {
        0x00..=0x7F => reading(status, first, Read::Dropped),
        0xC0..=0xDF => reading(status, first, Read::Message(word_of(status, b, 0))),
        _ => data_of_two(status, first, b),
    }
}

impl Reader {
    // No running status, no begun message.
    pub fn new() -> Reader
        ensures is { result ≡ new_reader }
        ensures formed { WordsFormed result }
    {
        Reader {
            status: 0,
            first: 0x80,
        }
    }

    fn by_class(self, class: ByteClass, b: u8) -> ReadStep
        ensures { result ≡ class_step self class b }
    {
        match class {
            ByteClass::Data => data_byte(self.status, self.first, b),
            ByteClass::Status => reading(b, 0x80, Read::Quiet),
            ByteClass::Common => reading(0, 0x80, Read::Dropped),
            ByteClass::Undefined => reading(self.status, self.first, Read::Dropped),
            ByteClass::RealTime => reading(self.status, self.first, Read::RealTime(b)),
        }
    }

    // One byte.
    #[tactic(auto, using(crate::proofs::EachByte::each_byte))]
    pub fn step(self, b: u8) -> ReadStep
        ensures is { result ≡ read_step self b }
        ensures bytes { EachByte self b result }
    {
        self.by_class(class_of(b), b)
    }
}
