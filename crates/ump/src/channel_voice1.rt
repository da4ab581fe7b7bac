// Words of MIDI 1.0 channel voice messages (channel_voice1.rs): type 2 in bits 28 to 31, group in 24 to 27, opcode in 20 to 23, channel in 16 to 19,
// first data byte in 8 to 14, second in 0 to 6.
ghost use Rattle.std.specs.Prelude.{◌≡◌, ◌<◌};
ghost use Rattle.ump.specs.Field.{field};
ghost use Rattle.ump.specs.Packet.{packet_value};
ghost use Rattle.ump.specs.Word.{opcode_of, channel_of, first_of, second_of, form_of, word_form, word_of, two_data_word, one_data_word, bend_word, control_change};
ghost use Rattle.ump.specs.Outcome.{answered};

use crate::packet::{Channel, Group, PacketNumber};
use crate::reply::OutOfRange;

// The message type of a word: 2 in a message.
pub fn message_type(word: u32) -> u8
    ensures { result ≡ field 28 4 word }
{
    ((word >> 28) & 0xF) as u8
}

// The group of a word, 0 to 15.
pub fn group(word: u32) -> u8
    ensures { result ≡ field 24 4 word }
{
    ((word >> 24) & 0xF) as u8
}

// The opcode of a word: 8 to E in a message.
pub fn opcode(word: u32) -> u8
    ensures { result ≡ opcode_of word }
{
    ((word >> 20) & 0xF) as u8
}

// The channel of a word, 0 to 15.
pub fn channel(word: u32) -> u8
    ensures { result ≡ channel_of word }
{
    ((word >> 16) & 0xF) as u8
}

// The first data byte of a word.
pub fn first_data(word: u32) -> u8
    ensures { result ≡ first_of word }
{
    ((word >> 8) & 0x7F) as u8
}

// The second data byte of a word.
pub fn second_data(word: u32) -> u8
    ensures { result ≡ second_of word }
{
    (word & 0x7F) as u8
}

// One bit of a word.
fn bit(word: u32, k: u32) -> u8
    requires { k < 32 }
    ensures { result ≡ field k 1 word }
{
    ((word >> k) & 1) as u8
}

// The form of a message, by message type, the bit above each data byte, opcode and second data byte.
#[tactic(auto, unfolding(crate::specs::Word::form_of))]
fn has_form(message_type: u8, above_first: u8, above_second: u8, opcode: u8, second: u8) -> bool
    ensures { result ≡ form_of message_type above_first above_second opcode second }
{
    message_type == 2
        && above_first == 0
        && above_second == 0
        && match opcode {
            0x8..=0xB | 0xE => true,
            0xC | 0xD => second == 0,
            _ => false,
        }
}

// The word has the form of a message, whatever its group.
#[tactic(auto, unfolding(crate::specs::Word::word_form))]
pub fn is_message(word: u32) -> bool
    ensures { result ≡ word_form word }
{
    has_form(
        message_type(word),
        bit(word, 15),
        bit(word, 7),
        opcode(word),
        second_data(word),
    )
}

// The word of these parts.
fn word_of(opcode: u8, group: Group, channel: Channel, a: u8, b: u8) -> u32
    requires { (opcode < 16) × (a < 128) × (b < 128) }
    ensures { result ≡ word_of (packet_value group.0) opcode (packet_value channel.0) a b }
{
    (b as u32)
        | ((a as u32) << 8)
        | ((channel.into_bits() as u32) << 16)
        | ((opcode as u32) << 20)
        | ((group.into_bits() as u32) << 24)
        | 0x2000_0000
}

// A message of two data bytes. Its opcode is a constant of the caller, so that a type for it would say no more than the `requires`.
#[tactic(auto, unfolding(crate::specs::Word::two_data_word))]
fn two_data(opcode: u8, group: Group, channel: Channel, a: u8, b: u8) -> Result<u32, OutOfRange>
    requires { opcode < 16 }
    ensures { answered result ≡ two_data_word opcode (packet_value group.0) (packet_value channel.0) a b }
{
    if 0x7F < a || 0x7F < b {
        return Err(OutOfRange);
    }
    Ok(word_of(opcode, group, channel, a, b))
}

// A message of one data byte.
#[tactic(auto, unfolding(crate::specs::Word::one_data_word))]
fn one_data(opcode: u8, group: Group, channel: Channel, a: u8) -> Result<u32, OutOfRange>
    requires { opcode < 16 }
    ensures { answered result ≡ one_data_word opcode (packet_value group.0) (packet_value channel.0) a }
{
    if 0x7F < a {
        return Err(OutOfRange);
    }
    Ok(word_of(opcode, group, channel, a, 0))
}

// The four messages have the source's names; each is one call of what they share.
// Note On, opcode 9.
#[derive(Clone, Copy)]
pub struct Midi1NoteOn {}

impl Midi1NoteOn {
    // Refused for a note or velocity above 127.
    pub fn try_new(
        group: Group,
        channel: Channel,
        note: u8,
        velocity: u8,
    ) -> Result<u32, OutOfRange>
        ensures { answered result ≡ two_data_word 0x9 (packet_value group.0) (packet_value channel.0) note velocity }
    {
        two_data(0x9, group, channel, note, velocity)
    }
}

// Control Change, opcode B.
#[derive(Clone, Copy)]
pub struct Midi1ControlChange {}

impl Midi1ControlChange {
    // Refused for an index or data above 127.
    pub fn try_new(group: Group, channel: Channel, index: u8, data: u8) -> Result<u32, OutOfRange>
        ensures { answered result ≡ two_data_word 0xB (packet_value group.0) (packet_value channel.0) index «data» }
    {
        two_data(0xB, group, channel, index, data)
    }
}

// Channel Pressure, opcode D.
#[derive(Clone, Copy)]
pub struct Midi1ChannelPressure {}

impl Midi1ChannelPressure {
    // Refused for a pressure above 127.
    pub fn try_new(group: Group, channel: Channel, pressure: u8) -> Result<u32, OutOfRange>
        ensures { answered result ≡ one_data_word 0xD (packet_value group.0) (packet_value channel.0) pressure }
    {
        one_data(0xD, group, channel, pressure)
    }
}

// Pitch Bend, opcode E.
#[derive(Clone, Copy)]
pub struct Midi1PitchBend {}

impl Midi1PitchBend {
    // Refused for a value above 16,383 (centre 8,192).
    #[tactic(auto, unfolding(crate::specs::Word::bend_word))]
    pub fn try_new(group: Group, channel: Channel, value: u16) -> Result<u32, OutOfRange>
        ensures { answered result ≡ bend_word (packet_value group.0) (packet_value channel.0) value }
    {
        if 0x3FFF < value {
            return Err(OutOfRange);
        }
        let lsb = (value % 128) as u8;
        let msb = (value / 128) as u8;
        Ok(word_of(0xE, group, channel, lsb, msb))
    }
}

// A Control Change with Group 0.
pub fn control_change(channel: u8, controller: u8, value: u8) -> Result<u32, OutOfRange>
    ensures { answered result ≡ control_change channel controller value }
{
    two_data(
        0xB,
        Group::from_bits(0),
        Channel::from_bits(channel),
        controller,
        value,
    )
}
