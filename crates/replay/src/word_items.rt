// Items 16 to 18: groups, channels, and the words of messages.
use crate::answer::Answer;
use crate::arguments::Item;
use crate::out::Out;
use ump::channel_voice1;
use ump::channel_voice1::{Midi1ChannelPressure, Midi1ControlChange, Midi1NoteOn, Midi1PitchBend};
use ump::packet::{Channel, Group, PacketNumber};
use ump::reply::OutOfRange;

// The packet value that item 16 answers.
fn packet_value(kind: u8, value: u8) -> Result<u8, OutOfRange> {
    match kind {
        0 => Ok(Group::new(value)?.index()),
        1 => Ok(Group::from_number(value)?.index()),
        2 => Ok(Channel::new(value)?.index()),
        3 => Ok(Channel::from_number(value)?.index()),
        _ => Err(OutOfRange),
    }
}

// The message of item 17.
fn message(mut item: Item) -> Result<u32, OutOfRange> {
    let kind = item.byte();
    let group = Group::from_bits(item.byte());
    let channel = Channel::from_bits(item.byte());
    let (first, second) = (item.byte(), item.byte());
    match kind {
        0 => Midi1ControlChange::try_new(group, channel, first, second),
        1 => Midi1NoteOn::try_new(group, channel, first, second),
        2 => Midi1ChannelPressure::try_new(group, channel, first),
        3 => Midi1PitchBend::try_new(group, channel, item.two()),
        _ => Err(OutOfRange),
    }
}

// Answers item 18.
fn fields(word: u32, out: &mut Out) {
    if channel_voice1::is_message(word) {
        let fields = [
            channel_voice1::message_type(word),
            channel_voice1::group(word),
            channel_voice1::opcode(word),
            channel_voice1::channel(word),
            channel_voice1::first_data(word),
            channel_voice1::second_data(word),
        ];
        (1u8, fields).write(out);
    } else {
        0u8.write(out);
    }
}

// Answers the item.
pub(crate) fn answer(mut item: Item, out: &mut Out) {
    match item.operation {
        0x16 => packet_value(item.byte(), item.byte()).write(out),
        0x17 => message(item).write(out),
        _ => fields(item.four(), out),
    }
}
