// Items 50 to 55: classes of messages, and the messages of a sender.
use crate::answer::{Answer, write_into};
use crate::arguments::Item;
use crate::out::Out;
use mpe_class::{MpeClass, MpeMessage, mpe_class};
use mpe_sender::{mcm_messages, mode_message, note_messages, sensitivity_messages};
use ump::reply::OutOfRange;
use zone_sender::zone_sensitivity_messages;

// A word of a buffer before a call.
pub(crate) const WORD_BEFORE: u32 = 0x2FEF7F7F;

// The kinds of messages by their numbers.
const KINDS: [MpeMessage; 21] = [
    MpeMessage::Mcm,
    MpeMessage::PitchBendSensitivity,
    MpeMessage::PitchBend,
    MpeMessage::ChannelPressure,
    MpeMessage::Brightness,
    MpeMessage::PolyPressure,
    MpeMessage::AllSoundOff,
    MpeMessage::ResetAllControllers,
    MpeMessage::LocalControl,
    MpeMessage::AllNotesOff,
    MpeMessage::OmniOff,
    MpeMessage::OmniOn,
    MpeMessage::MonoModeOn,
    MpeMessage::PolyModeOn,
    MpeMessage::OtherControlChange,
    MpeMessage::OtherRpn,
    MpeMessage::Nrpn,
    MpeMessage::ProgramChange,
    MpeMessage::BankSelect,
    MpeMessage::Note,
    MpeMessage::System,
];

// 0 for Mandatory, 1 for Optional, 2 for Prohibited.
impl Answer for MpeClass {
    fn write(&self, out: &mut Out) {
        (*self as u8).write(out);
    }
}

// The class that item 50 answers.
fn class(mut item: Item) -> Result<MpeClass, OutOfRange> {
    let kind = KINDS.get(item.byte() as usize).ok_or(OutOfRange)?;
    Ok(mpe_class(*kind, item.flag(), item.flag(), item.flag()))
}

// Answers item 53.
fn zone_sensitivity(mut item: Item, out: &mut Out) {
    let layout = item.layout();
    let zone = item.zone();
    let manager = item.sensitivity();
    let member = item.sensitivity();
    let call = |words: &mut [u32]| zone_sensitivity_messages(layout, zone, manager, member, words);
    write_into([WORD_BEFORE; 80], item.byte() as usize, call, out);
}

// Answers item 55.
fn note(mut item: Item, out: &mut Out) {
    let (channel, note, velocity) = (item.byte(), item.byte(), item.byte());
    note_messages(
        channel,
        note,
        velocity,
        item.two(),
        item.byte(),
        item.byte(),
    )
    .write(out);
}

// Answers the item.
pub(crate) fn answer(mut item: Item, out: &mut Out) {
    match item.operation {
        0x50 => class(item).write(out),
        0x51 => mcm_messages(item.zone(), item.byte()).write(out),
        0x52 => sensitivity_messages(item.byte(), item.byte(), item.byte()).write(out),
        0x53 => zone_sensitivity(item, out),
        0x54 => mode_message(item.layout(), item.zone(), item.flag()).write(out),
        _ => note(item, out),
    }
}
