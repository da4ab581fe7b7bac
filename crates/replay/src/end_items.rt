// Items 00 to 09: the receiving end.
use crate::answer::Answer;
use crate::arguments::Item;
use crate::out::Out;
use byte_call::{byte, step};
use lent_end::byte_of;
use mpe_layout::MpeZone;
use receiving_end::end::{End, Reply, Stepped};
use settings::ZoneSettings;

impl Answer for Reply {
    fn write(&self, out: &mut Out) {
        match *self {
            Reply::Quiet => 0u8.write(out),
            Reply::Dropped => 1u8.write(out),
            Reply::RealTime(b) => (2u8, b).write(out),
            Reply::Message(word, event) => (3u8, word, event).write(out),
        }
    }
}

// The end after a byte, and the answer. The translator's and the receiver's are of other types (`translated`, `set_layout`): a trait for them would be longer
// than they are.
fn stepped(end: &mut End, stepped: Stepped, out: &mut Out) {
    *end = stepped.end;
    stepped.reply.write(out);
}

// Answers item 03.
fn set_layout(end: &mut End, mut item: Item, out: &mut Out) {
    let set = end.set_layout(item.layout());
    *end = set.end;
    set.reply.write(out);
}

// The reading of a zone. A receiver has the same readings (items 43 and 44): a trait for both would be longer than they are.
fn zone(end: &End, zone: MpeZone) -> ZoneSettings {
    ZoneSettings {
        manager: end.sensitivity(zone, true),
        member: end.sensitivity(zone, false),
        mode: end.mode(zone),
    }
}

// Answers item 06.
fn zones(end: &End, out: &mut Out) {
    let layout = end.layout();
    (layout, zone(end, MpeZone::Lower), zone(end, MpeZone::Upper)).write(out);
}

// Answers item 07.
fn channel(end: &End, c: u8, out: &mut Out) {
    let controls = (end.pitch_bend(c), end.pressure(c), end.brightness(c));
    let parameters = (
        end.rpn_reception(c),
        end.nrpn_reception(c),
        end.selection(c),
    );
    (controls, end.pitch_offset(c), parameters).write(out);
}

// The end after an item that answers nothing.
fn changed(end: &End, mut item: Item) -> End {
    match item.operation {
        0x00 => End::new(),
        0x04 => end.set_rpn_reception(item.byte(), item.flag()),
        _ => end.set_nrpn_reception(item.byte(), item.flag()),
    }
}

// Answers the item, on an end.
pub(crate) fn answer(end: &mut End, mut item: Item, out: &mut Out) {
    match item.operation {
        0x01 => stepped(end, step(*end, item.byte()), out),
        0x02 => stepped(end, byte_of(*end, item.byte()), out),
        0x03 => set_layout(end, item, out),
        0x06 => zones(end, out),
        0x07 => channel(end, item.byte(), out),
        0x08 => byte(end, item.byte()).write(out),
        0x09 => end.pitch_offset_with_remainder(item.byte()).write(out),
        _ => {
            *end = changed(end, item);
            ().write(out);
        }
    }
}
