// Items 40 to 45: the receiver of one input.
use crate::answer::Answer;
use crate::arguments::Item;
use crate::out::Out;
use mpe_event::MpeEvent;
use mpe_layout::MpeZone;
use mpe_receiver::MpeReceiver;
use settings::ZoneSettings;

// EVENT.
impl Answer for MpeEvent {
    fn write(&self, out: &mut Out) {
        match *self {
            MpeEvent::NoZone => 0u8.write(out),
            MpeEvent::Zone { zone, manager } => (1u8, zone, manager).write(out),
            MpeEvent::Layout { reset } => (2u8, reset).write(out),
            MpeEvent::Sensitivity { zone, manager } => (3u8, zone, manager).write(out),
            MpeEvent::Mode { zone } => (4u8, zone).write(out),
            MpeEvent::Ignored => 5u8.write(out),
        }
    }
}

// Answers item 41.
fn receive(receiver: &mut MpeReceiver, mut item: Item, out: &mut Out) {
    let word = item.four();
    let event = item.flag().then(|| item.event());
    let received = receiver.receive(word, event);
    *receiver = received.receiver;
    received.reply.write(out);
}

// Answers item 42.
fn set_layout(receiver: &mut MpeReceiver, mut item: Item, out: &mut Out) {
    let set = receiver.set_layout(item.layout());
    *receiver = set.receiver;
    set.reply.write(out);
}

// The reading of a zone.
fn zone(receiver: &MpeReceiver, zone: MpeZone) -> ZoneSettings {
    ZoneSettings {
        manager: receiver.sensitivity(zone, true),
        member: receiver.sensitivity(zone, false),
        mode: receiver.mode(zone),
    }
}

// Answers item 43.
fn zones(receiver: &MpeReceiver, out: &mut Out) {
    let layout = receiver.layout();
    (
        layout,
        zone(receiver, MpeZone::Lower),
        zone(receiver, MpeZone::Upper),
    )
        .write(out);
}

// Answers item 44.
fn channel(receiver: &MpeReceiver, c: u8, out: &mut Out) {
    let controls = (
        receiver.pitch_bend(c),
        receiver.pressure(c),
        receiver.brightness(c),
    );
    (controls, receiver.pitch_offset(c)).write(out);
}

// Answers the item, on a receiver.
pub(crate) fn answer(receiver: &mut MpeReceiver, mut item: Item, out: &mut Out) {
    match item.operation {
        0x40 => {
            *receiver = MpeReceiver::new();
            ().write(out);
        }
        0x41 => receive(receiver, item, out),
        0x42 => set_layout(receiver, item, out),
        0x43 => zones(receiver, out),
        0x44 => channel(receiver, item.byte(), out),
        _ => receiver.pitch_offset_with_remainder(item.byte()).write(out),
    }
}
