// Items 10 to 15: calls of a layout.
use crate::answer::Answer;
use crate::arguments::Item;
use crate::out::Out;
use mpe_layout::{MpeLayout, MpeRole};

impl Answer for MpeRole {
    fn write(&self, out: &mut Out) {
        match *self {
            MpeRole::NoZone => 0u8.write(out),
            MpeRole::Manager(zone) => (1u8, zone).write(out),
            MpeRole::Member(zone) => (2u8, zone).write(out),
        }
    }
}

// Answers the item.
pub(crate) fn answer(mut item: Item, out: &mut Out) {
    let layout = item.layout();
    match item.operation {
        0x10 => MpeLayout::new(layout.lower, layout.upper).write(out),
        0x11 => layout.with_mcm(item.zone(), item.byte()).write(out),
        0x12 => layout.role(item.byte()).write(out),
        0x13 => layout.lowest_member(item.zone()).write(out),
        0x14 => layout.members(item.zone()).write(out),
        _ => layout.is_active().write(out),
    }
}
