// Items 20 to 22: pitch bend values, and pitch offsets without and with their remainders.
use crate::answer::Answer;
use crate::arguments::Item;
use crate::out::Out;
use mpe_pitch::{pitch_bend_value, pitch_offset, pitch_offset_with_remainder};

// Answers the item.
pub(crate) fn answer(mut item: Item, out: &mut Out) {
    match item.operation {
        0x20 => pitch_bend_value(item.signed(), item.sensitivity()).write(out),
        0x21 => pitch_offset(item.two(), item.sensitivity()).write(out),
        _ => pitch_offset_with_remainder(item.two(), item.sensitivity()).write(out),
    }
}
