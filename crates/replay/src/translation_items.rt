// Items 80 to 89: the translator to MIDI 2.0 words, and the scaling of values.
use crate::answer::Answer;
use crate::arguments::Item;
use crate::out::Out;
use scale::{downscale, upscale, zero_extend_downscale, zero_extend_upscale};
use translate::{Translated, flush, translate_words};
use translate_state::{ChannelState, Midi1ToMidi2Group};
use ump::reply::OutOfRange;

// The translator after a message or a flush, and the answer.
fn translated(translator: &mut Midi1ToMidi2Group, translated: Translated, out: &mut Out) {
    *translator = translated.translator;
    translated.reply.write(out);
}

// Answers item 83.
fn reading(s: ChannelState, out: &mut Out) {
    let numbers = [s.rpn_msb, s.rpn_lsb, s.nrpn_msb, s.nrpn_lsb];
    (numbers, [s.data_msb, s.bank_msb, s.bank_lsb, s.flags]).write(out);
}

// Sets byte k of a channel's state, 0 to 7.
fn set_byte(s: &mut ChannelState, k: u8, value: u8) -> Result<(), OutOfRange> {
    match k {
        0 => s.rpn_msb = value,
        1 => s.rpn_lsb = value,
        2 => s.nrpn_msb = value,
        3 => s.nrpn_lsb = value,
        4 => s.data_msb = value,
        5 => s.bank_msb = value,
        6 => s.bank_lsb = value,
        7 => s.flags = value,
        _ => return Err(OutOfRange),
    }
    Ok(())
}

// The value that an item of 86 to 89 answers.
pub(crate) fn scaled(mut item: Item) -> Result<u32, OutOfRange> {
    let (value, source, destination) = (item.four(), item.byte(), item.byte());
    match item.operation {
        0x86 => upscale(value, source, destination),
        0x87 => downscale(value, source, destination),
        0x88 => zero_extend_upscale(value, source, destination),
        _ => zero_extend_downscale(value, source, destination),
    }
}

// Answers an item of 80 to 84, on a translator.
pub(crate) fn answer(t: &mut Midi1ToMidi2Group, mut item: Item, out: &mut Out) {
    match item.operation {
        0x80 => {
            *t = t.reset();
            ().write(out);
        }
        0x81 => translated(t, translate_words(*t, item.four()), out),
        0x82 => translated(t, flush(*t, item.byte(), item.byte()), out),
        0x83 => reading(t.state[(item.byte() % 16) as usize], out),
        _ => set_byte(
            &mut t.state[(item.byte() % 16) as usize],
            item.byte(),
            item.byte(),
        )
        .write(out),
    }
}
