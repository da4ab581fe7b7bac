// Items 70 to 72: restatements.
use crate::answer::{Answer, write_into};
use crate::arguments::Item;
use crate::out::Out;
use crate::sender_items::WORD_BEFORE;
use byte_call::step_all;
use receiving_end::end::End;
use restatement::{restatement_bytes, restatement_words};
use settings::Settings;

// A byte of a buffer before a call.
pub(crate) const BYTE_BEFORE: u8 = 0xA5;

// Gives the end the bytes of a restatement; none of them where it is refused.
fn receive(end: &mut End, settings: Settings) {
    let mut bytes = [BYTE_BEFORE; 1024];
    if let Ok(n) = restatement_bytes(settings, &mut bytes)
        && let Some(written) = bytes.get(..n)
    {
        *end = step_all(*end, written);
    }
}

// Answers the item, on an end.
pub(crate) fn answer(end: &mut End, mut item: Item, out: &mut Out) {
    let settings = item.settings();
    match item.operation {
        0x70 => write_into(
            [BYTE_BEFORE; 1024],
            item.two() as usize,
            |bytes| restatement_bytes(settings, bytes),
            out,
        ),
        0x71 => write_into(
            [WORD_BEFORE; 256],
            item.two() as usize,
            |words| restatement_words(settings, words),
            out,
        ),
        _ => {
            receive(end, settings);
            ().write(out);
        }
    }
}
