// Items 60 to 65, 67 and 68: the note allocator.
use crate::answer::Answer;
use crate::arguments::Item;
use crate::out::Out;
use mpe_allocator::MpeNoteAllocator;

// Answers item 61.
fn note_on(allocator: &mut MpeNoteAllocator, mut item: Item, out: &mut Out) {
    let noted = allocator.note_on(item.layout(), item.zone(), item.byte());
    *allocator = noted.allocator;
    noted.reply.write(out);
}

// Answers item 65.
fn reading(allocator: &MpeNoteAllocator, out: &mut Out) {
    let mut counts = [0u8; 16];
    for (c, count) in (0..16).zip(counts.iter_mut()) {
        *count = allocator.active_notes(c);
    }
    (counts, allocator.same_note()).write(out);
}

// Answers item 68.
fn set_last_release(allocator: &mut MpeNoteAllocator, channel: u8, release: u32) {
    allocator.last_off[(channel % 16) as usize] = release;
}

// Makes the call of an item that answers nothing.
fn change(allocator: &mut MpeNoteAllocator, mut item: Item) {
    match item.operation {
        0x60 => *allocator = MpeNoteAllocator::new(),
        0x62 => *allocator = allocator.note_off(item.byte()),
        0x63 => *allocator = allocator.set_same_note(item.flag()),
        0x67 => allocator.clock = item.four(),
        0x68 => set_last_release(allocator, item.byte(), item.four()),
        _ => *allocator = allocator.reset(),
    }
}

// Answers the item, on an allocator.
pub(crate) fn answer(allocator: &mut MpeNoteAllocator, item: Item, out: &mut Out) {
    match item.operation {
        0x61 => note_on(allocator, item, out),
        0x65 => reading(allocator, out),
        _ => {
            change(allocator, item);
            ().write(out);
        }
    }
}
