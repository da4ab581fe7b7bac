// The states that a trace works on, and the call of each item.
use crate::answer::Answer;
use crate::arguments::Item;
use crate::out::Out;
use crate::{
    allocator_items, end_items, layout_items, parameter_items, pitch_items, receiver_items,
    restatement_items, sender_items, setup_items, translation_items, word_items,
};
use mpe_allocator::MpeNoteAllocator;
use mpe_receiver::MpeReceiver;
use parameters::ParameterState;
use receiving_end::end::End;
use translate_state::Midi1ToMidi2Group;

// Each is new at the start.
#[derive(Clone, Copy)]
pub(crate) struct States {
    end: End,
    parameters: ParameterState,
    receiver: MpeReceiver,
    allocator: MpeNoteAllocator,
    translator: Midi1ToMidi2Group,
}

impl States {
    pub(crate) fn new() -> States {
        States {
            end: End::new(),
            parameters: ParameterState::new(),
            receiver: MpeReceiver::new(),
            allocator: MpeNoteAllocator::new(),
            translator: Midi1ToMidi2Group::new(),
        }
    }

    // Makes the call of a whole item, and writes its answer.
    pub(crate) fn answer(&mut self, item: Item, out: &mut Out) {
        match item.operation {
            0x00..=0x0F => end_items::answer(&mut self.end, item, out),
            0x10..=0x15 => layout_items::answer(item, out),
            0x16..=0x1F => word_items::answer(item, out),
            0x20..=0x2F => pitch_items::answer(item, out),
            0x30..=0x33 => parameter_items::answer(item, out),
            0x34..=0x3F => parameter_items::state_answer(&mut self.parameters, item, out),
            0x40..=0x4F => receiver_items::answer(&mut self.receiver, item, out),
            0x50..=0x5F => sender_items::answer(item, out),
            0x60..=0x6F => allocator_items::answer(&mut self.allocator, item, out),
            0x70..=0x7F => restatement_items::answer(&mut self.end, item, out),
            0x80..=0x85 => translation_items::answer(&mut self.translator, item, out),
            0x86..=0x8F => translation_items::scaled(item).write(out),
            _ => setup_items::answer(item, out),
        }
    }
}
