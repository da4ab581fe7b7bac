// Items 30 to 39: parameter events, their messages, and a channel's parameter state.
use crate::answer::Answer;
use crate::arguments::Item;
use crate::out::Out;
use parameter_event::{Parameter, ParameterChange, ParameterEvent};
use parameter_messages::{change_message, select_messages, value_messages};
use parameters::ParameterState;

// PARAM, where there is one.
impl Answer for Parameter {
    fn write(&self, out: &mut Out) {
        match *self {
            Parameter::Registered(rpn) => {
                let parts = rpn.into_parts();
                ("R", parts.msb, parts.lsb).write(out);
            }
            Parameter::NonRegistered { msb, lsb } => ("N", msb, lsb).write(out),
        }
    }
}

// C's two numbers.
impl Answer for ParameterChange {
    fn write(&self, out: &mut Out) {
        match *self {
            ParameterChange::DataEntryMsb(byte) => (0u8, byte).write(out),
            ParameterChange::DataEntryLsb(byte) => (1u8, byte).write(out),
            ParameterChange::Increment => (2u8, 0u8).write(out),
            ParameterChange::Decrement => (3u8, 0u8).write(out),
        }
    }
}

impl Answer for ParameterEvent {
    fn write(&self, out: &mut Out) {
        (self.parameter, self.change).write(out);
    }
}

// Answers an item of 30 to 33, which has no state.
pub(crate) fn answer(mut item: Item, out: &mut Out) {
    match item.operation {
        0x30 => item.event().apply(item.two()).write(out),
        0x31 => select_messages(item.byte(), item.parameter()).write(out),
        0x32 => change_message(item.byte(), item.change()).write(out),
        _ => value_messages(item.byte(), item.parameter(), item.two()).write(out),
    }
}

// Answers item 35.
fn receive(state: &mut ParameterState, word: u32, out: &mut Out) {
    let received = state.receive(word);
    *state = received.state;
    received.reply.write(out);
}

// Answers item 39.
fn reading(state: &ParameterState, out: &mut Out) {
    (
        state.rpn_reception(),
        state.nrpn_reception(),
        state.selection(),
    )
        .write(out);
}

// The parameter state after an item that answers nothing.
fn changed(state: &ParameterState, mut item: Item) -> ParameterState {
    match item.operation {
        0x34 => ParameterState::new(),
        0x36 => state.reset_all_controllers(),
        0x37 => state.set_rpn_reception(item.flag()),
        _ => state.set_nrpn_reception(item.flag()),
    }
}

// Answers an item of 34 to 39, on a parameter state.
pub(crate) fn state_answer(state: &mut ParameterState, mut item: Item, out: &mut Out) {
    match item.operation {
        0x35 => receive(state, item.four(), out),
        0x39 => reading(state, out),
        _ => {
            *state = changed(state, item);
            ().write(out);
        }
    }
}
