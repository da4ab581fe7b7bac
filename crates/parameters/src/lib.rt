// The parameter receiver of one channel (parameters.rs).
#![tactic(auto)]

ghost use Rattle.std.specs.Prelude.{◌≡◌};
ghost use Rattle.ump.specs.Outcome.{answered};
ghost use Rattle.parameters.specs.State.{new_state, number, number_switched, with_rpn, with_nrpn, selects, selection_of, nulled, rpn_switched, nrpn_switched, entered, number_stored, controlled, update_by_fields, parameter_reply, parameter_after};

use parameter_event::{Parameter, ParameterChange, ParameterEvent};
use ump::channel_voice1::{first_data, is_message, opcode, second_data};
use ump::controller::Rpn;
use ump::reply::OutOfRange;

// A parameter number: each half 0 to 127, or 0x80 where it was not received.
// 0x80 stands in the place of None: it is a part of End, which is lent to firmware (bench_lent_c), byte for byte.
#[repr(C)]
#[derive(Clone, Copy, Debug, PartialEq, Eq)]
pub struct Number {
    pub msb: u8,
    pub lsb: u8,
}

impl Number {
    // Neither half was received.
    const MISSING: Number = Number {
        msb: 0x80,
        lsb: 0x80,
    };
    // The null number 7F 7F, which selects no parameter.
    const NULL: Number = Number {
        msb: 0x7F,
        lsb: 0x7F,
    };

    // Both halves were received, and the number is not null.
    fn is_selecting(self) -> bool
        ensures { result ≡ selects self.msb self.lsb }
    {
        self.msb < 0x80 && self.lsb < 0x80 && !(self.msb == 0x7F && self.lsb == 0x7F)
    }

    // The number of a kind whose reception is turned on or off. Going on from off, it waits again for both halves.
    fn switched(self, was_on: bool, on: bool) -> Number
        ensures { result ≡ number_switched self was_on on }
    {
        if on && !was_on { Number::MISSING } else { self }
    }
}

// The parameter receiver of one channel: both numbers, the kind stored last, and the reception of each kind.
// The two kinds are fields and no array, and have a function each, by the same reason: it is a part of End.
#[repr(C)]
#[derive(Clone, Copy, Debug, PartialEq, Eq)]
pub struct ParameterState {
    pub rpn: Number,
    pub nrpn: Number,
    pub nrpn_last: bool,
    pub rpn_on: bool,
    pub nrpn_on: bool,
}

// What a message gave: the next state, and at most one event.
#[derive(Clone, Copy, Debug, PartialEq, Eq)]
pub struct ParameterUpdate {
    pub state: ParameterState,
    pub event: Option<ParameterEvent>,
}

// What `receive` answers.
#[derive(Clone, Copy, Debug, PartialEq, Eq)]
pub struct Received {
    pub state: ParameterState,
    pub reply: Result<Option<ParameterEvent>, OutOfRange>,
}

impl ParameterState {
    // No number received, RPN reception on and NRPN reception off.
    pub fn new() -> ParameterState
        ensures { result ≡ new_state }
    {
        ParameterState {
            rpn: Number::MISSING,
            nrpn: Number::MISSING,
            nrpn_last: false,
            rpn_on: true,
            nrpn_on: false,
        }
    }

    // The parameter that a data entry acts on now.
    #[tactic(auto, unfolding(crate::specs::State::selection_of))]
    pub fn selection(self) -> Option<Parameter>
        ensures { result ≡ selection_of self }
    {
        if self.nrpn_last {
            let Number { msb, lsb } = self.nrpn;
            return (self.nrpn_on && self.nrpn.is_selecting()).then_some(Parameter::NonRegistered {
                msb,
                lsb,
            });
        }
        let Number { msb, lsb } = self.rpn;
        (self.rpn_on && self.rpn.is_selecting()).then(|| Parameter::Registered(Rpn::from_parts(
            msb, lsb,
        )))
    }

    // Both numbers become null.
    pub fn reset_all_controllers(self) -> ParameterState
        ensures { result ≡ nulled self }
    {
        ParameterState {
            rpn: Number::NULL,
            nrpn: Number::NULL,
            ..self
        }
    }

    // A data entry or a step: an event for the selected parameter.
    // The selection is taken apart by `let .. else`, as document 01 asks for, and not by `map`.
    fn entry(self, change: ParameterChange) -> ParameterUpdate
        ensures { result ≡ entered self change }
    {
        let Some(parameter) = self.selection() else {
            return ParameterUpdate {
                state: self,
                event: None,
            };
        };
        ParameterUpdate {
            state: self,
            event: Some(ParameterEvent { parameter, change }),
        }
    }

    // A registered number is stored.
    fn with_rpn(self, msb: u8, lsb: u8) -> ParameterState
        ensures { result ≡ with_rpn self (number msb lsb) }
    {
        ParameterState {
            rpn: Number { msb, lsb },
            nrpn_last: false,
            ..self
        }
    }

    // A non-registered number is stored.
    fn with_nrpn(self, msb: u8, lsb: u8) -> ParameterState
        ensures { result ≡ with_nrpn self (number msb lsb) }
    {
        ParameterState {
            nrpn: Number { msb, lsb },
            nrpn_last: true,
            ..self
        }
    }

    // Controllers 98 to 101 store half a number, and 121 makes both numbers null.
    #[tactic(auto, unfolding(crate::specs::State::number_stored))]
    fn store(self, index: u8, value: u8) -> ParameterState
        ensures { result ≡ number_stored self index value }
    {
        match index {
            101 => self.with_rpn(value, self.rpn.lsb),
            100 => self.with_rpn(self.rpn.msb, value),
            99 => self.with_nrpn(value, self.nrpn.lsb),
            98 => self.with_nrpn(self.nrpn.msb, value),
            121 => self.reset_all_controllers(),
            _ => self,
        }
    }

    // A control change, by its two data bytes.
    #[tactic(auto, unfolding(crate::specs::State::controlled))]
    fn control(self, index: u8, value: u8) -> ParameterUpdate
        ensures { result ≡ controlled self index value }
    {
        match index {
            6 => self.entry(ParameterChange::DataEntryMsb(value)),
            38 => self.entry(ParameterChange::DataEntryLsb(value)),
            96 => self.entry(ParameterChange::Increment),
            97 => self.entry(ParameterChange::Decrement),
            _ => ParameterUpdate {
                state: self.store(index, value),
                event: None,
            },
        }
    }

    // A message whose fields are cut: only control changes act.
    fn receive_fields(self, opcode: u8, first: u8, second: u8) -> ParameterUpdate
        ensures { result ≡ update_by_fields self opcode first second }
    {
        if opcode == 0xB {
            return self.control(first, second);
        }
        ParameterUpdate {
            state: self,
            event: None,
        }
    }

    // One message of this receiver's channel: the next state and at most one event. A word that is no message is out of range.
    pub fn receive(self, word: u32) -> Received
        ensures reply { answered result.reply ≡ parameter_reply self word }
        ensures state { result.state ≡ parameter_after self word }
    {
        if !is_message(word) {
            return Received {
                state: self,
                reply: Err(OutOfRange),
            };
        }
        let ParameterUpdate { state, event } = self.receive_fields(
            opcode(word),
            first_data(word),
            second_data(word),
        );
        Received {
            state,
            reply: Ok(event),
        }
    }

    // RPN reception is on.
    pub fn rpn_reception(self) -> bool
        ensures { result ≡ self.rpn_on }
    {
        self.rpn_on
    }

    // NRPN reception is on.
    pub fn nrpn_reception(self) -> bool
        ensures { result ≡ self.nrpn_on }
    {
        self.nrpn_on
    }

    // Turns RPN reception on or off. Going on from off, it waits again for both halves of a number.
    pub fn set_rpn_reception(self, on: bool) -> ParameterState
        ensures { result ≡ rpn_switched self on }
    {
        ParameterState {
            rpn: self.rpn.switched(self.rpn_on, on),
            rpn_on: on,
            ..self
        }
    }

    // Turns NRPN reception on or off. Going on from off, it waits again for both halves of a number.
    pub fn set_nrpn_reception(self, on: bool) -> ParameterState
        ensures { result ≡ nrpn_switched self on }
    {
        ParameterState {
            nrpn: self.nrpn.switched(self.nrpn_on, on),
            nrpn_on: on,
            ..self
        }
    }
}
