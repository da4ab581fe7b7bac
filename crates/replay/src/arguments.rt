// An item's operation and its arguments, which are taken one after the other.
use mpe_layout::{MpeLayout, MpeZone};
use mpe_pitch::MpeSensitivity;
use parameter_event::{Parameter, ParameterChange, ParameterEvent};
use settings::{Settings, ZoneSettings};
use ump::controller::Rpn;

// The operation, and the bytes that are not taken yet. It stays the number of the trace: an enum would only repeat the numbers that each file of items has.
#[derive(Clone, Copy)]
pub(crate) struct Item<'a> {
    pub(crate) operation: u8,
    rest: &'a [u8],
}

impl<'a> Item<'a> {
    pub(crate) fn of(bytes: &'a [u8]) -> Item<'a> {
        let mut item = Item {
            operation: 0,
            rest: bytes,
        };
        item.operation = item.byte();
        item
    }

    // The next N bytes; zeros where fewer are left, to which no whole item comes.
    fn next<const N: usize>(&mut self) -> [u8; N] {
        match self.rest.split_first_chunk() {
            Some((next, rest)) => {
                self.rest = rest;
                *next
            }
            None => [0; N],
        }
    }

    // The next n bytes, or those that are left.
    pub(crate) fn bytes(&mut self, n: usize) -> &'a [u8] {
        let (next, rest) = self.rest.split_at(n.min(self.rest.len()));
        self.rest = rest;
        next
    }

    pub(crate) fn byte(&mut self) -> u8 {
        let [byte]: [u8; 1] = self.next();
        byte
    }

    // 0 is false, anything else true.
    pub(crate) fn flag(&mut self) -> bool {
        self.byte() != 0
    }

    // Two bytes, highest first.
    pub(crate) fn two(&mut self) -> u16 {
        u16::from_be_bytes(self.next())
    }

    // Four bytes, highest first.
    pub(crate) fn four(&mut self) -> u32 {
        u32::from_be_bytes(self.next())
    }

    // Four bytes, highest first, as a signed number.
    pub(crate) fn signed(&mut self) -> i32 {
        i32::from_be_bytes(self.next())
    }

    // 0 is Lower, anything else Upper.
    pub(crate) fn zone(&mut self) -> MpeZone {
        match self.byte() {
            0 => MpeZone::Lower,
            _ => MpeZone::Upper,
        }
    }

    // The two member counts of a layout.
    pub(crate) fn layout(&mut self) -> MpeLayout {
        let [lower, upper]: [u8; 2] = self.next();
        MpeLayout { lower, upper }
    }

    // Semitones and cents.
    pub(crate) fn sensitivity(&mut self) -> MpeSensitivity {
        let [semitones, cents]: [u8; 2] = self.next();
        MpeSensitivity { semitones, cents }
    }

    // P, a parameter.
    pub(crate) fn parameter(&mut self) -> Parameter {
        let [kind, msb, lsb]: [u8; 3] = self.next();
        match kind {
            0 => Parameter::Registered(Rpn::from_parts(msb, lsb)),
            1 => Parameter::NonRegistered { msb, lsb },
            _ => Parameter::Registered(Rpn::Other { msb, lsb }),
        }
    }

    // C, a change.
    pub(crate) fn change(&mut self) -> ParameterChange {
        let [kind, byte]: [u8; 2] = self.next();
        match kind {
            0 => ParameterChange::DataEntryMsb(byte),
            1 => ParameterChange::DataEntryLsb(byte),
            2 => ParameterChange::Increment,
            _ => ParameterChange::Decrement,
        }
    }

    // P C, an event.
    pub(crate) fn event(&mut self) -> ParameterEvent {
        ParameterEvent {
            parameter: self.parameter(),
            change: self.change(),
        }
    }

    // What S sets for a zone: the sensitivities of its manager and of its members, and its mode.
    fn zone_settings(&mut self) -> ZoneSettings {
        ZoneSettings {
            manager: self.sensitivity(),
            member: self.sensitivity(),
            mode: self.byte(),
        }
    }

    // S, a settings record.
    pub(crate) fn settings(&mut self) -> Settings {
        let mut settings = Settings::new();
        settings.layout = self.layout();
        settings.lower = self.zone_settings();
        settings.upper = self.zone_settings();
        for k in 0..16 {
            settings.pitch_bend[k] = self.two();
            settings.pressure[k] = self.byte();
            settings.brightness[k] = self.byte();
        }
        settings
    }
}
