// The end: its layout, its reception switches, and every reading. The byte call on it is `byte_call`.
ghost use Rattle.std.specs.Prelude.{◌≡◌, ℤ, ◌<◌};
ghost use Rattle.ump.specs.Outcome.{given, answered, found};
ghost use Rattle.ump.specs.Packet.{packet_value};
ghost use Rattle.parameters.specs.State.{selection_of};
ghost use Rattle.mpe_pitch.specs.Claims.{Within};
ghost use Rattle.mpe_receiver.specs.Receive.{set_reply};
ghost use Rattle.mpe_receiver.specs.Read.{mode_of, sensitivity_of, bend_at, pressure_at, brightness_at, offset_of, pair_of};
ghost use Rattle.mpe_receiver.specs.Ratio.{RatioByRole};
ghost use Rattle.receiving_end.specs.Lists.{set_layout, set_rpn_reception, set_nrpn_reception, layout, mode, sensitivity, pitch_bend, pressure, brightness, pitch_offset, pitch_offset_with_remainder, selection, rpn_reception, nrpn_reception, masked, done, laid_out, counted, ranged, offset, paired, selected, switched, CallGives};
ghost use Rattle.receiving_end.specs.WellFormed.{AlwaysFormed};
ghost use Rattle.receiving_end.specs.Ratio.{AlwaysRatio};
ghost use Rattle.receiving_end.specs.System.{SystemBytes};
ghost use Rattle.receiving_end.specs.End.{new_end, parameter_at, with_parameter, laid_out_end, rpn_switched_at, nrpn_switched_at};

use byte_reader::Reader;
use mpe_event::MpeEvent;
use mpe_layout::{MpeLayout, MpeZone};
use mpe_pitch::{MpeSensitivity, OffsetWithRemainder};
use mpe_receiver::MpeReceiver;
use parameter_event::Parameter;
use parameters::ParameterState;
use ump::reply::OutOfRange;

// A reader, the parameters of each channel, and one receiver. Its layout and its parts' are for C: firmware holds it (bench_lent_c).
#[repr(C)]
#[derive(Clone, Copy)]
pub struct End {
    pub reader: Reader,
    pub parameters: [ParameterState; 16],
    pub receiver: MpeReceiver,
}

// What a byte gets.
#[derive(Clone, Copy, Debug, PartialEq, Eq)]
pub enum Reply {
    Quiet,
    Dropped,
    RealTime(u8),
    // The message's word, and what the receiver made of it.
    Message(u32, MpeEvent),
}

#[derive(Clone, Copy)]
pub struct Stepped {
    pub end: End,
    pub reply: Reply,
}

// What `set_layout` gives.
#[derive(Clone, Copy)]
pub struct LayoutSet {
    pub end: End,
    pub reply: Result<u16, OutOfRange>,
}

impl End {
    // No running status, no begun message, and the parts as when new. Whatever is called on it, it stays well formed.
    pub fn new() -> End
        ensures is { result ≡ new_end }
        ensures always { AlwaysFormed }
        ensures ratio { AlwaysRatio }
        ensures system { SystemBytes }
    {
        End {
            reader: Reader::new(),
            parameters: [ParameterState::new(); 16],
            receiver: MpeReceiver::new(),
        }
    }

    // The parameters of a channel.
    fn parameter(self, channel: u8) -> ParameterState
        ensures { result ≡ parameter_at self (packet_value channel) }
    {
        self.parameters[(channel % 16) as usize]
    }

    // The end with these parameters of a channel.
    fn with_parameter(self, channel: u8, state: ParameterState) -> End
        ensures { result ≡ with_parameter self (packet_value channel) state }
    {
        let mut n = self;
        n.parameters[(channel % 16) as usize] = state;
        n
    }

    // A layout that the application sets.
    pub fn set_layout(self, layout: MpeLayout) -> LayoutSet
        ensures is { (answered result.reply ≡ set_reply self.receiver layout) × (result.end ≡ laid_out_end self layout) }
        ensures call { CallGives self (set_layout layout) (masked (answered result.reply)) result.end }
    {
        let mpe_receiver::LayoutSet { receiver, reply } = self.receiver.set_layout(layout);
        LayoutSet {
            end: End { receiver, ..self },
            reply,
        }
    }

    // Turns a channel's RPN reception on or off. Each kind has calls of its own, by the source's names.
    pub fn set_rpn_reception(self, channel: u8, on: bool) -> End
        ensures is { result ≡ rpn_switched_at self channel on }
        ensures call { CallGives self (set_rpn_reception channel on) done result }
    {
        self.with_parameter(channel, self.parameter(channel).set_rpn_reception(on))
    }

    // Turns a channel's NRPN reception on or off.
    pub fn set_nrpn_reception(self, channel: u8, on: bool) -> End
        ensures is { result ≡ nrpn_switched_at self channel on }
        ensures call { CallGives self (set_nrpn_reception channel on) done result }
    {
        self.with_parameter(channel, self.parameter(channel).set_nrpn_reception(on))
    }

    pub fn rpn_reception(self, channel: u8) -> bool
        ensures is { result ≡ (parameter_at self (packet_value channel)).rpn_on }
        ensures call { CallGives self (rpn_reception channel) (switched result) self }
    {
        self.parameter(channel).rpn_reception()
    }

    pub fn nrpn_reception(self, channel: u8) -> bool
        ensures is { result ≡ (parameter_at self (packet_value channel)).nrpn_on }
        ensures call { CallGives self (nrpn_reception channel) (switched result) self }
    {
        self.parameter(channel).nrpn_reception()
    }

    // The parameter that a data entry on the channel acts on now.
    pub fn selection(self, channel: u8) -> Option<Parameter>
        ensures is { result ≡ selection_of (parameter_at self (packet_value channel)) }
        ensures call { CallGives self (selection channel) (selected result) self }
    {
        self.parameter(channel).selection()
    }

    pub fn layout(self) -> MpeLayout
        ensures is { result ≡ self.receiver.layout }
        ensures call { CallGives self layout (laid_out result) self }
    {
        self.receiver.layout()
    }

    // The mode of a zone: 3 or 4.
    pub fn mode(self, zone: MpeZone) -> u8
        ensures is { result ≡ mode_of self.receiver zone }
        ensures call { CallGives self (mode zone) (counted result) self }
    {
        self.receiver.mode(zone)
    }

    // The manager's or the members' sensitivity of a zone.
    pub fn sensitivity(self, zone: MpeZone, manager: bool) -> MpeSensitivity
        ensures is { result ≡ sensitivity_of self.receiver zone manager }
        ensures call { CallGives self (sensitivity zone manager) (ranged result) self }
    {
        self.receiver.sensitivity(zone, manager)
    }

    pub fn pitch_bend(self, channel: u8) -> u16
        ensures is { result ≡ bend_at self.receiver channel }
        ensures call { CallGives self (pitch_bend channel) (counted result) self }
    {
        self.receiver.pitch_bend(channel)
    }

    pub fn pressure(self, channel: u8) -> u8
        ensures is { result ≡ pressure_at self.receiver channel }
        ensures call { CallGives self (pressure channel) (counted result) self }
    {
        self.receiver.pressure(channel)
    }

    pub fn brightness(self, channel: u8) -> u8
        ensures is { result ≡ brightness_at self.receiver channel }
        ensures call { CallGives self (brightness channel) (counted result) self }
    {
        self.receiver.brightness(channel)
    }

    // The channel's offset in hundredths of a cent, from -2,565,714 to 2,565,400.
    pub fn pitch_offset(self, channel: u8) -> Option<i32>
        ensures is { found result ≡ offset_of self.receiver channel }
        ensures call { CallGives self (pitch_offset channel) (offset (found result)) self }
        ensures within { (z : ℤ) → found result ≡ given z → Within 2565714 2565400 z }
    {
        self.receiver.pitch_offset(channel)
    }

    // The channel's offset with its remainder, from -8,190 to 8,190.
    pub fn pitch_offset_with_remainder(self, channel: u8) -> Option<OffsetWithRemainder>
        ensures is { found result ≡ pair_of self.receiver channel }
        ensures call { CallGives self (pitch_offset_with_remainder channel) (paired (found result)) self }
        ensures ratio { RatioByRole self.receiver channel (found result) }
    {
        self.receiver.pitch_offset_with_remainder(channel)
    }
}
