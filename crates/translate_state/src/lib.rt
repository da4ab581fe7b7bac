// What is carried from one message to the next where MIDI 1.0 is translated to MIDI 2.0 (translate.rs): the held values of sixteen channels, and which
// records are accepted.
#![tactic(auto)]

ghost use Rattle.std.specs.Prelude.{◌≡◌, ◌&&◌, eqb};
ghost use Rattle.translate_state.specs.State.{new_record, held_allowed, flags_allowed, state_allowed, record_allowed};

// The held values of one channel, each the value and 1, and 0 for none: controllers 101, 100, 99, 98, 6, 0 and 32. Flags: bits 0 and 1 the kind of
// parameter selected last (0 none, 1 registered, 2 assignable); bit 2, the Data Entry MSB was not sent yet; bit 3, Reset All Controllers came meanwhile.
// Bytes and no Option or enum: `ExactlyAccepted` of `translate` says of each byte which values are accepted, and `excess` tests eight of them as words.
#[derive(Clone, Copy, Debug, PartialEq, Eq)]
pub struct ChannelState {
    pub rpn_msb: u8,
    pub rpn_lsb: u8,
    pub nrpn_msb: u8,
    pub nrpn_lsb: u8,
    pub data_msb: u8,
    pub bank_msb: u8,
    pub bank_lsb: u8,
    pub flags: u8,
}

// The record that is carried from one message to the next: the held values of the sixteen channels of a group.
#[derive(Clone, Copy, Debug, PartialEq, Eq)]
pub struct Midi1ToMidi2Group {
    pub state: [ChannelState; 16],
}

// 0 for flags that are allowed, which are below 16, have no kind 3, and bit 3 only beside bit 2.
fn flags_excess(flags: u8) -> u64
    ensures { eqb result 0 ≡ flags_allowed flags }
{
    let f = flags as u64;
    let g = f ^ 4;
    (f / 16) | (g & (g / 2) & 5)
}

// 0 for four held values that are allowed: each stands in 16 bits of a word, and with 127 added has bit 8 where it is above 0x80.
#[tactic(auto, using(crate::proofs::Excess::masked_tests))]
fn held_excess(a: u8, b: u8, c: u8, d: u8) -> u64
    ensures { eqb result 0 ≡ (held_allowed a && (held_allowed b && (held_allowed c && held_allowed d))) }
{
    let values = (a as u64)
        + (b as u64) * 0x1_0000
        + (c as u64) * 0x1_0000_0000
        + (d as u64) * 0x1_0000_0000_0000;
    (values + 0x7F_007F_007F_007F) & 0x100_0100_0100_0100
}

impl ChannelState {
    // 0 where each byte has a value that some list of messages gives it. No branches, so that sixteen channels are tested at once.
    #[tactic(auto, using(crate::proofs::Excess::or_is_zero, crate::proofs::Excess::regrouped), unfolding(crate::specs::State::state_allowed))]
    fn excess(self) -> u64
        ensures { eqb result 0 ≡ state_allowed self }
    {
        held_excess(self.rpn_msb, self.nrpn_msb, self.data_msb, self.bank_lsb)
            | held_excess(self.rpn_lsb, self.nrpn_lsb, self.bank_msb, 0)
            | flags_excess(self.flags)
    }
}

impl Midi1ToMidi2Group {
    // A record with no held values.
    pub fn new() -> Midi1ToMidi2Group
        ensures { result ≡ new_record }
    {
        let empty = ChannelState {
            rpn_msb: 0,
            rpn_lsb: 0,
            nrpn_msb: 0,
            nrpn_lsb: 0,
            data_msb: 0,
            bank_msb: 0,
            bank_lsb: 0,
            flags: 0,
        };
        Midi1ToMidi2Group { state: [empty; 16] }
    }

    // Clears all held values.
    pub fn reset(self) -> Midi1ToMidi2Group
        ensures { result ≡ new_record }
    {
        Midi1ToMidi2Group::new()
    }

    // Each byte of each channel has a value that some list of messages gives it.
    #[tactic(auto, using(crate::proofs::Excess::or_is_zero), unfolding(crate::specs::State::allowed_to))]
    pub fn is_allowed(self) -> bool
        ensures { result ≡ record_allowed self }
    {
        let mut over = 0;
        for state in &self.state {
            over |= state.excess();
        }
        over == 0
    }
}
