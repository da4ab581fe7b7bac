// What a message does to the held values of its channel (translate.rs).
ghost use Rattle.std.specs.Prelude.{◌≡◌, ◌<◌};
ghost use Rattle.translate_state.specs.State.{held, bit_in, with_bit, without_bit, with_kind, with_entry, selection_nulled, pending_sent, number_held, kind_of_number, number_selected, mcm_selected, entry_held, completed, controllers_reset, bank_msb_held, bank_lsb_held, bank_sent};

use translate_state::ChannelState;

// The held value 0x7F, of which the null number has two.
pub(crate) const HELD_NULL: u8 = 0x80;

// The bit of the flags for an entry that was not sent yet.
pub(crate) const PENDING: u8 = 2;

// The bit of the flags for a reset that came meanwhile.
pub(crate) const NULL_AFTER: u8 = 3;

// A held value.
fn held(value: u8) -> u8
    ensures { result ≡ held value }
{
    value % 128 + 1
}

// Bit `k` of the flags is set.
pub(crate) fn bit_in(flags: u8, k: u8) -> bool
    requires { k < 8 }
    ensures { result ≡ bit_in k flags }
{
    (flags >> k) & 1 == 1
}

#[tactic(auto, using(crate::proofs::Bits::room_for_bit))]
fn with_bit(flags: u8, k: u8) -> u8
    requires { k < 8 }
    ensures { result ≡ with_bit k flags }
{
    if bit_in(flags, k) {
        return flags;
    }
    flags + (1 << k)
}

#[tactic(auto, using(crate::proofs::Bits::bit_below))]
fn without_bit(flags: u8, k: u8) -> u8
    requires { k < 8 }
    ensures { result ≡ without_bit k flags }
{
    if bit_in(flags, k) {
        return flags - (1 << k);
    }
    flags
}

fn with_kind(flags: u8, kind: u8) -> u8
    requires { kind < 4 }
    ensures { result ≡ with_kind flags kind }
{
    flags / 4 * 4 + kind
}

// The kind of a parameter number's controller: registered for 101 and 100, assignable for 99 and 98.
fn kind_of_number(index: u8) -> u8
    ensures is { result ≡ kind_of_number index }
    ensures small { result < 4 }
{
    match index {
        101 | 100 => 1,
        _ => 2,
    }
}

// Bank Select MSB is held, and sets the held LSB to 0.
pub(crate) fn hold_bank_msb(state: ChannelState, value: u8) -> ChannelState
    ensures { result ≡ bank_msb_held state value }
{
    ChannelState {
        bank_msb: held(value),
        bank_lsb: held(0),
        ..state
    }
}

// Bank Select LSB is held.
pub(crate) fn hold_bank_lsb(state: ChannelState, value: u8) -> ChannelState
    ensures { result ≡ bank_lsb_held state value }
{
    ChannelState {
        bank_lsb: held(value),
        ..state
    }
}

// No bank is held.
pub(crate) fn bank_sent(state: ChannelState) -> ChannelState
    ensures { result ≡ bank_sent state }
{
    ChannelState {
        bank_msb: 0,
        bank_lsb: 0,
        ..state
    }
}

// With another Data Entry MSB, and other flags.
fn with_entry(state: ChannelState, data_msb: u8, flags: u8) -> ChannelState
    ensures { result ≡ with_entry state data_msb flags }
{
    ChannelState {
        data_msb,
        flags,
        ..state
    }
}

// Both numbers null.
fn nulled(state: ChannelState, flags: u8) -> ChannelState
    ensures { result ≡ selection_nulled state flags }
{
    ChannelState {
        rpn_msb: HELD_NULL,
        rpn_lsb: HELD_NULL,
        nrpn_msb: HELD_NULL,
        nrpn_lsb: HELD_NULL,
        flags: without_bit(flags, NULL_AFTER),
        ..state
    }
}

// The channel after its pending entry was sent.
#[tactic(auto, unfolding(translate_state::specs::State::pending_sent))]
pub(crate) fn pending_sent(state: ChannelState) -> ChannelState
    ensures { result ≡ pending_sent state }
{
    if !bit_in(state.flags, PENDING) {
        return state;
    }
    let flags = without_bit(state.flags, PENDING);
    if bit_in(state.flags, NULL_AFTER) {
        return nulled(state, flags);
    }
    with_entry(state, state.data_msb, flags)
}

// Half a parameter number is stored.
fn store_number(state: ChannelState, index: u8, value: u8) -> ChannelState
    ensures { result ≡ number_held state index value }
{
    let half = held(value);
    match index {
        101 => ChannelState {
            rpn_msb: half,
            ..state
        },
        100 => ChannelState {
            rpn_lsb: half,
            ..state
        },
        99 => ChannelState {
            nrpn_msb: half,
            ..state
        },
        _ => ChannelState {
            nrpn_lsb: half,
            ..state
        },
    }
}

// A parameter number, controllers 98 to 101, is stored, selects its kind, and no Data Entry MSB is held. Any other controller is taken as 98.
#[tactic(auto, unfolding(translate_state::specs::State::number_selected))]
pub(crate) fn select(state: ChannelState, index: u8, value: u8) -> ChannelState
    ensures { result ≡ number_selected state index value }
{
    let s = store_number(state, index, value);
    with_entry(s, 0, with_kind(state.flags, kind_of_number(index)))
}

// The MPE Configuration Message, RPN 0/6, is selected.
#[tactic(auto, unfolding(translate_state::specs::State::mcm_selected))]
pub(crate) fn mcm(state: ChannelState) -> bool
    ensures { result ≡ mcm_selected state }
{
    state.flags % 4 == 1 && state.rpn_msb == held(0) && state.rpn_lsb == held(6)
}

// Reset All Controllers.
#[tactic(auto, unfolding(translate_state::specs::State::controllers_reset))]
pub(crate) fn reset_controllers(state: ChannelState) -> ChannelState
    ensures { result ≡ controllers_reset state }
{
    if bit_in(state.flags, PENDING) {
        return with_entry(state, state.data_msb, with_bit(state.flags, NULL_AFTER));
    }
    nulled(state, state.flags)
}

// Data Entry MSB is held, and pending.
#[tactic(auto, unfolding(translate_state::specs::State::entry_held))]
pub(crate) fn enter(state: ChannelState, value: u8) -> ChannelState
    ensures { result ≡ entry_held state value }
{
    with_entry(state, held(value), with_bit(state.flags, PENDING))
}

// The held Data Entry MSB was sent with an LSB: it is no longer pending.
#[tactic(auto, unfolding(translate_state::specs::State::completed))]
pub(crate) fn complete(state: ChannelState) -> ChannelState
    ensures { result ≡ completed state }
{
    with_entry(state, state.data_msb, without_bit(state.flags, PENDING))
}
