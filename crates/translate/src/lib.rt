// From MIDI 1.0 to MIDI 2.0 channel voice messages (translate.rs): the two words of a message, or nothing, and the next record.
#![tactic(auto)]

ghost use Rattle.std.specs.Prelude.{◌≡◌, ◌<◌, ◌≤◌, ◌^◌, IsTrue, Ok};
ghost use Rattle.scale.specs.Scale.{widened, zero_extended};
ghost use Rattle.translate_state.specs.State.{value_in, new_record, record_allowed, state_on};
ghost use Rattle.translate.specs.Translate.{translation_read, opcode_number, first_word, controller_data, controller_numbered, controller, joined_value, pending_words, channel_step, msb_entered, lsb_entered, passed_on, control_changed, program_words, note_words, message_translated, with_state, translation_of, record_after, flush_reply, flushed_record};
ghost use Rattle.translate.specs.Lists.{translate_words, flush, TranslatorGives, ListContinues, Formed, ExactlyAccepted, OthersRefused, OthersMet};
ghost use Rattle.translate.specs.Rules.{NoNumberRules, TranslatedByRules};

mod channel;

use channel::{
    HELD_NULL, NULL_AFTER, PENDING, bank_sent, bit_in, complete, enter, hold_bank_lsb,
    hold_bank_msb, mcm, pending_sent, reset_controllers, select,
};
use scale::{upscale, zero_extend_upscale};
use translate_state::{ChannelState, Midi1ToMidi2Group};
use ump::channel_voice1::{channel, first_data, group, is_message, opcode, second_data};
use ump::reply::OutOfRange;

// The record after a call, and its answer: the two words of a MIDI 2.0 message, or none.
#[derive(Clone, Copy)]
pub struct Translated {
    pub translator: Midi1ToMidi2Group,
    pub reply: Result<Option<[u32; 2]>, OutOfRange>,
}

// A channel after a message, and what it gave.
#[derive(Clone, Copy)]
struct Stepped {
    state: ChannelState,
    reply: Option<[u32; 2]>,
}

// The opcode of a MIDI 2.0 channel voice message.
#[derive(Clone, Copy)]
enum Opcode {
    RegisteredController = 0x2,
    AssignableController = 0x3,
    NoteOff = 0x8,
    NoteOn = 0x9,
    PolyPressure = 0xA,
    ControlChange = 0xB,
    ProgramChange = 0xC,
    ChannelPressure = 0xD,
    PitchBend = 0xE,
}

// A channel of a group, and its held values.
#[derive(Clone, Copy)]
struct MidiChannel {
    group: u8,
    channel: u8,
    state: ChannelState,
    ghost group_fits: { group < 16 },
    ghost channel_fits: { channel < 16 },
    ghost entry_fits: { state.data_msb ≤ 128 },
}

// Widening of a value that is in range.
fn up(value: u32, src_bits: u8, dst_bits: u8) -> u32
    requires { (1 ≤ src_bits) × (src_bits < dst_bits) × (dst_bits ≤ 32) × (value < 2 ^ src_bits) }
    ensures is { result ≡ widened src_bits dst_bits value }
    ensures fits { result < 2 ^ dst_bits }
{
    upscale(value, src_bits, dst_bits).unwrap_or(0)
}

// Zero extension of 14 bits to 32.
fn zero_up(value: u32) -> u32
    requires { value < 2 ^ 14 }
    ensures { result ≡ zero_extended 14 32 value }
{
    zero_extend_upscale(value, 14, 32).unwrap_or(0)
}

// A value of 14 bits.
fn joined_value(msb: u8, lsb: u8) -> u32
    ensures { result ≡ joined_value msb lsb }
{
    (msb as u32) * 128 + lsb as u32
}

// The data of a Registered or Assignable Controller.
// Values of 14 and of 7 bits stay numbers with a `requires`: types of their own would be taken apart in each clause, since the definitions are of numbers.
fn controller_data(opcode: Opcode, index: u8, value: u32) -> u32
    requires { value < 2 ^ 14 }
    ensures { result ≡ controller_data (opcode_number opcode) index value }
{
    match opcode {
        Opcode::RegisteredController if index < 32 => zero_up(value),
        _ => up(value, 14, 32),
    }
}

// The value that is held; 0 where there is none.
fn value_in(held: u8) -> u8
    ensures { result ≡ value_in held }
{
    held.saturating_sub(1)
}

fn step_of(state: ChannelState, reply: Option<[u32; 2]>) -> Stepped
    ensures { result ≡ channel_step state reply }
{
    Stepped { state, reply }
}

impl MidiChannel {
    // The first word of a MIDI 2.0 channel voice message.
    fn first_word(self, opcode: Opcode, a: u8, b: u8) -> u32
        ensures { result ≡ first_word self.group (opcode_number opcode) self.channel a b }
    {
        (b as u32)
            | ((a as u32) << 8)
            | ((self.channel as u32) << 16)
            | ((opcode as u32) << 20)
            | ((self.group as u32) << 24)
            | 0x4000_0000
    }

    // A message that passes on, its value of 7 bits widened to 32.
    fn passed_on(self, opcode: Opcode, index: u8, value: u8) -> Option<[u32; 2]>
        requires { value < 128 }
        ensures { result ≡ passed_on self.group self.channel (opcode_number opcode) index value }
    {
        Some([self.first_word(opcode, index, 0), up(value as u32, 7, 32)])
    }

    // A note with a velocity of 16 bits.
    fn note_words(self, opcode: Opcode, note: u8, velocity: u32) -> Option<[u32; 2]>
        requires { velocity < 2 ^ 16 }
        ensures { result ≡ note_words self.group self.channel (opcode_number opcode) note velocity }
    {
        Some([self.first_word(opcode, note, 0), velocity * 0x1_0000])
    }

    // A controller with a held number: nothing where a half is missing, or for the null number.
    #[tactic(auto, unfolding(crate::specs::Translate::controller_numbered))]
    fn controller_numbered(self, opcode: Opcode, msb: u8, lsb: u8, value: u32) -> Option<[u32; 2]>
        requires { value < 2 ^ 14 }
        ensures { result ≡ controller_numbered self.group self.channel (opcode_number opcode) msb lsb value }
    {
        match (msb, lsb) {
            (0, _) | (_, 0) | (HELD_NULL, HELD_NULL) => None,
            _ => Some([
                self.first_word(opcode, msb - 1, lsb - 1),
                controller_data(opcode, lsb - 1, value),
            ]),
        }
    }

    // The selected controller with a value of 14 bits.
    #[tactic(auto, unfolding(crate::specs::Translate::controller))]
    fn controller(self, value: u32) -> Option<[u32; 2]>
        requires { value < 2 ^ 14 }
        ensures { result ≡ controller self.group self.channel self.state value }
    {
        let state = self.state;
        match state.flags % 4 {
            1 => self.controller_numbered(
                Opcode::RegisteredController,
                state.rpn_msb,
                state.rpn_lsb,
                value,
            ),
            2 => self.controller_numbered(
                Opcode::AssignableController,
                state.nrpn_msb,
                state.nrpn_lsb,
                value,
            ),
            _ => None,
        }
    }

    // The pending entry, with LSB 0.
    #[tactic(auto, unfolding(crate::specs::Translate::pending_words))]
    fn pending_words(self) -> Option<[u32; 2]>
        ensures { result ≡ pending_words self.group self.channel self.state }
    {
        if bit_in(self.state.flags, PENDING) && self.state.data_msb != 0 {
            return self.controller(joined_value(self.state.data_msb - 1, 0));
        }
        None
    }

    // Data Entry MSB, controller 6: what is pending is sent, and the value is held.
    #[tactic(auto, unfolding(crate::specs::Translate::entered_after, translate_state::specs::State::entry_held))]
    fn enter_msb(self, value: u8) -> Stepped
        ensures { result ≡ msb_entered self.group self.channel self.state value }
    {
        let out = self.pending_words();
        let entered = enter(pending_sent(self.state), value);
        if out.is_none() && mcm(entered) {
            let next = MidiChannel {
                group: self.group,
                channel: self.channel,
                state: entered,
            };
            return step_of(pending_sent(entered), next.pending_words());
        }
        step_of(entered, out)
    }

    // Data Entry LSB, controller 38.
    #[tactic(auto, unfolding(crate::specs::Translate::lsb_entered))]
    fn enter_lsb(self, value: u8) -> Stepped
        requires { value < 128 }
        ensures { result ≡ lsb_entered self.group self.channel self.state value }
    {
        let state = self.state;
        if bit_in(state.flags, NULL_AFTER) {
            return step_of(pending_sent(state), self.pending_words());
        }
        if state.data_msb == 0 {
            return step_of(state, None);
        }
        step_of(
            complete(state),
            self.controller(joined_value(state.data_msb - 1, value)),
        )
    }

    // A control change.
    #[tactic(auto, unfolding(crate::specs::Translate::control_changed))]
    fn control_change(self, index: u8, value: u8) -> Stepped
        requires { value < 128 }
        ensures { result ≡ control_changed self.group self.channel self.state index value }
    {
        let state = self.state;
        match index {
            0 => step_of(hold_bank_msb(state, value), None),
            6 => self.enter_msb(value),
            32 => step_of(hold_bank_lsb(state, value), None),
            38 => self.enter_lsb(value),
            98..=101 => step_of(
                select(pending_sent(state), index, value),
                self.pending_words(),
            ),
            121 => step_of(
                reset_controllers(state),
                self.passed_on(Opcode::ControlChange, index, value),
            ),
            _ => step_of(state, self.passed_on(Opcode::ControlChange, index, value)),
        }
    }

    // A program change carries the held bank.
    #[tactic(auto, unfolding(crate::specs::Translate::program_words))]
    fn program_words(self, program: u8) -> Option<[u32; 2]>
        ensures { result ≡ program_words self.group self.channel self.state program }
    {
        let state = self.state;
        let program = (program as u32) * 0x100_0000;
        if state.bank_msb == 0 && state.bank_lsb == 0 {
            return Some([self.first_word(Opcode::ProgramChange, 0, 0), program]);
        }
        let bank = (value_in(state.bank_msb) as u32) * 0x100 + value_in(state.bank_lsb) as u32;
        Some([self.first_word(Opcode::ProgramChange, 0, 1), program + bank])
    }

    // A message of this channel, by its opcode and data bytes.
    #[tactic(auto, unfolding(crate::specs::Translate::message_translated))]
    fn step(self, opcode: u8, a: u8, b: u8) -> Stepped
        requires { (a < 128) × (b < 128) }
        ensures { result ≡ message_translated self.group self.channel self.state opcode a b }
    {
        let reply = match (opcode, b) {
            (0xB, _) => return self.control_change(a, b),
            (0xC, _) => return step_of(bank_sent(self.state), self.program_words(a)),
            (0x8, _) => self.note_words(Opcode::NoteOff, a, up(b as u32, 7, 16)),
            (0x9, 0) => self.note_words(Opcode::NoteOff, a, 0x8000),
            (0x9, _) => self.note_words(Opcode::NoteOn, a, up(b as u32, 7, 16)),
            (0xA, _) => self.passed_on(Opcode::PolyPressure, a, b),
            (0xD, _) => self.passed_on(Opcode::ChannelPressure, 0, a),
            _ => Some([
                self.first_word(Opcode::PitchBend, 0, 0),
                up(joined_value(b, a), 14, 32),
            ]),
        };
        step_of(self.state, reply)
    }
}

// A channel of a record that is allowed.
fn on_channel(translator: Midi1ToMidi2Group, group: u8, channel: u8) -> MidiChannel
    requires { (IsTrue (record_allowed translator)) × (group < 16) × (channel < 16) }
    ensures { (result.group ≡ group) × (result.channel ≡ channel) × (result.state ≡ state_on translator channel) }
{
    MidiChannel {
        group,
        channel,
        state: translator.state[channel as usize],
    }
}

// The record with another state of a channel, and an answer.
fn replying(translator: Midi1ToMidi2Group, channel: u8, stepped: Stepped) -> Translated
    requires { channel < 16 }
    ensures { (result.reply ≡ Ok stepped.reply) × (result.translator ≡ with_state translator channel stepped.state) }
{
    let mut t = translator;
    t.state[channel as usize] = stepped.state;
    Translated {
        translator: t,
        reply: Ok(stepped.reply),
    }
}

// A message, by the rules of M2-104 D.3: two words or nothing, and the next record. A record or a word that is not allowed is out of range.
#[tactic(auto, using(crate::proofs::Rules::promised))]
pub fn translate_words(translator: Midi1ToMidi2Group, word: u32) -> Translated
    ensures reply { translation_read result.reply ≡ translation_of translator word }
    ensures state { result.translator ≡ record_after translator word }
    ensures listed { TranslatorGives translator (translate_words word) (translation_read result.reply) result.translator }
    ensures words { ListContinues translator word (translation_read result.reply) result.translator }
    ensures exact { ExactlyAccepted new_record }
    ensures others { OthersRefused translator × OthersMet }
    ensures rules { (Formed translator → TranslatedByRules translator) × NoNumberRules new_record }
{
    if !translator.is_allowed() || !is_message(word) {
        return Translated {
            translator,
            reply: Err(OutOfRange),
        };
    }
    let c = channel(word);
    let next = on_channel(translator, group(word), c).step(
        opcode(word),
        first_data(word),
        second_data(word),
    );
    replying(translator, c, next)
}

// The pending entry of a channel, as a controller of `group` with LSB 0; group and channel are taken modulo 16.
pub fn flush(translator: Midi1ToMidi2Group, group: u8, channel: u8) -> Translated
    ensures reply { translation_read result.reply ≡ flush_reply translator group channel }
    ensures state { result.translator ≡ flushed_record translator group channel }
    ensures listed { TranslatorGives translator (flush group channel) (translation_read result.reply) result.translator }
{
    if !translator.is_allowed() {
        return Translated {
            translator,
            reply: Err(OutOfRange),
        };
    }
    let on = on_channel(translator, group % 16, channel % 16);
    replying(
        translator,
        channel % 16,
        step_of(pending_sent(on.state), on.pending_words()),
    )
}
