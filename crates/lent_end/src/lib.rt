// The byte call on a lent end: the end is taken apart and altered where it stands.
#![tactic(auto)]

ghost use Rattle.std.specs.Prelude.{◌≡◌, ◌<◌, ◌^◌};
ghost use Rattle.receiving_end.specs.End.{step_reply, step_end};
ghost use Rattle.receiving_end.specs.Lists.{CallGives, byte_lent, replied};
ghost use Rattle.ump.specs.Word.{bend_of};
ghost use Rattle.byte_reader.specs.Reader.{read_step};
ghost use Rattle.lent_end.specs.Lent.{event_on_member, event_by_role, event_reply, settles_with, settled_end, settled_reply, updated_end, updated_reply, control_end, control_reply, brightness_end, stored_end, message_end, message_reply, read_end, read_reply};

use byte_reader::{Read, ReadStep, Reader};
use mpe_event::MpeEvent;
use mpe_layout::{MpeRole, MpeZone};
use mpe_receiver::{MpeReceiver, Received};
use parameter_event::ParameterEvent;
use receiving_end::end::{End, Reply, Stepped};
use ump::channel_voice1::{channel, first_data, opcode, second_data};

// A message on a member that sets no mode. It asks for no lowest member, as that of mpe_event does: docs/BENCHMARKS.md has what the zones' event costs here.
#[tactic(auto, unfolding(mpe_event::specs::Update::on_member))]
fn event_on_member(zone: MpeZone, mono: bool, opcode: u8, first: u8) -> MpeEvent
    ensures { result ≡ event_on_member zone mono opcode first }
{
    match (opcode, first) {
        (0xA, _) => MpeEvent::Ignored,
        (0xC, _) | (0xB, 0 | 32) if !mono => MpeEvent::Ignored,
        _ => MpeEvent::Zone {
            zone,
            manager: false,
        },
    }
}

// A message that alters no parameter and no zone, by its channel's role.
fn event_by_role(receiver: MpeReceiver, role: MpeRole, word: u32) -> MpeEvent
    ensures { result ≡ event_by_role receiver role word }
{
    match role {
        MpeRole::NoZone => MpeEvent::NoZone,
        MpeRole::Manager(zone) => MpeEvent::Zone {
            zone,
            manager: true,
        },
        MpeRole::Member(zone) => event_on_member(
            zone,
            receiver.mode(zone) == 4,
            opcode(word),
            first_data(word),
        ),
    }
}

// The reply to a message that alters no parameter and no zone.
fn event_reply(receiver: MpeReceiver, word: u32) -> Reply
    ensures { result ≡ event_reply receiver word }
{
    let role = receiver
        .layout
        .role_compared(channel(word))
        .unwrap_or(MpeRole::NoZone);
    Reply::Message(word, event_by_role(receiver, role, word))
}

// The value of a bend.
fn bend_in(word: u32) -> u16
    ensures { result ≡ bend_of word }
{
    second_data(word) as u16 * 128 + first_data(word) as u16
}

// A control change other than a brightness may change the receiver: the parameters gave an event, or it is 121, 126 or 127.
fn settles(event: Option<ParameterEvent>, first: u8) -> bool
    ensures { result ≡ settles_with event first }
{
    event.is_some() || matches!(first, 121 | 126 | 127)
}

// The receiver gets the message, with the event of its channel's parameters, as a whole.
#[tactic(auto, using(receiving_end::proofs::Given::unwrapped))]
fn settle(end: &mut End, word: u32, event: Option<ParameterEvent>) -> Reply
    ensures { (result ≡ settled_reply end.old word event) × (end.new ≡ settled_end end.old word event) }
{
    let Received { receiver, reply } = end.receiver.receive(word, event);
    end.receiver = receiver;
    Reply::Message(word, reply.unwrap_or(MpeEvent::Ignored))
}

// What a control change other than a brightness alters of the receiver.
fn update_receiver(end: &mut End, word: u32, event: Option<ParameterEvent>) -> Reply
    ensures { (result ≡ updated_reply end.old word event) × (end.new ≡ updated_end end.old word event) }
{
    if settles(event, first_data(word)) {
        settle(end, word, event)
    } else {
        event_reply(end.receiver, word)
    }
}

// A control change other than a brightness reaches its channel's parameters, which are stored where they stand, and then the receiver.
#[tactic(auto, using(receiving_end::proofs::Given::unwrapped))]
fn receive_control(end: &mut End, word: u32) -> Reply
    ensures { (result ≡ control_reply end.old word) × (end.new ≡ control_end end.old word) }
{
    let k = channel(word) as usize;
    let got = end.parameters[k].receive(word);
    end.parameters[k] = got.state;
    update_receiver(end, word, got.reply.unwrap_or(None))
}

// A brightness, which alters no parameter and no zone: its reply, and what it stores.
fn receive_brightness(end: &mut End, word: u32) -> Reply
    ensures { (result ≡ event_reply end.old.receiver word) × (end.new ≡ brightness_end end.old word) }
{
    let reply = event_reply(end.receiver, word);
    end.receiver.brightness[channel(word) as usize] = second_data(word);
    reply
}

// A message that is no control change: its reply, and a bend or a pressure is stored.
fn receive_other(end: &mut End, word: u32) -> Reply
    ensures { (result ≡ event_reply end.old.receiver word) × (end.new ≡ stored_end end.old word) }
{
    let reply = event_reply(end.receiver, word);
    let k = channel(word) as usize;
    match opcode(word) {
        0xE => end.receiver.pitch_bend[k] = bend_in(word),
        0xD => end.receiver.pressure[k] = first_data(word),
        _ => {}
    }
    reply
}

// A word that the reader made; opcode F is that of no message.
fn receive_message(end: &mut End, word: u32) -> Reply
    ensures { (result ≡ message_reply end.old word) × (end.new ≡ message_end end.old word) }
{
    match (opcode(word), first_data(word)) {
        (0xF, _) => Reply::Message(word, MpeEvent::Ignored),
        (0xB, 74) => receive_brightness(end, word),
        (0xB, _) => receive_control(end, word),
        _ => receive_other(end, word),
    }
}

// What the reader made of a byte.
fn receive_read(end: &mut End, read: Read) -> Reply
    ensures { (result ≡ read_reply end.old read) × (end.new ≡ read_end end.old read) }
{
    match read {
        Read::Quiet => Reply::Quiet,
        Read::Dropped => Reply::Dropped,
        Read::RealTime(b) => Reply::RealTime(b),
        Read::Message(word) => receive_message(end, word),
    }
}

// What the reader makes of a byte.
fn read_byte(reader: Reader, b: u8) -> ReadStep
    ensures is { result ≡ read_step reader b }
    ensures status { reader.status < 2 ^ 8 }
{
    reader.step(b)
}

// The byte call on a lent end, which is taken apart and altered where it stands.
pub fn byte(end: &mut End, b: u8) -> Reply
    ensures is { (result ≡ step_reply end.old b) × (end.new ≡ step_end end.old b) }
    ensures call { CallGives end.old (byte_lent b) (replied result) end.new }
{
    let ReadStep { reader, read } = read_byte(end.reader, b);
    end.reader = reader;
    receive_read(end, read)
}

// The lent call from values to a value.
pub fn byte_of(e: End, b: u8) -> Stepped
    ensures is { (result.reply ≡ step_reply e b) × (result.end ≡ step_end e b) }
    ensures call { CallGives e (byte_lent b) (replied result.reply) result.end }
{
    let mut end = e;
    let reply = byte(&mut end, b);
    Stepped { end, reply }
}
