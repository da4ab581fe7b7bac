// The byte call: by value, on a lent end, and for a list of bytes (document 01, "A byte arrives").
#![tactic(auto)]

ghost use Rattle.std.specs.Prelude.{◌≡◌, map, ◌<◌};
ghost use Rattle.receiving_end.specs.End.{message_at, message_step, answer_step, step_reply, step_end};
ghost use Rattle.receiving_end.specs.Lists.{byte_by_value, byte_lent, replied, CallGives, after, after_bytes};

use byte_reader::{Read, ReadStep, Reader};
use mpe_event::MpeEvent;
use receiving_end::end::{End, Reply, Stepped};
use ump::channel_voice1::channel;

// A message of channel k: its parameters receive it first, and the receiver gets their event.
#[tactic(auto, using(receiving_end::proofs::Given::unwrapped), unfolding(receiving_end::specs::End::message_at))]
fn message_at(end: End, k: usize, word: u32) -> Stepped
    requires { k < 16 }
    ensures { result ≡ message_at end k word }
{
    let updated = end.parameters[k].receive(word);
    let got = end.receiver.receive(word, updated.reply.unwrap_or(None));
    let mut n = End {
        receiver: got.receiver,
        ..end
    };
    n.parameters[k] = updated.state;
    Stepped {
        end: n,
        reply: Reply::Message(word, got.reply.unwrap_or(MpeEvent::Ignored)),
    }
}

fn message(end: End, word: u32) -> Stepped
    ensures { result ≡ message_step end word }
{
    message_at(end, channel(word) as usize, word)
}

// What the reader gave reaches the end.
fn answer(end: End, reader: Reader, read: Read) -> Stepped
    ensures { result ≡ answer_step end reader read }
{
    let end = End { reader, ..end };
    let reply = match read {
        Read::Quiet => Reply::Quiet,
        Read::Dropped => Reply::Dropped,
        Read::RealTime(b) => Reply::RealTime(b),
        Read::Message(word) => return message(end, word),
    };
    Stepped { end, reply }
}

// The byte call, by value.
#[tactic(auto, unfolding(receiving_end::specs::End::step_of))]
pub fn step(end: End, b: u8) -> Stepped
    ensures is { (result.reply ≡ step_reply end b) × (result.end ≡ step_end end b) }
    ensures call { CallGives end (byte_by_value b) (replied result.reply) result.end }
{
    let ReadStep { reader, read } = end.reader.step(b);
    answer(end, reader, read)
}

// The byte call on a lent end: the end is taken apart, and what `step` makes of it is put in its place.
pub fn byte(end: &mut End, b: u8) -> Reply
    ensures is { (result ≡ step_reply end.old b) × (end.new ≡ step_end end.old b) }
    ensures call { CallGives end.old (byte_lent b) (replied result) end.new }
{
    let Stepped { end: after, reply } = step(*end, b);
    *end = after;
    reply
}

// The end after all of these bytes: a list of byte calls.
#[tactic(auto, using(receiving_end::proofs::Bytes::one_byte_more), unfolding(receiving_end::specs::Lists::after_bytes))]
pub fn step_all(end: End, bytes: &[u8]) -> End
    ensures is { result ≡ after_bytes end bytes.now }
    ensures calls { result ≡ after end (map byte_by_value bytes.now) }
{
    let mut after = end;
    for b in bytes {
        after = step(after, *b).end;
    }
    after
}
