// One cable: its receiving end, and the translator of the messages that the end reads.
ghost use Rattle.std.specs.Prelude.{◌≡◌, List, [], ◌∷◌, ◌++◌, ℕ};
ghost use Rattle.receiving_end.specs.End.{new_end};
ghost use Rattle.translate.specs.Translate.{translation_read, flush_reply};
ghost use Rattle.translate.specs.Lists.{words_answered, words_of, Given};
ghost use Rattle.midi2_text.specs.Cable.{cable_of, new_cable, reply_words, reply_record, heard_reply, heard_cable, flushed_cable, cable_after, flushed_after, heard_words, messages_read, flushed_words};

use byte_call::step;
use receiving_end::end::{End, Reply};
use translate::{Translated, translate_words};
use translate_state::Midi1ToMidi2Group;
use ump::reply::OutOfRange;

#[derive(Clone, Copy)]
pub struct Cable {
    pub end: End,
    pub translator: Midi1ToMidi2Group,
}

// A cable after a byte or a flush, and the words.
#[derive(Clone, Copy)]
pub struct Heard {
    pub cable: Cable,
    pub reply: Result<Option<[u32; 2]>, OutOfRange>,
}

// The translation of a byte's reply: a message is translated, and nothing else gives words.
fn translate_reply(translator: Midi1ToMidi2Group, reply: Reply) -> Translated
    ensures { (translation_read result.reply ≡ reply_words translator reply) × (result.translator ≡ reply_record translator reply) }
{
    match reply {
        Reply::Message(word, _) => translate_words(translator, word),
        Reply::RealTime(_) | Reply::Quiet | Reply::Dropped => Translated {
            translator,
            reply: Ok(None),
        },
    }
}

// A cable of these parts, and the words.
fn of_parts(end: End, translated: Translated) -> Heard
    ensures { (result.reply ≡ translated.reply) × (result.cable ≡ cable_of end translated.translator) }
{
    Heard {
        cable: Cable {
            end,
            translator: translated.translator,
        },
        reply: translated.reply,
    }
}

impl Cable {
    // A new end and a new translator. The words of its bytes are those of the messages that the end reads, and after whatever bytes no byte is declined,
    // and no flush, whatever channels were flushed before it.
    #[tactic(auto, using(crate::proofs::Answered::lists))]
    pub fn new() -> Cable
        ensures is { result ≡ new_cable }
        ensures messages { (bytes : List ℕ) → heard_words result bytes ≡ words_of (messages_read new_end bytes) }
        ensures answered { ((bytes : List ℕ) (byte : ℕ) → Given (heard_reply (cable_after result bytes) byte)) × ((bytes channels : List ℕ) (channel : ℕ) → Given (flush_reply (flushed_after (cable_after result bytes) channels).translator 0 channel)) }
    {
        Cable {
            end: End::new(),
            translator: Midi1ToMidi2Group::new(),
        }
    }

    // The byte call, and the translation of the message that the byte completes.
    #[tactic(auto, using(crate::proofs::Answered::lists))]
    pub fn hear(self, byte: u8) -> Heard
        ensures reply { translation_read result.reply ≡ heard_reply self byte }
        ensures cable { result.cable ≡ heard_cable self byte }
        ensures list { ((bytes : List ℕ) → heard_words self (byte ∷ bytes) ≡ words_answered (translation_read result.reply) ++ heard_words result.cable bytes) × (heard_words self [] ≡ []) }
        ensures after { ((bytes : List ℕ) → cable_after self (byte ∷ bytes) ≡ cable_after result.cable bytes) × (cable_after self [] ≡ self) }
    {
        let stepped = step(self.end, byte);
        of_parts(stepped.end, translate_reply(self.translator, stepped.reply))
    }

    // Sends the pending entry of a channel, in group 0.
    #[tactic(auto, using(crate::proofs::Answered::lists))]
    pub fn flush(self, channel: u8) -> Heard
        ensures reply { translation_read result.reply ≡ flush_reply self.translator 0 channel }
        ensures cable { result.cable ≡ flushed_cable self channel }
        ensures list { ((channels : List ℕ) → flushed_words self (channel ∷ channels) ≡ words_answered (translation_read result.reply) ++ flushed_words result.cable channels) × (flushed_words self [] ≡ []) }
        ensures after { ((channels : List ℕ) → flushed_after self (channel ∷ channels) ≡ flushed_after result.cable channels) × (flushed_after self [] ≡ self) }
    {
        of_parts(self.end, translate::flush(self.translator, 0, channel))
    }
}
