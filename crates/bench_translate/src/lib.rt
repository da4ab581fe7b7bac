// A run of translations by value, in one function that a C or Rust caller links (docs/BENCHMARKS.md).
#![tactic(auto)]

ghost use Rattle.std.specs.Prelude.{◌≡◌};
ghost use Rattle.translate_state.specs.State.{new_record};
ghost use Rattle.translate.specs.Translate.{translation_read};
ghost use Rattle.bench_translate.specs.Runs.{answer_code, translations_sum};

use translate::translate_words;
use translate_state::Midi1ToMidi2Group;
use ump::reply::OutOfRange;

fn translation_code(reply: Result<Option<[u32; 2]>, OutOfRange>) -> u64
    ensures { result ≡ answer_code (translation_read reply) }
{
    match reply {
        Ok(Some(words)) => words[0] as u64 + words[1] as u64 * 0x1_0000_0000,
        Ok(None) => 0,
        Err(OutOfRange) => 1,
    }
}

// A new record takes the messages by value: the sum of its answers.
#[unsafe(no_mangle)]
pub extern "C" fn gurfemau_translations(words: &[u32]) -> u64
    ensures { result ≡ translations_sum new_record 0 words.now }
{
    let mut translator = Midi1ToMidi2Group::new();
    let mut sum: u64 = 0;
    for word in words {
        let translated = translate_words(translator, *word);
        translator = translated.translator;
        sum = sum.wrapping_add(translation_code(translated.reply));
    }
    sum
}
