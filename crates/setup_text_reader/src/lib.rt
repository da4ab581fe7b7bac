// The reader of the text form of a setup file (document 02, 2026-07): the settings and the label that a text says, or its first faulty line.
#![tactic(auto)]

ghost use Rattle.std.specs.Prelude.{◌≡◌, ◌+◌, ◌<◌};
ghost use Rattle.std.specs.Result.{result_unwrap_or};
ghost use Rattle.ump.specs.Choice.{when◌then◌else◌};
ghost use Rattle.ump.specs.Outcome.{given};
ghost use Rattle.settings.specs.Settings.{new_settings};
ghost use Rattle.setup_file.specs.Read.{settings_in, settings_or_new, label_in};
ghost use Rattle.setup_text.specs.Text.{line_fields};
ghost use Rattle.setup_text.specs.Parse.{line_words, number_read, same_bytes, field_read, fields_read, entry_from, silent, no_item, entry_line_read, or_else, item_read, first_place, entry_taken, label_taken, line_taken, text_read, line_in};
ghost use Rattle.setup_text.specs.Claims.{TextForm, FirstFault};
ghost use Rattle.setup_text.specs.Examples.{TextsAsTabled};
ghost use Rattle.setup_text_reader.specs.Progress.{said_read, numbers_found, item_found, byte_for, entry_bytes, said_so_far, read_so_far, whole_read, text_answered, fault_line};

use settings::Settings;
use setup_entry::{SetupError, take_entry};
use setup_file::{Section, label_allowed};
use setup_text::{Field, field_at, field_count};

// Why a text is refused: its first faulty line, counted from 1, and what is wrong there.
#[derive(Clone, Copy, Debug, PartialEq, Eq)]
pub struct TextError {
    pub line: usize,
    pub refusal: SetupError,
}

// The item of a line: nothing, an entry by its section and its numbers, or a label.
#[derive(Clone, Copy)]
enum Item<'a> {
    Nothing,
    Entry(Section, [u32; 8]),
    Label(&'a [u8]),
}

// How far a text has been read: what it said so far, and the least place that the next item may have.
#[derive(Clone, Copy)]
struct Progress<'a> {
    settings: Settings,
    label: &'a [u8],
    least: u8,
}

// The number that 1 to 5 decimal digits say.
// The digits are read here: std's `parse` is of a `str`, which would be tested first, and takes a sign, which would be tested too.
fn number_said(word: &[u8]) -> Option<u32>
    ensures { said_read result ≡ number_read word.now }
{
    if word.is_empty() || 5 < word.len() {
        return None;
    }
    let mut value: u32 = 0;
    for digit in word {
        match *digit {
            b'0'..=b'9' => value = 10 * value + (*digit - b'0') as u32,
            _ => return None,
        }
    }
    Some(value)
}

// The number that one of two words says.
#[tactic(auto, unfolding(setup_text::specs::Parse::same_bytes))]
fn either_said(word: &[u8], first: &[u8], second: &[u8], number: u32) -> Option<u32>
    requires { number < 4 }
    ensures { said_read result ≡ (when same_bytes word.now first.now then given number else when same_bytes word.now second.now then given (number + 1) else no_item) }
{
    if word == first {
        Some(number)
    } else if word == second {
        Some(number + 1)
    } else {
        None
    }
}

// A word that has to stand as it is says 0.
#[tactic(auto, unfolding(setup_text::specs::Parse::same_bytes))]
fn word_said(word: &[u8], expected: &[u8]) -> Option<u32>
    ensures { said_read result ≡ (when same_bytes word.now expected.now then given 0 else no_item) }
{
    (word == expected).then_some(0)
}

// The number that a word of a line says.
#[tactic(auto, unfolding(setup_text::specs::Parse::field_read))]
fn field_said(field: Field, word: &[u8]) -> Option<u32>
    ensures { said_read result ≡ field_read field word.now }
{
    match field {
        Field::Zone => either_said(word, b"lower", b"upper", 0),
        Field::Mode => either_said(word, b"poly", b"mono", 3),
        Field::Channel => word_said(word, b"channel"),
        Field::Bend => word_said(word, b"bend"),
        Field::Pressure => word_said(word, b"pressure"),
        Field::Brightness => word_said(word, b"brightness"),
        Field::Number => number_said(word),
    }
}

// The numbers that the words of a line say, if it has the form of a section.
// `count` stays beside the `for`: the test after the loop asks it, and `enumerate` would give each word's place besides.
fn line_numbers(section: Section, line: &[u8]) -> Option<[u32; 8]>
    ensures { numbers_found section result ≡ fields_read (line_fields section) (line_words line.now) }
{
    let fields = field_count(section);
    let mut numbers = [0; 8];
    let mut count: usize = 0;
    for word in line.split(|b| *b == b' ') {
        if count == fields {
            return None;
        }
        numbers[count] = field_said(field_at(section, count), word)?;
        count += 1;
    }
    if count < fields {
        return None;
    }
    Some(numbers)
}

// An empty line and one that begins with '#' say nothing.
fn is_silent(line: &[u8]) -> bool
    ensures { result ≡ silent line.now }
{
    match line {
        [] => true,
        [first, ..] => *first == b'#',
    }
}

// The item of a line that has the form of a section.
fn entry_item(line: &[u8]) -> Result<Item<'_>, SetupError>
    ensures { item_found result ≡ or_else (entry_line_read Section.Zones line.now) (entry_line_read Section.Channels line.now) }
{
    if let Some(numbers) = line_numbers(Section::Zones, line) {
        return Ok(Item::Entry(Section::Zones, numbers));
    }
    match line_numbers(Section::Channels, line) {
        Some(numbers) => Ok(Item::Entry(Section::Channels, numbers)),
        None => Err(SetupError::WrongLength),
    }
}

// The item of a line.
#[tactic(auto, unfolding(setup_text::specs::Parse::item_read, setup_text::specs::Parse::same_bytes))]
fn line_item(line: &[u8]) -> Result<Item<'_>, SetupError>
    ensures { item_found result ≡ item_read line.now }
{
    if is_silent(line) {
        return Ok(Item::Nothing);
    }
    match line.strip_prefix(b"label ") {
        Some(label) => Ok(Item::Label(label)),
        None => entry_item(line),
    }
}

// A number as a byte. One above 255 is 255, which is outside every limit.
fn byte_for(n: u32) -> u8
    ensures { result ≡ byte_for n }
{
    u8::try_from(n).unwrap_or(255)
}

// The bytes of the entry that the numbers of a line say; of a channel's the last two are 0.
fn entry_bytes(section: Section, numbers: [u32; 8]) -> [u8; 7]
    ensures { result ≡ entry_bytes section numbers }
{
    match section {
        Section::Zones => [
            byte_for(numbers[0]),
            byte_for(numbers[1]),
            byte_for(numbers[2]),
            byte_for(numbers[3]),
            byte_for(numbers[4]),
            byte_for(numbers[5]),
            byte_for(numbers[6]),
        ],
        Section::Channels => [
            byte_for(numbers[1]),
            byte_for(numbers[3] / 128),
            byte_for(numbers[3] % 128),
            byte_for(numbers[5]),
            byte_for(numbers[7]),
            0,
            0,
        ],
    }
}

// The first place of a section in the order of items.
// It stays apart from the numbers of a section in setup_file: places are of the text form alone.
fn first_place(section: Section) -> u8
    ensures { result ≡ first_place section }
{
    match section {
        Section::Zones => 0,
        Section::Channels => 2,
    }
}

// The place of the label: after two zones and sixteen channels.
const LABEL_PLACE: u8 = 18;

// An entry, by the numbers of its line, after what was said so far.
fn take_numbers<'a>(
    section: Section,
    numbers: [u32; 8],
    from: Progress<'a>,
) -> Result<Progress<'a>, SetupError>
    ensures { read_so_far result ≡ entry_taken section (entry_from section numbers) (said_so_far from.entry) }
{
    let entry = entry_bytes(section, numbers);
    let first = first_place(section);
    let least = from.least.saturating_sub(first);
    let settings = take_entry(section, &entry, least, from.settings)?;
    if !settings.layout.is_layout() {
        return Err(SetupError::OutOfRange);
    }
    Ok(Progress {
        settings,
        label: from.label,
        least: first + entry[0] + 1,
    })
}

// A label after what was said so far.
#[tactic(auto, using(ump::proofs::Auto::auto), unfolding(setup_text::specs::Parse::label_taken))]
fn take_label<'a>(label: &'a [u8], from: Progress<'a>) -> Result<Progress<'a>, SetupError>
    ensures { read_so_far result ≡ label_taken label.now (said_so_far from.entry) }
{
    if !label_allowed(label) {
        return Err(SetupError::OutOfRange);
    }
    if LABEL_PLACE < from.least {
        return Err(SetupError::OutOfOrder);
    }
    Ok(Progress {
        settings: from.settings,
        label,
        least: LABEL_PLACE + 1,
    })
}

// A line, after what was said so far.
fn read_line<'a>(line: &'a [u8], from: Progress<'a>) -> Result<Progress<'a>, SetupError>
    ensures { read_so_far result ≡ line_taken (said_so_far from.entry) line.now }
{
    match line_item(line)? {
        Item::Nothing => Ok(from),
        Item::Entry(section, numbers) => take_numbers(section, numbers, from),
        Item::Label(label) => take_label(label, from),
    }
}

// The whole text, line by line.
fn read_text(text: &[u8]) -> Result<Progress<'_>, TextError>
    ensures { whole_read result ≡ text_read text.now }
{
    let mut progress = Progress {
        settings: Settings::new(),
        label: &text[..0],
        least: 0,
    };
    for (k, line) in text.split(|b| *b == b'\n').enumerate() {
        progress = match read_line(line, progress) {
            Ok(next) => next,
            Err(refusal) => {
                return Err(TextError {
                    line: k + 1,
                    refusal,
                });
            }
        };
    }
    Ok(progress)
}

// The settings that a text says, or its first faulty line and why it is refused. The clause `settings` takes new settings in the place of a refusal, and the
// clause `line` takes 0 for the line of a text that is read. What the other clauses say is of all texts: the text of a file says what the file says, and the
// file of a text what the text says (`form`); the line that is named is the first at fault (`fault`); `examples` has some texts.
// It and `text_label` stay apart from setup_reader's `setup_settings` and `setup_label`: what is claimed of files is not what is claimed of texts.
pub fn text_settings(text: &[u8]) -> Result<Settings, TextError>
    ensures reply { text_answered result ≡ settings_in (text_read text.now) }
    ensures line { fault_line result ≡ line_in (text_read text.now) }
    ensures settings { result_unwrap_or result new_settings ≡ settings_or_new (text_read text.now) }
    ensures form { TextForm }
    ensures fault { FirstFault }
    ensures examples { TextsAsTabled }
{
    let read = read_text(text)?;
    Ok(read.settings)
}

// The label that a text says, as the part of the text that holds it, and an empty part where there is none or the text is refused.
pub fn text_label(text: &[u8]) -> &[u8]
    ensures { result.now ≡ label_in (text_read text.now) }
{
    match read_text(text) {
        Ok(read) => read.label,
        Err(_) => &text[..0],
    }
}
