// The text form of a setup file (document 02, 2026-07): the words of its lines. What a text is, what it says and what holds of all texts stand in specs/
// and proofs/.
#![tactic(auto)]

ghost use Rattle.std.specs.Prelude.{◌≡◌, length, get_or};
ghost use Rattle.setup_text.specs.Text.{line_fields};

use setup_file::Section;

// The words of a line: which zone, which mode, a number, or a word that stands as it is.
#[derive(Clone, Copy, Debug, PartialEq, Eq)]
pub enum Field {
    Zone,
    Mode,
    Channel,
    Bend,
    Pressure,
    Brightness,
    Number,
}

// How many words a line has.
// It stays apart from the numbers of a section in setup_file: words are of the text form alone.
pub fn field_count(section: Section) -> usize
    ensures { result ≡ length (line_fields section) }
{
    match section {
        Section::Zones => 7,
        Section::Channels => 8,
    }
}

// Which word stands at a place of a line; behind its last, a number.
pub fn field_at(section: Section, k: usize) -> Field
    ensures { result ≡ get_or (line_fields section) k Field.Number }
{
    match (section, k) {
        (Section::Zones, 0) => Field::Zone,
        (Section::Zones, 6) => Field::Mode,
        (Section::Channels, 0) => Field::Channel,
        (Section::Channels, 2) => Field::Bend,
        (Section::Channels, 4) => Field::Pressure,
        (Section::Channels, 6) => Field::Brightness,
        _ => Field::Number,
    }
}
