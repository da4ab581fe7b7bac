// The setup file of a course (document 02, 2026-07): its sections, which channels it leaves out, and which labels it may have. What a file is, what it
// says and what holds of all files stand in specs/ and proofs/.
#![tactic(auto)]

ghost use Rattle.std.specs.Prelude.{◌≡◌, ◌/◌, ◌%◌, ◌^◌};
ghost use Rattle.setup_file.specs.Format.{most, entry_size, at_rest, printable, label_allowed};

// The sections of a setup file that have entries.
#[derive(Clone, Copy, Debug, PartialEq, Eq)]
pub enum Section {
    Zones,
    Channels,
}

// The largest count of a section.
// `most_entries` and `entry_size` stay two: no caller asks both, and a record of them would state the same two clauses of its fields.
pub fn most_entries(section: Section) -> u8
    ensures { result ≡ most section }
{
    match section {
        Section::Zones => 2,
        Section::Channels => 16,
    }
}

// The bytes of an entry.
pub fn entry_size(section: Section) -> usize
    ensures { result ≡ entry_size section }
{
    match section {
        Section::Zones => 7,
        Section::Channels => 5,
    }
}

// A channel is at bend 0x2000, pressure 0 and brightness 64.
// The three stay parameters: settings hold them in three arrays and an entry as bytes, and each caller would make a struct of them for this alone.
#[tactic(auto, using(crate::proofs::Rest::rest_of_bend))]
pub fn at_rest(bend: u16, pressure: u8, brightness: u8) -> bool
    ensures { result ≡ at_rest (bend / 2 ^ 7) (bend % 2 ^ 7) pressure brightness }
{
    bend == 0x2000 && pressure == 0 && brightness == 64
}

// The most bytes that a label has.
pub const MOST_LABEL: usize = 32;

// Each byte is 0x20 to 0x7E.
#[tactic(auto, unfolding(crate::specs::Format::printable))]
pub fn is_printable(text: &[u8]) -> bool
    ensures { result ≡ printable text.now }
{
    text.iter().all(|b| matches!(*b, 0x20..=0x7E))
}

// A label has at most 32 bytes, each 0x20 to 0x7E.
#[tactic(auto, using(ump::proofs::Auto::auto), unfolding(crate::specs::Format::label_allowed))]
pub fn label_allowed(label: &[u8]) -> bool
    ensures { result ≡ label_allowed label.now }
{
    label.len() <= MOST_LABEL && is_printable(label)
}
