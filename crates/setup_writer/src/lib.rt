// The writer of the setup file of a course (document 02, 2026-07).
#![tactic(auto)]

ghost use Rattle.std.specs.Prelude.{◌≡◌, true, ℕ, ◌+◌, ◌*◌, ◌<◌, ◌≤◌, length, take};
ghost use mathlib.Core.List.{◌∷◌, flatten};
ghost use Rattle.std.proofs.lemmas.List.Edits.{sets};
ghost use Rattle.ump.specs.Outcome.{given};
ghost use Rattle.zone_sender.specs.Zone.{filled, written_read};
ghost use Rattle.settings.specs.Settings.{zone_of, members_in, allowed};
ghost use Rattle.setup_file.specs.Format.{most, entry_size, zone_numbered, entry_of, unlisted, entries_from, entries_of, section_of, setup_file, seen};
ghost use Rattle.setup_file.specs.declared.Section.TheVariants.{Zones, Channels};
ghost use Rattle.setup_file.specs.Read.{file_read};
ghost use Rattle.setup_writer.specs.Reply.{file_reply, FileSizes};

use restatement_reply::is_allowed;
use settings::{Settings, ZoneSettings};
use setup_file::{Section, at_rest, label_allowed, most_entries};
use zone_sender::WriteError;

// The members of zone 0, Lower, or 1, Upper, and what is set for it.
// The zone stays a number: it is the first byte of the entry, and counts the channels too; an MpeZone would be one conversion more.
fn zone_numbered(settings: Settings, number: u8) -> (u8, ZoneSettings)
    ensures members { result.0 ≡ members_in settings (zone_numbered number) }
    ensures zone { result.1 ≡ zone_of settings (zone_numbered number) }
{
    match number {
        0 => (settings.layout.lower, settings.lower),
        _ => (settings.layout.upper, settings.upper),
    }
}

// The entry of a number is not listed: a zone without members, a channel at rest.
// `number < most section` stays in three contracts: a struct of section and number would be made, and its fact proved, in each of the two loops.
fn is_unlisted(section: Section, settings: Settings, number: u8) -> bool
    requires { number < most section }
    ensures { result ≡ unlisted section (entry_of section settings number) }
{
    match section {
        Section::Zones => zone_numbered(settings, number).0 == 0,
        Section::Channels => {
            let k = number as usize;
            at_rest(
                settings.pitch_bend[k],
                settings.pressure[k],
                settings.brightness[k],
            )
        }
    }
}

// How many entries a section has.
// The loop stays: `filter` and `count` give a usize, and its cast to the byte would need the bound of the count besides.
#[tactic(auto, using(crate::proofs::Entries::count_listed, crate::proofs::Entries::count_unlisted, crate::proofs::Entries::count_at_most), unfolding(setup_file::specs::Format::entries_from))]
fn entry_count(section: Section, settings: Settings) -> u8
    ensures { result ≡ length (entries_of section settings) }
{
    let mut count = 0;
    for k in 0..most_entries(section) {
        if !is_unlisted(section, settings, k) {
            count += 1;
        }
    }
    count
}

// The entry of a zone.
fn zone_entry(settings: Settings, number: u8) -> [u8; 7]
    ensures { result ≡ entry_of Zones settings number }
{
    let (members, zone) = zone_numbered(settings, number);
    let ZoneSettings {
        manager,
        member,
        mode,
    } = zone;
    [
        number,
        members,
        manager.semitones,
        manager.cents,
        member.semitones,
        member.cents,
        mode,
    ]
}

// Puts bytes at a place, and gives the place after them. `out` and `at` stay two: a struct of both would hold the `&mut`, and no contract be shorter.
fn put(out: &mut [u8], at: usize, bytes: &[u8]) -> usize
    requires { at + length bytes.now ≤ length out.old }
    ensures place { result ≡ at + length bytes.now }
    ensures buffer { out.new ≡ sets out.old at bytes.now }
{
    let end = at + bytes.len();
    out[at..end].copy_from_slice(bytes);
    end
}

// Settings that may be written.
#[derive(Clone, Copy)]
struct Writable {
    settings: Settings,
    ghost is_allowed: { allowed settings ≡ true },
}

impl Writable {
    // The entry of a channel.
    fn channel_entry(self, number: u8) -> [u8; 5]
        requires { number < 16 }
        ensures { result ≡ entry_of Channels self.settings number }
    {
        let k = number as usize;
        let bend = self.settings.pitch_bend[k];
        [
            number,
            (bend / 128) as u8,
            (bend % 128) as u8,
            self.settings.pressure[k],
            self.settings.brightness[k],
        ]
    }

    // Puts the entry of a number at a place, and gives the place after it.
    fn put_entry(self, out: &mut [u8], at: usize, section: Section, number: u8) -> usize
        requires { (number < most section) × (at + entry_size section ≤ length out.old) }
        ensures place { result ≡ at + entry_size section }
        ensures buffer { out.new ≡ sets out.old at (entry_of section self.settings number) }
    {
        match section {
            Section::Zones => put(out, at, &zone_entry(self.settings, number)),
            Section::Channels => put(out, at, &self.channel_entry(number)),
        }
    }

    // The same if the entry is listed, and else nothing.
    #[tactic(auto, using(crate::proofs::Entries::unlisted_bytes, crate::proofs::Entries::listed_bytes, crate::proofs::Entries::entry_long))]
    fn put_listed(self, out: &mut [u8], at: usize, section: Section, number: u8) -> usize
        requires { (number < most section) × (at + length (flatten (entries_from section self.settings number 1)) ≤ length out.old) }
        ensures place { result ≡ at + length (flatten (entries_from section self.settings number 1)) }
        ensures buffer { out.new ≡ sets out.old at (flatten (entries_from section self.settings number 1)) }
    {
        if is_unlisted(section, self.settings, number) {
            return at;
        }
        self.put_entry(out, at, section, number)
    }

    // Puts a section at a place, its count and its entries, and gives the place after it.
    fn put_section(self, out: &mut [u8], at: usize, section: Section) -> usize
        requires { at + length (section_of section self.settings) ≤ length out.old }
        ensures place { result ≡ at + length (section_of section self.settings) }
        ensures buffer { out.new ≡ sets out.old at (section_of section self.settings) }
    {
        let mut place = put(out, at, &[entry_count(section, self.settings)]);
        for k in 0..most_entries(section) {
            place = self.put_listed(out, place, section, k);
        }
        place
    }
}

// Puts a label at a place, its length and its bytes.
fn put_label(out: &mut [u8], at: usize, label: &[u8])
    requires { (length label.now ≤ 32) × (at + length label.now < length out.old) }
    ensures { out.new ≡ sets out.old at (length label.now ∷ label.now) }
{
    let start = put(out, at, &[label.len() as u8]);
    put(out, start, label);
}

// How many bytes the file has: three counts, the entries and the label.
fn file_size(settings: Settings, label_length: usize) -> usize
    requires { label_length ≤ 32 }
    ensures { result ≡ 3 + 7 * length (entries_of Zones settings) + 5 * length (entries_of Channels settings) + label_length }
{
    let zones = entry_count(Section::Zones, settings) as usize;
    let channels = entry_count(Section::Channels, settings) as usize;
    3 + 7 * zones + 5 * channels + label_length
}

// What the writer answers for a buffer of so many bytes.
#[tactic(auto, using(crate::proofs::Sizes::label_at_most, crate::proofs::Sizes::file_size), unfolding(crate::specs::Reply::file_reply))]
fn file_reply(settings: Settings, label: &[u8], got: usize) -> Result<usize, WriteError>
    ensures { written_read result ≡ file_reply settings label.now got }
{
    if !is_allowed(settings) || !label_allowed(label) {
        return Err(WriteError::OutOfRange);
    }
    let needed = file_size(settings, label.len());
    if got < needed {
        return Err(WriteError::TooSmall { needed, got });
    }
    Ok(needed)
}

// Writes the setup file of these settings and this label to the front of `out`. What `read_back` says is that the reader takes the very bytes written,
// and gives back the settings in the fields that are read, and the label; `sizes` says how long files are.
pub fn setup_bytes(settings: Settings, label: &[u8], out: &mut [u8]) -> Result<usize, WriteError>
    ensures reply { written_read result ≡ file_reply settings label.now (length out.old) }
    ensures buffer { out.new ≡ filled (file_reply settings label.now (length out.old)) (setup_file settings label.now) out.old }
    ensures read_back { (n : ℕ) → written_read result ≡ given n → file_read (take n out.new) ≡ given (seen settings, label.now) }
    ensures sizes { FileSizes }
{
    let count = file_reply(settings, label, out.len())?;
    let writable = Writable { settings };
    let channels = writable.put_section(out, 0, Section::Zones);
    let end = writable.put_section(out, channels, Section::Channels);
    put_label(out, end, label);
    Ok(count)
}
