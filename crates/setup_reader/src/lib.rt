// The reader of the setup file of a course (document 02, 2026-07): its settings, and its label as the part of the file that holds it.
#![tactic(auto)]

ghost use Rattle.std.specs.Prelude.{◌≡◌};
ghost use Rattle.std.specs.Result.{result_unwrap_or};
ghost use Rattle.settings.specs.Settings.{new_settings};
ghost use Rattle.setup_file.specs.Read.{entries_read, section_read, zones_read, label_read, file_read, settings_in, settings_or_new, label_in};
ghost use Rattle.setup_file.specs.Claims.{OnlyForm, SeenIsShown, Leftmost, CourseShown};
ghost use Rattle.setup_file.specs.Examples.{FilesAsTabled};
ghost use Rattle.setup_entry.specs.Entry.{setup_read, entry_answered};
ghost use Rattle.setup_reader.specs.Progress.{progress_read};

use settings::Settings;
use setup_entry::{SetupError, take_entry};
use setup_file::{MOST_LABEL, Section, entry_size, is_printable, most_entries};

// How far a file has been read: the settings so far, and the bytes that are left.
#[derive(Clone, Copy)]
struct Progress<'a> {
    settings: Settings,
    rest: &'a [u8],
}

// The settings with what the entry at the front of what is left says, whose number has to be `least` or more.
fn read_entry(section: Section, least: u8, from: Progress<'_>) -> Result<Settings, SetupError>
    ensures reply { setup_read result ≡ entry_answered section least from.entry.rest.now from.entry.settings }
{
    take_entry(section, from.rest, least, from.settings)
}

// So many entries: the settings with what they say, and the bytes after them.
// `k` has its name for the proof, whose invariant counts by it the entries that are left.
fn read_entries(section: Section, count: u8, from: Progress<'_>) -> Result<Progress<'_>, SetupError>
    ensures { progress_read result ≡ entries_read section count 0 from.entry.settings from.entry.rest.now }
{
    let mut settings = from.settings;
    let mut rest = from.rest;
    let mut least: u8 = 0;
    for k in 0..count {
        settings = read_entry(section, least, Progress { settings, rest })?;
        least = rest[0] + 1;
        rest = &rest[entry_size(section)..];
    }
    Ok(Progress { settings, rest })
}

// A section: its count, and its entries.
fn read_section(section: Section, from: Progress<'_>) -> Result<Progress<'_>, SetupError>
    ensures { progress_read result ≡ section_read section from.entry.settings from.entry.rest.now }
{
    let settings = from.settings;
    let (count, rest) = from.rest.split_first().ok_or(SetupError::WrongLength)?;
    if most_entries(section) < *count {
        return Err(SetupError::OutOfRange);
    }
    read_entries(section, *count, Progress { settings, rest })
}

// The zones from the front on; their pair is tested behind the section.
fn read_zones(file: &[u8]) -> Result<Progress<'_>, SetupError>
    ensures { progress_read result ≡ zones_read file.now }
{
    let new = Progress {
        settings: Settings::new(),
        rest: file,
    };
    let zones = read_section(Section::Zones, new)?;
    if !zones.settings.layout.is_layout() {
        return Err(SetupError::OutOfRange);
    }
    Ok(zones)
}

// The label, which ends the file; the bytes that are left are then those of the label.
fn read_label(from: Progress<'_>) -> Result<Progress<'_>, SetupError>
    ensures { progress_read result ≡ label_read from.entry.settings from.entry.rest.now }
{
    let settings = from.settings;
    let (count, rest) = from.rest.split_first().ok_or(SetupError::WrongLength)?;
    let count = *count as usize;
    if MOST_LABEL < count {
        return Err(SetupError::OutOfRange);
    }
    if rest.len() < count {
        return Err(SetupError::WrongLength);
    }
    if !is_printable(&rest[..count]) {
        return Err(SetupError::OutOfRange);
    }
    if count < rest.len() {
        return Err(SetupError::WrongLength);
    }
    Ok(Progress { settings, rest })
}

// The whole file; the bytes that are left are then those of its label.
fn read_file(file: &[u8]) -> Result<Progress<'_>, SetupError>
    ensures { progress_read result ≡ file_read file.now }
{
    let zones = read_zones(file)?;
    let channels = read_section(Section::Channels, zones)?;
    read_label(channels)
}

// The settings of a setup file, or why it is refused; the clause `settings` takes new settings in the place of a refusal. What the other clauses say is of all
// files: the writer's form is the only one that is taken (`form`); the fields that it says are those that the readings show (`seen`); the leftmost fault
// decides (`leftmost`); and of this one what a course relies on (`course`). `examples` has some files and their replies.
pub fn setup_settings(file: &[u8]) -> Result<Settings, SetupError>
    ensures reply { setup_read result ≡ settings_in (file_read file.now) }
    ensures settings { result_unwrap_or result new_settings ≡ settings_or_new (file_read file.now) }
    ensures form { OnlyForm }
    ensures seen { SeenIsShown }
    ensures leftmost { Leftmost }
    ensures course { CourseShown file.now }
    ensures examples { FilesAsTabled }
{
    let read = read_file(file)?;
    Ok(read.settings)
}

// The label of a setup file, as the part of the file that holds it, and an empty part where the file is refused.
pub fn setup_label(file: &[u8]) -> &[u8]
    ensures { result.now ≡ label_in (file_read file.now) }
{
    match read_file(file) {
        Ok(read) => read.rest,
        Err(_) => &file[..0],
    }
}
