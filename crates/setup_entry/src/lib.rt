// One entry of the setup file of a course (document 02, 2026-07): whether it is taken, and the settings with what it says. Every form of the file is read
// by this, entry after entry.
#![tactic(auto)]

ghost use Rattle.std.specs.Prelude.{◌≡◌, true, ◌+◌, ◌*◌, ◌<◌, ◌≤◌, ◌^◌, length};
ghost use Rattle.std.specs.Result.{result_unwrap_or};
ghost use Rattle.setup_entry.specs.Entry.{setup_read, entry_answered, settings_taken, zone_entry_in, channel_entry_in};
ghost use Rattle.setup_file.specs.Format.{entry_size, zone_entry_within, channel_entry_within, entry_within, unlisted, with_zone, with_channel, settings_with};

use mpe_pitch::MpeSensitivity;
use restatement_reply::zone_allowed;
use settings::{Settings, ZoneSettings};
use setup_file::{Section, at_rest, entry_size};

// Why a setup file or an entry of it is refused: 1, 4 or 5.
#[derive(Clone, Copy, Debug, PartialEq, Eq)]
pub enum SetupError {
    OutOfRange,
    WrongLength,
    OutOfOrder,
}

// The entry of a zone. Its number stays a byte: it is held before it is tested, and an MpeZone holds no other than 0 and 1.
#[derive(Clone, Copy)]
struct ZoneEntry {
    number: u8,
    members: u8,
    zone: ZoneSettings,
}

// The entry of a channel; msb and lsb are the halves of its bend.
#[derive(Clone, Copy)]
struct ChannelEntry {
    number: u8,
    msb: u8,
    lsb: u8,
    pressure: u8,
    brightness: u8,
}

// The entry of a zone at the front of these bytes.
fn zone_entry_in(bytes: &[u8]) -> ZoneEntry
    requires { 7 ≤ length bytes.now }
    ensures { result ≡ zone_entry_in bytes.now }
{
    ZoneEntry {
        number: bytes[0],
        members: bytes[1],
        zone: ZoneSettings {
            manager: MpeSensitivity {
                semitones: bytes[2],
                cents: bytes[3],
            },
            member: MpeSensitivity {
                semitones: bytes[4],
                cents: bytes[5],
            },
            mode: bytes[6],
        },
    }
}

// The entry of a channel at the front of these bytes.
fn channel_entry_in(bytes: &[u8]) -> ChannelEntry
    requires { 5 ≤ length bytes.now }
    ensures { result ≡ channel_entry_in bytes.now }
{
    ChannelEntry {
        number: bytes[0],
        msb: bytes[1],
        lsb: bytes[2],
        pressure: bytes[3],
        brightness: bytes[4],
    }
}

// The bend of a channel's entry.
fn bend_in(entry: ChannelEntry) -> u16
    ensures { result ≡ entry.msb * 2 ^ 7 + entry.lsb }
{
    entry.msb as u16 * 128 + entry.lsb as u16
}

// The bytes of a zone's entry are inside their limits.
#[tactic(auto, unfolding(setup_file::specs::Format::zone_entry_within))]
fn zone_entry_within(entry: ZoneEntry) -> bool
    ensures { result ≡ zone_entry_within entry.number entry.members entry.zone }
{
    entry.number <= 1 && matches!(entry.members, 1..=15) && zone_allowed(entry.members, entry.zone)
}

// The bytes of a channel's entry are inside their limits.
#[tactic(auto, unfolding(setup_file::specs::Format::channel_entry_within))]
fn channel_entry_within(entry: ChannelEntry) -> bool
    ensures { result ≡ channel_entry_within entry.number entry.msb entry.lsb entry.pressure entry.brightness }
{
    entry.number <= 15
        && entry.msb <= 127
        && entry.lsb <= 127
        && entry.pressure <= 127
        && entry.brightness <= 127
}

// Settings with a zone in the place of the one that they had.
fn with_zone(entry: ZoneEntry, settings: Settings) -> Settings
    ensures { result ≡ with_zone entry.number entry.members entry.zone settings }
{
    let mut s = settings;
    if entry.number == 0 {
        s.layout.lower = entry.members;
        s.lower = entry.zone;
    } else {
        s.layout.upper = entry.members;
        s.upper = entry.zone;
    }
    s
}

// Settings with a channel's controls in the place of those that they had.
fn with_channel(entry: ChannelEntry, bend: u16, settings: Settings) -> Settings
    requires { entry.number < 16 }
    ensures { result ≡ with_channel entry.number bend entry.pressure entry.brightness settings }
{
    let mut s = settings;
    let k = entry.number as usize;
    s.pitch_bend[k] = bend;
    s.pressure[k] = entry.pressure;
    s.brightness[k] = entry.brightness;
    s
}

// A whole entry, at the front of these bytes.
// Its methods read the fields that they need from the bytes: those of a zone and those of a channel have but the number alike.
#[derive(Clone, Copy)]
struct Entry<'a> {
    section: Section,
    bytes: &'a [u8],
    ghost is_whole: { entry_size section ≤ length bytes.now },
}

impl Entry<'_> {
    // It is inside its limits.
    fn is_within(self) -> bool
        ensures { result ≡ entry_within self.entry.section self.entry.bytes.now }
    {
        match self.section {
            Section::Zones => zone_entry_within(zone_entry_in(self.bytes)),
            Section::Channels => channel_entry_within(channel_entry_in(self.bytes)),
        }
    }

    // Inside its limits, it is one that is not listed.
    fn is_unlisted(self) -> bool
        requires { entry_within self.section self.bytes.now ≡ true }
        ensures { result ≡ unlisted self.entry.section self.entry.bytes.now }
    {
        match self.section {
            Section::Zones => zone_entry_in(self.bytes).members == 0,
            Section::Channels => {
                let entry = channel_entry_in(self.bytes);
                at_rest(bend_in(entry), entry.pressure, entry.brightness)
            }
        }
    }

    // Settings with what it says, inside its limits.
    fn settings_with(self, settings: Settings) -> Settings
        requires { entry_within self.section self.bytes.now ≡ true }
        ensures { result ≡ settings_with self.entry.section self.entry.bytes.now settings }
    {
        match self.section {
            Section::Zones => with_zone(zone_entry_in(self.bytes), settings),
            Section::Channels => {
                let entry = channel_entry_in(self.bytes);
                with_channel(entry, bend_in(entry), settings)
            }
        }
    }
}

// The settings with what the entry at the front of these bytes says, whose number has to be `least` or more, or why it is refused. What `settings` says is
// that one that is refused leaves them as they were.
#[tactic(auto, using(ump::proofs::Auto::auto), unfolding(setup_file::specs::Read::entry_read))]
pub fn take_entry(
    section: Section,
    bytes: &[u8],
    least: u8,
    settings: Settings,
) -> Result<Settings, SetupError>
    ensures reply { setup_read result ≡ entry_answered section least bytes.now settings }
    ensures settings { result_unwrap_or result settings ≡ settings_taken section least bytes.now settings }
{
    if bytes.len() < entry_size(section) {
        return Err(SetupError::WrongLength);
    }
    let entry = Entry { section, bytes };
    if !entry.is_within() {
        return Err(SetupError::OutOfRange);
    }
    if bytes[0] < least || entry.is_unlisted() {
        return Err(SetupError::OutOfOrder);
    }
    Ok(entry.settings_with(settings))
}
