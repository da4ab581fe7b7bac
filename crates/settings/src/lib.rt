// Settings of an end. What brings an end to them, and the theorem about it, stand in specs/ and proofs/.
#![tactic(auto)]

ghost use Rattle.std.specs.Prelude.{◌≡◌, true};
ghost use Rattle.settings.specs.Settings.{new_zone, new_settings, allowed};

use mpe_layout::MpeLayout;
use mpe_pitch::MpeSensitivity;

// What is set for a zone: the sensitivities of its manager and of its members, semitones 0 to 96 and cents 0 to 99, and mode 3 or 4. Of a zone
// without members nothing is read.
#[derive(Clone, Copy, Debug, PartialEq, Eq)]
pub struct ZoneSettings {
    pub manager: MpeSensitivity,
    pub member: MpeSensitivity,
    // A number, as an end gives it: `zone_allowed` tests it, and in an empty zone any number passes.
    pub mode: u8,
}

// The settings of an end: a layout, its zones, and for each channel bend 0 to 0x3FFF, pressure and brightness 0 to 127.
// Three arrays, and not one of records: `new_settings` and the definitions of a setup file state settings by these three lists.
#[derive(Clone, Copy, Debug, PartialEq, Eq)]
pub struct Settings {
    pub layout: MpeLayout,
    pub lower: ZoneSettings,
    pub upper: ZoneSettings,
    pub pitch_bend: [u16; 16],
    pub pressure: [u8; 16],
    pub brightness: [u8; 16],
}

impl ZoneSettings {
    // What a zone without members shows: the default sensitivities, and mode 3.
    fn new() -> ZoneSettings
        ensures { result ≡ new_zone }
    {
        ZoneSettings {
            manager: MpeSensitivity::MANAGER_DEFAULT,
            member: MpeSensitivity::MEMBER_DEFAULT,
            mode: 3,
        }
    }
}

impl Settings {
    // No zone, and every channel at rest; these may be restated.
    #[tactic(auto, unfolding(mpe_layout::specs::Layout::legal_counts, mpe_layout::specs::Layout::legal, crate::specs::Settings::zone_allowed, crate::specs::Settings::channel_allowed, crate::specs::Settings::channels_allowed, crate::specs::Settings::allowed))]
    pub fn new() -> Settings
        ensures value { result ≡ new_settings }
        ensures limits { allowed result ≡ true }
    {
        Settings {
            layout: MpeLayout::NONE,
            lower: ZoneSettings::new(),
            upper: ZoneSettings::new(),
            pitch_bend: [0x2000; 16],
            pressure: [0; 16],
            brightness: [64; 16],
        }
    }
}
