// The restatement: the messages that bring any end to given settings, as words and as bytes.
#![tactic(auto)]

ghost use Rattle.std.specs.Prelude.{◌≡◌, true, ℕ, ◌+◌, ◌*◌, ◌/◌, ◌<◌, ◌≤◌, ◌^◌, length, take};
ghost use Rattle.std.proofs.lemmas.List.Edits.{sets};
ghost use Rattle.ump.specs.Outcome.{given};
ghost use Rattle.mpe_layout.specs.Layout.{legal};
ghost use Rattle.zone_sender.specs.Zone.{filled, written_read};
ghost use Rattle.settings.specs.Settings.{zone_of, members_in, shown_sensitivity, shown_mode, allowed};
ghost use Rattle.settings.specs.Messages.{resets, announcements, sensitivities, modes, deselections, controls, messages, bytes_of, bytes, restatement, message_count, byte_count, restated_reply, CountsHold};
ghost use Rattle.settings.specs.Demand.{Demand};
ghost use Rattle.settings.specs.Witnesses.{Met};

use mpe_layout::{MpeLayout, MpeZone};
use mpe_pitch::MpeSensitivity;
use mpe_sender::{channel_messages, mcm_messages, mode_message};
use restatement_reply::{bytes_reply, words_reply};
use settings::{Settings, ZoneSettings};
use ump::channel_voice1::{channel, control_change, first_data, opcode, second_data};
use ump::reply::OutOfRange;
use zone_sender::{WriteError, zone_sensitivity_messages};

// Puts messages at a place, and gives the place after them.
// `out` and `at` stay two parameters: a struct of both would hold the `&mut`, and no contract would be shorter.
fn put<const N: usize>(out: &mut [u32], at: usize, messages: [u32; N]) -> usize
    requires { at + N ≤ length out.old }
    ensures place { result ≡ at + N }
    ensures buffer { out.new ≡ sets out.old at messages.entry }
{
    out[at..at + N].copy_from_slice(&messages);
    at + N
}

// A. Reset All Controllers on each channel.
// The loops over the channels stay three: one with a closure would state its messages as a ghost list, and two clauses of its calls.
#[tactic(auto, unfolding(settings::specs::Messages::each_channel))]
fn write_resets(out: &mut [u32])
    requires { 16 ≤ length out.old }
    ensures { out.new ≡ sets out.old 0 resets }
{
    for k in 0..16 {
        put(out, k as usize, [control_change(k, 121, 0).unwrap()]);
    }
}

// B. The zones: both with seven members, and then as the layout has them.
fn write_announcements(out: &mut [u32], at: usize, layout: MpeLayout)
    requires { (at + 12 ≤ length out.old) × (legal layout ≡ true) }
    ensures { out.new ≡ sets out.old at (announcements layout) }
{
    put(out, at, mcm_messages(MpeZone::Lower, 7).unwrap());
    put(out, at + 3, mcm_messages(MpeZone::Upper, 7).unwrap());
    let lower = mcm_messages(MpeZone::Lower, layout.lower).unwrap();
    let upper = mcm_messages(MpeZone::Upper, layout.upper).unwrap();
    put(out, at + 6, lower);
    put(out, at + 9, upper);
}

// Settings that may be restated.
#[derive(Clone, Copy)]
struct Restated {
    settings: Settings,
    ghost is_allowed: { allowed settings ≡ true },
}

impl Restated {
    // The settings of a zone.
    fn zone(self, zone: MpeZone) -> ZoneSettings
        ensures { result ≡ zone_of self.settings zone }
    {
        match zone {
            MpeZone::Lower => self.settings.lower,
            MpeZone::Upper => self.settings.upper,
        }
    }

    // How many members a zone has.
    fn members(self, zone: MpeZone) -> u8
        ensures { result ≡ members_in self.settings zone }
    {
        match zone {
            MpeZone::Lower => self.settings.layout.lower,
            MpeZone::Upper => self.settings.layout.upper,
        }
    }

    // The sensitivity of a zone's manager or members that an end shows after a restatement: the one that is set, or without members the default.
    fn shown_sensitivity(self, zone: MpeZone, manager: bool) -> MpeSensitivity
        ensures { result ≡ shown_sensitivity self.settings zone manager }
    {
        let set = self.zone(zone);
        match (self.members(zone), manager) {
            (0, true) => MpeSensitivity::MANAGER_DEFAULT,
            (0, false) => MpeSensitivity::MEMBER_DEFAULT,
            (_, true) => set.manager,
            (_, false) => set.member,
        }
    }

    // The mode of a zone that an end shows after a restatement: the one that is set, or without members 3.
    fn shown_mode(self, zone: MpeZone) -> u8
        ensures { result ≡ shown_mode self.settings zone }
    {
        if self.members(zone) == 0 {
            return 3;
        }
        self.zone(zone).mode
    }

    // C. The sensitivities of a zone, if it has members; gives the place after them.
    fn write_sensitivities(self, out: &mut [u32], at: usize, zone: MpeZone) -> usize
        requires { at + length (sensitivities self.settings zone) ≤ length out.old }
        ensures place { result ≡ at + length (sensitivities self.settings zone) }
        ensures buffer { out.new ≡ sets out.old at (sensitivities self.settings zone) }
    {
        let manager = self.shown_sensitivity(zone, true);
        let member = self.shown_sensitivity(zone, false);
        let part = &mut out[at..];
        let written = zone_sensitivity_messages(self.settings.layout, zone, manager, member, part);
        // An empty zone is out of range to its writer, and nothing is written.
        at + written.unwrap_or(0)
    }

    // D. The mode of a zone, if it has members; gives the place after it.
    fn write_mode(self, out: &mut [u32], at: usize, zone: MpeZone) -> usize
        requires { at + 1 ≤ length out.old }
        ensures place { result ≡ at + length (modes self.settings zone) }
        ensures buffer { out.new ≡ sets out.old at (modes self.settings zone) }
    {
        let mono = self.shown_mode(zone) == 4;
        match mode_message(self.settings.layout, zone, mono) {
            Ok(message) => put(out, at, [message]),
            Err(OutOfRange) => at,
        }
    }

    // F. The controls of each channel.
    #[tactic(auto, unfolding(settings::specs::Messages::each_channel))]
    fn write_controls(self, out: &mut [u32], at: usize)
        requires { at + 48 ≤ length out.old }
        ensures { out.new ≡ sets out.old at (controls self.settings) }
    {
        for k in 0..16 {
            let i = k as usize;
            let messages = channel_messages(
                k,
                self.settings.pitch_bend[i],
                self.settings.brightness[i],
                self.settings.pressure[i],
            );
            put(out, at + i * 3, messages.unwrap());
        }
    }

    // All the messages, at the front of `out`.
    fn write_messages(self, out: &mut [u32])
        requires { message_count self.settings.layout ≤ length out.old }
        ensures { out.new ≡ sets out.old 0 (messages self.settings) }
    {
        write_resets(out);
        write_announcements(out, 16, self.settings.layout);
        let a = self.write_sensitivities(out, 28, MpeZone::Lower);
        let b = self.write_sensitivities(out, a, MpeZone::Upper);
        let c = self.write_mode(out, b, MpeZone::Lower);
        let d = self.write_mode(out, c, MpeZone::Upper);
        write_deselections(out, d);
        self.write_controls(out, d + 32);
    }
}

// E. The null parameter on each channel.
#[tactic(auto, unfolding(settings::specs::Messages::each_channel))]
fn write_deselections(out: &mut [u32], at: usize)
    requires { at + 32 ≤ length out.old }
    ensures { out.new ≡ sets out.old at deselections }
{
    for k in 0..16 {
        let msb = control_change(k, 101, 127).unwrap();
        let lsb = control_change(k, 100, 127).unwrap();
        put(out, at + k as usize * 2, [msb, lsb]);
    }
}

// Writes the messages that bring any end to these settings, as words at the front of `out`. What `counts` says is that the
// counts in the replies of both writers are those of the messages and of their bytes.
pub fn restatement_words(settings: Settings, out: &mut [u32]) -> Result<usize, WriteError>
    ensures reply { written_read result ≡ restated_reply settings (message_count settings.layout) (length out.old) }
    ensures buffer { out.new ≡ filled (restated_reply settings (message_count settings.layout) (length out.old)) (messages settings) out.old }
    ensures counts { CountsHold }
{
    let count = words_reply(settings, out.len())?;
    Restated { settings }.write_messages(out);
    Ok(count)
}

// Puts the bytes of a message at a place, and gives the place after them.
fn put_bytes(out: &mut [u8], at: usize, word: u32) -> usize
    requires { at + length (bytes_of word) ≤ length out.old }
    ensures place { result ≡ at + length (bytes_of word) }
    ensures buffer { out.new ≡ sets out.old at (bytes_of word) }
{
    let op = opcode(word);
    out[at] = op * 16 + channel(word);
    out[at + 1] = first_data(word);
    if matches!(op, 0xC | 0xD) {
        return at + 2;
    }
    out[at + 2] = second_data(word);
    at + 3
}

// Writes the bytes of messages at the front of `out`.
fn write_bytes(words: &[u32], out: &mut [u8])
    requires { length (bytes words.now) ≤ length out.old }
    ensures { out.new ≡ sets out.old 0 (bytes words.now) }
{
    let mut at = 0;
    for word in words {
        at = put_bytes(out, at, *word);
    }
}

// The messages of so many bytes of a restatement: three bytes each, less one for each channel's pressure.
fn messages_in(bytes: usize) -> usize
    requires { bytes + 16 < 2 ^ 64 }
    ensures { result ≡ (bytes + 16) / 3 }
{
    (bytes + 16) / 3
}

// The most messages that settings can take: (7,7).
const MOST_MESSAGES: usize = 174;

// Writes the restatement of these settings: the same messages as bytes, each with its own status byte. What `demand` says is demand 3, of the very
// bytes written, and `met` that its hypotheses can be met.
pub fn restatement_bytes(settings: Settings, out: &mut [u8]) -> Result<usize, WriteError>
    ensures reply { written_read result ≡ restated_reply settings (byte_count settings.layout) (length out.old) }
    ensures buffer { out.new ≡ filled (restated_reply settings (byte_count settings.layout) (length out.old)) (restatement settings) out.old }
    ensures demand { (n : ℕ) → written_read result ≡ given n → Demand settings (take n out.new) }
    ensures met { (n : ℕ) → written_read result ≡ given n → Met settings (take n out.new) }
{
    let n = bytes_reply(settings, out.len())?;
    let mut words = [0; MOST_MESSAGES];
    Restated { settings }.write_messages(&mut words);
    write_bytes(&words[..messages_in(n)], out);
    Ok(n)
}
