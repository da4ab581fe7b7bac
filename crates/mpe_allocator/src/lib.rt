// The note allocator of an MPE sender (mpe.rs): the member channel for each new note.
#![tactic(auto)]

ghost use Rattle.std.specs.Prelude.{◌≡◌, ◌+◌, ◌-◌, ◌*◌, ◌<◌, ◌≤◌, false};
ghost use Rattle.ump.specs.Packet.{packet_value};
ghost use Rattle.ump.specs.Choice.{when◌then◌else◌};
ghost use Rattle.mpe_layout.specs.Layout.{member_found};
ghost use Rattle.mpe_allocator.specs.Choice.{held_on, tie_first, smaller_first, recalls};
ghost use Rattle.mpe_allocator.specs.Allocator.{emptied, one_more, Placed, AllocatedAs, allocation_of, without_note, with_option};
ghost use Rattle.mpe_allocator.specs.Calls.{note_on, note_off, active_notes, same_note, set_same_note, reset, note_reply, count, option, nothing, AllocatorGives, CountsSum};
ghost use Rattle.mpe_allocator.specs.Examples.{AllocatesAsTabled};
ghost use Rattle.mpe_allocator.specs.Stored.{AlwaysStored};
ghost use Rattle.mpe_allocator.specs.Filling.{FillsFromManager};
ghost use Rattle.mpe_allocator.specs.Claims.{OfChannel, ChosenIsMember, OneChosen, RecallChosen, LeastChosen, OnlyTiesTurned};

use mpe_layout::{MemberError, MpeLayout, MpeZone};

// For each channel the count of held notes, the last note (0x80 added, 0 for none) and the clock at the last release (M1-100 A.3).
// Three arrays, and not one of records: `CountsSum` sums the counts as one list, and a record of 8 bytes would lengthen the value by a third.
#[derive(Clone, Copy)]
pub struct MpeNoteAllocator {
    pub active: [u8; 16],
    pub last_note: [u8; 16],
    pub last_off: [u32; 16],
    // The count of releases.
    pub clock: u32,
    pub same_note: bool,
}

// The allocator after `note_on`, and its answer.
#[derive(Clone, Copy)]
pub struct Allocation {
    pub allocator: MpeNoteAllocator,
    pub reply: Result<u8, MemberError>,
}

// Of two members that tie, the one nearer to the manager goes first: in Lower the lower, in Upper the higher.
#[tactic(auto, unfolding(crate::specs::Choice::tie_first))]
fn wins_tie(zone: MpeZone, c: usize, b: usize) -> bool
    ensures { result ≡ tie_first zone c b }
{
    match zone {
        MpeZone::Lower => c <= b,
        MpeZone::Upper => b <= c,
    }
}

// The smaller number goes first, and equal ones leave it to the rest.
#[tactic(auto, unfolding(crate::specs::Choice::smaller_first))]
fn smaller_first(x: u64, y: u64, rest: bool) -> bool
    ensures { result ≡ smaller_first x y rest }
{
    x < y || x == y && rest
}

// One more, and no more than 255.
fn one_more(held: u8) -> u8
    ensures { result ≡ one_more held }
{
    held.saturating_add(1)
}

// A free channel whose last note is this one, under the same-note option.
#[tactic(auto, unfolding(crate::specs::Choice::recalls))]
fn is_recall(option: bool, held: u8, last: u8, mark: u8) -> bool
    ensures { result ≡ recalls option held last mark }
{
    option && held == 0 && last == mark
}

// The rank of a member for a note: the smaller goes first. Those that recall the note have the ranks below 4,294,967,296, the later their release the
// smaller; the others follow, by their held notes and then by their last release.
fn rank(recall: bool, held: u8, released: u32) -> u64
    ensures is { result ≡ (when recall then 4294967295 - released else 4294967296 * (held + 1) + released) }
    ensures within { (released < 4294967296) × (result < 18446744073709551615) }
{
    if recall {
        (u32::MAX - released) as u64
    } else {
        4294967296 * (held as u64 + 1) + released as u64
    }
}

impl MpeNoteAllocator {
    // No held note, and the same-note option off.
    pub fn new() -> MpeNoteAllocator
        ensures is { result ≡ emptied false }
        ensures counts { CountsSum result }
        ensures fills { FillsFromManager result }
        ensures table { AllocatesAsTabled }
        ensures stored { AlwaysStored result }
    {
        emptied(false)
    }

    // A note of this mark in a zone, on the foremost channel from `first` up to below `end`.
    fn place(self, zone: MpeZone, mark: u8, first: usize, end: usize) -> Allocation
        requires { (first < end) × (end ≤ 16) }
        ensures { Placed self zone mark first end result }
    {
        // The best channel so far and its rank; no rank is as large as the number that the search begins with.
        let mut best = first;
        let mut least = u64::MAX;
        for c in first..end {
            let held = self.active[c];
            let recall = is_recall(self.same_note, held, self.last_note[c], mark);
            let next = rank(recall, held, self.last_off[c]);
            if smaller_first(next, least, wins_tie(zone, c, best)) {
                best = c;
                least = next;
            }
        }
        let mut a = self;
        a.active[best] = one_more(self.active[best]);
        a.last_note[best] = mark;
        Allocation {
            allocator: a,
            reply: Ok(best as u8),
        }
    }

    // A member of `zone` for a new note, held there from now on (1.5.1, 2.2.4.1, A.3). A note is taken modulo 128.
    pub fn note_on(self, layout: MpeLayout, zone: MpeZone, note: u8) -> Allocation
        ensures chosen { AllocatedAs self layout zone note (member_found result.reply) result.allocator }
        ensures is { result ≡ allocation_of self layout zone note }
        ensures listed { AllocatorGives self (note_on layout zone note) (note_reply result.reply) result.allocator }
        ensures member { OfChannel result.reply (ChosenIsMember layout zone) }
        ensures one { OfChannel result.reply (OneChosen self layout zone note) }
        ensures recall { OfChannel result.reply (RecallChosen self layout zone note) }
        ensures least { OfChannel result.reply (LeastChosen self layout zone note) }
        ensures turned { OfChannel result.reply (OnlyTiesTurned self layout zone note) }
    {
        match layout.lowest_member(zone) {
            Err(refusal) => Allocation {
                allocator: self,
                reply: Err(refusal),
            },
            Ok(first) => {
                // A zone with a lowest member has a member count.
                let end = first + layout.members(zone).unwrap();
                self.place(zone, 0x80 + note % 128, first as usize, end as usize)
            }
        }
    }

    // A note on `channel` ended. A channel without a held note changes nothing.
    #[tactic(auto, unfolding(crate::specs::Allocator::without_note))]
    pub fn note_off(self, channel: u8) -> MpeNoteAllocator
        ensures is { result ≡ without_note self (packet_value channel) }
        ensures listed { AllocatorGives self (note_off channel) nothing result }
    {
        let c = (channel % 16) as usize;
        if self.active[c] == 0 {
            return self;
        }
        let clock = self.clock.wrapping_add(1);
        let mut a = self;
        a.active[c] -= 1;
        a.last_off[c] = clock;
        a.clock = clock;
        a
    }

    // The count of held notes on `channel`.
    pub fn active_notes(self, channel: u8) -> u8
        ensures is { result ≡ held_on self (packet_value channel) }
        ensures listed { AllocatorGives self (active_notes channel) (count result) self }
    {
        let c = (channel % 16) as usize;
        self.active[c]
    }

    // The same-note option of A.3.
    pub fn same_note(self) -> bool
        ensures is { result ≡ self.same_note }
        ensures listed { AllocatorGives self same_note (option result) self }
    {
        self.same_note
    }

    // The same-note option on or off.
    pub fn set_same_note(self, on: bool) -> MpeNoteAllocator
        ensures is { result ≡ with_option self on }
        ensures listed { AllocatorGives self (set_same_note on) nothing result }
    {
        let mut a = self;
        a.same_note = on;
        a
    }

    // No held note and no release; the same-note option stays.
    pub fn reset(self) -> MpeNoteAllocator
        ensures is { result ≡ emptied self.same_note }
        ensures listed { AllocatorGives self reset nothing result }
        ensures fills { FillsFromManager result }
    {
        emptied(self.same_note)
    }
}

// An allocator with no held note.
fn emptied(option: bool) -> MpeNoteAllocator
    ensures { result ≡ emptied option }
{
    MpeNoteAllocator {
        active: [0; 16],
        last_note: [0; 16],
        last_off: [0; 16],
        clock: 0,
        same_note: option,
    }
}
