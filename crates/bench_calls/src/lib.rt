// Runs of other calls, each in one function that a C or Rust caller links (docs/BENCHMARKS.md).
#![tactic(auto)]

ghost use Rattle.std.specs.Prelude.{◌≡◌, length};
ghost use Rattle.ump.specs.Outcome.{found};
ghost use Rattle.mpe_layout.specs.Layout.{member_found};
ghost use Rattle.receiving_end.specs.End.{new_end};
ghost use Rattle.receiving_end.specs.Lists.{after_bytes};
ghost use Rattle.zone_sender.specs.Zone.{filled, written_read};
ghost use Rattle.settings.specs.Messages.{restatement, byte_count, restated_reply, count_in};
ghost use Rattle.bench_calls.specs.Runs.{magnitude_in, channel_in, offsets_sum, noted, notes_sum};
ghost use Rattle.bench_calls.specs.Bent.{bent_to};

use byte_call::step_all;
use mpe_allocator::MpeNoteAllocator;
use mpe_layout::{MemberError, MpeLayout, MpeZone};
use receiving_end::end::End;
use restatement::restatement_bytes;
use settings::Settings;
use zone_sender::WriteError;

// An allocator, and the sum of the channels that it gave.
#[derive(Clone, Copy)]
struct Noted {
    allocator: MpeNoteAllocator,
    sum: u64,
}

// How far a channel is bent, up or down; 0 for a channel with no role.
fn magnitude(offset: Option<i32>) -> u32
    ensures { result ≡ magnitude_in (found offset) }
{
    offset.map_or(0, |z| z.unsigned_abs())
}

// A new end receives the bytes, and then gives the offset of each of the channels: the sum of their magnitudes.
#[tactic(auto, using(crate::proofs::Left::offsets_left), unfolding(crate::specs::Runs::offsets_sum))]
#[unsafe(no_mangle)]
pub extern "C" fn gurfemau_offsets(bytes: &[u8], channels: &[u8]) -> u64
    ensures { result ≡ offsets_sum (after_bytes new_end bytes.now) 0 channels.now }
{
    let end = step_all(End::new(), bytes);
    let mut sum: u64 = 0;
    for channel in channels {
        sum = sum.wrapping_add(magnitude(end.pitch_offset(*channel)) as u64);
    }
    sum
}

fn channel_in(reply: Result<u8, MemberError>) -> u8
    ensures { result ≡ channel_in (member_found reply) }
{
    reply.unwrap_or(0)
}

// A byte below 80 starts the note of this number in a zone of fifteen members; any other ends a note on the channel of its lower half.
#[tactic(auto, unfolding(crate::specs::Runs::noted))]
fn note(n: Noted, b: u8) -> Noted
    ensures { result ≡ noted n b }
{
    if b < 0x80 {
        let on = n.allocator.note_on(MpeLayout::DEFAULT, MpeZone::Lower, b);
        return Noted {
            allocator: on.allocator,
            sum: n.sum.wrapping_add(channel_in(on.reply) as u64),
        };
    }
    Noted {
        allocator: n.allocator.note_off(b),
        ..n
    }
}

// A new allocator takes the notes by value: the sum of the channels that it gave.
#[tactic(auto, using(crate::proofs::Left::notes_left), unfolding(crate::specs::Runs::noted_all))]
#[unsafe(no_mangle)]
pub extern "C" fn gurfemau_notes(notes: &[u8]) -> u64
    ensures { result ≡ notes_sum notes.now }
{
    let mut n = Noted {
        allocator: MpeNoteAllocator::new(),
        sum: 0,
    };
    for b in notes {
        n = note(n, *b);
    }
    n.sum
}

// Two zones of seven, and this bend on every channel.
fn bent(bend: u16) -> Settings
    ensures { result ≡ bent_to bend }
{
    Settings {
        layout: MpeLayout { lower: 7, upper: 7 },
        pitch_bend: [bend; 16],
        ..Settings::new()
    }
}

fn count(written: Result<usize, WriteError>) -> usize
    ensures { result ≡ count_in (written_read written) }
{
    written.unwrap_or(0)
}

// Writes the restatement of these settings, and answers how many bytes it has; 0 for a refusal.
#[unsafe(no_mangle)]
pub extern "C" fn gurfemau_restatement(bend: u16, out: &mut [u8]) -> usize
    ensures reply { result ≡ count_in (restated_reply (bent_to bend) (byte_count (bent_to bend).layout) (length out.old)) }
    ensures buffer { out.new ≡ filled (restated_reply (bent_to bend) (byte_count (bent_to bend).layout) (length out.old)) (restatement (bent_to bend)) out.old }
{
    count(restatement_bytes(bent(bend), out))
}
