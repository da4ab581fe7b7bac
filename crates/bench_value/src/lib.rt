// A run of byte calls by value, in one function that a C or Rust caller links (docs/BENCHMARKS.md).
#![tactic(auto)]

ghost use Rattle.std.specs.Prelude.{◌≡◌};
ghost use Rattle.receiving_end.specs.End.{new_end};
ghost use Rattle.bench_value.specs.Runs.{replies_sum};

use bench_lent::reply_code;
use byte_call::step;
use receiving_end::end::End;

// A new end receives the bytes by value: the sum of its replies.
#[tactic(auto, using(crate::proofs::Left::replies_left), unfolding(crate::specs::Runs::replies_sum))]
#[unsafe(no_mangle)]
pub extern "C" fn gurfemau_replies(bytes: &[u8]) -> u64
    ensures { result ≡ replies_sum new_end 0 bytes.now }
{
    let mut end = End::new();
    let mut sum: u64 = 0;
    for b in bytes {
        let stepped = step(end, *b);
        end = stepped.end;
        sum = sum.wrapping_add(reply_code(stepped.reply));
    }
    sum
}
