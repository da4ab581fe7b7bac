// The calls that a board's firmware links, each that of `bench_lent` with its clauses: a new end, and a byte on a lent end. A reply is a number
// (docs/BENCHMARKS.md).
#![tactic(auto)]

ghost use Rattle.std.specs.Prelude.{◌≡◌};
ghost use Rattle.receiving_end.specs.End.{new_end, step_reply, step_end};
ghost use Rattle.bench_lent.specs.Code.{reply_code};

use receiving_end::end::End;

// The end becomes a new one.
#[unsafe(no_mangle)]
pub extern "C" fn gurfemau_new(end: &mut End)
    ensures { end.new ≡ new_end }
{
    bench_lent::gurfemau_new(end);
}

// The byte call on a lent end.
#[unsafe(no_mangle)]
pub extern "C" fn gurfemau_byte(end: &mut End, b: u8) -> u64
    ensures { (result ≡ reply_code (step_reply end.old b)) × (end.new ≡ step_end end.old b) }
{
    bench_lent::gurfemau_byte(end, b)
}
