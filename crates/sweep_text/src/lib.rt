// The text of a sweep's line: semitones, cents, bend value and offset, and the remainder where it is asked for.
#![tactic(auto)]

ghost use Rattle.std.specs.Prelude.{◌≡◌, ◌≤◌};
ghost use Rattle.sweep_text.specs.Line.{text_of, Filled, fifth, sweep_line};
ghost use Rattle.sweep_text.specs.Claims.{ColumnsRead, LinesAsTabled};

mod line_text;

pub use line_text::LineText;
use mpe_pitch::{MpeSensitivity, pitch_offset_with_remainder};

// A line's end, after the remainder where it is asked for.
fn line_end(remainder: i32, asked: bool) -> LineText
    ensures { (text_of result ≡ fifth remainder asked) × (51 ≤ result.from) }
{
    let end = LineText::new();
    if asked {
        end.after_signed(remainder).after(b' ')
    } else {
        end
    }
}

// The line of a bend value, with its remainder where it is asked for.
#[tactic(auto, using(crate::proofs::Lines::tabled))]
pub fn sweep_line(sensitivity: MpeSensitivity, value: u16, remainder: bool) -> LineText
    ensures is { text_of result ≡ sweep_line sensitivity value remainder }
    ensures filled { Filled result }
    ensures read { ColumnsRead sensitivity value remainder (text_of result) }
    ensures table { LinesAsTabled }
{
    let pair = pitch_offset_with_remainder(value, sensitivity);
    line_end(pair.remainder, remainder)
        .after_signed(pair.offset)
        .after(b' ')
        .after_number(value as u32)
        .after(b' ')
        .after_number(sensitivity.cents as u32)
        .after(b' ')
        .after_number(sensitivity.semitones as u32)
}
