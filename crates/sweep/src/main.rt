// Prints, for each sensitivity that its arguments name by semitones and cents, every bend value and its pitch offset in hundredths of a cent.
// A line has semitones, cents, bend value and offset, and for the sensitivities after the word `--remainder` the offset's remainder.
#![tactic(auto)]

mod arguments;

use arguments::all_sweeps;
use mpe_pitch::MpeSensitivity;
use sweep_text::sweep_line;

// The lines of a sensitivity, while they can be written.
fn lines(rt: &impl Print, sensitivity: MpeSensitivity, remainder: bool) -> bool {
    (0..0x4000u16).all(|value| {
        rt.write_all(sweep_line(sensitivity, value, remainder).as_bytes())
            .is_ok()
    })
}

fn main(rt: HostRuntime) {
    if !all_sweeps(&rt, |_, _| true) {
        let _ = eprintln!(rt;
            "sweep: the arguments are pairs of semitones and cents, each 0 to 127, and --remainder before those that are to have it"
        );
        return;
    }
    if !all_sweeps(
        &rt,
        |sensitivity, remainder| lines(&rt, sensitivity, remainder),
    ) {
        let _ = eprintln!(rt; "sweep: standard output cannot be written");
    }
}
