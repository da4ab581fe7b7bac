// Registered Parameter Numbers (controller.rs).
ghost use Rattle.std.specs.Prelude.{◌≡◌};
ghost use Rattle.ump.specs.Controller.{rpn_given, rpn_parts, rpn_numbered, rpn_of};

// A Registered Parameter Number (MIDI 1.0, Table IIIa), chosen by controllers 101 and 100.
#[derive(Clone, Copy, Debug, PartialEq, Eq)]
pub enum Rpn {
    // 00 00
    PitchBendSensitivity,
    // 00 01
    FineTuning,
    // 00 02
    CoarseTuning,
    // 00 03
    TuningProgramSelect,
    // 00 04
    TuningBankSelect,
    // 00 05
    ModulationDepthRange,
    // 7F 7F: no parameter
    Null,
    // Another pair of numbers, 7 bits each.
    Other { msb: u8, lsb: u8 },
}

// The values of controllers 101 and 100.
#[derive(Clone, Copy, Debug, PartialEq, Eq)]
pub struct Parts {
    pub msb: u8,
    pub lsb: u8,
}

// The parameter of two 7-bit numbers.
#[tactic(auto, unfolding(crate::specs::Controller::rpn_numbered))]
fn numbered(msb: u8, lsb: u8) -> Rpn
    ensures { result ≡ rpn_numbered msb lsb }
{
    match (msb, lsb) {
        (0x7F, 0x7F) => Rpn::Null,
        (0, 0) => Rpn::PitchBendSensitivity,
        (0, 1) => Rpn::FineTuning,
        (0, 2) => Rpn::CoarseTuning,
        (0, 3) => Rpn::TuningProgramSelect,
        (0, 4) => Rpn::TuningBankSelect,
        (0, 5) => Rpn::ModulationDepthRange,
        _ => Rpn::Other { msb, lsb },
    }
}

impl Rpn {
    // The parameter of the values of controllers 101 and 100; bit 7 is ignored.
    pub fn from_parts(msb: u8, lsb: u8) -> Rpn
        ensures { result ≡ rpn_of msb lsb }
    {
        numbered(msb % 128, lsb % 128)
    }

    // The values of controllers 101 and 100; those of `Other` as they are given.
    pub fn as_given(self) -> Parts
        ensures { result ≡ rpn_given self }
    {
        match self {
            Rpn::PitchBendSensitivity => Parts { msb: 0, lsb: 0 },
            Rpn::FineTuning => Parts { msb: 0, lsb: 1 },
            Rpn::CoarseTuning => Parts { msb: 0, lsb: 2 },
            Rpn::TuningProgramSelect => Parts { msb: 0, lsb: 3 },
            Rpn::TuningBankSelect => Parts { msb: 0, lsb: 4 },
            Rpn::ModulationDepthRange => Parts { msb: 0, lsb: 5 },
            Rpn::Null => Parts {
                msb: 0x7F,
                lsb: 0x7F,
            },
            Rpn::Other { msb, lsb } => Parts { msb, lsb },
        }
    }

    // The values of controllers 101 and 100, 7 bits each.
    pub fn into_parts(self) -> Parts
        ensures { result ≡ rpn_parts self }
    {
        let n = self.as_given();
        Parts {
            msb: n.msb % 128,
            lsb: n.lsb % 128,
        }
    }
}
