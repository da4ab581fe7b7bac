// The classes of messages of Appendix E (mpe.rs).
#![tactic(auto)]

ghost use Rattle.std.specs.Prelude.{◌≡◌};
ghost use Rattle.mpe_class.specs.Classes.{row_of, column_of, class_of};

use MpeClass::{Mandatory as M, Optional as O, Prohibited as P};

// A kind of message of Appendix E (Table 5).
#[derive(Clone, Copy, Debug, PartialEq, Eq)]
pub enum MpeMessage {
    // RPN 00 06, the MPE Configuration Message.
    Mcm,
    // RPN 0.
    PitchBendSensitivity,
    PitchBend,
    ChannelPressure,
    // Controller 74.
    Brightness,
    // Polyphonic Key Pressure.
    PolyPressure,
    // Controller 120.
    AllSoundOff,
    // Controller 121.
    ResetAllControllers,
    // Controller 122.
    LocalControl,
    // Controller 123.
    AllNotesOff,
    // Controller 124.
    OmniOff,
    // Controller 125.
    OmniOn,
    // Controller 126.
    MonoModeOn,
    // Controller 127.
    PolyModeOn,
    // Each other controller.
    OtherControlChange,
    // Each other RPN.
    OtherRpn,
    Nrpn,
    ProgramChange,
    // Controllers 0 and 32.
    BankSelect,
    // Note On and Note Off.
    Note,
    // System Common, System Real Time and System Exclusive.
    System,
}

// The class of a kind of message in Appendix E.
#[derive(Clone, Copy, Debug, PartialEq, Eq)]
pub enum MpeClass {
    Mandatory,
    Optional,
    Prohibited,
}

// A row of Table 5: manager transmits, manager receives, member transmits, member receives.
#[derive(Clone, Copy)]
struct Row(MpeClass, MpeClass, MpeClass, MpeClass);

// The row of a kind of message; that of Program Change and Bank Select is by the mode of the zone.
fn row_of(message: MpeMessage, mono: bool) -> Row
    ensures { result ≡ row_of message mono }
{
    match message {
        MpeMessage::Mcm => Row(M, M, P, P),
        MpeMessage::PitchBendSensitivity
        | MpeMessage::PitchBend
        | MpeMessage::ChannelPressure
        | MpeMessage::Brightness => Row(O, M, O, M),
        MpeMessage::PolyPressure => Row(O, O, P, P),
        MpeMessage::ResetAllControllers
        | MpeMessage::LocalControl
        | MpeMessage::AllNotesOff
        | MpeMessage::OmniOff
        | MpeMessage::OtherControlChange
        | MpeMessage::OtherRpn
        | MpeMessage::Nrpn
        | MpeMessage::System => Row(O, O, O, O),
        MpeMessage::OmniOn => Row(P, P, P, P),
        MpeMessage::AllSoundOff | MpeMessage::MonoModeOn | MpeMessage::PolyModeOn => {
            Row(P, P, O, O)
        }
        MpeMessage::ProgramChange | MpeMessage::BankSelect if mono => Row(O, O, O, O),
        MpeMessage::ProgramChange | MpeMessage::BankSelect => Row(O, O, P, P),
        MpeMessage::Note => Row(O, M, M, M),
    }
}

fn column(row: Row, manager: bool, transmit: bool) -> MpeClass
    ensures { result ≡ column_of row manager transmit }
{
    match (manager, transmit) {
        (true, true) => row.0,
        (true, false) => row.1,
        (false, true) => row.2,
        (false, false) => row.3,
    }
}

// The class of a message on the manager or a member channel, to send or to receive, in Mode 4 (`mono`) or 3.
pub fn mpe_class(message: MpeMessage, manager: bool, transmit: bool, mono: bool) -> MpeClass
    ensures { result ≡ class_of message manager transmit mono }
{
    column(row_of(message, mono), manager, transmit)
}
