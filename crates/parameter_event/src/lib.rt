// A change of a parameter, and the value after it (parameters.rs).
#![tactic(auto)]

ghost use Rattle.std.specs.Prelude.{◌≡◌, ℕ, ◌<◌, ◌≤◌, ◌^◌, ◌-◌};
ghost use Rattle.parameter_event.specs.Apply.{saturating_step, step_cents, step_upper, step_numbered, step_parameter, applied};

use ump::controller::Rpn;

// A parameter: a Registered or a Non-Registered Parameter Number.
#[derive(Clone, Copy, Debug, PartialEq, Eq)]
pub enum Parameter {
    Registered(Rpn),
    NonRegistered { msb: u8, lsb: u8 },
}

// One change of the selected parameter.
#[derive(Clone, Copy, Debug, PartialEq, Eq)]
pub enum ParameterChange {
    // Data Entry MSB (controller 6), 7 bits.
    DataEntryMsb(u8),
    // Data Entry LSB (controller 38), 7 bits.
    DataEntryLsb(u8),
    // Data Increment (controller 96).
    Increment,
    // Data Decrement (controller 97).
    Decrement,
}

// What a Data Entry, Data Increment or Data Decrement gives.
#[derive(Clone, Copy, Debug, PartialEq, Eq)]
pub struct ParameterEvent {
    pub parameter: Parameter,
    pub change: ParameterChange,
}

// One step up or down of a field of any width, which stops at 0 and at `top`, its highest value.
fn saturating_step(value: u16, top: u16, up: bool) -> u16
    ensures steps { (width : ℕ) → top ≡ 2 ^ width - 1 → result ≡ saturating_step width up value }
    ensures within { value ≤ top → result ≤ top }
{
    if !up {
        return value.saturating_sub(1);
    }
    if value < top { value + 1 } else { value }
}

// A step of Pitch Bend Sensitivity, in cents with a carry at 100.
#[tactic(auto, unfolding(crate::specs::Apply::step_cents))]
fn step_cents(msb: u16, lsb: u16, up: bool) -> u16
    requires { (msb < 2 ^ 7) × (lsb < 2 ^ 7) }
    ensures { result ≡ step_cents msb lsb up }
{
    let value = msb * 128 + lsb;
    match (up, msb, lsb) {
        (true, _, 0..99) => value + 1,
        (true, 0..127, _) => (msb + 1) * 128,
        (false, _, 1..) => value - 1,
        (false, 1.., _) => (msb - 1) * 128 + 99,
        _ => value,
    }
}

// A step of the upper half.
fn step_upper(msb: u16, lsb: u16, up: bool) -> u16
    requires { (msb < 2 ^ 7) × (lsb < 2 ^ 7) }
    ensures { result ≡ step_upper msb lsb up }
{
    saturating_step(msb, 127, up) * 128 + lsb
}

// One step of the 14-bit value.
fn step14(value: u16, up: bool) -> u16
    ensures { result ≡ saturating_step 14 up value }
{
    saturating_step(value, 0x3FFF, up)
}

// One step of a registered parameter, by its number.
#[tactic(auto, unfolding(crate::specs::Apply::step_numbered))]
fn step_numbered(msb: u8, lsb: u8, value: u16, up: bool) -> u16
    requires { value < 2 ^ 14 }
    ensures { result ≡ step_numbered msb lsb up value }
{
    match (msb, lsb) {
        (0, 0) => step_cents(value / 128, value % 128, up),
        (0, 2..=4) => step_upper(value / 128, value % 128, up),
        _ => step14(value, up),
    }
}

// One RP-018 step of a 14-bit value.
fn step(parameter: Parameter, value: u16, up: bool) -> u16
    requires { value < 2 ^ 14 }
    ensures { result ≡ step_parameter parameter up value }
{
    match parameter {
        Parameter::Registered(rpn) => {
            let n = rpn.into_parts();
            step_numbered(n.msb, n.lsb, value, up)
        }
        Parameter::NonRegistered { .. } => step14(value, up),
    }
}

impl ParameterEvent {
    // The new 14-bit value of the parameter from its current value.
    pub fn apply(self, value: u16) -> u16
        ensures { result ≡ applied self value }
    {
        let ParameterEvent { parameter, change } = self;
        let v = value % 0x4000;
        match change {
            ParameterChange::DataEntryMsb(msb) => (msb % 128) as u16 * 128,
            ParameterChange::DataEntryLsb(lsb) => v / 128 * 128 + (lsb % 128) as u16,
            ParameterChange::Increment => step(parameter, v, true),
            ParameterChange::Decrement => step(parameter, v, false),
        }
    }
}
