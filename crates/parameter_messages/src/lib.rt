// The messages that select a parameter and change it (parameters.rs).
#![tactic(auto)]

ghost use Rattle.std.specs.Prelude.{◌≡◌};
ghost use Rattle.ump.specs.Outcome.{answered};
ghost use Rattle.parameter_messages.specs.Writers.{number_messages, select_messages, change_message, value_messages};

use parameter_event::{Parameter, ParameterChange};
use ump::channel_voice1::control_change;
use ump::reply::OutOfRange;

// The upper and the lower half of a number or of a value, by a controller each.
fn number_messages(
    channel: u8,
    msb_controller: u8,
    lsb_controller: u8,
    msb: u8,
    lsb: u8,
) -> Result<[u32; 2], OutOfRange>
    ensures { answered result ≡ number_messages channel msb_controller lsb_controller msb lsb }
{
    Ok([
        control_change(channel, msb_controller, msb)?,
        control_change(channel, lsb_controller, lsb)?,
    ])
}

// The number of `parameter`: its MSB and then its LSB, with Group 0. A half above 127 is out of range; those of `Other` go as they are.
pub fn select_messages(channel: u8, parameter: Parameter) -> Result<[u32; 2], OutOfRange>
    ensures { answered result ≡ select_messages channel parameter }
{
    match parameter {
        Parameter::Registered(rpn) => {
            let n = rpn.as_given();
            number_messages(channel, 101, 100, n.msb, n.lsb)
        }
        Parameter::NonRegistered { msb, lsb } => number_messages(channel, 99, 98, msb, lsb),
    }
}

// One change as a Control Change with Group 0; steps have value 0. Data above 127 is out of range.
pub fn change_message(channel: u8, change: ParameterChange) -> Result<u32, OutOfRange>
    ensures { answered result ≡ change_message channel change }
{
    match change {
        ParameterChange::DataEntryMsb(msb) => control_change(channel, 6, msb),
        ParameterChange::DataEntryLsb(lsb) => control_change(channel, 38, lsb),
        ParameterChange::Increment => control_change(channel, 96, 0),
        ParameterChange::Decrement => control_change(channel, 97, 0),
    }
}

// A parameter's value: its number, then Data Entry MSB and LSB, with Group 0. A value above 3FFF is out of range.
#[tactic(auto, unfolding(crate::specs::Writers::value_messages))]
pub fn value_messages(channel: u8, parameter: Parameter, value: u16) -> Result<[u32; 4], OutOfRange>
    ensures { answered result ≡ value_messages channel parameter value }
{
    if 0x3FFF < value {
        return Err(OutOfRange);
    }
    let msb = (value / 128) as u8;
    let lsb = (value % 128) as u8;
    let [number_msb, number_lsb] = select_messages(channel, parameter)?;
    let [data_msb, data_lsb] = number_messages(channel, 6, 38, msb, lsb)?;
    Ok([number_msb, number_lsb, data_msb, data_lsb])
}
