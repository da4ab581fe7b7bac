// Words of MIDI 1.0 channel voice messages, from zmidi-ump.
#![tactic(auto)]

pub mod channel_voice1;
pub mod controller;
pub mod packet;
pub mod reply;
