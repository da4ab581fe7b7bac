// The receiving end: a byte reader, the parameters of sixteen channels, and one MPE receiver (document 01, "A byte arrives").
#![tactic(auto)]

pub mod end;
