// The messages of a cable as MIDI 2.0 words, and the text of these words.
#![tactic(auto)]

pub mod cable;
pub mod line;
