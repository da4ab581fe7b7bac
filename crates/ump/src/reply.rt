// What a public call answers where it declines.

// 1: a value, a word, a layout or a record outside its limits.
#[derive(Clone, Copy, Debug, PartialEq, Eq)]
pub struct OutOfRange;
