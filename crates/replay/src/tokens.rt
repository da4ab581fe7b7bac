// The text of a trace, character by character: pairs of hexadecimal digits, with spaces, line ends and comments between them.

// The text cannot be read.
#[derive(Clone, Copy, Debug, PartialEq, Eq)]
pub(crate) struct Unreadable;

// Where the reader stands.
#[derive(Clone, Copy, Debug, PartialEq, Eq)]
pub(crate) enum Place {
    // A pair may begin here.
    Apart,
    // Straight after a pair: another may not begin here.
    Joined,
    // After the first digit of a pair.
    Half(u8),
    // In a comment, which runs to the line's end.
    Comment,
}

// The value of a hexadecimal digit.
fn digit(c: u8) -> Result<u8, Unreadable> {
    match char::from(c).to_digit(16) {
        Some(digit) => Ok(digit as u8),
        None => Err(Unreadable),
    }
}

impl Place {
    // The place after the character `c`, and the byte whose second digit `c` is.
    pub(crate) fn next(self, c: u8) -> Result<(Place, Option<u8>), Unreadable> {
        match (self, c) {
            (Place::Half(high), _) => Ok((Place::Joined, Some(high << 4 | digit(c)?))),
            (_, b'\n' | b'\r') => Ok((Place::Apart, None)),
            (Place::Comment, _) | (_, b'#') => Ok((Place::Comment, None)),
            (_, b' ') => Ok((Place::Apart, None)),
            (Place::Apart, _) => Ok((Place::Half(digit(c)?), None)),
            (Place::Joined, _) => Err(Unreadable),
        }
    }

    // The text may end at this place.
    pub(crate) fn may_end(self) -> bool {
        !matches!(self, Place::Half(_))
    }
}
