// The item that is being read: an operation byte and its arguments.
ghost use Rattle.std.specs.Prelude.{◌≤◌};

use crate::tokens::{Place, Unreadable};

// The bytes of the item so far, and where its text goes on. Item 90 with the longest file has 515 bytes.
// The bytes stand in an array with their count beside: a Vec asks for memory, and no run is to end for want of it.
#[derive(Drop)]
pub(crate) struct Reader {
    bytes: [u8; 515],
    count: usize,
    place: Place,
    ghost in_bytes: { count ≤ 515 },
}

// The length of an item in bytes, by its operation; of items 90 and 91 up to the count that says how many follow.
fn fixed_length(operation: u8) -> Option<usize> {
    let length = match operation {
        0x00 | 0x06 | 0x34 | 0x36 | 0x39 | 0x40 | 0x43 | 0x60 | 0x64 | 0x65 | 0x80 => 1,
        0x01 | 0x02 | 0x07 | 0x08 | 0x09 | 0x37 | 0x38 | 0x44 | 0x45 | 0x62 | 0x63 | 0x83 => 2,
        0x03 | 0x04 | 0x05 | 0x10 | 0x15 | 0x16 | 0x42 | 0x51 | 0x82 | 0x90 => 3,
        0x12 | 0x13 | 0x14 | 0x32 | 0x52 | 0x84 => 4,
        0x11 | 0x18 | 0x21 | 0x22 | 0x31 | 0x35 | 0x50 | 0x54 | 0x61 | 0x67 | 0x81 => 5,
        0x68 => 6,
        0x20 | 0x33 | 0x86 | 0x87 | 0x88 | 0x89 => 7,
        0x17 | 0x30 | 0x55 => 8,
        0x53 => 9,
        0x41 => 11,
        0x72 => 77,
        0x91 => 78,
        0x70 | 0x71 => 79,
        _ => return None,
    };
    Some(length)
}

// The length of item 90 with a file of n bytes, inside its limit.
fn file_item_length(n: u16) -> Option<usize> {
    if n <= 512 { Some(3 + n as usize) } else { None }
}

// The length of the item that begins with these bytes, as far as they say it; none where it cannot be read.
fn length(item: &[u8]) -> Option<usize> {
    match item {
        [0x90, high, low, ..] => file_item_length(u16::from_be_bytes([*high, *low])),
        [0x91, ..] => Some(item.get(77).map_or(78, |label| 80 + *label as usize)),
        [operation, ..] => fixed_length(*operation),
        [] => None,
    }
}

// The length of the buffer that an item asks for, which stands last in it, is inside its limit.
fn is_within_limit(item: &[u8]) -> bool {
    match item {
        [0x53, .., n] => *n <= 80,
        [0x70, .., high, low] => u16::from_be_bytes([*high, *low]) <= 1024,
        [0x71, .., high, low] => u16::from_be_bytes([*high, *low]) <= 256,
        [0x91, .., high, low] => u16::from_be_bytes([*high, *low]) <= 512,
        _ => true,
    }
}

// Whether these bytes are a whole item.
fn is_whole(item: &[u8]) -> Result<bool, Unreadable> {
    let needed = length(item).ok_or(Unreadable)?;
    if item.len() < needed {
        Ok(false)
    } else if is_within_limit(item) {
        Ok(true)
    } else {
        Err(Unreadable)
    }
}

impl Reader {
    pub(crate) fn new() -> Reader {
        Reader {
            bytes: [0; 515],
            count: 0,
            place: Place::Apart,
        }
    }

    // The input may end here: in no item and in no pair.
    pub(crate) fn may_end(&self) -> bool {
        self.count == 0 && self.place.may_end()
    }

    // The bytes of the item so far.
    pub(crate) fn bytes(&self) -> &[u8] {
        &self.bytes[..self.count]
    }

    // Another item begins.
    pub(crate) fn begin(&mut self) {
        self.count = 0;
    }

    // One byte more: whether the item is then whole.
    fn push(&mut self, byte: u8) -> Result<bool, Unreadable> {
        if self.count == 515 {
            return Err(Unreadable);
        }
        self.bytes[self.count] = byte;
        self.count += 1;
        is_whole(self.bytes())
    }

    // One character more: whether the item is then whole.
    pub(crate) fn read(&mut self, c: u8) -> Result<bool, Unreadable> {
        let (place, byte) = self.place.next(c)?;
        self.place = place;
        match byte {
            Some(byte) => self.push(byte),
            None => Ok(false),
        }
    }
}
