// Groups and channels of a packet (packet.rs).
ghost use Rattle.std.specs.Prelude.{◌≡◌, ◌+◌, ◌<◌, ℕ};
ghost use Rattle.ump.specs.Outcome.{given, out_of_range};
ghost use Rattle.ump.specs.Packet.{from_index, from_number, numbered_as, packet_value};

use crate::reply::OutOfRange;

// A number of a packet with 4 bits: packet values 0 to 15, which people count from 1 to 16.
pub trait PacketNumber: Copy + Drop {
    // The number that is held; the packet value is its low 4 bits.
    ghost index_of: { Self → ℕ };

    // The one for the low 4 bits of `value`.
    fn from_bits(value: u8) -> Self
        ensures { index_of result ≡ packet_value value };

    // The packet value, 0 to 15.
    fn index(self) -> u8
        ensures { (result ≡ packet_value (index_of self)) × (result < 16) };

    // The one with packet value `index`, 0 to 15.
    fn new(index: u8) -> Result<Self, OutOfRange>
        ensures { numbered_as index_of result ≡ from_index index }
    {
        if 0xF < index {
            return Err(OutOfRange);
        }
        Ok(Self::from_bits(index))
    }

    // The one with user-facing number `number`, 1 to 16.
    fn from_number(number: u8) -> Result<Self, OutOfRange>
        ensures { numbered_as index_of result ≡ from_number number }
    {
        if number == 0 || 16 < number {
            return Err(OutOfRange);
        }
        Ok(Self::from_bits(number - 1))
    }

    // The user-facing number, 1 to 16.
    fn number(self) -> u8
        ensures { result ≡ packet_value (index_of self) + 1 }
    {
        self.index() + 1
    }

    // The 4-bit field value.
    fn into_bits(self) -> u8
        ensures { (result ≡ packet_value (index_of self)) × (result < 16) }
    {
        self.index()
    }
}

// A Group, by its packet value 0 to 15.
#[derive(Clone, Copy, Debug, PartialEq, Eq)]
pub struct Group(u8);

impl PacketNumber for Group {
    ghost index_of = { λ group. group.0 };

    fn from_bits(value: u8) -> Group {
        Group(value % 16)
    }

    fn index(self) -> u8 {
        self.0 % 16
    }
}

// A MIDI Channel, by its packet value 0 to 15.
#[derive(Clone, Copy, Debug, PartialEq, Eq)]
pub struct Channel(u8);

impl PacketNumber for Channel {
    ghost index_of = { λ channel. channel.0 };

    fn from_bits(value: u8) -> Channel {
        Channel(value % 16)
    }

    fn index(self) -> u8 {
        self.0 % 16
    }
}
