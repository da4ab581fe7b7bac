// The line of two words: eight hexadecimal digits each, in upper case, with one space between and a line's end behind.
ghost use Rattle.std.specs.Prelude.{◌≡◌, ◌/◌, ◌%◌, ◌<◌};
ghost use Rattle.midi2_text.specs.Line.{hex_digit, word_text, pair_line};

// The digit of a value below 16.
#[tactic(auto, unfolding(crate::specs::Line::hex_digit))]
fn hex_digit(value: u8) -> u8
    requires { value < 16 }
    ensures { result ≡ hex_digit value }
{
    match value {
        0..=9 => b'0' + value,
        _ => b'A' - 10 + value,
    }
}

// The digit of a word that counts `unit`, a power of 16.
fn digit(word: u32, unit: u32) -> u8
    requires { 0 < unit }
    ensures { result ≡ hex_digit (word / unit % 16) }
{
    hex_digit((word / unit % 16) as u8)
}

// A word's eight digits.
fn word_text(word: u32) -> [u8; 8]
    ensures { result ≡ word_text word }
{
    [
        digit(word, 0x1000_0000),
        digit(word, 0x100_0000),
        digit(word, 0x10_0000),
        digit(word, 0x1_0000),
        digit(word, 0x1000),
        digit(word, 0x100),
        digit(word, 0x10),
        digit(word, 1),
    ]
}

// The line's bytes.
pub fn pair_line(a: u32, b: u32) -> [u8; 18]
    ensures { result ≡ pair_line a b }
{
    let mut line = [b' '; 18];
    line[..8].copy_from_slice(&word_text(a));
    line[9..17].copy_from_slice(&word_text(b));
    line[17] = b'\n';
    line
}
