// Pitch bend sensitivity, and pitch offsets in hundredths of a cent (mpe.rs).
#![tactic(auto)]

ghost use Rattle.std.specs.Prelude.{◌≡◌, ◌+◌, ◌*◌, ◌<◌, ◌≤◌, min, pos, ◌-ℤ◌};
ghost use Rattle.ump.specs.Choice.{when◌then◌else◌};
ghost use Rattle.mpe_pitch.specs.Pitch.{manager_default, member_default, range_of, nearest, pitch_offset, pitch_bend_value};
ghost use Rattle.mpe_pitch.specs.Remainder.{pitch_remainder, offset_with_remainder};
ghost use Rattle.mpe_pitch.specs.Claims.{OffsetNearest, NoTie, OffsetWithin, OffsetRises, Within, IsPair, OnlyPair};

// A Pitch Bend Sensitivity: semitones (Data Entry MSB of RPN 0) and cents (LSB), 7 bits each (M1-100 2.2.5).
#[derive(Clone, Copy, Debug, PartialEq, Eq)]
pub struct MpeSensitivity {
    pub semitones: u8,
    pub cents: u8,
}

impl MpeSensitivity {
    // The Manager Channel's default: 2 semitones (2.1, 2.2.5).
    pub const MANAGER_DEFAULT: Self = Self {
        semitones: 2,
        cents: 0,
    };

    // The Member Channels' default: 48 semitones (2.1, 2.2.5).
    pub const MEMBER_DEFAULT: Self = Self {
        semitones: 48,
        cents: 0,
    };

    // The default of a Manager Channel or of Member Channels.
    pub fn default_of(manager: bool) -> MpeSensitivity
        ensures { result ≡ (when manager then manager_default else member_default) }
    {
        if manager {
            MpeSensitivity::MANAGER_DEFAULT
        } else {
            MpeSensitivity::MEMBER_DEFAULT
        }
    }

    // The range in hundredths of a cent.
    pub fn units(self) -> u32
        ensures { (result ≡ range_of self) × (result ≤ 1282700) }
    {
        ((self.semitones & 0x7F) as u32) * (PITCH_UNITS_PER_SEMITONE as u32)
            + ((self.cents & 0x7F) as u32) * 100
    }
}

// Hundredths of a cent in a semitone: the unit of a pitch offset.
pub const PITCH_UNITS_PER_SEMITONE: i32 = 10_000;

// 8192 times n over d, rounded, halves up, in steps of 64 and 128 that fit 32 bits.
#[tactic(auto, using(crate::proofs::Round::over_d))]
fn scale_8192(n: u32, d: u32) -> u32
    requires { (n < d) × (d ≤ 1282700) }
    ensures { (result ≡ nearest (8192 * n) d) × (result ≤ 8192) }
{
    let a = n * 64;
    let b = a % d * 128;
    let y = a / d * 128 + b / d;
    if 2 * (b % d) >= d { y + 1 } else { y }
}

// The same for any n, held to the full swing.
#[tactic(auto, using(crate::proofs::Round::full))]
fn swing(n: u32, d: u32) -> u32
    requires { (0 < d) × (d ≤ 1282700) }
    ensures { result ≡ min 8192 (nearest (8192 * n) d) }
{
    if n < d { scale_8192(n, d) } else { 0x2000 }
}

// The 14-bit Pitch Bend value of a sender for an offset (Appendix C.3).
#[tactic(auto, unfolding(crate::specs::Pitch::pitch_bend_value))]
pub fn pitch_bend_value(offset: i32, sensitivity: MpeSensitivity) -> u16
    ensures { result ≡ pitch_bend_value offset sensitivity }
{
    let range = sensitivity.units();
    if range == 0 {
        return 0x2000;
    }
    let k = swing(offset.unsigned_abs(), range);
    if offset < 0 {
        (0x2000 - k) as u16
    } else {
        (0x2000 + k).min(0x3FFF) as u16
    }
}

// d times m over 8191, rounded, by the quotient and the remainder of d, in 32 bits.
#[tactic(auto, using(crate::proofs::Round::over_8191))]
fn scale_over_8191(d: u32, m: u32) -> u32
    requires { (d ≤ 1282700) × (m ≤ 8192) }
    ensures { (result ≡ nearest (d * m) 8191) × (result ≤ 1282857) }
{
    let x = (d % 8191) * m;
    let y = (d / 8191) * m + x / 8191;
    if 2 * (x % 8191) >= 8191 { y + 1 } else { y }
}

// The pitch offset of a received 14-bit Pitch Bend value (Appendix C.5).
#[tactic(auto, unfolding(crate::specs::Pitch::pitch_offset))]
pub fn pitch_offset(value: u16, sensitivity: MpeSensitivity) -> i32
    ensures is { result ≡ pitch_offset value sensitivity }
    ensures nearest { OffsetNearest value sensitivity result }
    ensures untied { NoTie value sensitivity }
    ensures within { OffsetWithin result }
    ensures rises { OffsetRises value sensitivity result }
{
    let v = (value % 0x4000) as u32;
    let k = scale_over_8191(sensitivity.units(), v.abs_diff(8192)) as i32;
    if v < 8192 { -k } else { k }
}

// A pitch offset and its remainder: the range times (value - 8192) is 8191 times the offset plus the remainder.
#[derive(Clone, Copy, Debug, PartialEq, Eq)]
pub struct OffsetWithRemainder {
    pub offset: i32,
    pub remainder: i32,
}

// What d times m has over the nearest multiple of 8191, in 32 bits.
#[tactic(auto, using(crate::proofs::Remainder::rest_of))]
fn remainder_over_8191(d: u32, m: u32) -> i32
    requires { (d ≤ 1282700) × (m ≤ 8192) }
    ensures { (result ≡ pos (d * m) -ℤ pos (8191 * nearest (d * m) 8191)) × Within 4095 4095 result }
{
    let rest = (d % 8191) * m % 8191;
    if rest > 4095 {
        rest as i32 - 8191
    } else {
        rest as i32
    }
}

// What the range times (value - 8192) has over 8191 times the offset.
#[tactic(auto, using(crate::proofs::Remainder::remainder_is))]
fn pitch_remainder(value: u16, sensitivity: MpeSensitivity) -> i32
    ensures is { result ≡ pitch_remainder value sensitivity }
    ensures within { Within 4095 4095 result }
{
    let v = (value % 0x4000) as u32;
    let r = remainder_over_8191(sensitivity.units(), v.abs_diff(8192));
    if v < 8192 { -r } else { r }
}

// The pitch offset of a received 14-bit Pitch Bend value (Appendix C.5), with its remainder.
#[tactic(auto, unfolding(crate::specs::Remainder::pitch_remainder))]
pub fn pitch_offset_with_remainder(value: u16, sensitivity: MpeSensitivity) -> OffsetWithRemainder
    ensures is { result ≡ offset_with_remainder value sensitivity }
    ensures pair { IsPair value sensitivity result }
    ensures only { OnlyPair value sensitivity result }
{
    OffsetWithRemainder {
        offset: pitch_offset(value, sensitivity),
        remainder: pitch_remainder(value, sensitivity),
    }
}
