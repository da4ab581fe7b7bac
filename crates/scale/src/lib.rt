// Scaling of values between resolutions (scale.rs; M2-115): Min-Center-Max Scaling (3), and Zero-Extension Scaling with Rounding (4).
#![tactic(auto)]

ghost use Rattle.std.specs.Prelude.{◌≡◌, ◌-◌, ◌*◌, ◌/◌, ◌%◌, ◌^◌, ◌<◌, ◌≤◌, ltb, IsTrue};
ghost use Rattle.ump.specs.Outcome.{answered};
ghost use Rattle.scale.specs.Scale.{widens, narrows, repeated, widened, upscaled, downscaled, zero_upscaled, zero_downscaled};
ghost use Rattle.scale.specs.Claims.{Narrowed, OfValue, Widened, OneWidened, UpscaleKeeps, UpscaleRises, DownscaleReturns, ZeroExtended, Rounded, ZeroDownscaleReturns};
ghost use Rattle.scale.specs.Examples.{ScalesAsTabled};

use ump::reply::OutOfRange;

// The value has this many bits.
#[tactic(auto, using(crate::proofs::Range::within))]
fn fits(value: u32, bits: u8) -> bool
    ensures { result ≡ ltb value (2 ^ bits) }
{
    bits >= 32 || value < (1u32 << bits)
}

// The highest value of this many bits.
fn max_value(bits: u8) -> u32
    requires { bits ≤ 32 }
    ensures { result ≡ 2 ^ bits - 1 }
{
    if bits >= 32 {
        return 0xFFFF_FFFF;
    }
    (1u32 << bits) - 1
}

// From 1 bit or more to more bits, at most 32, and the value has the source's bits.
// Value and widths stay three numbers: two private functions ask for what this finds, and each clause would take a struct of them apart again.
#[tactic(auto, unfolding(crate::specs::Scale::widens))]
fn can_upscale(value: u32, src_bits: u8, dst_bits: u8) -> bool
    ensures is { result ≡ widens src_bits dst_bits value }
    ensures ranged { IsTrue result → (1 ≤ src_bits) × (src_bits < dst_bits) × (dst_bits ≤ 32) × (value < 2 ^ src_bits) }
{
    src_bits >= 1 && dst_bits <= 32 && src_bits < dst_bits && fits(value, src_bits)
}

// From at most 32 bits to fewer, at least 1, and the value has the source's bits.
#[tactic(auto, unfolding(crate::specs::Scale::narrows))]
fn can_downscale(value: u32, src_bits: u8, dst_bits: u8) -> bool
    ensures is { result ≡ narrows src_bits dst_bits value }
    ensures ranged { IsTrue result → (1 ≤ dst_bits) × (dst_bits < src_bits) × (src_bits ≤ 32) × (value < 2 ^ src_bits) }
{
    dst_bits >= 1 && src_bits <= 32 && dst_bits < src_bits && fits(value, src_bits)
}

// The low bits of a value, this many.
#[tactic(auto, using(crate::proofs::Range::masked))]
fn low_bits(value: u32, bits: u8) -> u32
    requires { (1 ≤ bits) × (bits < 32) }
    ensures { result ≡ value % 2 ^ bits }
{
    value & ((1u32 << bits) - 1)
}

// The bits that are repeated, at the highest place below the value's own.
#[tactic(auto, using(crate::proofs::Range::repeats))]
fn first_repeat(bits: u32, repeat_bits: u8, scale_bits: u8) -> u32
    requires { (bits < 2 ^ repeat_bits) × (repeat_bits < 32) × (scale_bits < 32) }
    ensures { result ≡ bits * 2 ^ scale_bits / 2 ^ repeat_bits }
{
    ((bits as u64) << scale_bits >> repeat_bits) as u32
}

// All bits of the value but the highest, repeated below it (3.3, Figure 1).
fn bit_repeated(value: u32, src_bits: u8, dst_bits: u8) -> u32
    requires { (2 ≤ src_bits) × (src_bits < dst_bits) × (dst_bits ≤ 32) × (value < 2 ^ src_bits) }
    ensures { result ≡ repeated src_bits value (dst_bits - src_bits) }
{
    let scale_bits = dst_bits - src_bits;
    let repeat_bits = src_bits - 1;
    let mut result = value << scale_bits;
    let mut repeat = first_repeat(low_bits(value, repeat_bits), repeat_bits, scale_bits);
    while repeat != 0 {
        result += repeat;
        repeat >>= repeat_bits;
    }
    result
}

// Min-Center-Max upscaling of a value in range (3.3).
#[tactic(auto, using(crate::proofs::Range::shifted, crate::proofs::Range::one_shifted), unfolding(crate::specs::Scale::widened))]
fn min_center_max(value: u32, src_bits: u8, dst_bits: u8) -> u32
    requires { (1 ≤ src_bits) × (src_bits < dst_bits) × (dst_bits ≤ 32) × (value < 2 ^ src_bits) }
    ensures { result ≡ widened src_bits dst_bits value }
{
    match (src_bits, value) {
        (1, 0) => 0,
        (1, _) => max_value(dst_bits),
        _ if value <= 1u32 << (src_bits - 1) => value << (dst_bits - src_bits),
        _ => bit_repeated(value, src_bits, dst_bits),
    }
}

// Min-Center-Max upscaling (3.3): refused unless 1 <= src_bits < dst_bits <= 32 and the value has src_bits bits.
pub fn upscale(value: u32, src_bits: u8, dst_bits: u8) -> Result<u32, OutOfRange>
    ensures is { answered result ≡ upscaled value src_bits dst_bits }
    ensures bits { OfValue result (Widened src_bits dst_bits value) }
    ensures one { OfValue result (OneWidened src_bits dst_bits value) }
    ensures kept { UpscaleKeeps src_bits dst_bits }
    ensures rises { UpscaleRises src_bits dst_bits }
    ensures examples { ScalesAsTabled }
{
    if !can_upscale(value, src_bits, dst_bits) {
        return Err(OutOfRange);
    }
    Ok(min_center_max(value, src_bits, dst_bits))
}

// Min-Center-Max downscaling (3.4): refused unless 1 <= dst_bits < src_bits <= 32 and the value has src_bits bits.
pub fn downscale(value: u32, src_bits: u8, dst_bits: u8) -> Result<u32, OutOfRange>
    ensures is { answered result ≡ downscaled value src_bits dst_bits }
    ensures cut { OfValue result (Narrowed src_bits dst_bits value) }
    ensures returns { DownscaleReturns value src_bits dst_bits result }
{
    if !can_downscale(value, src_bits, dst_bits) {
        return Err(OutOfRange);
    }
    Ok(value >> (src_bits - dst_bits))
}

// Zero-Extension upscaling (4.3): refused unless 2 <= src_bits < dst_bits <= 32 and the value has src_bits bits.
#[tactic(auto, unfolding(crate::specs::Scale::zero_upscaled, crate::specs::Scale::zero_extended))]
pub fn zero_extend_upscale(value: u32, src_bits: u8, dst_bits: u8) -> Result<u32, OutOfRange>
    ensures is { answered result ≡ zero_upscaled value src_bits dst_bits }
    ensures bits { OfValue result (ZeroExtended src_bits dst_bits value) }
{
    if src_bits < 2 || !can_upscale(value, src_bits, dst_bits) {
        return Err(OutOfRange);
    }
    Ok(value << (dst_bits - src_bits))
}

// Zero-Extension downscaling (4.4): refused as `downscale` is.
pub fn zero_extend_downscale(value: u32, src_bits: u8, dst_bits: u8) -> Result<u32, OutOfRange>
    ensures is { answered result ≡ zero_downscaled value src_bits dst_bits }
    ensures nearest { OfValue result (Rounded src_bits dst_bits value) }
    ensures returns { ZeroDownscaleReturns value src_bits dst_bits result }
{
    if !can_downscale(value, src_bits, dst_bits) {
        return Err(OutOfRange);
    }
    let scale_bits = src_bits - dst_bits;
    let half = 1u64 << (scale_bits - 1);
    let shifted = (value as u64 + half) >> scale_bits;
    let max = max_value(dst_bits);
    Ok(shifted.min(max as u64) as u32)
}
