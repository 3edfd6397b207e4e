// Scaled readings: (raw - offset) / scale, in thousandths of the unit and in single precision.
#![tactic(auto)]

ghost use Rattle.std.specs.Prelude.{◌≡◌, cond, ◌+◌, ◌*◌, ◌/◌, ◌≤◌, ◌<◌, ◌^◌, pos, neg_ℤ, nat_abs, ◌-ℤ◌, ◌*ℤ◌};
ghost use Rattle.refusal.specs.Refusals.{number, served, refused, answered};
ghost use Rattle.reading.specs.Reading.{good_scale, rounded, in_thousandths, quantity};

use refusal::Refusal;

// raw - offset, exactly.
fn difference(raw: i16, offset: i16) -> i32
    ensures { (result ≡ raw -ℤ offset) × (nat_abs result < 2 ^ 16) }
{
    i32::from(raw) - i32::from(offset)
}

// A scale in its range.
fn checked(scale: i32) -> Result<u16, Refusal>
    ensures { answered result ≡ cond (good_scale scale) (served (nat_abs scale)) (refused (number 18)) }
{
    if scale < 1 || 32767 < scale {
        return Err(Refusal::BadScale);
    }
    Ok(scale as u16)
}

fn with_sign(negative: bool, m: u32) -> i32
    requires { m < 2 ^ 31 }
    ensures { result ≡ cond negative (neg_ℤ (pos m)) (pos m) }
{
    if negative { -(m as i32) } else { m as i32 }
}

// m / d to the nearest, halves up: half the divisor is added first, and both are doubled, so that an odd divisor has a half.
fn nearest(m: u32, d: u32) -> u32
    requires { (m < 2 ^ 30) × (1 ≤ d) × (d < 2 ^ 30) }
    ensures { result ≡ (m * 2 + d) / (d * 2) }
{
    (m * 2 + d) / (d * 2)
}

// d * 1000 / scale to the nearest, halves away from zero: by sign and size, so that both signs round alike.
fn over_scale(d: i32, scale: u32) -> i32
    requires { (nat_abs d < 2 ^ 16) × (1 ≤ scale) × (scale < 2 ^ 15) }
    ensures { result ≡ rounded (d *ℤ pos 1000) scale }
{
    with_sign(d < 0, nearest(d.unsigned_abs() * 1000, scale))
}

// The reading in thousandths of the unit.
pub fn scaled(raw: i16, offset: i16, scale: i32) -> Result<i32, Refusal>
    ensures { answered result ≡ in_thousandths raw offset scale }
{
    let scale = checked(scale)?;
    Ok(over_scale(difference(raw, offset), u32::from(scale)))
}

// The reading in single precision: one division of two numbers that single precision holds exactly.
pub fn scaled_float(raw: i16, offset: i16, scale: i32) -> Result<f32, Refusal>
    ensures { answered result ≡ quantity raw offset scale }
{
    let scale = checked(scale)?;
    let d = difference(raw, offset);
    Ok((d as f32) / f32::from(scale))
}
