// The fields of a liquid sensor's registers. An edit is a step on a number: reading the register first, writing it and
// reading it again are the caller's.
ghost use Rattle.std.specs.Prelude.{◌≡◌, ◌⊎◌, ◌≤◌, ◌+◌, ◌-◌, ◌*◌, ◌/◌, ◌%◌, cond, leb};
ghost use Rattle.refusal.specs.Refusals.{answered, number, served, refused};
ghost use Rattle.i2c.specs.Register.{edit_user, edit_advanced};

use refusal::Refusal;

// A register with another three-bit field, 0 to the greatest; the unit is what the field's lowest bit is worth.
fn edited(register: u16, unit: u16, greatest: u32, field: u32) -> Result<u16, Refusal>
    requires unit { (unit ≡ 16) ⊎ (unit ≡ 512) }
    requires greatest { greatest ≤ 7 }
    ensures { answered result ≡ cond (leb field greatest) (served (register - register / unit % 8 * unit + field * unit)) (refused (number 12)) }
{
    if greatest < field {
        return Err(Refusal::OutOfRange);
    }
    let old = register / unit % 8;
    Ok(register - old * unit + (field as u16) * unit)
}

// The user register with another calibration field: bits 6:4, 0 to 4.
#[tactic(auto, using(crate::proofs::RegisterLaws::user_edited))]
pub fn edit_user(register: u16, field: u32) -> Result<u16, Refusal>
    ensures { answered result ≡ edit_user field register }
{
    edited(register, 16, 4, field)
}

// The advanced register with another resolution: bits 11:9, 0 to 7.
#[tactic(auto, using(crate::proofs::RegisterLaws::advanced_edited))]
pub fn edit_advanced(register: u16, field: u32) -> Result<u16, Refusal>
    ensures { answered result ≡ edit_advanced field register }
{
    edited(register, 512, 7, field)
}
