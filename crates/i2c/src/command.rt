// Command bytes of both families. The I2C header byte belongs to the bus driver and is not written.
ghost use Rattle.std.specs.Prelude.{◌≡◌, [], ◌∷◌};
ghost use Rattle.refusal.specs.Refusals.{answered};
ghost use Rattle.refusal.specs.Room.{emit};
ghost use Rattle.i2c.specs.Command.{alone, ◌taking◌, asked, pair, write_sfc6, liquid_bytes};

use crate::word::{SFC6_START, word_crc};
use refusal::Refusal;

// The SFC6 commands that can be asked for. A concentration is in per mille, 0 to 1000.
#[derive(Clone, Copy, Debug, PartialEq, Eq)]
pub enum Sfc6 {
    // E102
    PointToTemperature,
    // E000
    PointBack,
    // E17D: the concentration of a running measurement.
    SetConcentration(u32),
    // 3650: start on mixture 0, gas 0 in gas 1.
    StartMixture0(u32),
    // 365B: start on mixture 1, gas 7 in gas 8.
    StartMixture1(u32),
    // 3FEF
    ShutValve,
    // 3F6E
    NormalControl,
}

// The liquid commands. A register write carries the register's new value.
#[derive(Clone, Copy, Debug, PartialEq, Eq)]
pub enum Liquid {
    // E2
    WriteUser(u16),
    // E3
    ReadUser,
    // E4
    WriteAdvanced(u16),
    // E5
    ReadAdvanced,
    // F1
    Flow,
    // F3
    Temperature,
    // F5
    Supply,
    // FE
    Reset,
}

// Writes bytes at the room's start.
#[tactic(auto, unfolding(refusal::specs::Room::emit, refusal::specs::Room::overlay))]
fn put(bytes: &[u8], out: &mut [u8]) -> Result<usize, Refusal>
    ensures { (answered result, out.new) ≡ emit bytes.now out.old }
{
    let n = bytes.len();
    if out.len() < n {
        return Err(Refusal::NoRoom);
    }
    out[..n].copy_from_slice(bytes);
    Ok(n)
}

// A command alone: no CRC.
#[tactic(auto, unfolding(crate::specs::Command::write_sfc6))]
fn write_alone(code: u16, out: &mut [u8]) -> Result<usize, Refusal>
    ensures { (answered result, out.new) ≡ write_sfc6 (alone code) out.old }
{
    put(&code.to_be_bytes(), out)
}

// A command and a concentration: a word with CRC.
#[tactic(auto, unfolding(crate::specs::Command::write_sfc6, crate::specs::Word::word_bytes))]
fn write_taking(code: u16, concentration: u32, out: &mut [u8]) -> Result<usize, Refusal>
    ensures { (answered result, out.new) ≡ write_sfc6 (code taking concentration) out.old }
{
    if 1000 < concentration {
        return Err(Refusal::OutOfRange);
    }
    let [c, d] = code.to_be_bytes();
    let [h, l] = (concentration as u16).to_be_bytes();
    put(&[c, d, h, l, word_crc(SFC6_START, h, l)], out)
}

// Writes an SFC6 command.
pub fn write_sfc6(command: Sfc6, out: &mut [u8]) -> Result<usize, Refusal>
    ensures { (answered result, out.new) ≡ write_sfc6 (asked command) out.old }
{
    match command {
        Sfc6::PointToTemperature => write_alone(0xE102, out),
        Sfc6::PointBack => write_alone(0xE000, out),
        Sfc6::SetConcentration(concentration) => write_taking(0xE17D, concentration, out),
        Sfc6::StartMixture0(concentration) => write_taking(0x3650, concentration, out),
        Sfc6::StartMixture1(concentration) => write_taking(0x365B, concentration, out),
        Sfc6::ShutValve => write_alone(0x3FEF, out),
        Sfc6::NormalControl => write_alone(0x3F6E, out),
    }
}

fn write_register(code: u8, value: u16, out: &mut [u8]) -> Result<usize, Refusal>
    ensures { (answered result, out.new) ≡ emit (code ∷ pair value) out.old }
{
    let [h, l] = value.to_be_bytes();
    put(&[code, h, l], out)
}

// Writes a liquid command.
pub fn write_liquid(command: Liquid, out: &mut [u8]) -> Result<usize, Refusal>
    ensures { (answered result, out.new) ≡ emit (liquid_bytes command) out.old }
{
    match command {
        Liquid::WriteUser(value) => write_register(0xE2, value, out),
        Liquid::ReadUser => put(&[0xE3], out),
        Liquid::WriteAdvanced(value) => write_register(0xE4, value, out),
        Liquid::ReadAdvanced => put(&[0xE5], out),
        Liquid::Flow => put(&[0xF1], out),
        Liquid::Temperature => put(&[0xF3], out),
        Liquid::Supply => put(&[0xF5], out),
        Liquid::Reset => put(&[0xFE], out),
    }
}
