// Words, commands and registers on I2C. Functions of one shape stand side by side, since C has no generic ones: the C interface.
ghost use Rattle.std.specs.Prelude.{◌≡◌};
ghost use Rattle.i2c.specs.Crc.{crc_of};
ghost use Rattle.i2c.specs.Word.{read_words, write_words};
ghost use Rattle.i2c.specs.Register.{edit_user, edit_advanced};
ghost use Rattle.mfc.specs.Answers.{counted, written, register, beside};
ghost use Rattle.mfc.specs.Codes.{paper_sfc6, paper_liquid, sfc6_for, liquid_for, write_sfc6_code, write_liquid_code};

use crate::answers::{MfcRegister, MfcWords, MfcWritten};
use i2c::command::{Liquid, Sfc6};
use refusal::Refusal;

// From how many bytes on the CRC is quicker by the table, which is laid anew at each call, than without (docs/DECISIONS.md, 124).
const TABLE_FROM: usize = 6;

// The CRC-8 of n bytes from a start value, MFC_START_LIQUID or MFC_START_SFC6; any other is taken too. It refuses nothing.
#[unsafe(no_mangle)]
pub extern "C" fn mfc_crc(start: u8, bytes: &[u8]) -> u8
    ensures { result ≡ crc_of start bytes.now }
{
    if bytes.len() < TABLE_FROM {
        return i2c::crc::crc(start, bytes);
    }
    i2c::crc::table_crc(start, bytes)
}

// Reads n bytes as words, each a high byte, a low byte and their CRC from start (as in mfc_crc), and stores their numbers at the start of
// words, an array of room numbers. Every word is checked before any is stored. A sensor's reading is such a number taken as signed:
// (int16_t)words[0]. Refusals, in their order: 16 where n is 0 or no multiple of 3; 17 where a CRC is wrong; 1 where there are more words
// than room.
#[unsafe(no_mangle)]
pub extern "C" fn mfc_read_words(start: u8, bytes: &[u8], words: &mut [u16]) -> MfcWords
    ensures { (result, words.new) ≡ beside counted (read_words start bytes.now words.old) }
{
    i2c::word::read_words(start, bytes, words).into()
}

// Writes n words, each as high byte, low byte and their CRC from start (as in mfc_crc): 3 n bytes. Refusals, in their order: 16 where n
// is 0; 1 where 3 n is more than room.
#[unsafe(no_mangle)]
pub extern "C" fn mfc_write_words(start: u8, words: &[u16], out: &mut [u8]) -> MfcWritten
    ensures { (result, out.new) ≡ beside written (write_words start words.now out.old) }
{
    i2c::word::write_words(start, words, out).into()
}

// The SFC6 command of a code.
fn sfc6_of(code: u16, concentration: u32) -> Option<Sfc6>
    ensures { paper_sfc6 result ≡ sfc6_for code concentration }
{
    match code {
        0xE102 => Some(Sfc6::PointToTemperature),
        0xE000 => Some(Sfc6::PointBack),
        0xE17D => Some(Sfc6::SetConcentration(concentration)),
        0x3650 => Some(Sfc6::StartMixture0(concentration)),
        0x365B => Some(Sfc6::StartMixture1(concentration)),
        0x3FEF => Some(Sfc6::ShutValve),
        0x3F6E => Some(Sfc6::NormalControl),
        _ => None,
    }
}

// Writes an SFC6 command: the two bytes of its code, one of the seven MFC_SFC6_*. The codes E17D, 3650 and 365B take a concentration, 0 to 1000
// per mille, which follows as a word with CRC, 5 bytes in all; beside the others it is not looked at. Refusals, in their order: 12 for a
// code that is none of these, or a concentration over 1000; 1 where room is less than these 2 or 5 bytes.
#[unsafe(no_mangle)]
#[tactic(auto, unfolding(crate::specs::Codes::write_sfc6_code))]
pub extern "C" fn mfc_write_sfc6(code: u16, concentration: u32, out: &mut [u8]) -> MfcWritten
    ensures { (result, out.new) ≡ write_sfc6_code code concentration out.old }
{
    match sfc6_of(code, concentration) {
        Some(command) => i2c::command::write_sfc6(command, out).into(),
        None => Err(Refusal::OutOfRange).into(),
    }
}

// The liquid command of a code.
fn liquid_of(code: u8, value: u16) -> Option<Liquid>
    ensures { paper_liquid result ≡ liquid_for code value }
{
    match code {
        0xE2 => Some(Liquid::WriteUser(value)),
        0xE3 => Some(Liquid::ReadUser),
        0xE4 => Some(Liquid::WriteAdvanced(value)),
        0xE5 => Some(Liquid::ReadAdvanced),
        0xF1 => Some(Liquid::Flow),
        0xF3 => Some(Liquid::Temperature),
        0xF5 => Some(Liquid::Supply),
        0xFE => Some(Liquid::Reset),
        _ => None,
    }
}

// Writes a liquid command: the byte of its code, one of the eight MFC_LIQUID_*. The codes E2 and E4 take the register's value, which follows as
// two bytes without CRC, 3 bytes in all; beside the others it is not looked at. Refusals, in their order: 12 for a code that is none of
// these; 1 where room is less than this 1 byte or these 3.
#[unsafe(no_mangle)]
#[tactic(auto, unfolding(crate::specs::Codes::write_liquid_code))]
pub extern "C" fn mfc_write_liquid(code: u8, value: u16, out: &mut [u8]) -> MfcWritten
    ensures { (result, out.new) ≡ write_liquid_code code value out.old }
{
    match liquid_of(code, value) {
        Some(command) => i2c::command::write_liquid(command, out).into(),
        None => Err(Refusal::OutOfRange).into(),
    }
}

// The user register with another calibration field, bits 6:4. Refusal 12 for a field over 4.
#[unsafe(no_mangle)]
pub extern "C" fn mfc_edit_user(value: u16, field: u32) -> MfcRegister
    ensures { result ≡ register (edit_user field value) }
{
    i2c::register::edit_user(value, field).into()
}

// The advanced register with another resolution, bits 11:9. Refusal 12 for a field over 7.
#[unsafe(no_mangle)]
pub extern "C" fn mfc_edit_advanced(value: u16, field: u32) -> MfcRegister
    ensures { result ≡ register (edit_advanced field value) }
{
    i2c::register::edit_advanced(value, field).into()
}
