// Both engines of the CRC for C, one beside the other, for the tests and measurements of host/. No part of libmfc.a: there mfc_crc takes
// the one that is quicker for the length.
#![tactic(auto)]

ghost use Rattle.std.specs.Prelude.{◌≡◌};
ghost use Rattle.i2c.specs.Crc.{crc_of};

// The CRC-8 of n bytes from a start value, by the plain engine.
#[unsafe(no_mangle)]
pub extern "C" fn engine_plain(start: u8, bytes: &[u8]) -> u8
    ensures { result ≡ crc_of start bytes.now }
{
    i2c::crc::crc(start, bytes)
}

// The same, by the table.
#[unsafe(no_mangle)]
pub extern "C" fn engine_table(start: u8, bytes: &[u8]) -> u8
    ensures { result ≡ crc_of start bytes.now }
{
    i2c::crc::table_crc(start, bytes)
}
