// The table of vectors, with the source of each. The answers stand in the file stdout.
use crate::show::{Ask, Command, Crc, Edit, Read, Reading, Register, Step, StepsFrom, Write};
use i2c::command::{Liquid, Sfc6};
use i2c::word::{LIQUID_START, SFC6_START};

// The CRC of bytes, from 00 and from FF: those that the papers print.
pub(crate) const MAKERS_CRCS: [Crc; 8] = [
    // 000, the checksum's own example.
    Crc(b"123456789"),
    // 000, the user register as it is read; 01, example 9.
    Crc(b"\x0E\x00"),
    // 001, the checksum's own example; 01, example 10.
    Crc(b"\xBE\xEF"),
    // 001, asking for the calibrated gas information of gas 1.
    Crc(b"\x36\x08"),
    // 000, an answer before a measurement is ready.
    Crc(b"\xFF\xFF"),
    // 01, examples 10 and 11.
    Crc(b"\x00\x00"),
    // 000, reading the address register before and after a change; the CRC is not printed there.
    Crc(b"\x02\x07"),
    Crc(b"\x01\x0F"),
];

// Values of the other vectors below, the ends of the range, no byte, and one.
pub(crate) const DERIVED_CRCS: [Crc; 19] = [
    Crc(b"\x00\x01"),
    Crc(b"\x80\x00"),
    Crc(b"\x7F\xFF"),
    Crc(b"\x90\x00"),
    Crc(b"\x58\x00"),
    Crc(b"\x01\x48"),
    Crc(b"\x01\x45"),
    Crc(b"\x0E\x10"),
    Crc(b"\x0E\x40"),
    Crc(b"\x08\x43"),
    Crc(b"\x08\x44"),
    Crc(b"\x08\x45"),
    Crc(b"\x08\x34"),
    Crc(b"\x08\x55"),
    Crc(b"\xF7\x34"),
    Crc(b"\xFF\xF9"),
    Crc(b""),
    Crc(b"\x00"),
    Crc(b"\xFF"),
];

// What eight bits make of a value: the first and the last 16 values.
pub(crate) const FIRST_AND_LAST_STEPS: [StepsFrom; 2] = [StepsFrom(0x00), StepsFrom(0xF0)];

// The same of the values of one bit, and of the fixed point other than 00.
pub(crate) const STEPS: [Step; 5] = [Step(0x80), Step(0x40), Step(0x20), Step(0x10), Step(0xEF)];

// Start value, bytes, room: the words.
pub(crate) const READS: [Read; 16] = [
    Read(LIQUID_START, b"\x0E\x00\x6D", 4),
    Read(SFC6_START, b"\xBE\xEF\x92", 4),
    Read(SFC6_START, b"\x36\x08\xD0", 4),
    Read(LIQUID_START, b"\x00\x00\x00", 4),
    // A word of one family is no good word of the other, nor is a bus that is stuck high.
    Read(SFC6_START, b"\x00\x00\x00", 4),
    Read(SFC6_START, b"\x0E\x00\x6D", 4),
    Read(LIQUID_START, b"\xFF\xFF\xFF", 4),
    Read(SFC6_START, b"\xFF\xFF\xFF", 4),
    // Nothing, a word without its CRC, and a byte too many.
    Read(LIQUID_START, b"", 4),
    Read(LIQUID_START, b"\x0E\x00", 4),
    Read(LIQUID_START, b"\x0E\x00\x6D\x0E", 4),
    // Three words; the second wrong; the second and the third wrong.
    Read(SFC6_START, b"\x58\x00\x51\x00\x01\xB0\x00\x00\x81", 4),
    Read(SFC6_START, b"\x58\x00\x51\x00\x01\x31\x00\x00\x81", 4),
    Read(SFC6_START, b"\x58\x00\x51\x00\x01\x31\x00\x00\x00", 4),
    // Room for one: two good words, and a wrong one.
    Read(SFC6_START, b"\x58\x00\x51\x00\x01\xB0", 1),
    Read(SFC6_START, b"\x58\x00\x51\x00\x01\x31", 1),
];

// Start value, words: the bytes.
pub(crate) const WRITES: [Write; 5] = [
    Write(LIQUID_START, &[0x0E00]),
    Write(SFC6_START, &[0xBEEF]),
    Write(SFC6_START, &[0x3608]),
    Write(LIQUID_START, &[0x0000]),
    Write(LIQUID_START, &[]),
];

// Numbers that the papers print in both forms: an example of 000, flow units of 001 and of 000.
pub(crate) const NUMBER_FORMATS: [Read; 8] = [
    Read(LIQUID_START, b"\xF7\x34\xB7", 4),
    Read(SFC6_START, b"\x01\x48\xF1", 4),
    Read(SFC6_START, b"\x01\x45\xBD", 4),
    Read(LIQUID_START, b"\x08\x43\x59", 4),
    Read(LIQUID_START, b"\x08\x44\xCE", 4),
    Read(LIQUID_START, b"\x08\x45\xFF", 4),
    Read(LIQUID_START, b"\x08\x34\x36", 4),
    Read(LIQUID_START, b"\x08\x55\xBC", 4),
];

// The ask in the words of 01: the bytes.
pub(crate) const COMMANDS: [Ask; 26] = [
    Ask("E102", Command::Sfc6(Sfc6::PointToTemperature)),
    Ask("E000", Command::Sfc6(Sfc6::PointBack)),
    Ask("3FEF", Command::Sfc6(Sfc6::ShutValve)),
    Ask("3F6E", Command::Sfc6(Sfc6::NormalControl)),
    Ask("E17D 0", Command::Sfc6(Sfc6::SetConcentration(0))),
    Ask("E17D 1", Command::Sfc6(Sfc6::SetConcentration(1))),
    Ask("E17D 500", Command::Sfc6(Sfc6::SetConcentration(500))),
    Ask("E17D 999", Command::Sfc6(Sfc6::SetConcentration(999))),
    Ask("E17D 1000", Command::Sfc6(Sfc6::SetConcentration(1000))),
    Ask("3650 250", Command::Sfc6(Sfc6::StartMixture0(250))),
    Ask("365B 1000", Command::Sfc6(Sfc6::StartMixture1(1000))),
    Ask("E17D 1001", Command::Sfc6(Sfc6::SetConcentration(1001))),
    Ask("3650 1001", Command::Sfc6(Sfc6::StartMixture0(1001))),
    Ask("365B 1001", Command::Sfc6(Sfc6::StartMixture1(1001))),
    Ask("E17D C0FF", Command::Sfc6(Sfc6::SetConcentration(0xC0FF))),
    Ask("3650 C0FF", Command::Sfc6(Sfc6::StartMixture0(0xC0FF))),
    Ask("365B C0FF", Command::Sfc6(Sfc6::StartMixture1(0xC0FF))),
    Ask("E17D 65537", Command::Sfc6(Sfc6::SetConcentration(65537))),
    Ask("E2 0E10", Command::Liquid(Liquid::WriteUser(0x0E10))),
    Ask("E3", Command::Liquid(Liquid::ReadUser)),
    Ask("E4 0E00", Command::Liquid(Liquid::WriteAdvanced(0x0E00))),
    Ask("E5", Command::Liquid(Liquid::ReadAdvanced)),
    Ask("F1", Command::Liquid(Liquid::Flow)),
    Ask("F3", Command::Liquid(Liquid::Temperature)),
    Ask("F5", Command::Liquid(Liquid::Supply)),
    Ask("FE", Command::Liquid(Liquid::Reset)),
];

// Register, field: the register edited.
pub(crate) const REGISTERS: [Edit; 23] = [
    Edit(Register::User, 0x0E00, 0),
    Edit(Register::User, 0x0E00, 1),
    Edit(Register::User, 0x0E00, 2),
    Edit(Register::User, 0x0E00, 3),
    Edit(Register::User, 0x0E00, 4),
    Edit(Register::User, 0x0E70, 4),
    Edit(Register::User, 0xFFFF, 0),
    Edit(Register::User, 0xFFFF, 4),
    Edit(Register::User, 0x0E00, 5),
    Edit(Register::User, 0x0E00, 6),
    Edit(Register::User, 0x0E00, 7),
    Edit(Register::User, 0x0E00, 8),
    Edit(Register::User, 0x0E00, 255),
    Edit(Register::Advanced, 0xFFFF, 0),
    Edit(Register::Advanced, 0xFFFF, 1),
    Edit(Register::Advanced, 0xFFFF, 2),
    Edit(Register::Advanced, 0xFFFF, 3),
    Edit(Register::Advanced, 0xFFFF, 4),
    Edit(Register::Advanced, 0xFFFF, 5),
    Edit(Register::Advanced, 0xFFFF, 6),
    Edit(Register::Advanced, 0xFFFF, 7),
    Edit(Register::Advanced, 0x0000, 7),
    Edit(Register::Advanced, 0x0000, 8),
];

// Raw, offset, scale: thousandths and the bits of the float.
pub(crate) const READINGS: [Reading; 15] = [
    // 001, zero flow and full scale.
    Reading(-28672, -28672, 1024),
    Reading(22528, -28672, 1024),
    Reading(22528, -28672, 2560),
    Reading(22528, -28672, 5120),
    Reading(22528, -28672, 10240),
    Reading(22528, -28672, 25600),
    Reading(32767, -28672, 1024),
    Reading(-32768, -28672, 1024),
    // SFC6 temperature.
    Reading(5000, 0, 200),
    Reading(4701, 0, 200),
    Reading(-1, 0, 200),
    // 000, temperature and supply.
    Reading(235, 0, 10),
    Reading(3300, 0, 1000),
    // The largest and the smallest.
    Reading(32767, -32768, 1),
    Reading(-32768, 32767, 1),
];

// The same where rounding shows.
pub(crate) const ROUNDING: [Reading; 19] = [
    // 01, example 12.
    Reading(1, 0, 2000),
    Reading(1, 0, 2001),
    Reading(-1, 0, 2000),
    // Halves.
    Reading(1, 0, 16),
    Reading(-1, 0, 16),
    Reading(3, 0, 16),
    Reading(-3, 0, 16),
    Reading(16, 0, 32000),
    Reading(16, 0, 32001),
    Reading(-16, 0, 32000),
    Reading(1, 0, 32767),
    Reading(1, 0, 3),
    Reading(-1, 0, 3),
    // Where a product with 1 / scale, or thousandths by way of the float, would be wrong.
    Reading(5, 0, 3),
    Reading(12289, 0, 3),
    // A scale out of range.
    Reading(1, 0, 0),
    Reading(1, 0, 32768),
    Reading(1, 0, 65535),
    Reading(1, 0, -1),
];
