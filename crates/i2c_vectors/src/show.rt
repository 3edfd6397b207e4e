// A vector as its line: what is asked, and what the crates answer. The lines are compared with the file stdout when the program runs.
use i2c::command::{Liquid, Sfc6, write_liquid, write_sfc6};
use i2c::crc::{crc, table_crc};
use i2c::register::{edit_advanced, edit_user};
use i2c::word::{LIQUID_START, SFC6_START, read_words, write_words};
use reading::{scaled, scaled_float};
use refusal::Refusal;
use std::fmt;
use vector_text::{Bits, Bytes, Said, Spaced, first};

// The CRC of bytes from both start values, by both functions.
#[derive(Clone, Copy)]
pub(crate) struct Crc(pub(crate) &'static [u8]);

impl fmt::Display for Crc {
    fn fmt<W: fmt::Write>(&self, f: &mut fmt::Formatter<W>) -> fmt::Result {
        let bytes = self.0;
        let by_steps = [crc(LIQUID_START, bytes), crc(SFC6_START, bytes)];
        let by_table = [table_crc(LIQUID_START, bytes), table_crc(SFC6_START, bytes)];
        write!(
            f,
            "crc{}:{}, by the table{}",
            Bytes(bytes),
            Bytes(&by_steps),
            Bytes(&by_table)
        )
    }
}

// What eight bits make of a value.
fn step_of(value: u8) -> u8 {
    crc(LIQUID_START, &[value])
}

#[derive(Clone, Copy)]
pub(crate) struct Step(pub(crate) u8);

impl fmt::Display for Step {
    fn fmt<W: fmt::Write>(&self, f: &mut fmt::Formatter<W>) -> fmt::Result {
        let value = self.0;
        let step = step_of(value);
        write!(f, "step {value:02X}: {step:02X}")
    }
}

// The same of a value and the fifteen after it.
#[derive(Clone, Copy)]
pub(crate) struct StepsFrom(pub(crate) u8);

impl fmt::Display for StepsFrom {
    fn fmt<W: fmt::Write>(&self, f: &mut fmt::Formatter<W>) -> fmt::Result {
        let start = self.0;
        write!(f, "steps from {start:02X}:")?;
        for value in (start..=u8::MAX).take(16) {
            let step = step_of(value);
            write!(f, " {step:02X}")?;
        }
        Ok(())
    }
}

// The words of bytes from a start value, with room for so many.
#[derive(Clone, Copy)]
pub(crate) struct Read(pub(crate) u8, pub(crate) &'static [u8], pub(crate) usize);

impl fmt::Display for Read {
    fn fmt<W: fmt::Write>(&self, f: &mut fmt::Formatter<W>) -> fmt::Result {
        let Read(start, bytes, room) = *self;
        let mut words = [0u16; 4];
        let numbers = numbers_in(start, bytes, &mut words[..room.min(4)]);
        write!(f, "read {start:02X}:{}:{}", Bytes(bytes), Said(numbers))
    }
}

fn numbers_in<'a>(start: u8, bytes: &[u8], words: &'a mut [u16]) -> Result<Numbers<'a>, Refusal> {
    let count = read_words(start, bytes, words)?;
    Ok(Numbers(first(words, count)))
}

#[derive(Clone, Copy)]
struct Numbers<'a>(&'a [u16]);

impl fmt::Display for Numbers<'_> {
    fn fmt<W: fmt::Write>(&self, f: &mut fmt::Formatter<W>) -> fmt::Result {
        for number in self.0 {
            write!(f, " {number}")?;
        }
        Ok(())
    }
}

// A word by its four digits.
#[derive(Clone, Copy)]
struct Word(u16);

impl fmt::Display for Word {
    fn fmt<W: fmt::Write>(&self, f: &mut fmt::Formatter<W>) -> fmt::Result {
        let word = self.0;
        write!(f, " {word:04X}")
    }
}

// The bytes of words from a start value.
#[derive(Clone, Copy)]
pub(crate) struct Write(pub(crate) u8, pub(crate) &'static [u16]);

impl fmt::Display for Write {
    fn fmt<W: fmt::Write>(&self, f: &mut fmt::Formatter<W>) -> fmt::Result {
        let Write(start, words) = *self;
        write!(f, "write {start:02X}")?;
        for &word in words {
            write!(f, "{}", Word(word))?;
        }
        let mut out = [0u8; 8];
        let written = write_words(start, words, &mut out);
        write!(f, ":{}", Said(written.map(|n| Bytes(first(&out, n)))))
    }
}

#[derive(Clone, Copy)]
pub(crate) enum Command {
    Sfc6(Sfc6),
    Liquid(Liquid),
}

// A command's ask in words, and the command.
#[derive(Clone, Copy)]
pub(crate) struct Ask(pub(crate) &'static str, pub(crate) Command);

impl fmt::Display for Ask {
    fn fmt<W: fmt::Write>(&self, f: &mut fmt::Formatter<W>) -> fmt::Result {
        let Ask(ask, command) = *self;
        let mut out = [0u8; 8];
        let (family, written) = match command {
            Command::Sfc6(command) => ("SFC6", write_sfc6(command, &mut out)),
            Command::Liquid(command) => ("liquid", write_liquid(command, &mut out)),
        };
        write!(
            f,
            "{family} {ask}:{}",
            Said(written.map(|n| Bytes(first(&out, n))))
        )
    }
}

#[derive(Clone, Copy)]
pub(crate) enum Register {
    User,
    Advanced,
}

// A register, what it holds, and the field to be put into it.
#[derive(Clone, Copy)]
pub(crate) struct Edit(pub(crate) Register, pub(crate) u16, pub(crate) u32);

impl fmt::Display for Edit {
    fn fmt<W: fmt::Write>(&self, f: &mut fmt::Formatter<W>) -> fmt::Result {
        let Edit(register, held, field) = *self;
        let (name, edited) = match register {
            Register::User => ("user", edit_user(held, field)),
            Register::Advanced => ("advanced", edit_advanced(held, field)),
        };
        write!(
            f,
            "{name}{} to {field}:{}",
            Word(held),
            Said(edited.map(Word))
        )
    }
}

// Raw, offset and scale.
#[derive(Clone, Copy)]
pub(crate) struct Reading(pub(crate) i16, pub(crate) i16, pub(crate) i32);

impl fmt::Display for Reading {
    fn fmt<W: fmt::Write>(&self, f: &mut fmt::Formatter<W>) -> fmt::Result {
        let Reading(raw, offset, scale) = *self;
        let thousandths = scaled(raw, offset, scale).map(Spaced);
        let float = scaled_float(raw, offset, scale).map(|x| Spaced(Bits(x)));
        write!(
            f,
            "reading {raw} {offset} {scale}:{}{}",
            Said(thousandths),
            Said(float)
        )
    }
}
