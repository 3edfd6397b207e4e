// What the lines of the three programs of test vectors are made of. Each piece but the bits of a float writes a space before itself.
#![tactic(auto)]

ghost use Rattle.std.specs.Prelude.{◌≡◌, Some, take};
ghost use Rattle.vector_text.specs.Text.{bytes_text, bits_text, refused_text, spaced_text, said_text};

use refusal::Refusal;
use sfc6::bits_of;
use std::fmt;

// Bytes, each by two hexadecimal digits.
#[derive(Clone, Copy)]
pub struct Bytes<'a>(pub &'a [u8]);

impl fmt::Display for Bytes<'_> {
    ghost output = { λ b. Some (bytes_text b.0.now) };

    fn fmt<W: fmt::Write>(&self, f: &mut fmt::Formatter<W>) -> fmt::Result {
        for &byte in self.0 {
            write!(f, " {byte:02X}")?;
        }
        Ok(())
    }
}

// The bits of a float, by eight digits and with no space before them.
#[derive(Clone, Copy, Debug)]
pub struct Bits(pub f32);

impl fmt::Display for Bits {
    ghost output = { λ x. Some (bits_text x.0) };

    fn fmt<W: fmt::Write>(&self, f: &mut fmt::Formatter<W>) -> fmt::Result {
        let bits = bits_of(self.0);
        write!(f, "{bits:08X}")
    }
}

// A refusal by its number and, where it carries a place or a word's index, that.
#[derive(Clone, Copy, Debug, PartialEq, Eq)]
pub struct Refused(pub Refusal);

impl fmt::Display for Refused {
    ghost output = { λ r. Some (refused_text r.0) };

    fn fmt<W: fmt::Write>(&self, f: &mut fmt::Formatter<W>) -> fmt::Result {
        let refusal = self.0;
        match refusal {
            Refusal::BadEscape(place) | Refusal::BareControl(place) => {
                write!(f, " {refusal} at {place}")
            }
            Refusal::WrongCrc(index) => write!(f, " {refusal} at {index}"),
            _ => write!(f, " {refusal}"),
        }
    }
}

// One value as it prints by itself.
#[derive(Clone, Copy, Debug, PartialEq, Eq)]
pub struct Spaced<T>(pub T);

impl<T: fmt::Display> fmt::Display for Spaced<T> {
    ghost output = { λ s. spaced_text (T.output s.0) };

    fn fmt<W: fmt::Write>(&self, f: &mut fmt::Formatter<W>) -> fmt::Result {
        let value = &self.0;
        write!(f, " {value}")
    }
}

// A piece, or the refusal of what would have given it.
#[derive(Clone, Copy, Debug, PartialEq, Eq)]
pub struct Said<T>(pub Result<T, Refusal>);

impl<T: fmt::Display> fmt::Display for Said<T> {
    ghost output = { λ s. said_text T.output s.0 };

    fn fmt<W: fmt::Write>(&self, f: &mut fmt::Formatter<W>) -> fmt::Result {
        match &self.0 {
            Ok(value) => write!(f, "{value}"),
            Err(refusal) => {
                let refused = Refused(*refusal);
                write!(f, "{refused}")
            }
        }
    }
}

// The first items of a slice, so many, or all.
pub fn first<T>(items: &[T], count: usize) -> &[T]
    ensures { result.now ≡ take count items.now }
{
    &items[..count.min(items.len())]
}
