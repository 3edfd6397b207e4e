// What the lines put out, beside the pieces of vector_text.
use refusal::Refusal;
use std::fmt;
use std::io::{self, Write};
use vector_text::{Bytes, Refused, Said, first};

// What lent room holds before a call, so that a byte that changed is seen.
pub(crate) const MARK: u8 = 0xA5;

// Bytes as the table writes them: eight and more of one kind are counted.
#[derive(Clone, Copy)]
pub(crate) struct Runs<'a>(pub(crate) &'a [u8]);

impl fmt::Display for Runs<'_> {
    fn fmt<W: fmt::Write>(&self, f: &mut fmt::Formatter<W>) -> fmt::Result {
        for run in self.0.chunk_by(|a, b| a == b) {
            let count = run.len();
            if count < 8 {
                write!(f, "{}", Bytes(run))?;
            } else {
                write!(f, "{}*{count}", Bytes(first(run, 1)))?;
            }
        }
        Ok(())
    }
}

// Bit 7 of a reply's state.
pub(crate) fn flag(bit7: bool) -> &'static str {
    if bit7 { " flag" } else { "" }
}

// Says so where the room is not as it was marked, behind what an answer fills.
pub(crate) fn stays<W: Write>(out: &mut W, room: &[u8], filled: usize) -> io::Result<()> {
    if room.iter().skip(filled).all(|b| *b == MARK) {
        return Ok(());
    }
    write!(out, " changed")
}

// Says what a call of the receiver answered, and whether that is an item. The frame buffer was marked before the call.
pub(crate) fn item<W: Write>(
    out: &mut W,
    answer: Result<Option<usize>, Refusal>,
    frame: &[u8],
) -> io::Result<bool> {
    stays(out, frame, body_size(answer))?;
    match answer {
        Ok(None) => return Ok(false),
        Ok(Some(len)) => write!(out, " frame {len}")?,
        Err(why) => write!(out, "{}", Refused(why))?,
    }
    Ok(true)
}

// How many bytes of the frame buffer an answer fills.
pub(crate) fn body_size(answer: Result<Option<usize>, Refusal>) -> usize {
    answer.unwrap_or(None).unwrap_or(0)
}

// What a writer made of the room, which was marked before: the bytes, or its refusal.
pub(crate) fn written<W: Write>(
    out: &mut W,
    answer: Result<usize, Refusal>,
    room: &[u8],
) -> io::Result<()> {
    stays(out, room, answer.unwrap_or(0))?;
    write!(out, "{}", Said(answer.map(|n| Runs(first(room, n)))))
}

// The same of what was read from the wire before: it is the same, or what it is.
pub(crate) fn again<W: Write>(
    out: &mut W,
    answer: Result<usize, Refusal>,
    room: &[u8],
    wire: &[u8],
) -> io::Result<()> {
    let size = answer.unwrap_or(0);
    if first(room, size) == wire {
        stays(out, room, size)?;
        return write!(out, " same");
    }
    write!(out, " again")?;
    written(out, answer, room)
}
