// The refusals: one named case for each number of document 01's table, and for each that document 02 adds.
#![tactic(auto)]

ghost use Rattle.std.specs.Prelude.{◌≡◌, ◌++◌, codes, decimal, Some};
ghost use Rattle.refusal.specs.Refusals.{number_of, place_of};

pub mod laying;

use std::error::Error;
use std::fmt;

// Why an entry point does not serve. The comment of a case is its number and its row of the table.
#[derive(Clone, Copy, Debug, PartialEq, Eq)]
pub enum Refusal {
    // 1: lent room is less than this answer needs; a board's table not of 32 places; a log's length past the lent buffer.
    NoRoom,
    // 2: receiver record outside its ranges; a board's table with an entry out of range, or with a node and kind twice.
    BadRecord,
    // 3: 7D not followed by 5E, 5D, 31 or 33, or last in the stretch; the place of the 7D there, as received.
    BadEscape(u16),
    // 4: 11 or 13 not after a 7D; its place in the stretch, as received.
    BareControl(u16),
    // 5: body over 259 (request) or 260 (reply).
    BodyTooLong,
    // 6: body under 4 (request) or 5 (reply).
    BodyTooShort,
    // 7: L differs from the data bytes present.
    WrongLength,
    // 8: checksum wrong.
    WrongChecksum,
    // 9: non-empty stretch cut off by silence.
    CutBySilence,
    // 10: set slave address sent to address 255.
    AddressBroadcast,
    // 11: command or subcommand not in the table; subcommand missing.
    UnknownCommand,
    // 12: a data length not in the table, a value out of its range, or a field past the payload's end; a record that would take a log's
    // total past 65,000.
    OutOfRange,
    // 13: float not allowed there.
    BadFloat,
    // 14: reply does not belong to the request.
    ForeignReply,
    // 15: device reported an execution error; its code, 1 to 127.
    DeviceError(u8),
    // 16: word bytes empty or not a multiple of 3; list of words to write empty.
    BadWordCount,
    // 17: a word's CRC wrong; the first such word's index, from 0.
    WrongCrc(usize),
    // 18: scale factor outside 1 to 32,767.
    BadScale,
    // 19: a new entry is wanted and all 32 places of the board are held.
    BoardFull,
    // 20: a log under 8 bytes, a total that differs from what precedes it, or one over 65,000.
    BadTotal,
    // 21: a trailer cut short or pointing before the start, at a log's newest faulty record.
    BadTrailer,
    // 22: an unknown kind or a kind 3 with a body, at a log's newest faulty record or in a record to be added.
    BadKind,
    // 23: a log's count is not the number of its records.
    WrongCount,
}

impl Refusal {
    // The number of a refusal in document 01's table.
    pub fn number(self) -> u8
        ensures { result ≡ number_of self }
    {
        match self {
            Refusal::NoRoom => 1,
            Refusal::BadRecord => 2,
            Refusal::BadEscape(_) => 3,
            Refusal::BareControl(_) => 4,
            Refusal::BodyTooLong => 5,
            Refusal::BodyTooShort => 6,
            Refusal::WrongLength => 7,
            Refusal::WrongChecksum => 8,
            Refusal::CutBySilence => 9,
            Refusal::AddressBroadcast => 10,
            Refusal::UnknownCommand => 11,
            Refusal::OutOfRange => 12,
            Refusal::BadFloat => 13,
            Refusal::ForeignReply => 14,
            Refusal::DeviceError(_) => 15,
            Refusal::BadWordCount => 16,
            Refusal::WrongCrc(_) => 17,
            Refusal::BadScale => 18,
            Refusal::BoardFull => 19,
            Refusal::BadTotal => 20,
            Refusal::BadTrailer => 21,
            Refusal::BadKind => 22,
            Refusal::WrongCount => 23,
        }
    }

    // The place in its stretch that a refusal carries, 0 where it carries none.
    pub fn place(self) -> u16
        ensures { result ≡ place_of self }
    {
        match self {
            Refusal::BadEscape(place) | Refusal::BareControl(place) => place,
            _ => 0,
        }
    }
}

impl fmt::Display for Refusal {
    ghost output = { λ r. Some (codes "refused " ++ decimal (number_of r)) };

    fn fmt<W: fmt::Write>(&self, f: &mut fmt::Formatter<W>) -> fmt::Result {
        let number = self.number();
        write!(f, "refused {number}")
    }
}

impl Error for Refusal {}
