// The shift log: what crossed the wire, on file. A log is read from its end, the newest record first.
#![tactic(auto)]

ghost use Rattle.std.specs.Prelude.{◌≡◌};
ghost use Rattle.wire_log.specs.Kinds.{number_of_kind, kind_numbered};

use refusal::Refusal;

pub mod listing;
pub mod oldest;
pub mod reader;
pub mod text;
pub mod writer;

// What a record of a log is.
#[derive(Clone, Copy, Debug, PartialEq, Eq)]
pub enum Kind {
    // 1: request-side bytes.
    Request,
    // 2: reply-side bytes.
    Reply,
    // 3: a silence mark, without a body.
    Silence,
}

impl From<Kind> for u8 {
    ghost from_gives = { λ kind n. n ≡ number_of_kind kind };

    fn from(kind: Kind) -> u8 {
        match kind {
            Kind::Request => reader::REQUEST_SIDE,
            Kind::Reply => reader::REPLY_SIDE,
            Kind::Silence => reader::SILENCE_MARK,
        }
    }
}

impl TryFrom<u8> for Kind {
    type Error = Refusal;

    ghost try_from_gives = { λ n result. result ≡ kind_numbered n };

    fn try_from(number: u8) -> Result<Kind, Refusal> {
        match number {
            reader::REQUEST_SIDE => Ok(Kind::Request),
            reader::REPLY_SIDE => Ok(Kind::Reply),
            reader::SILENCE_MARK => Ok(Kind::Silence),
            _ => Err(Refusal::BadKind),
        }
    }
}
