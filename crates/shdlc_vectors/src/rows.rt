// A row of each kind, and its answer. The row's columns are told at the head of the table.
use crate::listener::Listener;
use crate::names::{Asked, Told, reply_of, request_of};
use crate::text::{MARK, Runs, again, body_size, flag, item, stays, written};
use crate::words::{byte, bytes_from, number, word};
use receiver::{Mode, Receiver};
use refusal::Refusal;
use replies::{ReadReply, Reply};
use sfc6::Request;
use shdlc::Kind;
use std::io::{self, Write};
use vector_text::{Bytes, Refused, first};

pub(crate) fn checksum<W: Write>(out: &mut W, line: &[u8]) -> io::Result<()> {
    let body = bytes_from(line, 1);
    write!(out, "{}", Bytes(&[shdlc::checksum(&body)]))
}

fn kind_of(word: &[u8]) -> Kind {
    match word {
        b"reply" => Kind::Reply,
        _ => Kind::Request,
    }
}

// A stream for a fresh receiver.
pub(crate) fn stream<W: Write>(out: &mut W, line: &[u8]) -> io::Result<()> {
    let mut store = [0u8; 260];
    match receiver::fresh(kind_of(word(line, 1)), &mut store) {
        Ok(fresh) => Listener::new(fresh, store).hear(out, line),
        Err(_) => Ok(()),
    }
}

// A stream for a receiver that has thrown away so many bytes.
pub(crate) fn noise<W: Write>(out: &mut W, line: &[u8]) -> io::Result<()> {
    let record = Receiver {
        kind: Kind::Request,
        mode: Mode::Outside,
        len: 0,
        noise: number(word(line, 1)) as usize,
    };
    Listener::new(record, [0; 260]).hear(out, line)
}

// One call with a record, and with so much of a store and a frame buffer.
pub(crate) fn lent<W: Write>(out: &mut W, line: &[u8]) -> io::Result<()> {
    let record = Receiver {
        kind: Kind::Request,
        mode: Mode::Plain,
        len: number(word(line, 1)) as usize,
        noise: 0,
    };
    let mut store = [0u8; 260];
    let mut frame = [MARK; 260];
    let stored = (number(word(line, 2)) as usize).min(260);
    let framed = (number(word(line, 3)) as usize).min(260);
    let silence = matches!(word(line, 4), b"M");
    let piece = bytes_from(line, if silence { 5 } else { 4 });
    let fed = receiver::feed(
        record,
        &mut store[..stored],
        silence,
        &piece,
        &mut frame[..framed],
    );
    write!(out, " took {}", fed.taken)?;
    if !item(out, fed.answer, &frame)? {
        write!(out, " nothing")?;
    }
    Ok(())
}

// The first item of the bytes on the wire, with a frame buffer that was marked.
fn first_item<W: Write>(
    out: &mut W,
    kind: Kind,
    wire: &[u8],
    frame: &mut [u8],
) -> io::Result<Result<Option<usize>, Refusal>> {
    let mut store = [0u8; 260];
    let fresh = match receiver::fresh(kind, &mut store) {
        Ok(fresh) => fresh,
        Err(why) => return Ok(Err(why)),
    };
    let fed = receiver::feed(fresh, &mut store, false, wire, frame);
    stays(out, frame, body_size(fed.answer))?;
    if fed.taken != wire.len() {
        write!(out, " not whole")?;
    }
    Ok(fed.answer)
}

// Reads a request from its body, and writes it again.
fn read_request<W: Write>(out: &mut W, body: &[u8], wire: &[u8]) -> io::Result<()> {
    match sfc6::read_request(body) {
        Err(why) => write!(out, "{}", Refused(why)),
        Ok((address, asked)) => {
            write!(out, " at {address} {}", Asked(asked))?;
            let mut room = [MARK; 600];
            let answer = sfc6::write_request(address, asked, &mut room);
            again(out, answer, &room, wire)
        }
    }
}

// A request on the wire.
pub(crate) fn request<W: Write>(out: &mut W, line: &[u8]) -> io::Result<()> {
    let mut frame = [MARK; 260];
    let wire = bytes_from(line, 1);
    match first_item(out, Kind::Request, &wire, &mut frame)? {
        Ok(None) => write!(out, " nothing"),
        Ok(Some(len)) => read_request(out, first(&frame, len), &wire),
        Err(why) => write!(out, "{}", Refused(why)),
    }
}

// The unstuffed body of a request, offered to the reader as it is.
pub(crate) fn request_body<W: Write>(out: &mut W, line: &[u8]) -> io::Result<()> {
    read_request(out, &bytes_from(line, 1), &[])
}

// The request that a row's word names. A name that is none is put out as such.
fn asked_in<W: Write>(out: &mut W, word: &[u8]) -> io::Result<Request> {
    if let Some(asked) = request_of(word) {
        return Ok(asked);
    }
    write!(out, " no request")?;
    Ok(Request::ProductType)
}

// Reads the body of a reply against its request, and writes it again.
fn read_reply<W: Write>(
    out: &mut W,
    address: u8,
    asked: Request,
    body: &[u8],
    wire: &[u8],
) -> io::Result<()> {
    let nothing: &[u8] = &[];
    let (got, text, bit7) = match replies::read_reply(address, asked, body) {
        Ok(ReadReply::Value(got, bit7)) => (got, nothing, bit7),
        Ok(ReadReply::Text(start, len, bit7)) => {
            let text = first(body.get(start..).unwrap_or(nothing), len);
            (Reply::ProductType, text, bit7)
        }
        Ok(ReadReply::Failed(code, bit7)) => (Reply::DeviceError(code), nothing, bit7),
        Err(why) => return write!(out, "{}", Refused(why)),
    };
    write!(out, " {}{}{}", Told(got), Runs(text), flag(bit7))?;
    let mut room = [MARK; 600];
    let answer = replies::write_reply(address, asked, got, text, bit7, &mut room);
    again(out, answer, &room, wire)
}

// A reply on the wire, and the request that it is read against.
pub(crate) fn reply<W: Write>(out: &mut W, line: &[u8]) -> io::Result<()> {
    let mut frame = [MARK; 260];
    let address = byte(word(line, 1));
    let asked = asked_in(out, word(line, 2))?;
    let wire = bytes_from(line, 3);
    match first_item(out, Kind::Reply, &wire, &mut frame)? {
        Ok(None) => write!(out, " nothing"),
        Ok(Some(len)) => read_reply(out, address, asked, first(&frame, len), &wire),
        Err(why) => write!(out, "{}", Refused(why)),
    }
}

// The unstuffed body of a reply, offered to the reader as it is.
pub(crate) fn reply_body<W: Write>(out: &mut W, line: &[u8]) -> io::Result<()> {
    let address = byte(word(line, 1));
    let asked = asked_in(out, word(line, 2))?;
    read_reply(out, address, asked, &bytes_from(line, 3), &[])
}

// A request into so much room.
pub(crate) fn write<W: Write>(out: &mut W, line: &[u8]) -> io::Result<()> {
    let mut room = [MARK; 600];
    let address = byte(word(line, 1));
    let asked = asked_in(out, word(line, 2))?;
    let size = (number(word(line, 3)) as usize).min(600);
    let answer = sfc6::write_request(address, asked, &mut room[..size]);
    written(out, answer, &room)
}

// A reply into so much room.
pub(crate) fn answer<W: Write>(out: &mut W, line: &[u8]) -> io::Result<()> {
    let mut room = [MARK; 600];
    let address = byte(word(line, 1));
    let asked = asked_in(out, word(line, 2))?;
    let got = reply_of(word(line, 3));
    let bit7 = matches!(word(line, 4), b"flag");
    let size = (number(word(line, 5)) as usize).min(600);
    let text = bytes_from(line, 6);
    let answer = replies::write_reply(address, asked, got, &text, bit7, &mut room[..size]);
    written(out, answer, &room)
}
