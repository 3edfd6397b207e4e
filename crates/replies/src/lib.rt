// Replies of the SFC6 family, written and read.
#![tactic(auto)]

ghost use Rattle.std.specs.Prelude.{◌≡◌, true, false, cond, not, ◌+◌, ◌-◌, ◌^◌, ◌≤◌, ◌<◌, min, length, take};
ghost use mathlib.Core.List.{[], ◌∷◌, ◌++◌};
ghost use Rattle.std.specs.List.{fold};
ghost use Rattle.refusal.specs.Refusals.{answered, in_order};
ghost use Rattle.refusal.specs.Room.{emit};
ghost use Rattle.shdlc.specs.Frame.{write_frame};
ghost use Rattle.payload.specs.Field.{big, big_endian, bytes_in};
ghost use Rattle.sfc6.specs.Commands.{row};
ghost use Rattle.replies.specs.Replies.{bits_of, reading_of, reply_to, suits, content_of, out_of_range, bad_float};
ghost use Rattle.replies.specs.Writer.{bad_text, data_of, state_of, body_of, frame_for, write_reply};
ghost use Rattle.replies.specs.Reader.{size_of, is_size, foreign, text_in, got_by, value_checks, with_bit7, read_reply};
ghost use Rattle.replies.specs.Paper.{paper_read};

use payload::{Field, Width};
use refusal::Refusal;
use sfc6::{Answer, Request, Row};
use shdlc::Kind;

// A float of a reply: a finite value, or one of three codings.
#[derive(Clone, Copy, Debug, PartialEq)]
pub enum Reading {
    Finite(f32),
    Invalid,
    PlusInfinity,
    MinusInfinity,
}

// A reply, with the value that it carries. A validity is yes or no. The text of a product type stands beside it.
#[derive(Clone, Copy, Debug, PartialEq)]
pub enum Reply {
    Acknowledged,
    Setpoint(Reading),
    MeasuredValue(Reading),
    Gain(Reading),
    InitStep(Reading),
    RawFlow(u16),
    RawConductivity(u16),
    Temperature(Reading),
    NumberOfCalibrations(u32),
    Validity(bool),
    FullScale(Reading),
    Calibration(u32),
    Address(u8),
    Baud(u32),
    ProductType,
    DeviceError(u8),
}

// What a reply carries, whichever request it answers.
#[derive(Clone, Copy)]
enum Content {
    Nothing,
    Float(Reading),
    U16(u16),
    U32(u32),
    Validity(bool),
    Address(u8),
    Baud(u32),
    Text,
    Error(u8),
}

// What reading a reply answers. The bool is bit 7 of the state.
#[derive(Clone, Copy, Debug, PartialEq)]
pub enum ReadReply {
    // A reply of the kind that the request expects.
    Value(Reply, bool),
    // A product type: where its text stands in the body, and how long it is.
    Text(usize, usize, bool),
    // 15, an execution error: its code, 1 to 127.
    Failed(u8, bool),
}

// The bits that a reading is sent by.
impl From<Reading> for u32 {
    ghost from_gives = { λ x bits. bits ≡ bits_of x };

    fn from(x: Reading) -> u32 {
        match x {
            Reading::Finite(v) => sfc6::bits_of(v),
            Reading::Invalid => 0xFFFF_FFFF,
            Reading::PlusInfinity => 0x7F80_0000,
            Reading::MinusInfinity => 0xFF80_0000,
        }
    }
}

// The reading of its bits: one of the three codings, else the float of the bits.
impl From<u32> for Reading {
    ghost from_gives = { λ bits x. x ≡ reading_of bits };

    fn from(bits: u32) -> Reading {
        match bits {
            0xFFFF_FFFF => Reading::Invalid,
            0x7F80_0000 => Reading::PlusInfinity,
            0xFF80_0000 => Reading::MinusInfinity,
            _ => Reading::Finite(sfc6::float_of(bits)),
        }
    }
}

// What a reply carries.
fn content_of(reply: Reply) -> Content
    ensures { result ≡ content_of reply }
{
    match reply {
        Reply::Acknowledged => Content::Nothing,
        Reply::Setpoint(x)
        | Reply::MeasuredValue(x)
        | Reply::Gain(x)
        | Reply::InitStep(x)
        | Reply::Temperature(x)
        | Reply::FullScale(x) => Content::Float(x),
        Reply::RawFlow(n) | Reply::RawConductivity(n) => Content::U16(n),
        Reply::NumberOfCalibrations(n) | Reply::Calibration(n) => Content::U32(n),
        Reply::Validity(v) => Content::Validity(v),
        Reply::Address(a) => Content::Address(a),
        Reply::Baud(rate) => Content::Baud(rate),
        Reply::ProductType => Content::Text,
        Reply::DeviceError(code) => Content::Error(code),
    }
}

// 12: a value out of its range. An address is at most 254, a baud one of the five, an error code 1 to 127.
fn out_of_range(content: Content) -> bool
    ensures { result ≡ out_of_range content }
{
    match content {
        Content::Address(a) => a > 254,
        Content::Baud(rate) => !sfc6::is_baud(rate),
        Content::Error(code) => code == 0 || code > 127,
        _ => false,
    }
}

// 13: a carried float that is not finite, also one whose bits are those of a coding.
fn bad_float(content: Content) -> bool
    ensures { result ≡ bad_float content }
{
    match content {
        Content::Float(Reading::Finite(v)) => !sfc6::is_finite(sfc6::bits_of(v)),
        _ => false,
    }
}

// How many bytes stand before the first 00, or how many there are.
fn text_len(bytes: &[u8]) -> usize
    ensures { result ≡ length (text_in bytes.now) }
{
    bytes.iter().position(|b| *b == 0).unwrap_or(bytes.len())
}

// The smallest byte, 255 of none. All bytes are looked at: without an early end the compiler takes many at once.
fn smallest(bytes: &[u8]) -> u8
    ensures { result ≡ fold min 255 bytes.now }
{
    bytes.iter().fold(255, |least, b| least.min(*b))
}

// 12: a text that holds a 00 or is over 254 bytes.
#[tactic(auto, using(crate::proofs::Carried::text_held))]
fn bad_text(content: Content, text: &[u8]) -> bool
    ensures { result ≡ bad_text content text.now }
{
    let Content::Text = content else {
        return false;
    };
    if text.len() > 254 {
        return true;
    }
    smallest(text) == 0
}

// Whether a reply is of the kind that the request expects, or an error answer, which suits every kind.
fn suits(request: Request, reply: Reply) -> bool
    ensures { result ≡ suits request reply }
{
    match (request, reply) {
        (Request::GetSetpoint, Reply::Setpoint(_))
        | (Request::MeasuredValue, Reply::MeasuredValue(_))
        | (Request::GetGain, Reply::Gain(_))
        | (Request::GetInitStep, Reply::InitStep(_))
        | (Request::RawFlow, Reply::RawFlow(_))
        | (Request::RawConductivity, Reply::RawConductivity(_))
        | (Request::Temperature, Reply::Temperature(_))
        | (Request::NumberOfCalibrations, Reply::NumberOfCalibrations(_))
        | (Request::Validity(_), Reply::Validity(_))
        | (Request::FullScale, Reply::FullScale(_))
        | (Request::GetCalibration, Reply::Calibration(_))
        | (Request::GetAddress, Reply::Address(_))
        | (Request::GetBaud, Reply::Baud(_))
        | (Request::ProductType, Reply::ProductType)
        | (Request::SetSetpoint(_), Reply::Acknowledged)
        | (Request::SetGain(_), Reply::Acknowledged)
        | (Request::SetInitStep(_), Reply::Acknowledged)
        | (Request::SetCalibration(_), Reply::Acknowledged)
        | (Request::VolatileCalibration(_), Reply::Acknowledged)
        | (Request::SetAddress(_), Reply::Acknowledged)
        | (Request::SetBaud(_), Reply::Acknowledged)
        | (_, Reply::DeviceError(_)) => true,
        _ => false,
    }
}

// Writes a number at the start of the lent room, and answers how many bytes it takes.
fn put_number(out: &mut [u8], n: u32, width: Width) -> usize
    requires { (n < 256 ^ bytes_in width) × (4 ≤ length out.old) }
    ensures { (result ≤ 4) × (take result out.new ≡ big_endian (bytes_in width) n) }
{
    payload::put(out, 0, n, width).unwrap()
}

// Writes the data but for the text of a product type, of which only the 00 at its end is written here, and answers how many bytes they
// take. In one room of four bytes: with an array of each arm's own, handed over there, a reply with a number took 28.5 ns in place of 25.5.
#[tactic(auto, unfolding(payload::specs::Field::big_endian))]
fn put_data(out: &mut [u8], content: Content) -> usize
    requires { 4 ≤ length out.old }
    ensures { (result ≤ 4) × (take result out.new ≡ data_of content []) }
{
    match content {
        Content::Nothing | Content::Error(_) => 0,
        Content::Float(x) => put_number(out, u32::from(x), Width::Four),
        Content::U16(n) => put_number(out, u32::from(n), Width::Two),
        Content::U32(n) | Content::Baud(n) => put_number(out, n, Width::Four),
        Content::Validity(v) => put_number(out, u32::from(v), Width::One),
        Content::Address(a) => put_number(out, u32::from(a), Width::One),
        Content::Text => put_number(out, 0, Width::One),
    }
}

// The state: the error code in its low 7 bits, and bit 7.
fn state_of(content: Content, bit7: bool) -> u8
    requires { out_of_range content ≡ false }
    ensures { result ≡ state_of content bit7 }
{
    let high = if bit7 { 0x80 } else { 0 };
    match content {
        Content::Error(code) => code + high,
        _ => high,
    }
}

// Writes the frame of a reply whose data are a text, which may be empty, and what follows it. Their number is L, one byte.
#[tactic(auto, unfolding(crate::specs::Writer::body_of))]
fn write_parts(
    address: u8,
    command: u8,
    state: u8,
    text: &[u8],
    last: &[u8],
    out: &mut [u8],
) -> Result<usize, Refusal>
    requires { length text.now + length last.now ≤ 255 }
    ensures { (answered result, out.new) ≡ write_frame (body_of address command state (text.now ++ last.now)) out.old }
{
    let size = text.len() + last.len();
    let head = [address, command, state, size as u8];
    shdlc::lay_parts(&head, text, last, out)
}

// Writes the frame of what a reply carries, none of which is refused: its data are at most 255 bytes.
#[tactic(auto, using(crate::proofs::Carried::text_data, crate::proofs::Carried::no_text), unfolding(crate::specs::Writer::frame_for))]
fn write_content(
    address: u8,
    command: u8,
    content: Content,
    text: &[u8],
    bit7: bool,
    out: &mut [u8],
) -> Result<usize, Refusal>
    requires { (out_of_range content ≡ false) × (bad_text content text.now ≡ false) }
    ensures { (answered result, out.new) ≡ emit (frame_for address command content text.now bit7) out.old }
{
    let state = state_of(content, bit7);
    let mut rest = [0u8; 4];
    let end = put_data(&mut rest, content);
    if let Content::Text = content {
        return write_parts(address, command, state, text, &rest[..end], out);
    }
    write_parts(address, command, state, &[], &rest[..end], out)
}

// Writes the frame of the reply to a request at the start of the lent room: the request's own 12, 13, 10, then 14, 12, 13, 1. The text is
// that of a product type; beside any other reply it is not looked at. `bit7` is bit 7 of the state.
#[tactic(auto, using(crate::proofs::Writing::writing))]
pub fn write_reply(
    address: u8,
    request: Request,
    reply: Reply,
    text: &[u8],
    bit7: bool,
    out: &mut [u8],
) -> Result<usize, Refusal>
    ensures { (answered result, out.new) ≡ write_reply address request reply text.now bit7 out.old }
{
    sfc6::check_request(address, request)?;
    if address == 255 {
        return Err(Refusal::ForeignReply);
    }
    if !suits(request, reply) {
        return Err(Refusal::ForeignReply);
    }
    let content = content_of(reply);
    if out_of_range(content) {
        return Err(Refusal::OutOfRange);
    }
    if bad_text(content, text) {
        return Err(Refusal::OutOfRange);
    }
    if bad_float(content) {
        return Err(Refusal::BadFloat);
    }
    let row = sfc6::row_of(request);
    write_content(address, row.command, content, text, bit7, out)
}

// Whether the data of a reply may be so long.
fn is_size(answer: Answer, n: u8) -> bool
    ensures { result ≡ is_size (size_of answer) n }
{
    match answer {
        Answer::Nothing => n == 0,
        Answer::Validity | Answer::Address => n == 1,
        Answer::U16 => n == 2,
        Answer::Float | Answer::U32 | Answer::Baud => n == 4,
        Answer::Text => true,
    }
}

// 14: the reply does not belong to the request.
#[tactic(auto, unfolding(crate::specs::Reader::foreign))]
fn is_foreign(address: u8, row: Row, body: &[u8]) -> bool
    requires { 5 ≤ length body.now }
    ensures { result ≡ foreign address row body.now }
{
    if address == 255 {
        return true;
    }
    if body[0] != address {
        return true;
    }
    if body[1] != row.command {
        return true;
    }
    if body[2] % 128 != 0 {
        return body[3] != 0;
    }
    let answer = row.answer;
    !is_size(answer, body[3])
}

// The number that the data stand for, taken by a reader.
#[tactic(auto, using(crate::proofs::Carried::served_ok, payload::proofs::At::taken_whole))]
fn number<T: Field>(payload: &[u8]) -> T
    requires { length payload.now ≡ bytes_in T.WIDTH }
    ensures { T.number result ≡ big payload.now }
{
    payload::first(payload).unwrap()
}

// Data of four bytes as a reading.
fn float_in(payload: &[u8]) -> Reading
    requires { length payload.now ≡ 4 }
    ensures { result ≡ reading_of (big payload.now) }
{
    Reading::from(number::<u32>(payload))
}

// The reply that answers a request, of its data, whose length is the table's.
#[tactic(auto, unfolding(sfc6::specs::Commands::row))]
fn reply_in(request: Request, payload: &[u8]) -> Reply
    requires { is_size (size_of (row request).answer) (length payload.now) ≡ true }
    ensures { result ≡ reply_to request (big payload.now) }
{
    match request {
        Request::GetSetpoint => Reply::Setpoint(float_in(payload)),
        Request::MeasuredValue => Reply::MeasuredValue(float_in(payload)),
        Request::GetGain => Reply::Gain(float_in(payload)),
        Request::GetInitStep => Reply::InitStep(float_in(payload)),
        Request::RawFlow => Reply::RawFlow(number(payload)),
        Request::RawConductivity => Reply::RawConductivity(number(payload)),
        Request::Temperature => Reply::Temperature(float_in(payload)),
        Request::NumberOfCalibrations => Reply::NumberOfCalibrations(number(payload)),
        Request::Validity(_) => Reply::Validity(number::<u8>(payload) != 0),
        Request::FullScale => Reply::FullScale(float_in(payload)),
        Request::GetCalibration => Reply::Calibration(number(payload)),
        Request::GetAddress => Reply::Address(number(payload)),
        Request::GetBaud => Reply::Baud(number(payload)),
        Request::ProductType => Reply::ProductType,
        Request::SetSetpoint(_)
        | Request::SetGain(_)
        | Request::SetInitStep(_)
        | Request::SetCalibration(_)
        | Request::VolatileCalibration(_)
        | Request::SetAddress(_)
        | Request::SetBaud(_) => Reply::Acknowledged,
    }
}

// What the data of a reply stand for, their length being the table's: a text by its place in the body, else the reply, or 12, 13.
#[tactic(auto, using(crate::proofs::Answers::text_read))]
fn read_data(
    request: Request,
    answer: Answer,
    payload: &[u8],
    bit7: bool,
) -> Result<ReadReply, Refusal>
    requires { (answer ≡ (row request).answer) × (is_size (size_of answer) (length payload.now) ≡ true) }
    ensures { paper_read result ≡ with_bit7 (in_order (value_checks (reply_to request (big payload.now))) (got_by (size_of answer) request payload.now)) bit7 }
{
    if let Answer::Text = answer {
        return Ok(ReadReply::Text(4, text_len(payload), bit7));
    }
    let reply = reply_in(request, payload);
    let content = content_of(reply);
    if out_of_range(content) {
        return Err(Refusal::OutOfRange);
    }
    if bad_float(content) {
        return Err(Refusal::BadFloat);
    }
    Ok(ReadReply::Value(reply, bit7))
}

// Reads the unstuffed body of the reply to a request, checksum included.
#[tactic(auto, using(crate::proofs::Answers::reading))]
pub fn read_reply(address: u8, request: Request, body: &[u8]) -> Result<ReadReply, Refusal>
    ensures { paper_read result ≡ read_reply address request body.now }
{
    sfc6::check_request(address, request)?;
    shdlc::check_body(Kind::Reply, body)?;
    let row = sfc6::row_of(request);
    if is_foreign(address, row, body) {
        return Err(Refusal::ForeignReply);
    }
    let state = body[2];
    let bit7 = 0x80 <= state;
    let code = state % 128;
    if code != 0 {
        return Ok(ReadReply::Failed(code, bit7));
    }
    let end = body.len() - 1;
    read_data(request, row.answer, &body[4..end], bit7)
}
