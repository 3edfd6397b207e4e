// Replies of the SFC6 family by their numbers, written and read.
ghost use Rattle.std.specs.Prelude.{◌≡◌, false, cond, ◌||◌, ltb, ◌%◌, ◌≤◌};
ghost use Rattle.refusal.specs.Refusals.{paper, refused, answered};
ghost use Rattle.replies.specs.Replies.{reply_to, kind_of};
ghost use Rattle.replies.specs.Paper.{paper_read};
ghost use Rattle.mfc.specs.Answers.{written};
ghost use Rattle.mfc.specs.Answering.{reply_at, value_of, reply_in, write_answer, read_answer};
ghost use Rattle.mfc.specs.Private.{too_wide, refusal_of, write_known};

use crate::answers::{MfcReply, MfcWritten};
use refusal::Refusal;
use replies::{ReadReply, Reading, Reply};
use sfc6::Request;

// The reply of its number, 0 to 15, and of a value that it holds.
fn reply_of(number: u8, n: u32) -> Reply
    requires { (number ≤ 15) × (too_wide number n ≡ false) }
    ensures { result ≡ reply_at number n }
{
    match number {
        0 => Reply::Acknowledged,
        1 => Reply::Setpoint(Reading::from(n)),
        2 => Reply::MeasuredValue(Reading::from(n)),
        3 => Reply::Gain(Reading::from(n)),
        4 => Reply::InitStep(Reading::from(n)),
        5 => Reply::RawFlow(n as u16),
        6 => Reply::RawConductivity(n as u16),
        7 => Reply::Temperature(Reading::from(n)),
        8 => Reply::NumberOfCalibrations(n),
        9 => Reply::Validity(n != 0),
        10 => Reply::FullScale(Reading::from(n)),
        11 => Reply::Calibration(n),
        12 => Reply::Address(n as u8),
        13 => Reply::Baud(n),
        14 => Reply::ProductType,
        _ => Reply::DeviceError(n as u8),
    }
}

// The number of a reply. No From: neither type is this crate's.
fn number_of(reply: Reply) -> u8
    ensures { result ≡ kind_of reply }
{
    match reply {
        Reply::Acknowledged => 0,
        Reply::Setpoint(_) => 1,
        Reply::MeasuredValue(_) => 2,
        Reply::Gain(_) => 3,
        Reply::InitStep(_) => 4,
        Reply::RawFlow(_) => 5,
        Reply::RawConductivity(_) => 6,
        Reply::Temperature(_) => 7,
        Reply::NumberOfCalibrations(_) => 8,
        Reply::Validity(_) => 9,
        Reply::FullScale(_) => 10,
        Reply::Calibration(_) => 11,
        Reply::Address(_) => 12,
        Reply::Baud(_) => 13,
        Reply::ProductType => 14,
        Reply::DeviceError(_) => 15,
    }
}

// The number of the reply that a request expects.
fn expected(request: Request) -> u8
    ensures { result ≡ kind_of (reply_to request 0) }
{
    match request {
        Request::SetSetpoint(_)
        | Request::SetGain(_)
        | Request::SetInitStep(_)
        | Request::SetCalibration(_)
        | Request::VolatileCalibration(_)
        | Request::SetAddress(_)
        | Request::SetBaud(_) => 0,
        Request::GetSetpoint => 1,
        Request::MeasuredValue => 2,
        Request::GetGain => 3,
        Request::GetInitStep => 4,
        Request::RawFlow => 5,
        Request::RawConductivity => 6,
        Request::Temperature => 7,
        Request::NumberOfCalibrations => 8,
        Request::Validity(_) => 9,
        Request::FullScale => 10,
        Request::GetCalibration => 11,
        Request::GetAddress => 12,
        Request::GetBaud => 13,
        Request::ProductType => 14,
    }
}

// The value that a reply carries, a float by its bits.
fn value_of(reply: Reply) -> u32
    ensures { result ≡ value_of reply }
{
    match reply {
        Reply::Setpoint(x)
        | Reply::MeasuredValue(x)
        | Reply::Gain(x)
        | Reply::InitStep(x)
        | Reply::Temperature(x)
        | Reply::FullScale(x) => u32::from(x),
        Reply::RawFlow(n) | Reply::RawConductivity(n) => u32::from(n),
        Reply::NumberOfCalibrations(n) | Reply::Calibration(n) | Reply::Baud(n) => n,
        Reply::Validity(v) => u32::from(v),
        Reply::Address(n) | Reply::DeviceError(n) => u32::from(n),
        Reply::Acknowledged | Reply::ProductType => 0,
    }
}

// Whether a value is wider than what the reply of a number carries.
fn is_too_wide(number: u8, n: u32) -> bool
    ensures { result ≡ too_wide number n }
{
    match number {
        5 | 6 => 65535 < n,
        12 | 15 => 255 < n,
        _ => false,
    }
}

// Why such a reply, or one over 15, is not written.
fn refusal_of(address: u8, request: Request, number: u8) -> Refusal
    ensures { refused (paper result) ≡ refusal_of address request number }
{
    if let Err(r) = sfc6::check_request(address, request) {
        return r;
    }
    if 15 < number {
        return Refusal::ForeignReply;
    }
    if address == 255 {
        return Refusal::ForeignReply;
    }
    if number == 15 {
        return Refusal::OutOfRange;
    }
    if number == expected(request) {
        return Refusal::OutOfRange;
    }
    Refusal::ForeignReply
}

// Whether a number and a value are those of no reply.
fn is_unsayable(number: u8, n: u32) -> bool
    ensures { result ≡ (ltb 15 number || too_wide number n) }
{
    15 < number || is_too_wide(number, n)
}

// Writes the frame of the reply to a request.
fn write_known(
    address: u8,
    request: Request,
    reply: u8,
    n: u32,
    text: &[u8],
    bit7: u8,
    out: &mut [u8],
) -> Result<usize, Refusal>
    ensures { (written (answered result), out.new) ≡ write_known address request reply n text.now bit7 out.old }
{
    if is_unsayable(reply, n) {
        return Err(refusal_of(address, request, reply));
    }
    replies::write_reply(address, request, reply_of(reply, n), text, bit7 != 0, out)
}

// Writes the frame of the reply to a request. The n bytes of text are those of a product type; beside any other reply they are not looked
// at. bit7 is bit 7 of the state: 0 for no, else yes. Refusals, in their order: 11 for a request over 20; 12, 13 and 10 of the request
// itself, as of mfc_write_request; 14 for a request to 255, a reply over 15, or one that is neither expected nor a device error; 12 for a
// raw flow or raw conductivity over 65,535, an address over 254, a baud that is none of the five, an error code outside 1 to 127, or a
// text that holds a 00 or is over 254 bytes; 13 for a float that is neither finite nor one of the three codings; 1 where the frame is
// longer than room (MFC_REPLY_ROOM bytes hold any). A validity is 0 for no, else yes, which is sent as 01.
#[unsafe(no_mangle)]
pub extern "C" fn mfc_write_reply(
    address: u8,
    request: u8,
    value: u32,
    reply: u8,
    reply_value: u32,
    text: &[u8],
    bit7: u8,
    out: &mut [u8],
) -> MfcWritten
    ensures { (result, out.new) ≡ write_answer address request value reply reply_value text.now bit7 out.old }
{
    match sfc6::request_of(usize::from(request), value) {
        Ok(asked) => write_known(address, asked, reply, reply_value, text, bit7, out).into(),
        Err(why) => Err(why).into(),
    }
}

impl From<Result<ReadReply, Refusal>> for MfcReply {
    ghost from_gives = { λ answer struct. struct ≡ reply_in (paper_read answer) };

    fn from(answer: Result<ReadReply, Refusal>) -> MfcReply {
        match answer {
            Ok(ReadReply::Value(reply, bit7)) => MfcReply {
                bit7: u8::from(bit7),
                reply: number_of(reply),
                value: value_of(reply),
                ..MfcReply::default()
            },
            Ok(ReadReply::Text(text_start, text_length, bit7)) => MfcReply {
                bit7: u8::from(bit7),
                reply: number_of(Reply::ProductType),
                text_start,
                text_length,
                ..MfcReply::default()
            },
            Ok(ReadReply::Failed(code, bit7)) => MfcReply {
                refusal: Refusal::DeviceError(code).number(),
                code,
                bit7: u8::from(bit7),
                ..MfcReply::default()
            },
            Err(why) => MfcReply {
                refusal: why.number(),
                ..MfcReply::default()
            },
        }
    }
}

// Reads the reply to a request from the n bytes of its unstuffed body, checksum included. Refusals, in their order: 11 for a request over
// 20; 12, 13 and 10 of the request itself, as of mfc_write_request; 5 to 8 of the body (over 260 bytes, under 5, L wrong, checksum wrong);
// 14 for a request to 255, another address or command, data beside an error code, or a data length not in the table; 15 for a device
// error; 12 for an address or a baud out of range; 13 for a float that is neither finite nor one of the three codings. A validity is
// answered as 0 where its byte is 0, else as 1.
#[unsafe(no_mangle)]
pub extern "C" fn mfc_read_reply(address: u8, request: u8, value: u32, body: &[u8]) -> MfcReply
    ensures { result ≡ read_answer address request value body.now }
{
    match sfc6::request_of(usize::from(request), value) {
        Ok(asked) => replies::read_reply(address, asked, body).into(),
        Err(why) => Err(why).into(),
    }
}
