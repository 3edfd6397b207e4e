// Requests of the SFC6 family by their numbers, written and read.
ghost use Rattle.std.specs.Prelude.{◌≡◌};
ghost use Rattle.shdlc.specs.Checksum.{checksum_of};
ghost use Rattle.refusal.specs.Refusals.{answered};
ghost use Rattle.sfc6.specs.Reading.{read_request};
ghost use Rattle.sfc6.specs.Commands.{place_of};
ghost use Rattle.sfc6.specs.Requests.{write_numbered};
ghost use Rattle.sfc6.specs.Rounds.{append_numbered};
ghost use Rattle.mfc.specs.Answers.{written, beside};
ghost use Rattle.mfc.specs.Requests.{request};

use crate::answers::{MfcRequest, MfcWritten};
use refusal::Refusal;
use sfc6::Request;

// The checksum of the n bytes of a body before it: 255 minus their sum modulo 256. It refuses nothing.
#[unsafe(no_mangle)]
pub extern "C" fn mfc_checksum(bytes: &[u8]) -> u8
    ensures { result ≡ checksum_of bytes.now }
{
    shdlc::checksum(bytes)
}

// Writes the frame of a request. Refusals, in their order: 11 for a request over 20; 12 for an address over 254 to be set, or a baud that
// is none of 9600, 19200, 38400, 57600 and 115200; 13 for a float that is not finite; 10 for set address sent to 255; 1 where the frame is
// longer than room (MFC_REQUEST_ROOM bytes hold any).
#[unsafe(no_mangle)]
pub extern "C" fn mfc_write_request(
    address: u8,
    request: u8,
    value: u32,
    out: &mut [u8],
) -> MfcWritten
    ensures { (result, out.new) ≡ beside written (write_numbered address request value out.old) }
{
    sfc6::write_numbered(address, usize::from(request), value, out).into()
}

// Writes the frame of a request into a buffer from start on, as one frame of a polling round; all else in the buffer stays. The length
// is the frame's. Refusals as those of mfc_write_request; 1 also where start is past the buffer.
#[unsafe(no_mangle)]
pub extern "C" fn mfc_write_request_at(
    buffer: &mut [u8],
    start: usize,
    address: u8,
    request: u8,
    value: u32,
) -> MfcWritten
    ensures { (result, buffer.new) ≡ beside written (append_numbered buffer.old start address request value) }
{
    sfc6::append_numbered(buffer, start, address, usize::from(request), value).into()
}

// The number of a request. No From: neither type is this crate's.
fn number_of(request: Request) -> u8
    ensures { result ≡ place_of request }
{
    sfc6::place_of(request) as u8
}

impl From<Result<(u8, Request), Refusal>> for MfcRequest {
    ghost from_gives = { λ answer struct. struct ≡ request (answered answer) };

    fn from(answer: Result<(u8, Request), Refusal>) -> MfcRequest {
        match answer {
            Ok((address, asked)) => MfcRequest {
                refusal: 0,
                address,
                request: number_of(asked),
                value: sfc6::value_of(asked),
            },
            Err(why) => MfcRequest {
                refusal: why.number(),
                ..MfcRequest::default()
            },
        }
    }
}

// Reads a request from the n bytes of its unstuffed body, checksum included. Refusals, in their order: 5 to 8 of the body (over 259
// bytes, under 4, L wrong, checksum wrong); 11 for a command or subcommand not in the table; 12 for a data length not in the table, an
// address or a baud out of range; 13 for a float that is not finite; 10 for set address sent to 255.
#[unsafe(no_mangle)]
pub extern "C" fn mfc_read_request(body: &[u8]) -> MfcRequest
    ensures { result ≡ request (read_request body.now) }
{
    sfc6::read_request(body).into()
}
