// What is asked of a board: the order that it comes to, and its words.
use crate::show::{Key, Point};
use board::numbers::{order_close, order_open, order_poll, order_restart};
use board::orders::Order;
use handover::{order_by_code, order_by_reply, order_of_command, order_of_reply};
use i2c::command::Sfc6;
use refusal::Refusal;
use replies::{ReadReply, read_reply};
use sfc6::Request;
use std::fmt;
use vector_text::{Bytes, Said};

// The lease of what is opened by a command or a reply.
const LEASE: u32 = 9;

#[derive(Clone, Copy)]
pub(crate) enum Ask {
    // Bus, address, kind, and a lease.
    Open(u8, u8, u8, u32),
    Close(u8, u8, u8),
    Restart(u8, u8),
    Poll,
    // A command on I2C by its words, its address, and whether it was acknowledged.
    Command(&'static str, u8, Sfc6, bool),
    // A request by its words, its address, and the body of the reply.
    Reply(&'static str, u8, Request, &'static [u8]),
    // An address, and an acknowledged command by its code.
    Code(u8, u16),
    // An address, a request by its number, and the number of the refusal that its reply was read with.
    Numbered(u8, u8, u8),
}

impl Ask {
    pub(crate) fn order(self) -> Order {
        match self {
            Ask::Open(bus, address, kind, lease) => order_open(bus, address, kind, lease),
            Ask::Close(bus, address, kind) => order_close(bus, address, kind),
            Ask::Restart(bus, address) => order_restart(bus, address),
            Ask::Poll => order_poll(),
            Ask::Command(_, address, command, acknowledged) => {
                order_of_command(address, command, acknowledged, LEASE)
            }
            Ask::Reply(_, address, request, body) => {
                order_of_reply(address, request, read_reply(address, request, body), LEASE)
            }
            Ask::Code(address, code) => order_by_code(address, code, LEASE),
            Ask::Numbered(address, request, refusal) => {
                order_by_reply(address, request, refusal, LEASE)
            }
        }
    }
}

// How the body of a reply is read.
fn how_read(address: u8, request: Request, body: &[u8]) -> Result<&'static str, Refusal> {
    match read_reply(address, request, body)? {
        ReadReply::Failed(code, _) => Err(Refusal::DeviceError(code)),
        _ => Ok(" accepted"),
    }
}

impl fmt::Display for Ask {
    fn fmt<W: fmt::Write>(&self, f: &mut fmt::Formatter<W>) -> fmt::Result {
        match *self {
            Ask::Open(bus, address, kind, lease) => {
                write!(f, "open{}, lease {lease}", Key(bus, address, kind))
            }
            Ask::Close(bus, address, kind) => write!(f, "close{}", Key(bus, address, kind)),
            Ask::Restart(bus, address) => write!(f, "restart{}", Point(bus, address)),
            Ask::Poll => write!(f, "poll"),
            Ask::Command(ask, address, _, true) => write!(f, "{ask} at {address} acknowledged"),
            Ask::Command(ask, address, _, false) => {
                write!(f, "{ask} at {address} not acknowledged")
            }
            Ask::Reply(ask, address, request, body) => {
                let read = how_read(address, request, body);
                write!(f, "{ask} at {address}, reply{}{}", Bytes(body), Said(read))
            }
            Ask::Code(address, code) => write!(f, "code {code:04X} at {address}"),
            Ask::Numbered(address, request, refusal) => {
                write!(f, "request {request} at {address}, refusal {refusal}")
            }
        }
    }
}
