// How the wires feed the handover board: what was accepted or acknowledged, as an order to it.
#![tactic(auto)]

ghost use Rattle.std.specs.Prelude.{◌≡◌};
ghost use Rattle.replies.specs.Paper.{paper_read};
ghost use Rattle.handover.specs.Wire.{accepted_by, order_of_reply, acknowledged_by, order_of_command, order_by_code, order_by_reply};

use board::entries::{Bus, Kind, Node};
use board::orders::Order;
use i2c::command::Sfc6;
use refusal::Refusal;
use replies::ReadReply;
use sfc6::Request;

// What an accepted reply to a request asks of the board.
fn accepted_by(address: u8, request: Request, lease: u32) -> Order
    ensures { result ≡ accepted_by address request lease }
{
    let node = Node {
        bus: Bus::Serial,
        address,
    };
    match request {
        Request::VolatileCalibration(_) => Order::Open(node, Kind::Calibration, lease),
        Request::SetCalibration(_) => Order::Close(node, Kind::Calibration),
        _ => Order::Nothing,
    }
}

// What a reply that was read asks of the board: what `replies::read_reply` answered of the reply to the request sent to an address.
pub fn order_of_reply(
    address: u8,
    request: Request,
    reply: Result<ReadReply, Refusal>,
    lease: u32,
) -> Order
    ensures { result ≡ order_of_reply address request (paper_read reply).0 lease }
{
    match reply {
        Ok(ReadReply::Value(_, _)) | Ok(ReadReply::Text(_, _, _)) => {
            accepted_by(address, request, lease)
        }
        Ok(ReadReply::Failed(_, _)) | Err(_) => Order::Nothing,
    }
}

fn acknowledged_by(address: u8, command: Sfc6, lease: u32) -> Order
    ensures { result ≡ acknowledged_by address command lease }
{
    let node = Node {
        bus: Bus::I2c,
        address,
    };
    match command {
        Sfc6::ShutValve => Order::Open(node, Kind::Valve, lease),
        Sfc6::NormalControl => Order::Close(node, Kind::Valve),
        _ => Order::Nothing,
    }
}

// What a command on I2C asks of the board, once the bus has told whether it was acknowledged.
pub fn order_of_command(address: u8, command: Sfc6, acknowledged: bool, lease: u32) -> Order
    ensures { result ≡ order_of_command address command acknowledged lease }
{
    if acknowledged {
        return acknowledged_by(address, command, lease);
    }
    Order::Nothing
}

// What an acknowledged command on I2C asks of the board, by its code.
#[tactic(auto, unfolding(crate::specs::Wire::order_by_code, crate::specs::Wire::is_listed))]
pub fn order_by_code(address: u8, code: u16, lease: u32) -> Order
    ensures { result ≡ order_by_code address code lease }
{
    match code {
        0x3FEF => acknowledged_by(address, Sfc6::ShutValve, lease),
        0x3F6E => acknowledged_by(address, Sfc6::NormalControl, lease),
        // The other codes that can be asked for.
        0xE102 | 0xE000 | 0xE17D | 0x3650 | 0x365B => Order::Nothing,
        _ => Order::Unnamed,
    }
}

// What a reply that was read asks of the board, by the number of the request sent to an address, 0 to 20, and the number of the refusal
// that the reply was read with, 0 for none.
#[tactic(auto, unfolding(crate::specs::Wire::order_by_reply))]
pub fn order_by_reply(address: u8, request: u8, refusal: u8, lease: u32) -> Order
    ensures { result ≡ order_by_reply address request refusal lease }
{
    match sfc6::request_of(usize::from(request), 0) {
        Ok(sent) if refusal == 0 => accepted_by(address, sent, lease),
        Ok(_) => Order::Nothing,
        Err(_) => Order::Unnamed,
    }
}
