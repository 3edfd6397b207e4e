// Orders by numbers, as C gives them: bus 0 is serial and 1 is I2C, kind 1 is a valve and 2 a temporary calibration.
ghost use Rattle.std.specs.Prelude.{◌≡◌};
ghost use Rattle.board.specs.Numbers.{open_by, close_by, restart_by};

use crate::entries::{Bus, Kind, Node};
use crate::orders::Order;

// The order to open the entry of a node and kind for a lease, or to renew its lease.
pub fn order_open(bus: u8, address: u8, kind: u8, lease: u32) -> Order
    ensures { result ≡ open_by bus address kind lease }
{
    match (Bus::try_from(bus), Kind::try_from(kind)) {
        (Ok(bus), Ok(kind)) => Order::Open(Node { bus, address }, kind, lease),
        _ => Order::Unnamed,
    }
}

// The order to close the entry of a node and kind.
pub fn order_close(bus: u8, address: u8, kind: u8) -> Order
    ensures { result ≡ close_by bus address kind }
{
    match (Bus::try_from(bus), Kind::try_from(kind)) {
        (Ok(bus), Ok(kind)) => Order::Close(Node { bus, address }, kind),
        _ => Order::Unnamed,
    }
}

// The order that tells of a node's restart.
pub fn order_restart(bus: u8, address: u8) -> Order
    ensures { result ≡ restart_by bus address }
{
    match Bus::try_from(bus) {
        Ok(bus) => Order::Restart(Node { bus, address }),
        Err(_) => Order::Unnamed,
    }
}

// The order of a poll.
pub fn order_poll() -> Order
    ensures { result ≡ Order.Poll }
{
    Order::Poll
}
