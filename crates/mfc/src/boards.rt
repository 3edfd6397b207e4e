// The handover board in a lent table: the orders by their numbers, and what crossed the wires as orders. Parameters go side by side and an answer
// is a refusal's number, 0 for none, by the C interface.
ghost use Rattle.std.specs.Prelude.{◌≡◌};
ghost use Rattle.board.specs.declared.orders.Order.TheVariants.{Poll};
ghost use Rattle.board.specs.Numbers.{open_by, close_by, restart_by};
ghost use Rattle.board.specs.Orders.{change, numbered};
ghost use Rattle.board.specs.Listing.{list, numbered_list};
ghost use Rattle.handover.specs.Wire.{order_by_reply, order_by_code};

use crate::answers::number_of;
use board::entries::Entry;
use board::listing::Listed;
use board::numbers::{order_close, order_open, order_poll, order_restart};
use handover::{order_by_code, order_by_reply};

// Opens the entry of a node and kind for a lease of 1 to 65,535 polls, or renews its lease. Refusals, in their order: 1 where the table
// has not MFC_BOARD_PLACES places; 2 where an entry of it is out of range, or the same node and kind stands in it twice; 12 where bus or
// kind is none, or the address or the lease is out of range; 19 where the entry is new and all places are held.
#[unsafe(no_mangle)]
pub extern "C" fn mfc_board_open(
    table: &mut [Entry],
    bus: u8,
    address: u8,
    kind: u8,
    lease: u32,
) -> u8
    ensures { (result, table.new) ≡ numbered (change table.old (open_by bus address kind lease)) }
{
    let o = order_open(bus, address, kind, lease);
    number_of(board::table::change(table, o))
}

// Closes the entry of a node and kind; where there is none, nothing is done. Refusals, in their order: 1, 2 and 12 as for mfc_board_open.
#[unsafe(no_mangle)]
pub extern "C" fn mfc_board_close(table: &mut [Entry], bus: u8, address: u8, kind: u8) -> u8
    ensures { (result, table.new) ≡ numbered (change table.old (close_by bus address kind)) }
{
    let o = order_close(bus, address, kind);
    number_of(board::table::change(table, o))
}

// A node has restarted: both its entries are closed. Refusals, in their order: 1, 2 and 12 as for mfc_board_open.
#[unsafe(no_mangle)]
pub extern "C" fn mfc_board_restart(table: &mut [Entry], bus: u8, address: u8) -> u8
    ensures { (result, table.new) ≡ numbered (change table.old (restart_by bus address)) }
{
    let o = order_restart(bus, address);
    number_of(board::table::change(table, o))
}

// One poll: it takes one from every lease above 0. An entry with 0 left is due, and stays so until it is closed or renewed. Refusals, in
// their order: 1 and 2 as for mfc_board_open.
#[unsafe(no_mangle)]
pub extern "C" fn mfc_board_poll(table: &mut [Entry]) -> u8
    ensures { (result, table.new) ≡ numbered (change table.old Poll) }
{
    let o = order_poll();
    number_of(board::table::change(table, o))
}

// Lists the entries by bus (serial first), address and kind (valve first) at the start of the room, and counts them; MFC_BOARD_PLACES
// places hold any list. The table is only read. Refusals, in their order: 1 and 2 as for mfc_board_open; 1 where the room has fewer places
// than there are entries.
#[unsafe(no_mangle)]
pub extern "C" fn mfc_board_list(table: &[Entry], entries: &mut [Entry]) -> Listed
    ensures { (result, entries.new) ≡ numbered_list (list table.now entries.old) }
{
    board::table::list(table, entries).into()
}

// To be called after every reply that was read: the address and the request's number that were asked, and the refusal that
// mfc_read_reply answered. An accepted volatile calibration (command 46) opens the calibration entry of the address for a lease of polls, an
// accepted set calibration (45) closes it; all else concerns no entry, changes nothing and is answered 0 where the table is good.
// Refusals, in their order: 1 and 2 as for mfc_board_open; 12 for a request over 20, for an address out of range where an entry is to be
// opened or closed, and for a lease out of range where one is to be opened; 19 where it is new and all places are held.
#[unsafe(no_mangle)]
pub extern "C" fn mfc_board_reply(
    table: &mut [Entry],
    address: u8,
    request: u8,
    refusal: u8,
    lease: u32,
) -> u8
    ensures { (result, table.new) ≡ numbered (change table.old (order_by_reply address request refusal lease)) }
{
    let o = order_by_reply(address, request, refusal, lease);
    number_of(board::table::change(table, o))
}

// To be called after every command that an SFC6 on I2C has acknowledged, with its code: 3FEF opens the valve entry of the address for a lease
// of polls, 3F6E closes it, the other codes of MFC_SFC6_* concern no entry. Refusals, in their order: 1 and 2 as for
// mfc_board_open; 12 for any other code, for an address out of range where an entry is to be opened or closed, and for a lease out of range
// where one is to be opened; 19 where it is new and all places are held.
#[unsafe(no_mangle)]
pub extern "C" fn mfc_board_acknowledged(
    table: &mut [Entry],
    address: u8,
    code: u16,
    lease: u32,
) -> u8
    ensures { (result, table.new) ≡ numbered (change table.old (order_by_code address code lease)) }
{
    let o = order_by_code(address, code, lease);
    number_of(board::table::change(table, o))
}
