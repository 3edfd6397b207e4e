// The cases, each with its sentence of 02 (i) in quotation marks. The answers stand in the file stdout.
use crate::ask::Ask;
use crate::show::Board;
use i2c::command::Sfc6;
use sfc6::Request;
use std::io::{self, Print};

// The buses and kinds by number, as C gives them: rows also give numbers that stand for nothing, which Bus and Kind cannot say.
const SERIAL: u8 = 0;

const I2C: u8 = 1;

const FREE: u8 = 0;

const VALVE: u8 = 1;

const CALIBRATION: u8 = 2;

// "An acknowledged 3FEF opens its valve entry, an accepted reply to command 46 its calibration entry"
pub(crate) fn openings(rt: &impl Print) -> io::Result<()> {
    let mut board = Board::new();
    board.order(rt, Ask::Command("3FEF", 64, Sfc6::ShutValve, true))?;
    board.order(rt, Ask::Command("3FEF", 65, Sfc6::ShutValve, false))?;
    // An error answer, which is example 8 of 01; a wrong checksum; two that are accepted, bit 7 of the state clear and set.
    let ask = "46";
    let sent = Request::VolatileCalibration(1);
    board.order(rt, Ask::Reply(ask, 0, sent, b"\x00\x46\x20\x00\x99"))?;
    board.order(rt, Ask::Reply(ask, 0, sent, b"\x00\x46\x00\x00\xB8"))?;
    board.order(rt, Ask::Reply(ask, 0, sent, b"\x00\x46\x00\x00\xB9"))?;
    board.order(rt, Ask::Reply(ask, 5, sent, b"\x05\x46\x80\x00\x34"))
}

pub(crate) fn closings(rt: &impl Print) -> io::Result<()> {
    let mut board = Board::new().after(Ask::Open(I2C, 64, VALVE, 9));
    board = board.after(Ask::Open(SERIAL, 5, CALIBRATION, 9));
    // "An acknowledged 3F6E closes the first"; "closing what isn't there does nothing"
    board.order(rt, Ask::Command("3F6E", 64, Sfc6::NormalControl, false))?;
    board.order(rt, Ask::Command("3F6E", 65, Sfc6::NormalControl, true))?;
    board.order(rt, Ask::Command("3F6E", 64, Sfc6::NormalControl, true))?;
    // A get of 45 is no set; "an address set (90) moves none", so that a set of 45 at the new address closes nothing.
    let get = Request::GetCalibration;
    board.order(
        rt,
        Ask::Reply("45 get", 5, get, b"\x05\x45\x00\x04\x00\x00\x00\x02\xAF"),
    )?;
    let moved = Request::SetAddress(7);
    board.order(
        rt,
        Ask::Reply("90 set 7", 5, moved, b"\x05\x90\x00\x00\x6A"),
    )?;
    let ask = "45 set";
    let sent = Request::SetCalibration(1);
    board.order(rt, Ask::Reply(ask, 7, sent, b"\x07\x45\x00\x00\xB3"))?;
    // "an accepted 45 set the second": an error answer is not accepted. Then there is nothing more to close.
    board.order(rt, Ask::Reply(ask, 5, sent, b"\x05\x45\x20\x00\x95"))?;
    board.order(rt, Ask::Reply(ask, 5, sent, b"\x05\x45\x00\x00\xB5"))?;
    board.order(rt, Ask::Close(SERIAL, 5, CALIBRATION))
}

// The same by numbers, as C gives them: request 15 is command 46, and 14 a set of 45.
pub(crate) fn numbers(rt: &impl Print) -> io::Result<()> {
    let mut board = Board::new();
    board.order(rt, Ask::Code(64, 0x3FEF))?;
    board.order(rt, Ask::Numbered(5, 15, 0))?;
    board.order(rt, Ask::Numbered(5, 14, 15))?;
    board.order(rt, Ask::Numbered(5, 14, 0))?;
    board.order(rt, Ask::Code(64, 0x3F6E))
}

pub(crate) fn restarts(rt: &impl Print) -> io::Result<()> {
    // "the table admits both kinds on either bus"
    let mut board = Board::new().after(Ask::Open(SERIAL, 5, VALVE, 3));
    board = board.after(Ask::Open(SERIAL, 5, CALIBRATION, 3));
    board = board.after(Ask::Open(I2C, 5, VALVE, 3));
    board.order(rt, Ask::Open(I2C, 5, CALIBRATION, 3))?;
    // "a restart both": of that node, and of no other.
    board.order(rt, Ask::Restart(SERIAL, 6))?;
    board.order(rt, Ask::Restart(SERIAL, 5))?;
    board.order(rt, Ask::Close(I2C, 5, VALVE))?;
    board.order(rt, Ask::Restart(I2C, 5))
}

pub(crate) fn ranges(rt: &impl Print) -> io::Result<()> {
    // "with a lease of 1 to 65,535 polls"
    let mut board = Board::new();
    board.order(rt, Ask::Open(SERIAL, 5, VALVE, 0))?;
    board.order(rt, Ask::Open(SERIAL, 5, VALVE, 1))?;
    board.order(rt, Ask::Open(SERIAL, 5, VALVE, 65535))?;
    board.order(rt, Ask::Open(SERIAL, 5, VALVE, 65536))?;
    // "A node is a bus (serial or I2C) and an address (0 to 254, 0 to 127)"; "12 for a lease or address outside its range"
    board.order(rt, Ask::Open(SERIAL, 254, VALVE, 3))?;
    board.order(rt, Ask::Open(SERIAL, 255, VALVE, 3))?;
    board.order(rt, Ask::Open(I2C, 127, VALVE, 3))?;
    board.order(rt, Ask::Open(I2C, 128, VALVE, 3))?;
    board.order(rt, Ask::Close(SERIAL, 255, VALVE))?;
    board.order(rt, Ask::Restart(I2C, 128))
}

pub(crate) fn polls(rt: &impl Print) -> io::Result<()> {
    // "Each poll takes one from every lease above 0"; "due at exactly its last poll (0 left) and stays due until closed or renewed"
    let mut board = Board::new().after(Ask::Open(SERIAL, 1, VALVE, 2));
    board.order(rt, Ask::Open(I2C, 1, CALIBRATION, 3))?;
    board.order(rt, Ask::Poll)?;
    board.order(rt, Ask::Poll)?;
    board.order(rt, Ask::Poll)?;
    board.order(rt, Ask::Poll)?;
    // "Opening an entry already there renews its lease and takes no second place."
    board.order(rt, Ask::Open(SERIAL, 1, VALVE, 2))?;
    board.order(rt, Ask::Open(SERIAL, 1, VALVE, 5))?;
    board.order(rt, Ask::Close(I2C, 1, CALIBRATION))
}

// "A freed place is used again, the lowest first."
pub(crate) fn freed_places(rt: &impl Print) -> io::Result<()> {
    let mut board = Board::valves(4).after(Ask::Close(SERIAL, 2, VALVE));
    board.order(rt, Ask::Close(SERIAL, 0, VALVE))?;
    board.order(rt, Ask::Open(I2C, 8, VALVE, 4))?;
    board.order(rt, Ask::Open(I2C, 9, VALVE, 4))?;
    board.order(rt, Ask::Open(I2C, 7, VALVE, 4))
}

// "The board is listed by bus (serial first), address and kind (valve first), each entry with its polls left."
pub(crate) fn lists(rt: &impl Print) -> io::Result<()> {
    let mut board = Board::new();
    board.list(rt, 0)?;
    board = board.after(Ask::Open(I2C, 5, CALIBRATION, 10));
    board = board.after(Ask::Open(SERIAL, 254, VALVE, 20));
    board = board.after(Ask::Open(I2C, 5, VALVE, 30));
    board = board.after(Ask::Open(SERIAL, 5, CALIBRATION, 40));
    board = board.after(Ask::Open(I2C, 0, VALVE, 50));
    board = board.after(Ask::Open(SERIAL, 5, VALVE, 60));
    board.order(rt, Ask::Open(SERIAL, 0, CALIBRATION, 70))?;
    board.list(rt, 7)?;
    // Room for six of the seven: 1, as in 01, "lent room is less than this answer needs".
    board.list(rt, 6)
}

// "2 for one with an entry out of range or the same node and kind twice"; "Refusals, in order", so 2 before 12.
pub(crate) fn spoilt_tables(rt: &impl Print) -> io::Result<()> {
    let board = Board::new().after(Ask::Open(SERIAL, 5, VALVE, 3));
    // A kind that is none; a bus that is none; an address out of range on each bus; a free place with polls left.
    board.spoilt(1, 3, SERIAL, 6, 3).order(rt, Ask::Poll)?;
    board.spoilt(1, VALVE, 2, 6, 3).order(rt, Ask::Poll)?;
    board.spoilt(1, VALVE, SERIAL, 255, 3).order(rt, Ask::Poll)?;
    board.spoilt(1, VALVE, I2C, 128, 3).order(rt, Ask::Poll)?;
    board.spoilt(1, FREE, 0, 0, 3).order(rt, Ask::Poll)?;
    let mut twice = board.spoilt(31, VALVE, SERIAL, 5, 4);
    twice.order(rt, Ask::Poll)?;
    twice.order(rt, Ask::Open(SERIAL, 7, VALVE, 0))?;
    twice.list(rt, 32)
}

// "19 when a new entry is wanted and all 32 places are held"
pub(crate) fn full_tables(rt: &impl Print) -> io::Result<()> {
    let mut board = Board::valves(31);
    board.order(rt, Ask::Open(SERIAL, 31, VALVE, 9))?;
    board.order(rt, Ask::Open(SERIAL, 5, CALIBRATION, 9))?;
    board.order(rt, Ask::Command("3FEF", 64, Sfc6::ShutValve, true))?;
    // A renewal wants no new entry. 12 comes before 19.
    board.order(rt, Ask::Open(SERIAL, 5, VALVE, 7))?;
    board.at(rt, 5)?;
    board.order(rt, Ask::Open(I2C, 64, VALVE, 0))?;
    board = board.after(Ask::Close(SERIAL, 17, VALVE));
    board.order(rt, Ask::Close(SERIAL, 3, VALVE))?;
    board.order(rt, Ask::Command("3FEF", 64, Sfc6::ShutValve, true))?;
    board.at(rt, 3)
}
