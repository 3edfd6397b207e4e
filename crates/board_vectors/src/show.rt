// A board, and its lines: what was asked, the answer, and the places after it. The lines are compared with the file stdout when the
// program runs.
use crate::ask::Ask;
use board::entries::{Bus, Entry, Kind, Places, no_entries};
use board::listing::list_places;
use board::orders::apply;
use std::fmt;
use std::io::{self, Print};
use vector_text::{Refused, Said};

// The most places that are put out one by one.
const FEW: usize = 8;

// A node by the numbers of its bus and its address.
#[derive(Clone, Copy)]
pub(crate) struct Point(pub(crate) u8, pub(crate) u8);

impl fmt::Display for Point {
    fn fmt<W: fmt::Write>(&self, f: &mut fmt::Formatter<W>) -> fmt::Result {
        let Point(bus, address) = *self;
        match Bus::try_from(bus) {
            Ok(Bus::Serial) => write!(f, " serial {address}"),
            Ok(Bus::I2c) => write!(f, " I2C {address}"),
            Err(_) => write!(f, " bus {bus} {address}"),
        }
    }
}

// A node and the number of a kind.
#[derive(Clone, Copy)]
pub(crate) struct Key(pub(crate) u8, pub(crate) u8, pub(crate) u8);

impl fmt::Display for Key {
    fn fmt<W: fmt::Write>(&self, f: &mut fmt::Formatter<W>) -> fmt::Result {
        let Key(bus, address, kind) = *self;
        write!(f, "{}", Point(bus, address))?;
        match Kind::try_from(kind) {
            Ok(Kind::Valve) => write!(f, " valve"),
            Ok(Kind::Calibration) => write!(f, " calibration"),
            Err(_) if kind == 0 => write!(f, " free"),
            Err(_) => write!(f, " kind {kind}"),
        }
    }
}

// A place by its number from 0, bus, address, kind and polls left; nothing where all its numbers are 0.
#[derive(Clone, Copy)]
struct Place(usize, Entry);

impl fmt::Display for Place {
    fn fmt<W: fmt::Write>(&self, f: &mut fmt::Formatter<W>) -> fmt::Result {
        let Place(i, e) = *self;
        if (e.kind, e.bus, e.address, e.left) == (0, 0, 0, 0) {
            return Ok(());
        }
        write!(f, " [{i}{} {}]", Key(e.bus, e.address, e.kind), e.left)
    }
}

// Places in their order.
#[derive(Clone, Copy)]
struct InOrder<'a>(&'a [Entry]);

impl fmt::Display for InOrder<'_> {
    fn fmt<W: fmt::Write>(&self, f: &mut fmt::Formatter<W>) -> fmt::Result {
        for (i, e) in self.0.iter().enumerate() {
            write!(f, "{}", Place(i, *e))?;
        }
        Ok(())
    }
}

// The places of a board.
#[derive(Clone, Copy)]
pub(crate) struct Board(Places);

// The places one by one where few are held, else how many.
impl fmt::Display for Board {
    fn fmt<W: fmt::Write>(&self, f: &mut fmt::Formatter<W>) -> fmt::Result {
        let rows = &self.0.rows;
        let held = rows.iter().filter(|e| e.kind != 0).count();
        if held <= FEW {
            write!(f, "{}", InOrder(rows))
        } else {
            write!(f, ", {held} held")
        }
    }
}

impl Board {
    pub(crate) fn new() -> Board {
        Board(no_entries())
    }

    // The board after an order that no line tells of.
    pub(crate) fn after(self, ask: Ask) -> Board {
        Board(apply(self.0, ask.order()).places)
    }

    // The valves of the serial nodes below n, opened in the order of their addresses for 9 polls.
    pub(crate) fn valves(n: u8) -> Board {
        (0..n).fold(
            Board::new(),
            |board, address| board.after(Ask::Open(0, address, 1, 9)),
        )
    }

    // The board with numbers stored in a place with no check, as C can store them.
    pub(crate) fn spoilt(self, i: usize, kind: u8, bus: u8, address: u8, left: u16) -> Board {
        let Board(mut places) = self;
        if let Some(row) = places.rows.get_mut(i) {
            *row = Entry {
                kind,
                bus,
                address,
                spare: 0,
                left,
            };
        }
        Board(places)
    }

    // Carries out what is asked.
    pub(crate) fn order(&mut self, rt: &impl Print, ask: Ask) -> io::Result<()> {
        let changed = apply(self.0, ask.order());
        *self = Board(changed.places);
        let answer = changed.answer.map(|()| " done");
        println!(rt; "{ask}:{}{self}", Said(answer))
    }

    pub(crate) fn list(&self, rt: &impl Print, room: usize) -> io::Result<()> {
        match list_places(self.0, room) {
            Ok(list) => println!(rt;
                "list, room {room}: {} listed{}",
                list.len(),
                InOrder(&list)
            ),
            Err(why) => println!(rt; "list, room {room}:{}", Refused(why)),
        }
    }

    // What stands in one place.
    pub(crate) fn at(&self, rt: &impl Print, i: usize) -> io::Result<()> {
        let rows = &self.0.rows;
        match rows.get(i) {
            Some(e) => println!(rt; "place {i}:{}", Place(i, *e)),
            None => println!(rt; "place {i}:"),
        }
    }
}
