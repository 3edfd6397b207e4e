// A node, an entry as C lends it, and the 32 places of a table with their ranges.
ghost use Rattle.std.specs.Prelude.{◌≡◌};
ghost use Rattle.board.specs.Entries.{bus_number, kind_number, free, is_free, is_of, on_node, is_kind, is_clear, node_in_range, empty};
ghost use Rattle.board.specs.Numbers.{bus_by, kind_by};

use refusal::Refusal;

#[derive(Clone, Copy, Debug, PartialEq, Eq)]
pub enum Bus {
    Serial,
    I2c,
}

// What an entry stands for.
#[derive(Clone, Copy, Debug, PartialEq, Eq)]
pub enum Kind {
    // A valve that 3FEF has shut.
    Valve,
    // A temporary calibration, by command 46.
    Calibration,
}

// A node: serial addresses are 0 to 254, those of I2C 0 to 127.
#[derive(Clone, Copy, Debug, PartialEq, Eq)]
pub struct Node {
    pub bus: Bus,
    pub address: u8,
}

// A place of the handover board's table. In a free place all numbers are 0.
#[repr(C)]
#[derive(Clone, Copy, Debug, Default)]
pub struct Entry {
    // 0 for a free place, or one of MFC_ENTRY_*
    pub kind: u8,
    // One of MFC_BUS_*
    pub bus: u8,
    // 0 to 254 on the serial bus, 0 to 127 on I2C.
    pub address: u8,
    // Nobody's: padding in C, never looked at. 0 in a place that is opened, renewed or freed, else as it was.
    pub spare: u8,
    // The polls left; 0 where the entry is due.
    pub left: u16,
}

// The 32 places by value.
#[derive(Clone, Copy, Debug)]
pub struct Places {
    pub rows: [Entry; 32],
}

// The numbers that stand for a bus and a kind in an entry; kind 0 is a free place.
const SERIAL: u8 = 0;

const I2C: u8 = 1;

const VALVE: u8 = 1;

const CALIBRATION: u8 = 2;

impl From<Bus> for u8 {
    ghost from_gives = { λ bus n. n ≡ bus_number bus };

    fn from(bus: Bus) -> u8 {
        match bus {
            Bus::Serial => SERIAL,
            Bus::I2c => I2C,
        }
    }
}

// A number that stands for no bus is out of range.
impl TryFrom<u8> for Bus {
    type Error = Refusal;

    ghost try_from_gives = { λ n r. r ≡ bus_by n };

    #[tactic(auto, unfolding(crate::specs::Numbers::bus_by, crate::specs::Numbers::is_bus, crate::specs::Numbers::bus_of))]
    fn try_from(n: u8) -> Result<Bus, Refusal> {
        match n {
            SERIAL => Ok(Bus::Serial),
            I2C => Ok(Bus::I2c),
            _ => Err(Refusal::OutOfRange),
        }
    }
}

impl From<Kind> for u8 {
    ghost from_gives = { λ kind n. n ≡ kind_number kind };

    fn from(kind: Kind) -> u8 {
        match kind {
            Kind::Valve => VALVE,
            Kind::Calibration => CALIBRATION,
        }
    }
}

// A number that stands for no kind is out of range.
impl TryFrom<u8> for Kind {
    type Error = Refusal;

    ghost try_from_gives = { λ n r. r ≡ kind_by n };

    #[tactic(auto, unfolding(crate::specs::Numbers::kind_by, crate::specs::Entries::is_kind, crate::specs::Numbers::kind_of))]
    fn try_from(n: u8) -> Result<Kind, Refusal> {
        match n {
            VALVE => Ok(Kind::Valve),
            CALIBRATION => Ok(Kind::Calibration),
            _ => Err(Refusal::OutOfRange),
        }
    }
}

impl Node {
    pub(crate) fn in_range(self) -> bool
        ensures { result ≡ node_in_range self }
    {
        match self.bus {
            Bus::Serial => self.address <= 254,
            Bus::I2c => self.address <= 127,
        }
    }
}

impl Entry {
    pub(crate) fn is_free(self) -> bool
        ensures { result ≡ is_free self }
    {
        self.kind == 0
    }

    // Whether a place of kind 0 is a free one.
    #[tactic(auto, unfolding(crate::specs::Entries::is_clear))]
    pub(crate) fn is_clear(self) -> bool
        ensures { result ≡ is_clear self }
    {
        (self.bus, self.address, self.left) == (0, 0, 0)
    }

    #[tactic(auto, unfolding(crate::specs::Numbers::kind_by))]
    pub(crate) fn is_of_kind(self) -> bool
        ensures { result ≡ is_kind self.kind }
    {
        Kind::try_from(self.kind).is_ok()
    }

    // Whether the entry is that of a node and kind.
    #[tactic(auto, unfolding(crate::specs::Entries::has))]
    pub(crate) fn is_of(self, node: Node, kind: Kind) -> bool
        ensures { result ≡ is_of node kind self }
    {
        (self.kind, self.bus, self.address) == (u8::from(kind), u8::from(node.bus), node.address)
    }

    // Whether it is one of the node's, of whatever kind.
    #[tactic(auto, unfolding(crate::specs::Entries::on_node))]
    pub(crate) fn is_on(self, node: Node) -> bool
        ensures { result ≡ on_node node self }
    {
        self.is_of(node, Kind::Valve) || self.is_of(node, Kind::Calibration)
    }
}

pub fn free_place() -> Entry
    ensures { result ≡ free }
{
    Entry::default()
}

// The board at the start: 32 free places.
pub fn no_entries() -> Places
    ensures { result.rows ≡ empty }
{
    Places {
        rows: [free_place(); 32],
    }
}
