// The orders to the board: what each answers, and what it does to the places.
ghost use Rattle.std.specs.Prelude.{◌≡◌, Bool, cond, map, position};
ghost use Rattle.refusal.specs.Refusals.{number, refused, answered};
ghost use Rattle.board.specs.Entries.{is_free, is_of, on_node, entry_of};
ghost use Rattle.board.specs.Orders.{lease_in_range, order_in_range, opened, freed, tick, done, change};

use crate::entries::{Entry, Kind, Node, Places, free_place};
use crate::table::check;
use refusal::Refusal;

// An order to the board.
#[derive(Clone, Copy, Debug, PartialEq, Eq)]
pub enum Order {
    // An entry is opened for a lease of 1 to 65,535 polls, or its lease renewed.
    Open(Node, Kind, u32),
    Close(Node, Kind),
    // A node has restarted: both its entries are closed.
    Restart(Node),
    // One poll of every lease.
    Poll,
    // Numbers from C that name no bus, kind, request or command: 12.
    Unnamed,
    // What crossed a wire and concerns no entry: nothing is done.
    Nothing,
}

// The answer to an order, and the places after it.
#[derive(Clone, Copy, Debug)]
pub struct Changed {
    pub answer: Result<(), Refusal>,
    pub places: Places,
}

// Whether a number of polls can be a lease.
pub fn lease_in_range(lease: u32) -> bool
    ensures { result ≡ lease_in_range lease }
{
    (1..=65535).contains(&lease)
}

impl Order {
    fn in_range(self) -> bool
        ensures { result ≡ order_in_range self }
    {
        match self {
            Order::Open(node, _, lease) => node.in_range() && lease_in_range(lease),
            Order::Close(node, _) | Order::Restart(node) => node.in_range(),
            Order::Poll | Order::Nothing => true,
            Order::Unnamed => false,
        }
    }
}

// The entry of a node and kind, with its polls left.
pub fn entry(node: Node, kind: Kind, lease: u16) -> Entry
    ensures { result ≡ entry_of node kind lease }
{
    Entry {
        kind: u8::from(kind),
        bus: u8::from(node.bus),
        address: node.address,
        spare: 0,
        left: lease,
    }
}

// Where the entry of a node and kind stands.
fn held_place(t: &[Entry], node: Node, kind: Kind) -> Option<usize>
    ensures { result ≡ position (is_of node kind) t.now }
{
    t.iter().position(|e| e.is_of(node, kind))
}

// The first free place.
fn first_free(t: &[Entry]) -> Option<usize>
    ensures { result ≡ position is_free t.now }
{
    t.iter().position(|e| e.is_free())
}

// The entry stands in its place, or in the first free one.
#[tactic(auto, using(crate::proofs::Carried::opening))]
fn open(t: &mut [Entry], node: Node, kind: Kind, lease: u16) -> Result<(), Refusal>
    ensures { (answered result, t.new) ≡ opened node kind lease t.old }
{
    match held_place(t, node, kind).or(first_free(t)) {
        Some(i) => {
            t[i] = entry(node, kind, lease);
            Ok(())
        }
        None => Err(Refusal::BoardFull),
    }
}

// A place is freed where something holds of its entry.
#[tactic(auto, using(crate::proofs::Runs::each), unfolding(crate::specs::Orders::freed))]
fn free_where<F: Fn(Entry) -> bool>(t: &mut [Entry], holds: F)
    requires { F.IsAlwaysCallable holds }
    ensures { (f : Entry → Bool) → ((e : Entry) (b : Bool) → F.post holds e b → b ≡ f e) → t.new ≡ map (freed f) t.old }
{
    for e in t.iter_mut() {
        if holds(*e) {
            *e = free_place();
        }
    }
}

#[tactic(auto, using(crate::proofs::Runs::each))]
fn poll(t: &mut [Entry])
    ensures { t.new ≡ map tick t.old }
{
    for e in t.iter_mut() {
        e.left = e.left.saturating_sub(1);
    }
}

// An order to places that are known to be good: 12 or 19, or it is done. A refusal changes nothing.
pub fn carry_out(t: &mut [Entry], o: Order) -> Result<(), Refusal>
    ensures { (answered result, t.new) ≡ cond (order_in_range o) (done o t.old) (refused (number 12), t.old) }
{
    if !o.in_range() {
        return Err(Refusal::OutOfRange);
    }
    match o {
        Order::Open(node, kind, lease) => return open(t, node, kind, lease as u16),
        Order::Close(node, kind) => free_where(t, |e| e.is_of(node, kind)),
        Order::Restart(node) => free_where(t, |e| e.is_on(node)),
        Order::Poll => poll(t),
        Order::Unnamed | Order::Nothing => {}
    }
    Ok(())
}

// The board carries out an order, or refuses it and changes nothing.
pub fn apply(p: Places, o: Order) -> Changed
    ensures { (answered result.answer, result.places.rows) ≡ change p.rows o }
{
    let mut places = p;
    let answer = crate::table::change(&mut places.rows, o);
    Changed { answer, places }
}
