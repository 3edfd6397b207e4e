// A look through the places of a table, from the last to the first: whether it is good.
ghost use Rattle.std.specs.Prelude.{◌≡◌, ◌&&◌, ◌<◌};
ghost use Rattle.board.specs.Entries.{is_kind, is_node, valid};
ghost use Rattle.board.specs.Private.{node_place, mark};

use crate::entries::Entry;

// A node by a number: serial from 0 to 254, I2C from 256 to 383.
#[tactic(auto, unfolding(crate::specs::Private::node_place))]
fn node_place(e: Entry) -> usize
    ensures { (result ≡ node_place e) × (e.address < 256) }
{
    usize::from(e.bus) * 256 + usize::from(e.address)
}

// Whether kind, bus and address are such as a node's entry has.
#[tactic(auto, unfolding(crate::specs::Private::node_place, crate::specs::Entries::is_node))]
fn is_entry(e: Entry, n: usize) -> bool
    requires { (n ≡ node_place e) × (e.address < 256) }
    ensures { result ≡ (is_kind e.kind && is_node e.bus e.address) }
{
    e.is_of_kind() && n != 255 && n < 384
}

// The kinds seen of a node are the bits of its number. One place more: what is good stays so where it is free, or its entry is in range and
// was not seen.
#[tactic(auto, unfolding(crate::specs::Private::mark))]
pub(crate) fn mark(seen: &mut [u8; 384], good: bool, e: Entry) -> bool
    ensures { (result, seen.new) ≡ mark good seen.old e }
{
    if e.is_free() {
        return good && e.is_clear();
    }
    let n = node_place(e);
    if !is_entry(e, n) {
        return false;
    }
    let kinds = seen[n];
    seen[n] = kinds | e.kind;
    good && kinds & e.kind == 0
}

// Whether a table of any number of places is good.
pub(crate) fn is_good(t: &[Entry]) -> bool
    ensures { result ≡ valid t.now }
{
    let mut seen = [0u8; 384];
    let mut good = true;
    for e in t.iter().rev() {
        good = mark(&mut seen, good, *e);
    }
    good
}
