// The board in a lent table: few functions over a slice of entries, in place.
ghost use Rattle.std.specs.Prelude.{◌≡◌, ◌∷◌, [], not, eqb, length};
ghost use Rattle.refusal.specs.Refusals.{number, answered, in_order};
ghost use Rattle.board.specs.Entries.{valid};
ghost use Rattle.board.specs.Orders.{change};
ghost use Rattle.board.specs.Listing.{list, laid_first};

use crate::entries::Entry;
use crate::listing::list_of;
use crate::orders::{Order, carry_out};
use crate::survey::is_good;
use refusal::Refusal;

// Whether a table has 32 places and is good.
pub(crate) fn check(t: &[Entry]) -> Result<(), Refusal>
    ensures { answered result ≡ in_order ((not (eqb (length t.now) 32), number 1) ∷ (not (valid t.now), number 2) ∷ []) tt }
{
    if t.len() != 32 {
        return Err(Refusal::NoRoom);
    }
    if !is_good(t) {
        return Err(Refusal::BadRecord);
    }
    Ok(())
}

// The board carries out an order in the lent table, or refuses it and changes nothing.
#[tactic(auto, unfolding(crate::specs::Orders::change))]
pub fn change(t: &mut [Entry], o: Order) -> Result<(), Refusal>
    ensures { (answered result, t.new) ≡ change t.old o }
{
    check(&*t)?;
    carry_out(t, o)
}

// Lays a list by value at the start of the lent room, as many of its first 32 entries as the room has places for, and tells how many it has. All
// else in the room is as it was.
pub fn lay(entries: &mut [Entry], list: &[Entry]) -> usize
    ensures { (result ≡ length list.now) × (entries.new ≡ laid_first (length list.now) list.now entries.old) }
{
    let n = list.len().min(32).min(entries.len());
    entries[..n].copy_from_slice(&list[..n]);
    list.len()
}

// Lists the board of a lent table at the start of the lent room, or refuses and changes nothing.
#[tactic(auto, using(crate::proofs::Carried::laying))]
pub fn list(t: &[Entry], entries: &mut [Entry]) -> Result<usize, Refusal>
    ensures { (answered result, entries.new) ≡ list t.now entries.old }
{
    let list = list_of(t, entries.len())?;
    Ok(lay(entries, list.as_slice()))
}
