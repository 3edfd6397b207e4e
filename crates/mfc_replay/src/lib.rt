// The replay for C, a library of its own beside crates/mfc: the compiler makes a function one with the exported function that calls it only
// where that is its one caller, and here the receiver and the two readers of frames have another. tools/library puts both into one archive.
#![tactic(auto)]

ghost use Rattle.std.specs.Prelude.{◌≡◌};
ghost use Rattle.refusal.specs.Refusals.{answered};
ghost use Rattle.board.specs.Listing.{numbered_list};
ghost use Rattle.replay.specs.Replay.{replay};

use board::entries::Entry;
use board::listing::Listed;
use board::table::lay;
use refusal::Refusal;

// The replay's list, laid in the lent room.
#[tactic(auto, using(crate::proofs::Laid::laying))]
fn lay_replay(file: &[u8], lease: u32, entries: &mut [Entry]) -> Result<usize, Refusal>
    ensures { (answered result, entries.new) ≡ replay file.now lease entries.old }
{
    let list = replay::replay(file, lease, entries.len())?;
    Ok(lay(entries, list.as_slice()))
}

// Runs a log through the receivers again, oldest record first: request-side bytes to a receiver of requests, reply-side bytes to one of
// replies, and a silence mark to both, which is also one poll. A reply frame is read against the latest request frame, and skipped where
// there is none or that one is refused as a request; an accepted reply does what mfc_board_reply does with this lease, on a board that is
// empty at the start. The entries at the log's end are listed and counted as by mfc_board_list. Refusals, in their order: 12 for a lease
// outside 1 to 65,535; 20 to 23 as for mfc_log_check; 19 where an opening met all places held, even if one is free at the end; 1 where
// the room has fewer places than there are entries. A refusal changes nothing. Only temporary calibrations on the serial bus come out,
// since I2C is not in a log.
#[unsafe(no_mangle)]
pub extern "C" fn mfc_log_replay(file: &[u8], lease: u32, entries: &mut [Entry]) -> Listed
    ensures { (result, entries.new) ≡ numbered_list (replay file.now lease entries.old) }
{
    lay_replay(file, lease, entries).into()
}
