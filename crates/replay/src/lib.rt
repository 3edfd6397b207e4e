// A log run through the receivers again: the board that its traffic leaves.
#![tactic(auto)]

ghost use Rattle.std.specs.Prelude.{◌≡◌, IfOk};
ghost use Rattle.arrayvec.specs.ArrayVec.{array_vec_len};
ghost use Rattle.refusal.specs.Refusals.{served, answered_as};
ghost use Rattle.wire_log.specs.Log.{kinds};
ghost use Rattle.wire_log.specs.Check.{counting, records_of};
ghost use Rattle.replay.specs.Replay.{shown, replayed, room_for, replay_answer};
ghost use Rattle.replay.specs.Private.{list_of, board_of};

use crate::run::Run;
use board::listing::Entries;
use board::orders::lease_in_range;
use refusal::Refusal;

pub mod desk;
pub mod run;

// The list of the board at the end of a log that passed its check, with so many records.
fn replay_all(lease: u32, file: &[u8], count: usize, room: usize) -> Result<Entries, Refusal>
    requires { served count ≡ counting (records_of kinds file.now) }
    ensures answer { answered_as array_vec_len result ≡ room_for (list_of (board_of file.now lease)) room }
    ensures list { IfOk result (λ v. v.items ≡ shown (list_of (board_of file.now lease))) }
{
    let mut run = Run::new(lease);
    run.replay_newest(file, file.len() - 8, count);
    run.desk.list(room)
}

// Replays a log with one lease for all that it opens: the list of the board at its end, for room of so many places.
#[tactic(auto, using(crate::proofs::Whole::bad))]
pub fn replay(file: &[u8], lease: u32, room: usize) -> Result<Entries, Refusal>
    ensures answer { answered_as array_vec_len result ≡ replay_answer file.now lease room }
    ensures list { IfOk result (λ v. v.items ≡ shown (replayed file.now lease)) }
{
    if !lease_in_range(lease) {
        return Err(Refusal::OutOfRange);
    }
    let count = wire_log::reader::check(file)?;
    replay_all(lease, file, count, room)
}
