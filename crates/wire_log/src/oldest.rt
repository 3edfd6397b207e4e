// A log from its oldest record on, by halves: where the older half ends, and the record that ends at a place.
ghost use Rattle.std.specs.Prelude.{◌≡◌, ◌+◌, ◌≤◌, ◌<◌, IfSome, IsSome, ℕ, length};
ghost use Rattle.wire_log.specs.Log.{kinds};
ghost use Rattle.wire_log.specs.Oldest.{records_to, row_found, newest_to, LeavesOut};

use crate::Kind;
use crate::listing::older;
use crate::reader::last;

// A record by its kind, where its body starts in the file, and its body's length.
#[derive(Clone, Copy, Debug, PartialEq, Eq)]
pub struct Found {
    pub kind: Kind,
    pub start: usize,
    pub size: usize,
}

// The newest of the records that end at a place of a log, if there is one.
pub fn newest(file: &[u8], place: usize) -> Option<Found>
    ensures row { row_found result ≡ newest_to kinds file.now place }
    ensures some { place ≤ length file.now → 0 < length (records_to kinds file.now place) → IsSome result }
    ensures inside { IfSome result (λ found. found.start + found.size ≤ length file.now) }
{
    last(file.get(..place)?).ok()
}

// Of the records that end at a place, where the older ones end when the newest n are left out.
pub fn back_over(file: &[u8], place: usize, n: usize) -> usize
    ensures { LeavesOut kinds file.now place n result }
{
    match file.get(..place) {
        Some(records) => older(records, n).len(),
        None => place,
    }
}
