// Two logs compared, record by record. The records are looked at from the newest on, as a log can be read, and each mark goes to its
// place, so that the marks stand oldest first.
#![tactic(auto)]

ghost use Rattle.std.specs.Prelude.{◌≡◌, ◌+◌, ◌≤◌, length, take, drop};
ghost use Rattle.refusal.specs.Refusals.{served, answered_as};
ghost use Rattle.wire_log.specs.Log.{recorded, kinds};
ghost use Rattle.wire_log.specs.Kinds.{number_of_kind};
ghost use Rattle.wire_log.specs.Check.{counting, records_of};
ghost use Rattle.wire_log.specs.Oldest.{records_to};
ghost use Rattle.compare.specs.Compare.{mark_of, equal_places, counts, compare as compareTo};
ghost use Rattle.compare.specs.Private.{marks_to};

use crate::bytes::same_bytes;
use refusal::Refusal;
use wire_log::oldest::{Found, back_over, newest};
use wire_log::reader::check;

mod bytes;

// The mark of a place where both logs have the same record. The marks are bytes, since C reads them (mfc_log_compare).
pub const SAME: u8 = 0;

// The mark of a place where kind or body differ.
pub const DIFFER: u8 = 1;

// The mark of a place past the end of the second log.
pub const ONLY_A: u8 = 2;

// The mark of a place past the end of the first log.
pub const ONLY_B: u8 = 3;

// What a comparison answers: how many places there are, and at how many of them the records are the same.
#[derive(Clone, Copy, Debug, PartialEq, Eq)]
pub struct Compared {
    pub places: usize,
    pub same: usize,
}

// The mark of two records that were found in their files.
fn mark(a: &[u8], x: Found, b: &[u8], y: Found) -> u8
    requires { (x.start + x.size ≤ length a.now) × (y.start + y.size ≤ length b.now) }
    ensures { result ≡ mark_of (recorded (number_of_kind x.kind) (take x.size (drop x.start a.now))) (recorded (number_of_kind y.kind) (take y.size (drop y.start b.now))) }
{
    let body_a = &a[x.start..x.start + x.size];
    let body_b = &b[y.start..y.start + y.size];
    if x.kind == y.kind && same_bytes(body_a, body_b) {
        SAME
    } else {
        DIFFER
    }
}

// Marks the records that end at a place of each log, and answers how many are the same. It is a function of its own in the machine code too:
// its loop then has the processor's registers for itself.
#[inline(never)]
fn mark_records(a: &[u8], p: usize, b: &[u8], q: usize, marks: &mut [u8]) -> usize
    requires { (p ≤ length a.now) × (q ≤ length b.now) × (length marks.old ≡ length (records_to kinds a.now p)) × (length marks.old ≡ length (records_to kinds b.now q)) }
    ensures { (result ≡ equal_places (marks_to a.now p b.now q)) × (marks.new ≡ marks_to a.now p b.now q) }
{
    let mut at_a = p;
    let mut at_b = q;
    let mut same: usize = 0;
    for i in (0..marks.len()).rev() {
        let x = newest(a, at_a).unwrap();
        let y = newest(b, at_b).unwrap();
        let m = mark(a, x, b, y);
        marks[i] = m;
        same += usize::from(m == SAME);
        at_a = x.start;
        at_b = y.start;
    }
    same
}

// Compares two logs that passed their checks, with so many records.
fn compare_all(
    a: &[u8],
    m: usize,
    b: &[u8],
    n: usize,
    marks: &mut [u8],
) -> Result<Compared, Refusal>
    requires { (served m ≡ counting (records_of kinds a.now)) × (served n ≡ counting (records_of kinds b.now)) }
    ensures { (answered_as counts result, marks.new) ≡ compareTo a.now b.now marks.old }
{
    let places = m.max(n);
    if marks.len() < places {
        return Err(Refusal::NoRoom);
    }
    let both = m.min(n);
    let p = back_over(a, a.len() - 8, m - both);
    let q = back_over(b, b.len() - 8, n - both);
    let same = mark_records(a, p, b, q, &mut marks[..both]);
    let past = if m < n { ONLY_B } else { ONLY_A };
    marks[both..places].fill(past);
    Ok(Compared { places, same })
}

// Compares two logs. A mark for each place, oldest first, goes to the start of the lent room; the answer is how many places there are, and
// at how many of them the records are the same.
pub fn compare(a: &[u8], b: &[u8], marks: &mut [u8]) -> Result<Compared, Refusal>
    ensures { (answered_as counts result, marks.new) ≡ compareTo a.now b.now marks.old }
{
    let m = check(a)?;
    let n = check(b)?;
    compare_all(a, m, b, n, marks)
}
