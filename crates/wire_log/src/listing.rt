// The list of a log, newest first.
ghost use Rattle.std.specs.Prelude.{◌≡◌, ◌*◌, ◌≤◌, length, take, drop};
ghost use Rattle.refusal.specs.Refusals.{answered};
ghost use Rattle.refusal.specs.Room.{overlay};
ghost use Rattle.wire_log.specs.Log.{kinds};
ghost use Rattle.wire_log.specs.Listing.{rows_of, numbers_of, list as list_of};
ghost use Rattle.wire_log.specs.Private.{records_in, shown};

use crate::reader::{check, last};
use refusal::Refusal;

// The bytes of the older records, when so many of the newest are left out.
pub(crate) fn older(records: &[u8], skip: usize) -> &[u8]
    ensures front { result.now ≡ take (length result.now) records.now }
    ensures left { shown (records_in kinds result.now) ≡ drop skip (shown (records_in kinds records.now)) }
{
    let mut rest = records;
    for _ in 0..skip {
        let Ok(newest) = last(rest) else {
            break;
        };
        rest = &rest[..newest.start];
    }
    rest
}

// Writes the rows of so many records, the newest of them.
fn put_rows(records: &[u8], n: usize, rows: &mut [u16])
    requires { (length records.now ≤ 65000) × (n ≤ length (shown (records_in kinds records.now))) × (3 * n ≤ length rows.old) }
    ensures { rows.new ≡ overlay rows.old 0 (numbers_of (take n (rows_of (shown (records_in kinds records.now))))) }
{
    let mut rest = records;
    for i in 0..n {
        let Ok(newest) = last(rest) else {
            return;
        };
        let kind = u8::from(newest.kind);
        // Three stores: a row copied as an array of three took twice the time for a whole list.
        rows[3 * i] = u16::from(kind);
        rows[3 * i + 1] = newest.start as u16;
        rows[3 * i + 2] = newest.size as u16;
        rest = &rest[..newest.start];
    }
}

// The rows of a log, newest first, from the record that `skip` others are newer than: kind, where the body starts, and its length. As
// many as fit are laid at the start of the lent room; the answer is how many.
pub fn list(file: &[u8], skip: usize, rows: &mut [u16]) -> Result<usize, Refusal>
    ensures { (answered result, rows.new) ≡ list_of kinds file.now skip rows.old }
{
    let count = check(file)?;
    if count <= skip {
        return Ok(0);
    }
    if rows.len() < 3 {
        return Err(Refusal::NoRoom);
    }
    let n = (rows.len() / 3).min(count - skip);
    let records = older(&file[..file.len() - 8], skip);
    put_rows(records, n, rows);
    Ok(n)
}
