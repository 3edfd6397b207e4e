// The shift log in lent files: what crossed the wire, newest first.
ghost use Rattle.std.specs.Prelude.{◌≡◌, []};
ghost use Rattle.refusal.specs.Room.{emit};
ghost use Rattle.wire_log.specs.Log.{recorded, kinds, log_of};
ghost use Rattle.wire_log.specs.Check.{counting, records_of};
ghost use Rattle.wire_log.specs.Listing.{list};
ghost use Rattle.wire_log.specs.Writer.{append};
ghost use Rattle.compare.specs.Compare.{compare};
ghost use Rattle.mfc.specs.Answers.{counted, compared, written, beside};

use crate::answers::{MfcCompared, MfcWords, MfcWritten};

// Lays the log without records at the start of the lent file, and answers its length. Refusals: 1 where the file has not that room.
#[unsafe(no_mangle)]
pub extern "C" fn mfc_log_empty(file: &mut [u8]) -> MfcWritten
    ensures { (result, file.new) ≡ beside written (emit (log_of []) file.old) }
{
    wire_log::writer::empty(file).into()
}

// Adds a record of a kind of MFC_LOG_.. and a body of n bytes to the log of that length at the start of the lent file, and answers the
// log's new length, 3 + n more. Refusals, in their order: 1 where the length is past the lent file; 20 to 23 as for mfc_log_check; 22
// where the kind is none, or a silence mark has a body; 12 where the records would take over 65,000 bytes: begin the next log, and cut a
// body of over 64,997 bytes, which is 12 in every log; 1 where the file has not the room.
#[unsafe(no_mangle)]
pub extern "C" fn mfc_log_append(
    file: &mut [u8],
    length: usize,
    kind: u8,
    body: &[u8],
) -> MfcWritten
    ensures { (result, file.new) ≡ beside written (append kinds file.old length (recorded kind body.now)) }
{
    wire_log::writer::append(file, length, kind, body).into()
}

// Checks a log, and answers how many records it has. Refusals, in their order: 20 where the file has under 8 bytes, or its total is not
// the number of bytes before the last eight, or is over 65,000; then, at the newest faulty record, 21 where the trailer is cut short or
// points before the start, else 22 where the kind is none, or a silence mark has a body; 23 where the count is not the number of records.
#[unsafe(no_mangle)]
pub extern "C" fn mfc_log_check(file: &[u8]) -> MfcWords
    ensures { result ≡ counted (counting (records_of kinds file.now)) }
{
    wire_log::reader::check(file).into()
}

// Lists a log newest first, from the record that skip others are newer than: MFC_LOG_ROW numbers a row, which are the kind, where the
// body starts in the file, and its length. As many rows as fit are laid at the start of rows, an array of room numbers; the answer is
// how many, 0 past the oldest record. Refusals, in their order: 20 to 23 as for mfc_log_check, and nothing is listed of such a file; 1
// where there is a row to lay and no room for one.
#[unsafe(no_mangle)]
pub extern "C" fn mfc_log_list(file: &[u8], skip: usize, rows: &mut [u16]) -> MfcWords
    ensures { (result, rows.new) ≡ beside counted (list kinds file.now skip rows.old) }
{
    wire_log::listing::list(file, skip, rows).into()
}

// Compares two logs record by record, and lays a mark of MFC_LOG_SAME, MFC_LOG_DIFFER, MFC_LOG_ONLY_A or MFC_LOG_ONLY_B for each place at
// the start of marks, the oldest record's at 0; MFC_LOG_RECORDS bytes are enough for any two logs. Records are the same where kind and
// body are. Two logs have the same records exactly if as many places are the same as there are. Refusals, in their order: 20 to 23 as for
// mfc_log_check, of the first log and then of the second; 1 where the room has fewer bytes than there are places.
#[unsafe(no_mangle)]
pub extern "C" fn mfc_log_compare(a: &[u8], b: &[u8], marks: &mut [u8]) -> MfcCompared
    ensures { (result, marks.new) ≡ beside compared (compare a.now b.now marks.old) }
{
    compare::compare(a, b, marks).into()
}
