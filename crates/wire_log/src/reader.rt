// The check of a log, from its end to its start.
ghost use Rattle.std.specs.Prelude.{◌≡◌, ◌-◌, ◌≤◌, length, take, drop, true, false, MatchResult};
ghost use Rattle.refusal.specs.Refusals.{answered, answered_as};
ghost use Rattle.payload.specs.Field.{big};
ghost use Rattle.wire_log.specs.Log.{kinds};
ghost use Rattle.wire_log.specs.Check.{counting, records_of};
ghost use Rattle.wire_log.specs.Kinds.{number_of_kind};
ghost use Rattle.wire_log.specs.Listing.{row_of};
ghost use Rattle.wire_log.specs.Private.{last_in, records_in};

use crate::Kind;
use crate::oldest::Found;
use refusal::Refusal;

// Kind 1, request-side bytes. C has the three numbers by name (mfc::sizes), and append takes one of C.
pub const REQUEST_SIDE: u8 = 1;

// Kind 2, reply-side bytes.
pub const REPLY_SIDE: u8 = 2;

// Kind 3, a silence mark.
pub const SILENCE_MARK: u8 = 3;

// The most bytes that the records of a log take together.
pub(crate) const MOST: usize = 65000;

// The kind of that number, with a body of that length: 22 where there is none.
#[tactic(auto, unfolding(crate::specs::Log::kinds))]
pub(crate) fn known(kind: u8, size: usize) -> Result<Kind, Refusal>
    ensures { MatchResult result (λ known. (number_of_kind known ≡ kind) × (kinds kind size ≡ true)) (λ why. (why ≡ Refusal.BadKind) × (kinds kind size ≡ false)) }
{
    let known = Kind::try_from(kind)?;
    if known == Kind::Silence && size != 0 {
        return Err(Refusal::BadKind);
    }
    Ok(known)
}

// The body length that the last two bytes say. Few bodies are over 255 bytes: for the others the high byte is only compared with 0, and the
// low one read behind that test, so that the place of the next record does not wait for the high one.
fn size_said(records: &[u8]) -> usize
    requires { 2 ≤ length records.now }
    ensures { result ≡ big (take 2 (drop (length records.now - 2) records.now)) }
{
    let n = records.len();
    if records[n - 2] == 0 {
        return usize::from(records[n - 1]);
    }
    let size = payload::field_at::<u16>(records, n - 2).unwrap();
    usize::from(size)
}

// The record that ends the bytes, or what is wrong with it.
pub(crate) fn last(records: &[u8]) -> Result<Found, Refusal>
    ensures { answered_as row_of result ≡ last_in kinds records.now }
{
    let n = records.len();
    if n < 3 {
        return Err(Refusal::BadTrailer);
    }
    let size = size_said(records);
    if n - 3 < size {
        return Err(Refusal::BadTrailer);
    }
    let kind = known(records[n - 3], size)?;
    let start = n - 3 - size;
    Ok(Found { kind, start, size })
}

// How many records the bytes are. A turn of the loop leaves the newest out, whose size the bytes say.
fn count(records: &[u8]) -> Result<usize, Refusal>
    ensures { answered result ≡ counting (records_in kinds records.now) }
{
    let mut rest = records;
    let mut count: usize = 0;
    while !rest.is_empty() {
        let newest = last(rest)?;
        rest = &rest[..newest.start];
        count += 1;
    }
    Ok(count)
}

// The check of a log: that its records tile the file, and that their number is the count, which is the answer.
pub fn check(file: &[u8]) -> Result<usize, Refusal>
    ensures { answered result ≡ counting (records_of kinds file.now) }
{
    let n = file.len();
    if n < 8 {
        return Err(Refusal::BadTotal);
    }
    let total = payload::field_at::<u32>(file, n - 4)? as usize;
    if total != n - 8 {
        return Err(Refusal::BadTotal);
    }
    if MOST < total {
        return Err(Refusal::BadTotal);
    }
    let count = count(&file[..total])?;
    let said = payload::field_at::<u32>(file, n - 8)? as usize;
    if count != said {
        return Err(Refusal::WrongCount);
    }
    Ok(count)
}
