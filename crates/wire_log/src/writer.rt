// The writer of a log.
ghost use Rattle.std.specs.Prelude.{◌≡◌, [], ◌++◌, ◌+◌, ◌≤◌, length};
ghost use Rattle.refusal.specs.Refusals.{answered};
ghost use Rattle.refusal.specs.Room.{overlay, emit};
ghost use Rattle.wire_log.specs.Log.{recorded, kinds, record_bytes, closing, log_of};
ghost use Rattle.wire_log.specs.Writer.{append as appendTo};
ghost use Rattle.wire_log.specs.Private.{laid_after};

use crate::reader::{MOST, check, known};
use refusal::Refusal;
use refusal::laying::copy;

// Writes a record and the closing bytes after the records of a log, which end at `total`; `count` is the new number of records.
fn lay_record(buffer: &mut [u8], total: usize, kind: u8, body: &[u8], count: usize)
    requires { (count ≤ 65000) × (total + length body.now + 3 ≤ 65000) × (total + length body.now + 11 ≤ length buffer.old) }
    ensures { buffer.new ≡ overlay buffer.old total (record_bytes (recorded kind body.now) ++ closing count (total + length (record_bytes (recorded kind body.now)))) }
{
    let end = total + body.len();
    let size = body.len() as u16;
    let new_total = (end + 3) as u32;
    copy(&mut buffer[total..end], body);
    buffer[end] = kind;
    buffer[end + 1..end + 3].copy_from_slice(&size.to_be_bytes());
    buffer[end + 3..end + 7].copy_from_slice(&(count as u32).to_be_bytes());
    buffer[end + 7..end + 11].copy_from_slice(&new_total.to_be_bytes());
}

// Adds a record to a log whose count and total are known.
fn add_after(
    buffer: &mut [u8],
    count: usize,
    total: usize,
    kind: u8,
    body: &[u8],
) -> Result<usize, Refusal>
    requires { (count ≤ total) × (total ≤ 65000) }
    ensures { (answered result, buffer.new) ≡ laid_after kinds count total (recorded kind body.now) buffer.old }
{
    let n = body.len();
    known(kind, n)?;
    if MOST < n || MOST < total + n + 3 {
        return Err(Refusal::OutOfRange);
    }
    if buffer.len() < total + n + 11 {
        return Err(Refusal::NoRoom);
    }
    lay_record(buffer, total, kind, body, count + 1);
    Ok(total + n + 11)
}

// Adds one record to the log of `size` bytes at the start of the lent buffer, and answers its new length.
pub fn append(buffer: &mut [u8], size: usize, kind: u8, body: &[u8]) -> Result<usize, Refusal>
    ensures { (answered result, buffer.new) ≡ appendTo kinds buffer.old size (recorded kind body.now) }
{
    if buffer.len() < size {
        return Err(Refusal::NoRoom);
    }
    let count = check(&buffer[..size])?;
    add_after(buffer, count, size - 8, kind, body)
}

// Writes the log without records at the start of the lent buffer, and answers its length.
pub fn empty(buffer: &mut [u8]) -> Result<usize, Refusal>
    ensures { (answered result, buffer.new) ≡ emit (log_of []) buffer.old }
{
    if buffer.len() < 8 {
        return Err(Refusal::NoRoom);
    }
    buffer[..8].fill(0);
    Ok(8)
}
