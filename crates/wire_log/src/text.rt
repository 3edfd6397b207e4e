// The text that the program shift-log prints of a log.
ghost use Rattle.std.specs.Prelude.{◌≡◌, ◌+◌, ◌-◌, ◌*◌, ◌≤◌, ◌<◌, length, get_or, take, drop};
ghost use Rattle.refusal.specs.Room.{overlay};
ghost use Rattle.refusal.specs.Refusals.{number_of, served};
ghost use Rattle.wire_log.specs.Log.{recorded, kinds};
ghost use Rattle.wire_log.specs.Kinds.{number_of_kind};
ghost use Rattle.wire_log.specs.Check.{counting, records_of};
ghost use Rattle.wire_log.specs.Text.{word_of, hex_digit, line_of, refused_line, log_text, window};

use crate::Kind;
use crate::oldest::Found;
use crate::reader::{check, last};
use refusal::Refusal;

// By hand, since the library's {:X} writes through a formatter, and a line's bytes go into the lent room as they are.
fn hex_digit(d: u8) -> u8
    requires { d < 16 }
    ensures { result ≡ hex_digit d }
{
    if d < 10 { 48 + d } else { 55 + d }
}

// The word of a kind.
#[tactic(auto, unfolding(crate::specs::Text::word_of))]
fn word(kind: Kind) -> &'static [u8]
    ensures { result.now ≡ word_of (number_of_kind kind) }
{
    match kind {
        Kind::Request => b"request",
        Kind::Reply => b"reply",
        Kind::Silence => b"silence",
    }
}

// Lays bytes from a place of them on in the room from a place on, as much as fits, and answers the place after them. Room and places stand
// side by side: as fields of one struct each clause would name them through it, and be no plainer.
pub fn put_from(bytes: &[u8], skip: usize, out: &mut [u8], place: usize) -> usize
    ensures { (result ≡ place + length (take (length out.old - place) (drop skip bytes.now))) × (out.new ≡ overlay out.old place (take (length out.old - place) (drop skip bytes.now))) }
{
    if out.len() <= place || bytes.len() <= skip {
        return place;
    }
    let rest = &bytes[skip..];
    let n = rest.len().min(out.len() - place);
    let end = place + n;
    out[place..end].copy_from_slice(&rest[..n]);
    end
}

// Lays a record's line from a place of it on in the room from a place on, as much as fits, and answers the place after it.
fn put_line(kind: Kind, body: &[u8], skip: usize, out: &mut [u8], place: usize) -> usize
    requires { place ≤ length out.old }
    ensures { (result ≡ place + length (take (length out.old - place) (drop skip (line_of (recorded (number_of_kind kind) body.now))))) × (out.new ≡ overlay out.old place (take (length out.old - place) (drop skip (line_of (recorded (number_of_kind kind) body.now))))) }
{
    let word = word(kind);
    let mut next = put_from(word, skip, out, place);
    let past_word = skip.saturating_sub(word.len());
    // The bytes whose digits are all skipped take no turn of the loop, since a long line is laid in many parts.
    let skipped = body.len().min(past_word / 3);
    let mut left = past_word - 3 * skipped;
    for b in &body[skipped..] {
        if out.len() <= next {
            return next;
        }
        let hex = [b' ', hex_digit(*b / 16), hex_digit(*b % 16)];
        if left == 0 && 3 <= out.len() - next {
            // Three stores, where all three fit: a copy of the array waits for the stores that made it.
            out[next] = hex[0];
            out[next + 1] = hex[1];
            out[next + 2] = hex[2];
            next += 3;
        } else {
            next = put_from(&hex, left, out, next);
            left = left.saturating_sub(3);
        }
    }
    put_from(b"\n", left, out, next)
}

// Lays the part of the line of a refusal of the check from a place of it on at the start of the room, as much as fits, and answers how much.
pub fn put_refused(why: Refusal, from: usize, out: &mut [u8]) -> usize
    ensures { (result, out.new) ≡ window (refused_line (number_of why)) from out.old }
{
    let n = why.number();
    let mut line = *b"refused 00\n";
    line[8] += n / 10;
    line[9] += n % 10;
    put_from(&line, from, out, 0)
}

// The lines of a log that passed its check.
fn put_lines(file: &[u8], count: usize, from: usize, out: &mut [u8]) -> usize
    requires { served count ≡ counting (records_of kinds file.now) }
    ensures { (result, out.new) ≡ window (log_text kinds file.now) from out.old }
{
    let mut rest = &file[..file.len() - 8];
    let mut next: usize = 0;
    let mut left = from;
    for _ in 0..count {
        if out.len() <= next {
            break;
        }
        let Ok(newest) = last(rest) else {
            break;
        };
        let Found { kind, start, size } = newest;
        next = put_line(kind, &rest[start..start + size], left, out, next);
        left = left.saturating_sub(word(kind).len() + 3 * size + 1);
        rest = &rest[..start];
    }
    next
}

// Lays the part of a log's text from a place of it on at the start of the room, as much as fits, and answers how much. Of a file that is
// no log the text is one line, its refusal.
pub fn text(file: &[u8], from: usize, out: &mut [u8]) -> usize
    ensures { (result, out.new) ≡ window (log_text kinds file.now) from out.old }
{
    match check(file) {
        Err(why) => put_refused(why, from, out),
        Ok(count) => put_lines(file, count, from, out),
    }
}
