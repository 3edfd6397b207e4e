// The lines that the program puts out of a stream's items.
#![tactic(auto)]

ghost use Rattle.std.specs.Prelude.{◌≡◌, true, ◌+◌, ◌-◌, ◌≤◌, min, length, get_or, take};
ghost use Rattle.refusal.specs.Refusals.{served, paper, answered, is_placed};
ghost use Rattle.refusal.specs.Room.{overlay, emit};
ghost use Rattle.receiver.specs.Record.{held, in_range};
ghost use Rattle.receiver.specs.Calls.{paper_answer};
ghost use Rattle.lines.specs.Text.{decimal, field, frame_line, placed_field, refused_line, end_line};
ghost use Rattle.lines.specs.Program.{line_of, limit};
ghost use Rattle.lines.specs.Listing.{paper_listing, paper_filled, fill_of};
ghost use Rattle.lines.specs.Private.{said_line, paper_listed, list_of};

use arrayvec::ArrayVec;
use receiver::Receiver;
use refusal::Refusal;

// The most bytes that are read.
const LIMIT: u32 = 4_294_967_295;

// The bytes that hold every line.
const LINE: usize = 24;

// Writes bytes from a place on, and answers the place after them.
#[tactic(auto, unfolding(refusal::specs::Room::overlay))]
fn put(bytes: &[u8], out: &mut [u8], place: usize) -> usize
    requires { place + length bytes.now ≤ length out.old }
    ensures { (result ≡ place + length bytes.now) × (out.new ≡ overlay out.old place bytes.now) }
{
    let end = place + bytes.len();
    out[place..end].copy_from_slice(bytes);
    end
}

// Writes a number in decimal. In place, as all of a line: put together elsewhere and then copied, a line takes twice the time.
fn put_decimal(n: u32, out: &mut [u8], place: usize) -> usize
    requires { place + length (decimal n) ≤ length out.old }
    ensures { (result ≡ place + length (decimal n)) × (out.new ≡ overlay out.old place (decimal n)) }
{
    if n < 10 {
        out[place] = b'0' + n as u8;
        return place + 1;
    }
    let last = put_decimal(n / 10, out, place);
    out[last] = b'0' + (n % 10) as u8;
    last + 1
}

// A number in decimal that can be copied: the first `count` of ten bytes.
#[derive(Clone, Copy, Debug, PartialEq, Eq)]
pub struct Numeral {
    pub bytes: [u8; 10],
    pub count: usize,
}

pub fn digits_in_bytes(n: u32) -> Numeral
    ensures { (take result.count result.bytes ≡ decimal n) × (result.count ≡ length (decimal n)) × (result.count ≤ length result.bytes) }
{
    let mut bytes = [0u8; 10];
    let count = put_decimal(n, &mut bytes, 0);
    Numeral { bytes, count }
}

// A number in decimal.
pub fn digits(n: u32) -> ArrayVec<u8, 10>
    ensures { result.items ≡ decimal n }
{
    let numeral = digits_in_bytes(n);
    let mut text = ArrayVec::new();
    let _ = text.try_extend_from_slice(&numeral.bytes[..numeral.count]);
    text
}

// Writes a number and the byte after it.
fn put_field(n: u32, after: u8, out: &mut [u8], place: usize) -> usize
    requires { place + length (field n after) ≤ length out.old }
    ensures { (result ≡ place + length (field n after)) × (out.new ≡ overlay out.old place (field n after)) }
{
    let last = put_decimal(n, out, place);
    out[last] = after;
    last + 1
}

fn put_frame(address: u8, command: u8, l: u8, out: &mut [u8], place: usize) -> usize
    requires { place + 24 ≤ length out.old }
    ensures { (result ≡ place + length (frame_line address command l)) × (out.new ≡ overlay out.old place (frame_line address command l)) }
{
    let first = put(b"frame ", out, place);
    let second = put_field(u32::from(address), b' ', out, first);
    let third = put_field(u32::from(command), b' ', out, second);
    put_field(u32::from(l), b'\n', out, third)
}

// Whether the refusal with the number has a place in its stretch.
fn is_placed(n: u8) -> bool
    ensures { result ≡ is_placed n }
{
    n == 3 || n == 4
}

// Writes a refusal's number and its place in the stretch.
fn put_placed(n: u8, at: u16, out: &mut [u8], place: usize) -> usize
    requires { place + 16 ≤ length out.old }
    ensures { (result ≡ place + length (placed_field n at)) × (out.new ≡ overlay out.old place (placed_field n at)) }
{
    let first = put_field(u32::from(n), b' ', out, place);
    let second = put(b"at ", out, first);
    put_field(u32::from(at), b'\n', out, second)
}

fn put_refused(why: Refusal, out: &mut [u8], place: usize) -> usize
    requires { place + 24 ≤ length out.old }
    ensures { (result ≡ place + length (refused_line (paper why))) × (out.new ≡ overlay out.old place (refused_line (paper why))) }
{
    let first = put(b"refused ", out, place);
    let n = why.number();
    if is_placed(n) {
        return put_placed(n, why.place(), out, first);
    }
    put_field(u32::from(n), b'\n', out, first)
}

fn put_end(n: u32, out: &mut [u8]) -> usize
    requires { 24 ≤ length out.old }
    ensures { (result ≡ length (end_line n)) × (out.new ≡ overlay out.old 0 (end_line n)) }
{
    let first = put(b"end ", out, 0);
    put_field(n, b'\n', out, first)
}

fn byte_at(bytes: &[u8], i: usize) -> u8
    ensures { result ≡ get_or bytes.now i 0 }
{
    bytes.get(i).copied().unwrap_or(0)
}

// The line of a frame by its body.
#[tactic(auto, unfolding(crate::specs::Program::line_of))]
fn put_body(body: &[u8], out: &mut [u8], place: usize) -> usize
    requires { place + 24 ≤ length out.old }
    ensures { (result ≡ place + length (line_of (served body.now))) × (out.new ≡ overlay out.old place (line_of (served body.now))) }
{
    put_frame(
        byte_at(body, 0),
        byte_at(body, 1),
        byte_at(body, 2),
        out,
        place,
    )
}

// The line of what a feeding call said, none where that is nothing; answers the place after it.
#[tactic(auto, using(refusal::proofs::Room::overlay_nothing), unfolding(crate::specs::Program::line_of))]
fn put_answer(
    answer: Result<Option<usize>, Refusal>,
    frame: &[u8],
    out: &mut [u8],
    place: usize,
) -> usize
    requires { place + 24 ≤ length out.old }
    ensures { (result ≡ place + length (said_line (paper_answer answer) frame.now)) × (out.new ≡ overlay out.old place (said_line (paper_answer answer) frame.now)) }
{
    match answer {
        Ok(None) => place,
        Ok(Some(n)) => put_body(&frame[..n.min(frame.len())], out, place),
        Err(why) => put_refused(why, out, place),
    }
}

// Whether a record is within its ranges: asking for its noise count is refused where it is not.
#[tactic(auto, unfolding(receiver::specs::Calls::noise_of))]
fn in_range(r: Receiver, store: &[u8]) -> bool
    ensures { result ≡ in_range (held r store.now) }
{
    receiver::noise(r, store).is_ok()
}

#[derive(Clone, Copy)]
struct Listed {
    receiver: Receiver,
    taken: usize,
    filled: usize,
}

// Hands a piece to the receiver, again and again, and lays the lines of the items one after the other from a place on: until the piece
// is used up, or under 24 bytes of room are left. A turn passes the bytes that `feed` took, no fixed number.
fn list(from: Receiver, store: &mut [u8], piece: &[u8], out: &mut [u8], place: usize) -> Listed
    requires { (in_range (held from store.old) ≡ true) × (place ≤ length out.old) }
    ensures { paper_listed result store.new out.new ≡ list_of (held from store.old) piece.now out.old place }
{
    let mut frame = [0u8; 260];
    let mut r = from;
    let mut taken: usize = 0;
    let mut filled = place;
    while taken < piece.len() {
        if out.len() - filled < LINE {
            break;
        }
        let fed = receiver::feed(r, store, false, &piece[taken..], &mut frame);
        let next = fed.receiver;
        let more = fed.taken;
        r = next;
        taken += more;
        filled = put_answer(fed.answer, &frame, out, filled);
    }
    Listed {
        receiver: r,
        taken,
        filled,
    }
}

// How far a listing is: the receiver, and how many bytes may still be read.
#[derive(Clone, Copy, Debug, PartialEq, Eq)]
pub struct Listing {
    pub receiver: Receiver,
    pub left: u32,
}

// A listing at its start.
pub fn begin(fresh: Receiver) -> Listing
    ensures { result ≡ record { receiver = fresh; left = limit } }
{
    Listing {
        receiver: fresh,
        left: LIMIT,
    }
}

// How many bytes may be read into a room of a size.
pub fn wanted(left: u32, size: usize) -> usize
    ensures { result ≡ min left size }
{
    size.min(left as usize)
}

// What a call of `fill` gives: how far the listing is, the bytes taken, and the place in the room after the text; or why it is refused.
#[derive(Clone, Copy, Debug, PartialEq, Eq)]
pub struct Filled {
    pub listing: Listing,
    pub taken: usize,
    pub said: Result<usize, Refusal>,
}

// Takes bytes of a piece, and lays the lines of their items in the lent room from a place on: until the piece is used up, no more may be
// read, or under 24 bytes of room are left. With under 24 bytes from the start it is refused with 1.
pub fn fill(l: Listing, store: &mut [u8], piece: &[u8], out: &mut [u8], place: usize) -> Filled
    ensures { paper_filled result store.new out.new ≡ fill_of (paper_listing l store.old) piece.now out.old place }
{
    let receiver = l.receiver;
    let left = l.left;
    if !in_range(receiver, store) {
        return Filled {
            listing: l,
            taken: 0,
            said: Err(Refusal::BadRecord),
        };
    }
    if out.len().saturating_sub(place) < LINE {
        return Filled {
            listing: l,
            taken: 0,
            said: Err(Refusal::NoRoom),
        };
    }
    let n = wanted(left, piece.len());
    let listed = list(receiver, store, &piece[..n], out, place);
    let next = listed.receiver;
    let done = listed.taken;
    let filled = listed.filled;
    Filled {
        listing: Listing {
            receiver: next,
            left: left - done as u32,
        },
        taken: done,
        said: Ok(filled),
    }
}

// Lays the last line, with the bytes read, at the start of the lent room.
pub fn end(l: Listing, out: &mut [u8]) -> Result<usize, Refusal>
    ensures { (answered result, out.new) ≡ emit (end_line (limit - l.left)) out.old }
{
    let mut text = [0u8; LINE];
    let n = put_end(LIMIT - l.left, &mut text);
    if out.len() < n {
        return Err(Refusal::NoRoom);
    }
    Ok(put(&text[..n], out, 0))
}
