// Frames on the wire: checksum, byte stuffing, the checks of a body, and the writer of a frame from its parts.
#![tactic(auto)]

ghost use Rattle.std.specs.Prelude.{◌≡◌, cond, not, [], ◌∷◌, ◌++◌, ◌+◌, ◌-◌, ◌/◌, ◌%◌, ◌≤◌, ◌<◌, ltb, length, Ok, Err};
ghost use Rattle.std.specs.Int.Bits.{bit_xor};
ghost use Rattle.refusal.specs.Refusals.{answered, answered_as};
ghost use Rattle.refusal.specs.Room.{overlay};
ghost use Rattle.shdlc.specs.Checksum.{sum, checksum_of};
ghost use Rattle.shdlc.specs.Stuffing.{stuff_byte, stuff};
ghost use Rattle.shdlc.specs.Body.{shortest, longest, check_body};
ghost use Rattle.shdlc.specs.Frame.{put_at, frame_of, write_frame};
ghost use Rattle.shdlc.specs.Numbers.{number_of_kind, kind_numbered};

use crate::runs::put_runs;
use refusal::Refusal;

pub mod runs;

// Which frames are expected: requests (MOSI) or replies (MISO).
#[derive(Clone, Copy, Debug, PartialEq, Eq)]
pub enum Kind {
    Request,
    Reply,
}

// A kind in a record's byte.
impl From<Kind> for u8 {
    ghost from_gives = { λ kind n. n ≡ number_of_kind kind };

    fn from(kind: Kind) -> u8 {
        match kind {
            Kind::Request => 0,
            Kind::Reply => 1,
        }
    }
}

impl TryFrom<u8> for Kind {
    type Error = Refusal;

    ghost try_from_gives = { λ n result. result ≡ kind_numbered n };

    fn try_from(n: u8) -> Result<Kind, Refusal> {
        match n {
            0 => Ok(Kind::Request),
            1 => Ok(Kind::Reply),
            _ => Err(Refusal::BadRecord),
        }
    }
}

impl Kind {
    // How short a body may be; L is the byte before the last of these but one.
    fn shortest(self) -> usize
        ensures { (result ≡ shortest self) × (4 ≤ result) × (result < 6) }
    {
        match self {
            Kind::Request => 4,
            Kind::Reply => 5,
        }
    }

    fn longest(self) -> usize
        ensures { result ≡ longest self }
    {
        match self {
            Kind::Request => 259,
            Kind::Reply => 260,
        }
    }
}

// The sum of the bytes on top of another, modulo 256.
fn sum_on(start: u8, bytes: &[u8]) -> u8
    ensures { result ≡ (start + sum bytes.now) % 256 }
{
    let mut total = start;
    for b in bytes {
        total = total.wrapping_add(*b);
    }
    total
}

// The checksum of the bytes of a body before it.
#[tactic(auto, unfolding(crate::specs::Checksum::checksum_of))]
pub fn checksum(bytes: &[u8]) -> u8
    ensures { result ≡ checksum_of bytes.now }
{
    255 - sum_on(0, bytes)
}

// The checks 5, 6, 7 and 8 over an unstuffed body, checksum included. L comes before the checksum.
#[tactic(auto, using(crate::proofs::Body::length_refused))]
pub fn check_body(kind: Kind, body: &[u8]) -> Result<(), Refusal>
    ensures { answered_as (λ _. body.now) result ≡ check_body kind body.now }
{
    let n = body.len();
    if kind.longest() < n {
        return Err(Refusal::BodyTooLong);
    }
    let least = kind.shortest();
    if n < least {
        return Err(Refusal::BodyTooShort);
    }
    if usize::from(body[least - 2]) != n - least {
        return Err(Refusal::WrongLength);
    }
    let last = n - 1;
    if body[last] != checksum(&body[..last]) {
        return Err(Refusal::WrongChecksum);
    }
    Ok(())
}

// Whether b is sent after a 7D, with 20 hex added to it by exclusive or.
#[tactic(auto, using(crate::proofs::Stuffing::sent_by_ranges))]
pub(crate) fn is_escaped(b: u8) -> bool
    ensures { stuff_byte b ≡ cond result (0x7D ∷ bit_xor b 0x20 ∷ []) (b ∷ []) }
{
    // Not `matches!(b, 0x11 | 0x13 | 0x7D | 0x7E)`: that is not tested for many bytes at once (`has_escaped`), and a text of 250 bytes takes
    // 260 ns to write in place of 80.
    (b | 2) == 0x13 || b == 0x7D || b == 0x7E
}

// How many bytes b takes once stuffed.
#[tactic(auto, using(crate::proofs::Stuffing::byte_size))]
fn stuffed_size(b: u8) -> usize
    ensures { result ≡ length (stuff_byte b) }
{
    if is_escaped(b) { 2 } else { 1 }
}

// How many bytes the bytes take once stuffed.
pub fn stuffed_len(bytes: &[u8]) -> usize
    ensures { result ≡ length (stuff bytes.now) }
{
    let mut n: usize = 0;
    for b in bytes {
        n += stuffed_size(*b);
    }
    n
}

// Writes b, stuffed, at a place, and answers the place after it.
fn put_byte(out: &mut [u8], place: usize, b: u8) -> usize
    requires { place + length (stuff_byte b) ≤ length out.old }
    ensures { (result ≡ place + length (stuff_byte b)) × (out.new ≡ overlay out.old place (stuff_byte b)) }
{
    // Most bytes go as they are: stored first, they need no jump.
    out[place] = b;
    if is_escaped(b) {
        out[place] = 0x7D;
        let next = place + 1;
        out[next] = b ^ 0x20;
        return next + 1;
    }
    place + 1
}

// Whether two bytes are left from a place on.
fn has_two(room: usize, place: usize) -> bool
    ensures { result ≡ not (ltb room (place + 2)) }
{
    2 <= room && place <= room - 2
}

// The same at any place of any room; refused where the room is too short.
#[tactic(auto, using(crate::proofs::Stuffing::byte_size))]
pub fn put_at(out: &mut [u8], place: usize, b: u8) -> Result<usize, Refusal>
    ensures { (answered result, out.new) ≡ put_at out.old place b }
{
    // Asked first, since two bytes hold any byte: where a caller's room is known the rest is left out.
    if has_two(out.len(), place) {
        return Ok(put_byte(out, place, b));
    }
    if is_escaped(b) {
        return Err(Refusal::NoRoom);
    }
    if out.len() <= place {
        return Err(Refusal::NoRoom);
    }
    Ok(put_byte(out, place, b))
}

// Where the next byte goes, and the sum of those before it, modulo 256. The room is lent beside it: as a field it would be `self.old.out.now`
// and `self.new.out.now` in each clause, and no plainer.
#[derive(Clone, Copy)]
struct Laid {
    place: usize,
    total: u8,
}

impl Laid {
    // Writes the bytes, stuffed, and sums them on top.
    fn put_stuffed(self, out: &mut [u8], bytes: &[u8]) -> Laid
        requires { self.place + length (stuff bytes.now) ≤ length out.old }
        ensures { (result.place ≡ self.place + length (stuff bytes.now)) × (result.total ≡ (self.total + sum bytes.now) % 256) × (out.new ≡ overlay out.old self.place (stuff bytes.now)) }
    {
        let mut place = self.place;
        let mut total = self.total;
        for b in bytes {
            total = total.wrapping_add(*b);
            place = put_byte(out, place, *b);
        }
        Laid { place, total }
    }

    // The same of a text, by the runs of plain bytes in it.
    fn put_text(self, out: &mut [u8], bytes: &[u8]) -> Laid
        requires { self.place + length (stuff bytes.now) ≤ length out.old }
        ensures { (result.place ≡ self.place + length (stuff bytes.now)) × (result.total ≡ (self.total + sum bytes.now) % 256) × (out.new ≡ overlay out.old self.place (stuff bytes.now)) }
    {
        let place = put_runs(out, self.place, bytes);
        let total = sum_on(self.total, bytes);
        Laid { place, total }
    }

    // Ends a frame with the checksum, stuffed, and a 7E, and answers the place after it.
    fn finish(self, out: &mut [u8]) -> usize
        requires { self.place + length (stuff_byte (255 - self.total)) < length out.old }
        ensures { (result ≡ self.place + length (stuff_byte (255 - self.total) ++ (0x7E ∷ []))) × (out.new ≡ overlay out.old self.place (stuff_byte (255 - self.total) ++ (0x7E ∷ []))) }
    {
        let last = put_byte(out, self.place, 255 - self.total);
        out[last] = 0x7E;
        last + 1
    }
}

// Whether a byte is sent after a 7D. All bytes are looked at: without an early end the compiler takes many at once, if what was found is a
// number: with a bool a text of 250 bytes takes 123 ns to write in place of 80.
pub(crate) fn has_escaped(bytes: &[u8]) -> bool
    ensures { result ≡ ltb (length bytes.now) (length (stuff bytes.now)) }
{
    let mut found: u8 = 0;
    for b in bytes {
        found |= u8::from(is_escaped(*b));
    }
    found != 0
}

// Whether the room is enough for the frame of so many bytes, whatever they are.
fn is_roomy(first: usize, rest: usize, room: usize) -> bool
    ensures { result ≡ not (ltb (room / 2) (first + rest + 2)) }
{
    let half = room / 2;
    2 <= half && first <= half - 2 && rest <= half - 2 - first
}

// Whether the frame of a body in three parts is longer than the room. It counts the bytes only where they might not fit.
fn is_short(first: &[u8], second: &[u8], third: &[u8], room: usize) -> bool
    ensures { result ≡ ltb room (length (frame_of (first.now ++ (second.now ++ third.now)))) }
{
    if is_roomy(first.len(), second.len() + third.len(), room) {
        return false;
    }
    let total = sum_on(sum_on(sum_on(0, first), second), third);
    let one = room.saturating_sub(stuffed_len(first));
    let two = one.saturating_sub(stuffed_len(second));
    let three = two.saturating_sub(stuffed_len(third));
    three < stuffed_size(255 - total) + 2
}

// Writes the frame of a body in three parts, without its checksum, at the start of the lent room, and answers its length; refused where the
// room is too short. The second part is the text, if the body has one: it goes by runs, the other two, of a few bytes, byte by byte.
pub fn lay_parts(
    first: &[u8],
    second: &[u8],
    third: &[u8],
    out: &mut [u8],
) -> Result<usize, Refusal>
    ensures { (answered result, out.new) ≡ write_frame (first.now ++ (second.now ++ third.now)) out.old }
{
    if is_short(first, second, third, out.len()) {
        return Err(Refusal::NoRoom);
    }
    out[0] = 0x7E;
    let opened = Laid { place: 1, total: 0 };
    let a = opened.put_stuffed(out, first);
    let b = a.put_text(out, second);
    let c = b.put_stuffed(out, third);
    Ok(c.finish(out))
}
