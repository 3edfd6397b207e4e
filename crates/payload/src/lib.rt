// The typed fields of a payload: big-endian numbers of 1, 2 or 4 bytes at a place, read and written, and a reader that holds the place.
#![tactic(auto)]

ghost use Rattle.std.specs.Prelude.{◌≡◌};
ghost use Rattle.refusal.specs.Refusals.{answered, answered_as};
ghost use Rattle.payload.specs.Field.{bytes_in, laid_at, taken_at, put_at};

use refusal::Refusal;

mod fields;

pub use fields::{Field, Width};

// The field at a place of a payload: its number, or 12 past the end.
pub fn field_at<T: Field>(payload: &[u8], place: usize) -> Result<T, Refusal>
    ensures { answered_as T.number result ≡ (taken_at payload.now place (bytes_in T.WIDTH)).0 }
{
    let Some(bytes) = payload.get(place..) else {
        return Err(Refusal::OutOfRange);
    };
    T::first_in(bytes).ok_or(Refusal::OutOfRange)
}

// The place after the field at a place: the place itself where the field ends past the payload's end.
#[tactic(auto, using(crate::proofs::At::width_pos), unfolding(crate::specs::Field::taken_at))]
pub fn next_place(payload: &[u8], place: usize, width: Width) -> usize
    ensures { result ≡ (taken_at payload.now place (bytes_in width)).1 }
{
    let size = usize::from(width);
    if payload.len().saturating_sub(place) < size {
        return place;
    }
    place + size
}

// Writes bytes at a place of the lent room, and answers the place after them: 1 where the room ends before.
#[tactic(auto, unfolding(refusal::specs::Room::overlay))]
fn put_bytes<const N: usize>(out: &mut [u8], place: usize, bytes: [u8; N]) -> Result<usize, Refusal>
    ensures { (answered result, out.new) ≡ laid_at out.old place bytes.entry }
{
    let room = out.len();
    if room < N || room - N < place {
        return Err(Refusal::NoRoom);
    }
    let end = place + N;
    out[place..end].copy_from_slice(&bytes);
    Ok(end)
}

// Writes a field at a place of the lent room, and answers the place after it: 12 for a number that the width does not hold, 1 where
// the room ends before the field.
#[tactic(auto, using(crate::proofs::Big::big_endian_is), unfolding(crate::specs::Field::put_at, crate::specs::Field::big_endian))]
pub fn put(out: &mut [u8], place: usize, n: u32, width: Width) -> Result<usize, Refusal>
    ensures { (answered result, out.new) ≡ put_at out.old place (bytes_in width) n }
{
    match width {
        Width::One => {
            let byte = u8::try_from(n).or(Err(Refusal::OutOfRange))?;
            put_bytes(out, place, byte.to_be_bytes())
        }
        Width::Two => {
            let half = u16::try_from(n).or(Err(Refusal::OutOfRange))?;
            put_bytes(out, place, half.to_be_bytes())
        }
        Width::Four => put_bytes(out, place, n.to_be_bytes()),
    }
}

// A reader: a payload and the place of its next field.
#[derive(Clone, Copy, Debug, PartialEq, Eq)]
pub struct Reader<'a> {
    pub payload: &'a [u8],
    pub place: usize,
}

impl<'a> Reader<'a> {
    // The reader of a payload, at its first field.
    pub fn new(payload: &'a [u8]) -> Reader<'a>
        ensures { (result.payload ≡ payload.entry) × (result.place ≡ 0) }
    {
        Reader { payload, place: 0 }
    }

    // Takes the reader's next field: its number, and the place moves on; past the end 12, and the place stays.
    pub fn take<T: Field>(&mut self) -> Result<T, Refusal>
        ensures { ((answered_as T.number result, self.new.place) ≡ taken_at self.old.payload.now self.old.place (bytes_in T.WIDTH)) × (self.new.payload ≡ self.old.payload) }
    {
        let place = self.place;
        self.place = next_place(self.payload, place, T::WIDTH);
        field_at(self.payload, place)
    }
}

// The first field of a payload, taken by a reader. Its parameters are plain, so that a caller's proof has no reader in it.
pub fn first<T: Field>(payload: &[u8]) -> Result<T, Refusal>
    ensures { answered_as T.number result ≡ (taken_at payload.now 0 (bytes_in T.WIDTH)).0 }
{
    Reader::new(payload).take()
}

// The field of four bytes after the first of one, the subcommand, both taken by one reader.
pub fn u32_after_u8(payload: &[u8]) -> Result<u32, Refusal>
    ensures { answered result ≡ (taken_at payload.now (taken_at payload.now 0 1).1 4).0 }
{
    let mut reader = Reader::new(payload);
    reader.take::<u8>().ok();
    reader.take()
}
