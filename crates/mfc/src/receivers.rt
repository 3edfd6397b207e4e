// A receiver whose record is the first RECORD_SIZE bytes of a lent slice.
ghost use Rattle.std.specs.Prelude.{◌≡◌, [], ◌∷◌, ◌+◌, ◌/◌, ◌%◌, ◌≤◌, length, set};
ghost use Rattle.refusal.specs.Room.{overlay};
ghost use Rattle.receiver.specs.Record.{held, number_of_mode};
ghost use Rattle.refusal.specs.Refusals.{answered, answered_as};
ghost use Rattle.board.specs.Orders.{number_if};
ghost use Rattle.shdlc.specs.Numbers.{number_of_kind};
ghost use Rattle.receiver.specs.Calls.{paper_answer};
ghost use Rattle.mfc.specs.Receivers.{loaded, count_bytes, head_of, count_in, store_in, fields_in, fed, noise_told, fresh_record, feed_record, is_silence, noise_record};

use crate::answers::{MfcFed, MfcNoise, number_of};
use crate::sizes::RECORD_SIZE;
use receiver::{Mode, Receiver};
use refusal::Refusal;
use shdlc::Kind;

// The record in the lent bytes, its store aside; whether its length is in range, the receiver's own calls test.
#[tactic(auto, using(crate::proofs::Heads::load_short, crate::proofs::Heads::load_kind, crate::proofs::Heads::load_mode, crate::proofs::Heads::load_held))]
fn load(lent: &[u8]) -> Result<Receiver, Refusal>
    ensures { answered_as (λ r. held r (store_in lent.now)) result ≡ loaded (fields_in lent.now) }
{
    if lent.len() < RECORD_SIZE {
        return Err(Refusal::BadRecord);
    }
    Ok(Receiver {
        kind: Kind::try_from(lent[0])?,
        mode: Mode::try_from(lent[1])?,
        len: usize::from(u16::from_be_bytes([lent[2], lent[3]])),
        noise: u32::from_be_bytes([lent[4], lent[5], lent[6], lent[7]]) as usize,
    })
}

// Puts a mode into the lent bytes, where another stands there. The test parts the stores of `put_place`: only so the two bytes of the length
// become one store, and the next call, which loads them as one number, need not wait for two.
fn put_mode(lent: &mut [u8], n: u8)
    requires { 2 ≤ length lent.old }
    ensures { lent.new ≡ set lent.old 1 n }
{
    if lent[1] != n {
        lent[1] = n;
    }
}

// Puts a record's mode and length into the lent bytes.
#[tactic(auto, unfolding(refusal::specs::Room::overlay))]
fn put_place(lent: &mut [u8], r: Receiver)
    requires { 4 ≤ length lent.old }
    ensures { lent.new ≡ overlay lent.old 1 (number_of_mode r.mode ∷ r.len / 256 % 256 ∷ r.len % 256 ∷ []) }
{
    put_mode(lent, u8::from(r.mode));
    lent[2..4].copy_from_slice(&((r.len % 0x1_0000) as u16).to_be_bytes());
}

// Puts a count of noise bytes into the lent bytes. These writers take the lent bytes whole and say of the whole what they leave: an array of the
// first eight would be split off and joined again by each caller, and no plainer.
#[tactic(auto, unfolding(refusal::specs::Room::overlay))]
fn put_noise(lent: &mut [u8], n: usize)
    requires { 8 ≤ length lent.old }
    ensures { lent.new ≡ overlay lent.old 4 (count_bytes n) }
{
    lent[4..8].copy_from_slice(&((n % 0x1_0000_0000) as u32).to_be_bytes());
}

// The same where a count stands already. Most calls leave it as it is, and then store nothing that the next one would wait for.
fn renew_noise(lent: &mut [u8], before: usize, n: usize)
    requires { (8 ≤ length lent.old) × (before ≡ count_in lent.old) }
    ensures { lent.new ≡ overlay lent.old 4 (count_bytes n) }
{
    if n != before {
        put_noise(lent, n);
    }
}

// Puts a record, its store aside, into the lent bytes, which have the count of before; a call leaves the kind as it is.
fn put_after(lent: &mut [u8], before: usize, r: Receiver)
    requires { (8 ≤ length lent.old) × (before ≡ count_in lent.old) }
    ensures { lent.new ≡ overlay lent.old 1 (number_of_mode r.mode ∷ r.len / 256 % 256 ∷ r.len % 256 ∷ count_bytes r.noise) }
{
    renew_noise(lent, before, r.noise);
    put_place(lent, r);
}

// Puts a record, its store aside, into any lent bytes.
fn put_head(lent: &mut [u8], r: Receiver)
    requires { 8 ≤ length lent.old }
    ensures { lent.new ≡ overlay lent.old 0 (head_of r.kind r.mode r.len r.noise) }
{
    lent[0] = u8::from(r.kind);
    put_noise(lent, r.noise);
    put_place(lent, r);
}

// What feeding answered, of so many bytes that were taken.
fn told(answer: Result<Option<usize>, Refusal>, taken: usize) -> MfcFed
    ensures { result ≡ fed (paper_answer answer) taken }
{
    match answer {
        Ok(frame) => MfcFed {
            frame_length: frame.unwrap_or(0),
            taken,
            ..MfcFed::default()
        },
        Err(why) => MfcFed {
            refusal: why.number(),
            place: why.place(),
            taken,
            ..MfcFed::default()
        },
    }
}

impl From<Result<u32, Refusal>> for MfcNoise {
    ghost from_gives = { λ answer struct. struct ≡ noise_told (answered answer) };

    fn from(answer: Result<u32, Refusal>) -> MfcNoise {
        match answer {
            Ok(count) => MfcNoise { refusal: 0, count },
            Err(why) => MfcNoise {
                refusal: why.number(),
                count: 0,
            },
        }
    }
}

// Makes a fresh receiver of a kind by its number in the lent bytes.
fn make_fresh(kind: u8, room: &mut [u8]) -> Result<(), Refusal>
    ensures { (number_if (answered result), room.new) ≡ fresh_record kind room.old }
{
    if room.len() < RECORD_SIZE {
        return Err(Refusal::NoRoom);
    }
    let Ok(kind) = Kind::try_from(kind) else {
        return Err(Refusal::OutOfRange);
    };
    let fresh = receiver::fresh(kind, &mut room[8..RECORD_SIZE])?;
    put_head(room, fresh);
    Ok(())
}

// Makes a fresh receiver of a kind, MFC_KIND_REQUEST or MFC_KIND_REPLY, in the first MFC_RECORD_SIZE bytes of record. Answers the refusal's
// number, 0 for none. Refusals, in their order: 1 where size is under MFC_RECORD_SIZE; 12 for another kind.
#[unsafe(no_mangle)]
pub extern "C" fn mfc_receiver_fresh(kind: u8, record: &mut [u8]) -> u8
    ensures { (result, «record».new) ≡ fresh_record kind «record».old }
{
    number_of(make_fresh(kind, record))
}

// Hands the n bytes of a piece to the receiver whose record is lent. silence says whether over 200 ms without a byte came before them: 0
// for no, any other number for yes; an empty piece may carry it. It is dealt with first: a frame that was begun is cut off, refusal 9, and
// bytes are noise until the next 7E. The call takes bytes up to and including the one that completes an item, a frame or a refusal, or all
// of them, and none with 9. A frame's unstuffed body stands at the start of frame; else frame is untouched. Refusals, in their order: 2
// where size is under MFC_RECORD_SIZE or a field of the record is out of its range; 1 where room is under MFC_FRAME_ROOM; 9 where silence
// cut off bytes of a frame; else those of the bytes up to a 7E that are no frame: 3 for a wrong escape or 4 for a bare 11 or 13 hex,
// whichever comes first, with its place; then 5 to 8 of the body (too long, too short, L wrong, checksum wrong). Hand in the rest
// again, with silence 0. Not so with 2 and 1: nothing is taken and silence is not dealt with; the same call again is refused again, and the
// rest, an empty one too, still carries the silence.
#[unsafe(no_mangle)]
pub extern "C" fn mfc_feed(record: &mut [u8], silence: u8, piece: &[u8], frame: &mut [u8]) -> MfcFed
    ensures { (result, «record».new, frame.new) ≡ feed_record «record».old (is_silence silence) piece.now frame.old }
{
    let before = match load(record) {
        Ok(r) => r,
        Err(why) => return told(Err(why), 0),
    };
    let fed = receiver::feed(
        before,
        &mut record[8..RECORD_SIZE],
        silence != 0,
        piece,
        frame,
    );
    // The answer first: behind the test of the count the compiler would ask once more which one it is.
    let answer = told(fed.answer, fed.taken);
    put_after(record, before.noise, fed.receiver);
    answer
}

// The count of bytes that the receiver whose record is lent has thrown away as noise: those before the first 7E, and those after silence
// up to the next 7E. A 7E is no noise, nor are the bytes of a stretch that is refused or cut off. Refusal 2 where size is under
// MFC_RECORD_SIZE or a field of the record is out of its range.
#[unsafe(no_mangle)]
pub extern "C" fn mfc_receiver_noise(record: &[u8]) -> MfcNoise
    ensures { result ≡ noise_record «record».now }
{
    match load(record) {
        Ok(r) => receiver::noise(r, &record[8..RECORD_SIZE]).into(),
        Err(why) => Err(why).into(),
    }
}
