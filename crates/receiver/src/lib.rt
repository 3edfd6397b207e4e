// A receiver of SHDLC frames: bytes and silence marks in, frames and refusals out.
#![tactic(auto)]

ghost use Rattle.std.specs.Prelude.{◌≡◌, true, false, cond, ◌&&◌, ◌||◌, List, [], ◌∷◌, ℕ, ◌≤◌, ◌<◌, ◌+◌, ◌-◌, min, ltb, eqb, length, get_or, take, drop, replicate};
ghost use Rattle.std.proofs.Math.Option.{none, some};
ghost use Rattle.std.specs.Int.Bits.{bit_xor};
ghost use Rattle.refusal.specs.Refusals.{◌carrying◌, paper, answered, answered_as};
ghost use Rattle.refusal.specs.Room.{overlay};
ghost use Rattle.shdlc.specs.declared.Kind.{Kind as FrameKind};
ghost use Rattle.shdlc.specs.Stuffing.{escapes, left_of, stuff_byte, is_control};
ghost use Rattle.receiver.specs.Record.{held, number_of_mode, mode_numbered, outside_of, length_in_range, Store, limited, acted, pending_in, place_in, fault_of, item_in};
ghost use Rattle.receiver.specs.Calls.{paper_fed, fresh_of, feed_of, noise_of, completed, scanned_as, scan_from};

use refusal::Refusal;
use refusal::laying::copy;
use shdlc::Kind;

// Where the receiver stands: before the first 7E or after silence; in a stretch; in one after a 7D; in one with the fault of
// refusal 3 or 4 found.
#[derive(Clone, Copy, Debug, PartialEq, Eq)]
pub enum Mode {
    Outside,
    Plain,
    Escaped,
    BadEscape,
    BareControl,
}

// The receiver's record, with a store of 260 bytes that the caller lends beside it. docs/RECORD.md has its ranges.
#[derive(Clone, Copy, Debug, PartialEq, Eq)]
pub struct Receiver {
    pub kind: Kind,
    pub mode: Mode,
    pub len: usize,
    // The bytes thrown away as noise, at most MOST_NOISE.
    pub noise: usize,
}

const MOST_NOISE: usize = 4_294_967_295;

// What feeding gives back. The answer is nothing yet, or a frame by the length of its body, or a refusal.
#[derive(Clone, Copy, Debug, PartialEq, Eq)]
pub struct Fed {
    pub receiver: Receiver,
    pub taken: usize,
    pub answer: Result<Option<usize>, Refusal>,
}

// What scanning a piece found: the record, the bytes passed, and whether the last of them is a 7E that ends a stretch. No Option or Result:
// the record and the bytes passed stand in both cases.
#[derive(Clone, Copy)]
struct Scanned {
    receiver: Receiver,
    taken: usize,
    closed: bool,
}

// A mode in a record's byte.
impl From<Mode> for u8 {
    ghost from_gives = { λ mode n. n ≡ number_of_mode mode };

    fn from(mode: Mode) -> u8 {
        match mode {
            Mode::Outside => 0,
            Mode::Plain => 1,
            Mode::Escaped => 2,
            Mode::BadEscape => 3,
            Mode::BareControl => 4,
        }
    }
}

impl TryFrom<u8> for Mode {
    type Error = Refusal;

    ghost try_from_gives = { λ n result. result ≡ mode_numbered n };

    fn try_from(n: u8) -> Result<Mode, Refusal> {
        match n {
            0 => Ok(Mode::Outside),
            1 => Ok(Mode::Plain),
            2 => Ok(Mode::Escaped),
            3 => Ok(Mode::BadEscape),
            4 => Ok(Mode::BareControl),
            _ => Err(Refusal::BadRecord),
        }
    }
}

// Whether the byte is a bare 11 or 13.
fn is_control(b: u8) -> bool
    ensures { result ≡ is_control b }
{
    matches!(b, 0x11 | 0x13)
}

// Whether the byte may follow a 7D; the byte that it stands for is then the one that differs in the bit 20.
fn is_escaped(b: u8) -> bool
    ensures { left_of escapes b ≡ cond result (some (bit_xor b 0x20)) none }
{
    matches!(b, 0x5E | 0x5D | 0x31 | 0x33)
}

// Whether the byte is a 7E, or one that may not stand by itself in a stretch.
fn is_special(b: u8) -> bool
    ensures { result ≡ (eqb b 0x7E || (eqb b 0x7D || is_control b)) }
{
    matches!(b, 0x7E | 0x7D | 0x11 | 0x13)
}

// Whether the stretch has a byte.
fn is_pending(mode: Mode, len: usize) -> bool
    ensures { result ≡ pending_in mode len }
{
    match mode {
        Mode::Outside => false,
        Mode::Plain => 0 < len,
        Mode::Escaped | Mode::BadEscape | Mode::BareControl => true,
    }
}

fn length_in_range(mode: Mode, len: usize) -> bool
    ensures { result ≡ length_in_range mode len }
{
    match mode {
        Mode::Outside => len == 0,
        Mode::Plain | Mode::Escaped | Mode::BadEscape | Mode::BareControl => len < 65536,
    }
}

impl Receiver {
    // Whether the record is within its ranges, its store aside.
    fn in_range(self) -> bool
        ensures { result ≡ (ltb self.noise 4294967296 && length_in_range self.mode self.len) }
    {
        self.noise <= MOST_NOISE && length_in_range(self.mode, self.len)
    }

    // Before the first 7E, and after silence.
    fn outside(kind: Kind, noise: usize) -> Receiver
        ensures { result ≡ outside_of kind noise }
    {
        Receiver {
            kind,
            mode: Mode::Outside,
            len: 0,
            noise,
        }
    }

    // The record after silence, where there was any: the flag comes from the C interface, by `feed`.
    fn after_mark(self, silence: bool) -> Receiver
        ensures { result ≡ cond silence (outside_of self.kind self.noise) self }
    {
        if silence {
            return Receiver::outside(self.kind, self.noise);
        }
        self
    }

    // Whether silence cuts off a stretch.
    fn is_cut(self, silence: bool) -> bool
        ensures { result ≡ (silence && pending_in self.mode self.len) }
    {
        silence && is_pending(self.mode, self.len)
    }

    // What one byte leaves that ends no stretch.
    fn passed(self) -> Scanned
        ensures { result ≡ record { receiver = self; taken = 1; closed = false } }
    {
        Scanned {
            receiver: self,
            taken: 1,
            closed: false,
        }
    }

    // A 7E that ends a stretch with a byte, before what it does to the record.
    fn ended(self) -> Scanned
        ensures { result ≡ record { receiver = self; taken = 1; closed = true } }
    {
        Scanned {
            receiver: self,
            taken: 1,
            closed: true,
        }
    }

    // What a byte of the body leaves, which came as n bytes and is kept where the store has room for it; it leaves the same in whatever mode
    // it is read.
    #[tactic(auto, using(crate::proofs::Turns::store_room, crate::proofs::Turns::store_full))]
    fn push(self, store: &mut [u8; 260], v: u8, n: usize) -> Scanned
        requires { length (stuff_byte v) ≡ n }
        ensures { scanned_as result store.new ≡ record {
          before = acted (record { kind = self.kind; mode = Mode.Plain; len = self.len; noise = self.noise; store = store.old }) (Store v);
          taken = 1;
          closed = false;
        } }
    {
        if self.len < 260 {
            store[self.len] = v;
            return Receiver {
                mode: Mode::Plain,
                len: self.len + 1,
                ..self
            }
            .passed();
        }
        Receiver {
            mode: Mode::Plain,
            len: past(self.len, n),
            ..self
        }
        .passed()
    }
}

// The count of noise bytes with so many more; it stops at MOST_NOISE.
fn counted(noise: usize, n: usize) -> usize
    ensures { result ≡ limited (noise + n) }
{
    noise.saturating_add(n).min(MOST_NOISE)
}

// The fresh record of a kind: its store is the first 260 bytes of the one lent, filled with zeros; bytes past them stay.
#[tactic(auto, unfolding(crate::specs::Calls::fresh_of, refusal::specs::Room::overlay))]
pub fn fresh(kind: Kind, store: &mut [u8]) -> Result<Receiver, Refusal>
    ensures { (answered_as (λ r. held r (take 260 store.new)) result, store.new) ≡ fresh_of kind store.old }
{
    if store.len() < 260 {
        return Err(Refusal::NoRoom);
    }
    store[..260].fill(0);
    Ok(Receiver::outside(kind, 0))
}

// The place of a fault in its stretch: the bytes received before it are the stored ones, as they were sent, and those past 260.
fn place_in(len: usize, store: &[u8; 260]) -> u16
    ensures { result ≡ place_in len store.now }
{
    let kept = len.min(260);
    let place = shdlc::stuffed_len(&store[..kept]).saturating_add(len - kept);
    u16::try_from(place).unwrap_or(u16::MAX)
}

// The refusal that a mode tells, with its place.
fn fault(mode: Mode, place: u16) -> Refusal
    ensures { paper result ≡ fault_of mode carrying place }
{
    match mode {
        Mode::BareControl => Refusal::BareControl(place),
        Mode::Outside | Mode::Plain | Mode::Escaped | Mode::BadEscape => Refusal::BadEscape(place),
    }
}

// The item of a stretch that a 7E ends: a frame is the first len bytes of the store.
fn judge(r: Receiver, store: &[u8; 260]) -> Result<(), Refusal>
    ensures { answered_as (λ _. take r.len store.now) result ≡ item_in r.mode r.kind r.len store.now }
{
    match r.mode {
        Mode::Plain => judge_body(r.kind, r.len, store),
        Mode::Outside | Mode::Escaped | Mode::BadEscape | Mode::BareControl => Err(fault(
            r.mode,
            place_in(r.len, store),
        )),
    }
}

fn judge_body(kind: Kind, len: usize, store: &[u8; 260]) -> Result<(), Refusal>
    ensures { answered_as (λ _. take len store.now) result ≡ item_in Mode.Plain kind len store.now }
{
    if 260 < len {
        return Err(Refusal::BodyTooLong);
    }
    shdlc::check_body(kind, &store[..len])
}

// Completes an item: a 7E has ended a stretch with a byte, and opens the next.
#[tactic(auto, unfolding(refusal::specs::Room::overlay))]
fn complete(r: Receiver, taken: usize, store: &[u8; 260], frame: &mut [u8]) -> Fed
    requires { 260 ≤ length frame.old }
    ensures { paper_fed result store.now frame.new ≡ completed (held r store.now) taken frame.old }
{
    let receiver = Receiver {
        mode: Mode::Plain,
        len: 0,
        ..r
    };
    match judge(r, store) {
        Ok(()) => {
            copy(&mut frame[..r.len], &store[..r.len]);
            Fed {
                receiver,
                taken,
                answer: Ok(Some(r.len)),
            }
        }
        Err(why) => Fed {
            receiver,
            taken,
            answer: Err(why),
        },
    }
}

// The length past 260 with a byte more that came as n bytes.
fn past(len: usize, n: usize) -> usize
    ensures { result ≡ min (len + n) 65535 }
{
    len.saturating_add(n).min(65535)
}

// Stores the piece's bytes up to the first special one, or as many as the store has room for, and answers how many.
fn store_run(store: &mut [u8; 260], len: usize, piece: &[u8]) -> usize
    requires { len ≤ 260 }
    ensures { (len + result ≤ 260) × (result ≤ length piece.now) × ((kind : FrameKind) (noise taken : ℕ) → scan_from taken (record { kind = kind; mode = Mode.Plain; len = len; noise = noise; store = store.old }) piece.now ≡ scan_from (taken + result) (record { kind = kind; mode = Mode.Plain; len = len + result; noise = noise; store = store.new }) (drop result piece.now)) }
{
    let end = piece.len().min(260 - len);
    for (i, b) in piece[..end].iter().enumerate() {
        if is_special(*b) {
            return i;
        }
        store[len + i] = *b;
    }
    end
}

// How many bytes of the piece are noise: outside a stretch those before the first 7E, else none.
#[tactic(auto, using(crate::proofs::Turns::skip_next))]
fn skip_noise(mode: Mode, piece: &[u8]) -> usize
    ensures { (result ≤ length piece.now) × (mode ≡ Mode.Outside → result < length piece.now → get_or piece.now result 0 ≡ 0x7E) × ((kind : FrameKind) (len noise taken : ℕ) (store : List ℕ) → noise < 4294967296 → scan_from taken (record { kind = kind; mode = mode; len = len; noise = noise; store = store }) piece.now ≡ scan_from (taken + result) (record { kind = kind; mode = mode; len = len; noise = limited (noise + result); store = store }) (drop result piece.now)) }
{
    match mode {
        Mode::Outside => {
            for (i, b) in piece.iter().enumerate() {
                if *b == 0x7E {
                    return i;
                }
            }
            piece.len()
        }
        Mode::Plain | Mode::Escaped | Mode::BadEscape | Mode::BareControl => 0,
    }
}

// Reads a piece up to a 7E that ends a stretch with a byte, and stops before what that 7E does to the record. A turn of the loop passes a
// byte, and with it the run of bytes that it stored, no fixed number. The mode is compared: of a `match` the compiler makes a table of
// jumps, and long pieces full of escapes take longer. Polling traffic does where `store_run` is called with no byte left.
fn scan(r: Receiver, store: &mut [u8; 260], piece: &[u8]) -> Scanned
    requires { r.noise < 4294967296 }
    ensures { scanned_as result store.new ≡ scan_from 0 (held r store.old) piece.now }
{
    let kind = r.kind;
    let mut mode = r.mode;
    let mut len = r.len;
    let mut i = skip_noise(mode, piece);
    let noise = counted(r.noise, i);
    while i < piece.len() {
        let b = piece[i];
        i += 1;
        if b == 0x7E {
            if is_pending(mode, len) {
                return Scanned {
                    receiver: Receiver {
                        kind,
                        mode,
                        len,
                        noise,
                    },
                    taken: i,
                    closed: true,
                };
            }
            mode = Mode::Plain;
            len = 0;
        } else if mode == Mode::Plain {
            if b == 0x7D {
                mode = Mode::Escaped;
            } else if is_control(b) {
                mode = Mode::BareControl;
            } else if len < 260 {
                store[len] = b;
                len += 1;
                if i < piece.len() {
                    let n = store_run(store, len, &piece[i..]);
                    len += n;
                    i += n;
                }
            } else {
                len = past(len, 1);
            }
        } else if mode == Mode::Escaped {
            if !is_escaped(b) {
                mode = Mode::BadEscape;
            } else if len < 260 {
                mode = Mode::Plain;
                store[len] = b ^ 0x20;
                len += 1;
            } else {
                mode = Mode::Plain;
                len = past(len, 2);
            }
        }
    }
    Scanned {
        receiver: Receiver {
            kind,
            mode,
            len,
            noise,
        },
        taken: i,
        closed: false,
    }
}

// What one byte leaves in a stretch without a fault.
fn scan_plain(r: Receiver, store: &mut [u8; 260], b: u8) -> Scanned
    requires { r.mode ≡ Mode.Plain }
    ensures { scanned_as result store.new ≡ scan_from 0 (held r store.old) (b ∷ []) }
{
    if b == 0x7E {
        return Scanned {
            receiver: r,
            taken: 1,
            closed: 0 < r.len,
        };
    }
    if b == 0x7D {
        return Receiver {
            mode: Mode::Escaped,
            ..r
        }
        .passed();
    }
    if is_control(b) {
        return Receiver {
            mode: Mode::BareControl,
            ..r
        }
        .passed();
    }
    r.push(store, b, 1)
}

// `scan` of a piece of one byte, without the loop: a driver that hands in each byte as it comes pays for that byte alone.
fn scan_one(r: Receiver, store: &mut [u8; 260], b: u8) -> Scanned
    ensures { scanned_as result store.new ≡ scan_from 0 (held r store.old) (b ∷ []) }
{
    match r.mode {
        Mode::Plain => scan_plain(r, store, b),
        Mode::Outside => {
            if b == 0x7E {
                return Receiver {
                    mode: Mode::Plain,
                    len: 0,
                    ..r
                }
                .passed();
            }
            Receiver {
                noise: counted(r.noise, 1),
                ..r
            }
            .passed()
        }
        Mode::Escaped => {
            if b == 0x7E {
                return r.ended();
            }
            if is_escaped(b) {
                return r.push(store, b ^ 0x20, 2);
            }
            Receiver {
                mode: Mode::BadEscape,
                ..r
            }
            .passed()
        }
        Mode::BadEscape | Mode::BareControl => {
            if b == 0x7E {
                return r.ended();
            }
            r.passed()
        }
    }
}

// The same of any piece.
fn scan_piece(r: Receiver, store: &mut [u8; 260], piece: &[u8]) -> Scanned
    requires { r.noise < 4294967296 }
    ensures { scanned_as result store.new ≡ scan_from 0 (held r store.old) piece.now }
{
    if piece.len() == 1 {
        return scan_one(r, store, piece[0]);
    }
    scan(r, store, piece)
}

impl Fed {
    // A call that takes nothing.
    fn refused(receiver: Receiver, why: Refusal) -> Fed
        ensures { result ≡ record { receiver = receiver; taken = 0; answer = Err why } }
    {
        Fed {
            receiver,
            taken: 0,
            answer: Err(why),
        }
    }
}

// Takes a piece's bytes up to and including the one that completes an item, else the whole piece. Silence before the piece is dealt with
// first: it ends what was begun, and bytes are noise until the next 7E. Where it cuts off a stretch, no byte of the piece is taken.
pub fn feed(r: Receiver, store: &mut [u8], silence: bool, piece: &[u8], frame: &mut [u8]) -> Fed
    ensures { paper_fed result store.new frame.new ≡ feed_of (held r store.old) silence piece.now frame.old }
{
    let Some(store) = store.as_mut_array::<260>() else {
        return Fed::refused(r, Refusal::BadRecord);
    };
    if !r.in_range() {
        return Fed::refused(r, Refusal::BadRecord);
    }
    if frame.len() < 260 {
        return Fed::refused(r, Refusal::NoRoom);
    }
    let from = r.after_mark(silence);
    if r.is_cut(silence) {
        return Fed::refused(from, Refusal::CutBySilence);
    }
    let scanned = scan_piece(from, store, piece);
    let receiver = scanned.receiver;
    let taken = scanned.taken;
    if scanned.closed {
        return complete(receiver, taken, store, frame);
    }
    Fed {
        receiver,
        taken,
        answer: Ok(None),
    }
}

// The bytes thrown away as noise so far.
#[tactic(auto, unfolding(crate::specs::Calls::noise_of))]
pub fn noise(r: Receiver, store: &[u8]) -> Result<u32, Refusal>
    ensures { answered result ≡ noise_of (held r store.now) }
{
    if store.len() != 260 || !r.in_range() {
        return Err(Refusal::BadRecord);
    }
    Ok(r.noise as u32)
}
