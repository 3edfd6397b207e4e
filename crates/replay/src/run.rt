// The run: the records of a log, oldest first, through a request receiver and a reply receiver.
ghost use Rattle.std.specs.Prelude.{◌≡◌, true, [], ◌∷◌, map, ◌≤◌, length};
ghost use Rattle.shdlc.specs.Stream.{byte};
ghost use Rattle.receiver.specs.Record.{Record, held, in_range, fresh};
ghost use Rattle.wire_log.specs.Log.{recorded, kinds};
ghost use Rattle.wire_log.specs.Kinds.{number_of_kind};
ghost use Rattle.wire_log.specs.Oldest.{records_to};
ghost use Rattle.replay.specs.Private.{nothing_yet, kept_of, GoesOn, Runs, Marks, newest_of, Noted};

use crate::desk::Desk;
use receiver::Receiver;
use shdlc::Kind;
use std::marker::Model;
use wire_log::Kind as LogKind;
use wire_log::oldest::{back_over, newest};

// The bytes that a receiver's store and the frame buffer have.
const STORE: usize = 260;

// A side of the line: its receiver, and the store that it works on. The record is within its ranges.
#[derive(Clone, Copy)]
pub(crate) struct Side {
    receiver: Receiver,
    store: [u8; STORE],
}

impl Model for Side {
    ghost use Rattle.std.specs.Prelude.{◌≡◌, true};
    ghost use Rattle.receiver.specs.Record.{Record, held, in_range};

    ghost Value = { Record };

    ghost view = { λ s. held s.receiver s.store };

    ghost invariant = { λ s. in_range (held s.receiver s.store) ≡ true };

    ghost inverse = { λ r. record { receiver = record { kind = r.kind; mode = r.mode; len = r.len; noise = r.noise }; store = r.store } };
}

impl Side {
    // A fresh receiver.
    fn new(kind: Kind) -> Side
        ensures { result ≡ fresh kind }
    {
        let mut store = [0; STORE];
        let receiver = receiver::fresh(kind, &mut store).unwrap();
        Side { receiver, store }
    }

    // Feeds a piece to the receiver until it is used up, and notes each item. A turn passes the bytes that `feed` took.
    fn hear(&mut self, kind: Kind, piece: &[u8], frame: &mut [u8; STORE], desk: &mut Desk)
        ensures { GoesOn desk.old.lease kind self.old (kept_of desk.old) (map byte piece.now) self.new (kept_of desk.new) × (desk.new.lease ≡ desk.old.lease) }
    {
        let mut left = piece;
        while !left.is_empty() {
            let fed = receiver::feed(self.receiver, &mut self.store, false, left, frame);
            self.receiver = fed.receiver;
            desk.note(kind, fed.answer, frame);
            left = left.split_at(fed.taken).1;
        }
    }

    // A silence mark: what it cuts off is no frame, so that nothing is noted.
    fn mark(&mut self, frame: &mut [u8; STORE])
        ensures { Marks self.old self.new }
    {
        let fed = receiver::feed(self.receiver, &mut self.store, true, &[], frame);
        self.receiver = fed.receiver;
    }
}

// Where the replay stands.
#[derive(Clone, Copy)]
pub struct Run {
    requests: Side,
    replies: Side,
    frame: [u8; STORE],
    pub(crate) desk: Desk,
}

// The most records that are replayed from places that are noted.
const BLOCK: usize = 64;

// Notes where the newest of the records that end at a place end, the newest first, as many as there is room for.
fn note_places(file: &[u8], place: usize, places: &mut [usize])
    requires { place ≤ length file.now }
    ensures { Noted file.now place (length places.old) places.new }
{
    let mut at = place;
    for noted in places.iter_mut() {
        *noted = at;
        at = back_over(file, at, 1);
    }
}

impl Run {
    // Two fresh receivers, and nothing noted yet.
    pub(crate) fn new(lease: u32) -> Run
        ensures { (result.requests ≡ fresh Kind.Request) × (result.replies ≡ fresh Kind.Reply) × (result.desk.lease ≡ lease) × (kept_of result.desk ≡ nothing_yet) }
    {
        Run {
            requests: Side::new(Kind::Request),
            replies: Side::new(Kind::Reply),
            frame: [0; STORE],
            desk: Desk::new(lease),
        }
    }

    // One record of the log.
    fn replay_record(&mut self, kind: LogKind, body: &[u8])
        ensures { Runs self.old (recorded (number_of_kind kind) body.now ∷ []) self.new }
    {
        match kind {
            LogKind::Request => {
                self.requests
                    .hear(Kind::Request, body, &mut self.frame, &mut self.desk)
            }
            LogKind::Reply => {
                self.replies
                    .hear(Kind::Reply, body, &mut self.frame, &mut self.desk)
            }
            LogKind::Silence => {
                self.requests.mark(&mut self.frame);
                self.replies.mark(&mut self.frame);
                self.desk.note_poll();
            }
        }
    }

    // The newest of the records that end at a place. File and place go side by side, as `newest` and `back_over` of wire_log take them.
    fn replay_one(&mut self, file: &[u8], place: usize)
        requires { (place ≤ length file.now) × (1 ≤ length (records_to kinds file.now place)) }
        ensures { Runs self.old (newest_of file.now place 1) self.new }
    {
        let found = newest(file, place).unwrap();
        let end = found.start + found.size;
        self.replay_record(found.kind, &file[found.start..end]);
    }

    // The newest of the records that end at a place, by the places where they end, the oldest of them first.
    fn replay_noted(&mut self, file: &[u8], place: usize, places: &[usize])
        requires { (place ≤ length file.now) × (length places.now ≤ length (records_to kinds file.now place)) × Noted file.now place (length places.now) places.now }
        ensures { Runs self.old (newest_of file.now place (length places.now)) self.new }
    {
        for at in places.iter().rev() {
            self.replay_one(file, *at);
        }
    }

    // The newest n of the records that end at a place, a block of them at the most, the oldest of them first.
    fn replay_block(&mut self, file: &[u8], place: usize, n: usize)
        requires { (place ≤ length file.now) × (n ≤ length (records_to kinds file.now place)) × (n ≤ 64) }
        ensures { Runs self.old (newest_of file.now place n) self.new }
    {
        let mut places = [0; BLOCK];
        let noted = &mut places[..n];
        note_places(file, place, noted);
        self.replay_noted(file, place, noted);
    }

    // The newest n of the records that end at a place, the oldest of them first: the older half, and then the newer. A log can only be read back
    // from its end, so that the older half's end is looked for from the place: n log n steps in all, and at most 9 calls deep. Two blocks go
    // without a call of this function: what has several callers stays a function of its own, and a call by halves keeps none of its values.
    pub(crate) fn replay_newest(&mut self, file: &[u8], place: usize, n: usize)
        requires { (place ≤ length file.now) × (n ≤ length (records_to kinds file.now place)) }
        ensures { Runs self.old (newest_of file.now place n) self.new }
    {
        if n <= BLOCK {
            self.replay_block(file, place, n);
            return;
        }
        let newer = n / 2;
        let middle = back_over(file, place, newer);
        if n <= 2 * BLOCK {
            self.replay_block(file, middle, n - newer);
            self.replay_block(file, place, newer);
            return;
        }
        self.replay_newest(file, middle, n - newer);
        self.replay_newest(file, place, newer);
    }
}
