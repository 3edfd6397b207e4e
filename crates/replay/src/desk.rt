// What the replay keeps beside its receivers: the latest request, and the board until it is refused an order.
ghost use Rattle.std.specs.Prelude.{◌≡◌, ◌≤◌, length, IfOk};
ghost use Rattle.arrayvec.specs.ArrayVec.{array_vec_len};
ghost use Rattle.refusal.specs.Refusals.{answered_as};
ghost use Rattle.receiver.specs.Calls.{paper_answer};
ghost use Rattle.sfc6.specs.Reading.{read_request};
ghost use Rattle.board.specs.declared.orders.Order.TheVariants as order;
ghost use Rattle.replay.specs.Replay.{shown, room_for};
ghost use Rattle.replay.specs.Private.{list_of, Good, known, put as putOn, answer, nothing_yet, latest_as, board_of_desk, kept_of, Notes, noted_answer, frame_length};

use board::entries::{Places, no_entries};
use board::listing::{Entries, list_places};
use board::orders::{Order, carry_out};
use refusal::Refusal;
use sfc6::Request;
use shdlc::Kind;

#[derive(Clone, Copy)]
pub struct Desk {
    // The one lease of all that the log opens.
    pub(crate) lease: u32,
    // The latest request frame, where it was read as a request: the address that it was sent to, and what it asks.
    latest: Option<(u8, Request)>,
    board: Places,
    // The first order that is refused ends the board.
    ended: Result<(), Refusal>,
}

impl Desk {
    // No request yet, and an empty board.
    pub(crate) fn new(lease: u32) -> Desk
        ensures { (result.lease ≡ lease) × (kept_of result ≡ nothing_yet) }
    {
        Desk {
            lease,
            latest: None,
            board: no_entries(),
            ended: Ok(()),
        }
    }

    // An order to the board, unless an earlier one was refused. The board is good, so that the order's own checks are enough.
    fn put(&mut self, o: Order)
        ensures { Notes self.old self.new (record { latest = latest_as self.old.latest; board = putOn (board_of_desk self.old) o }) }
    {
        if let Ok(()) = self.ended {
            self.ended = carry_out(&mut self.board.rows, o);
        }
    }

    // A request frame becomes the latest; where it is refused as a request, replies are skipped.
    fn note_request(&mut self, body: &[u8])
        ensures { Notes self.old self.new (record { latest = known (read_request body.now); board = board_of_desk self.old }) }
    {
        self.latest = sfc6::read_request(body).ok();
    }

    // What a reply frame asks of the board, read against the latest request.
    fn order_by(&self, body: &[u8]) -> Order
        ensures { result ≡ answer (latest_as self.now.latest) body.now self.now.lease }
    {
        match self.latest {
            None => Order::Nothing,
            Some((address, request)) => {
                let reply = replies::read_reply(address, request, body);
                handover::order_of_reply(address, request, reply, self.lease)
            }
        }
    }

    // A reply frame is read against the latest request, and what it asks goes to the board.
    fn note_reply(&mut self, body: &[u8])
        ensures { Notes self.old self.new (record { latest = latest_as self.old.latest; board = putOn (board_of_desk self.old) (answer (latest_as self.old.latest) body.now self.old.lease) }) }
    {
        let order = self.order_by(body);
        self.put(order);
    }

    // A poll of the board.
    pub(crate) fn note_poll(&mut self)
        ensures { Notes self.old self.new (record { latest = latest_as self.old.latest; board = putOn (board_of_desk self.old) order.Poll }) }
    {
        self.put(Order::Poll);
    }

    // What a side's receiver answers is noted, a frame by its bytes at the buffer's start.
    #[tactic(auto, using(crate::proofs::Noting::answering))]
    pub(crate) fn note(&mut self, side: Kind, answer: Result<Option<usize>, Refusal>, frame: &[u8])
        requires { frame_length answer ≤ length frame.now }
        ensures { Notes self.old self.new (noted_answer self.old.lease side (kept_of self.old) (paper_answer answer) frame.now) }
    {
        match answer {
            Ok(Some(n)) => {
                let body = &frame[..n];
                match side {
                    Kind::Request => self.note_request(body),
                    Kind::Reply => self.note_reply(body),
                }
            }
            Ok(None) => {}
            Err(_) => {}
        }
    }

    // The list of the board, or the refusal that ended it.
    #[tactic(auto, using(crate::proofs::Carrying::listed_good))]
    pub(crate) fn list(&self, room: usize) -> Result<Entries, Refusal>
        requires { Good (board_of_desk self.now) }
        ensures answer { answered_as array_vec_len result ≡ room_for (list_of (board_of_desk self.now)) room }
        ensures list { IfOk result (λ v. v.items ≡ shown (list_of (board_of_desk self.now))) }
    {
        self.ended?;
        list_places(self.board, room)
    }
}
