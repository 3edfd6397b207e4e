// A receiver that rows of bytes are fed to.
ghost use Rattle.std.specs.Prelude.{◌≤◌, length, IfOk};

use crate::text::{MARK, item};
use crate::words::Repeat;
use receiver::Receiver;
use std::io::{self, Write};
use vector_text::Refused;

// A receiver with its store and its frame buffer, whether silence came that it was not told of yet, and whether it has given an item.
#[derive(Clone, Copy)]
pub(crate) struct Listener {
    receiver: Receiver,
    store: [u8; 260],
    frame: [u8; 260],
    silence: bool,
    any: bool,
}

impl Listener {
    pub(crate) fn new(receiver: Receiver, store: [u8; 260]) -> Listener {
        Listener {
            receiver,
            store,
            frame: [MARK; 260],
            silence: false,
            any: false,
        }
    }

    // One call, which carries the silence: how many bytes it took. A fresh record and 260 bytes of room are never refused, so it is dealt
    // with.
    fn call<W: Write>(&mut self, out: &mut W, piece: &[u8]) -> io::Result<usize>
        ensures { IfOk result (λ taken. taken ≤ length piece.now) }
    {
        self.frame.fill(MARK);
        let fed = receiver::feed(
            self.receiver,
            &mut self.store,
            self.silence,
            piece,
            &mut self.frame,
        );
        self.receiver = fed.receiver;
        self.silence = false;
        self.any |= item(out, fed.answer, &self.frame)?;
        Ok(fed.taken)
    }

    // Feeds a piece until it is used up; an empty one too may carry the silence.
    fn feed<W: Write>(&mut self, out: &mut W, piece: &[u8]) -> io::Result<()> {
        let taken = self.call(out, piece)?;
        let mut rest = &piece[taken..];
        // No index: a step is as long as the call says that it took.
        while !rest.is_empty() {
            let taken = self.call(out, rest)?;
            // Without silence a call that is not refused takes a byte.
            if taken == 0 {
                break;
            }
            rest = &rest[taken..];
        }
        Ok(())
    }

    // Tells of silence that no bytes came after.
    fn settle<W: Write>(&mut self, out: &mut W) -> io::Result<()> {
        if self.silence {
            self.feed(out, &[])?;
        }
        Ok(())
    }

    // Feeds what a word stands for: bytes, in pieces of one or two, or a silence mark, which goes with the bytes of the next word.
    fn feed_word<W: Write>(&mut self, out: &mut W, word: &[u8]) -> io::Result<()> {
        if matches!(word, b"M") {
            self.settle(out)?;
            self.silence = true;
            return Ok(());
        }
        let repeat = Repeat::from(word);
        for _ in 0..repeat.times {
            self.feed(out, &repeat.bytes)?;
        }
        Ok(())
    }

    // What it makes of a line's words from the third on: the items, in order, and the bytes that it threw away as noise, where there are
    // any.
    pub(crate) fn hear<W: Write>(&mut self, out: &mut W, line: &[u8]) -> io::Result<()> {
        for word in line
            .split(|b| *b == b' ')
            .skip(2)
            .take_while(|w| !w.is_empty())
        {
            self.feed_word(out, word)?;
        }
        self.settle(out)?;
        if !self.any {
            write!(out, " nothing")?;
        }
        match receiver::noise(self.receiver, &self.store) {
            Ok(0) => Ok(()),
            Ok(count) => write!(out, " noise {count}"),
            Err(why) => write!(out, "{}", Refused(why)),
        }
    }
}
