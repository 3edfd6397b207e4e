// Reads request-side bytes from standard input and prints one line for each item, and a last line with the number of bytes read.
#![tactic(auto)]

ghost use Rattle.std.specs.Prelude.{◌≡◌, ◌-◌, ◌≤◌, IfOk, true, length};
ghost use Rattle.receiver.specs.Record.{held, in_range};
ghost use Rattle.frames.specs.Private.{ListsAll};

use files::write_all;
use lines::Listing;
use shdlc::Kind;
use std::io::Read;

// Standard output could not be written, as standard error was told.
#[derive(Clone, Copy, Debug, PartialEq, Eq)]
struct Unwritten;

fn print(rt: &HostRuntime, text: &[u8]) -> Result<(), Unwritten> {
    if write_all(&mut rt.stdout(), text).is_ok() {
        return Ok(());
    }
    let _ = write_all(
        &mut rt.stderr(),
        b"frames: standard output cannot be written\n",
    );
    Err(Unwritten)
}

// Prints what the room holds where it may not hold another line, and answers where the next line goes.
fn make_room(rt: &HostRuntime, out: &[u8], filled: usize) -> Result<usize, Unwritten>
    requires { filled ≤ length out.now }
    ensures { IfOk result (λ place. (place ≤ length out.now) × (24 ≤ length out.now - filled → place ≡ filled) × (24 ≤ length out.now → 24 ≤ length out.now - place)) }
{
    if out.len() - filled < 24 {
        print(rt, &out[..filled])?;
        return Ok(0);
    }
    Ok(filled)
}

// How far the listing is, and where the room's text ends.
#[derive(Clone, Copy)]
struct Shown {
    listing: Listing,
    filled: usize,
}

// Lists all of a piece. Where the room holds its lines, they stand in it; else the last of them do, and those before them are printed.
fn list_piece(
    rt: &HostRuntime,
    from: Listing,
    store: &mut [u8],
    piece: &[u8],
    out: &mut [u8],
) -> Result<Shown, Unwritten>
    requires { (length piece.now ≤ from.left) × (24 ≤ length out.old) × (in_range (held from.receiver store.old) ≡ true) }
    ensures { IfOk result (λ shown. ListsAll from store.old piece.now out.old shown store.new out.new) }
{
    let mut l = from;
    let mut at: usize = 0;
    let mut filled: usize = 0;
    // A turn passes the bytes that the room has lines for.
    while at < piece.len() {
        let place = make_room(rt, out, filled)?;
        let more = lines::fill(l, store, &piece[at..], out, place);
        let next = more.listing;
        let taken = more.taken;
        let end = more.said.unwrap();
        l = next;
        at += taken;
        filled = end;
    }
    Ok(Shown { listing: l, filled })
}

// Reads once, at most as many bytes as are asked for, and answers how many came: 0 at the input's end.
fn read_some(rt: &HostRuntime, piece: &mut [u8]) -> usize
    ensures { result ≤ length piece.old }
{
    let mut input = rt.stdin();
    match input.read(piece) {
        Ok(n) => n,
        Err(_) => {
            let _ = write_all(&mut rt.stderr(), b"frames: standard input cannot be read\n");
            0
        }
    }
}

// Before each read all lines are written: whatever the read then waits for, none is held back.
fn main(rt: HostRuntime) {
    let mut store = [0u8; 260];
    let mut piece = [0u8; 416];
    let mut out = [0u8; 880];
    let Ok(fresh) = receiver::fresh(Kind::Request, &mut store) else {
        return;
    };
    let mut l = lines::begin(fresh);
    loop {
        let wanted = lines::wanted(l.left, 416);
        let n = read_some(&rt, &mut piece[..wanted]);
        if n == 0 {
            break;
        }
        let Ok(shown) = list_piece(&rt, l, &mut store, &piece[..n], &mut out) else {
            return;
        };
        let next = shown.listing;
        let end = shown.filled;
        if print(&rt, &out[..end]).is_err() {
            return;
        }
        l = next;
    }
    if let Ok(n) = lines::end(l, &mut out) {
        let _ = print(&rt, &out[..n]);
    }
}
