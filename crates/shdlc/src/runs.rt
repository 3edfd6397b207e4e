// The stuffing writer of many bytes: 02 (iv), "find the longest run of plain bytes from its place, which ends only before a special byte or
// at the body's end, and copy it before it looks further."
ghost use Rattle.std.specs.Prelude.{◌≡◌, ◌+◌, ◌≤◌, ◌<◌, length, take, drop};
ghost use Rattle.refusal.specs.Room.{overlay};
ghost use Rattle.shdlc.specs.Stuffing.{stuff};
ghost use Rattle.shdlc.specs.Runs.{run_of};

use crate::{has_escaped, is_escaped};
use refusal::laying::copy;

// Passes over blocks of so many plain bytes, and answers the place behind them: the run that is left there is shorter than a block.
fn skip(bytes: &[u8], from: usize, width: usize) -> usize
    requires { (from ≤ length bytes.now) × (1 ≤ width) }
    ensures { (result ≤ length bytes.now) × (result + run_of (drop result bytes.now) ≡ from + run_of (drop from bytes.now)) × (run_of (drop result bytes.now) < width) }
{
    let mut n = from;
    for block in bytes[from..].chunks_exact(width) {
        if has_escaped(block) {
            return n;
        }
        n += width;
    }
    n
}

// How long the run of plain bytes at the front is. The first bytes are looked at one by one, since the next special byte may be near; then
// the compiler tests a block of 16 or of 8 at once.
fn run_of(bytes: &[u8]) -> usize
    ensures { result ≡ run_of bytes.now }
{
    if bytes.len() < 4 {
        return skip(bytes, 0, 1);
    }
    let near = skip(&bytes[..4], 0, 1);
    if near < 4 {
        return near;
    }
    let sixteens = skip(bytes, 4, 16);
    let eights = skip(bytes, sixteens, 8);
    skip(bytes, eights, 1)
}

// Writes the first n bytes from a place on, and answers how many it wrote. Fewer than 16 go as a block of 16 where there are so many: one
// store, and the writer goes over the surplus with what follows.
#[tactic(auto, unfolding(refusal::specs::Room::overlay))]
fn copy_run(out: &mut [u8], place: usize, bytes: &[u8], n: usize) -> usize
    requires { (n ≤ length bytes.now) × (place + length bytes.now ≤ length out.old) }
    ensures { (n ≤ result) × (result ≤ length bytes.now) × (out.new ≡ overlay out.old place (take result bytes.now)) }
{
    if n < 16 {
        if 16 <= bytes.len() {
            let mut block = [0; 16];
            block.copy_from_slice(&bytes[..16]);
            out[place..place + 16].copy_from_slice(&block);
            return 16;
        }
    }
    copy(&mut out[place..place + n], &bytes[..n]);
    n
}

// Writes the bytes, stuffed, from a place on, and answers the place after them. A turn of the loop passes a special byte, or the run that it
// found, and no fixed number of bytes.
pub(crate) fn put_runs(out: &mut [u8], place: usize, bytes: &[u8]) -> usize
    requires { place + length (stuff bytes.now) ≤ length out.old }
    ensures { (result ≡ place + length (stuff bytes.now)) × (out.new ≡ overlay out.old place (stuff bytes.now)) }
{
    let mut o = place;
    let mut i: usize = 0;
    while i < bytes.len() {
        let b = bytes[i];
        if is_escaped(b) {
            out[o] = 0x7D;
            let next = o + 1;
            out[next] = b ^ 0x20;
            o = next + 1;
            i += 1;
        } else {
            let rest = &bytes[i..];
            let n = run_of(rest);
            copy_run(out, o, rest, n);
            o += n;
            i += n;
        }
    }
    o
}
