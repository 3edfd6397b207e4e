// Prints the differences of the two shift logs that its arguments name, by record place from the oldest on, and the number of equal
// places; where one is no log the one line of its refusal.
#![tactic(auto)]

ghost use Rattle.std.specs.Prelude.{◌≤◌, IfSome, OnOk, length};
ghost use Rattle.std.specs.Io.KnownBytes.{Appends};
ghost use Rattle.compare_lines.specs.Text.{compare_text};

use std::io;
use std::io::Write;

// Prints all of the text of two logs, part after part. The program shift-log has this loop over its own text: one loop for both would take
// the part as a closure and require of it what it answers, and no public function requires anything.
fn print<W: Write>(to: &mut W, a: &[u8], b: &[u8]) -> io::Result<()>
    ensures { OnOk result (Appends (W.contents to.old) (W.contents to.new) (compare_text a.now b.now)) }
{
    let mut out = [0u8; 65536];
    let mut from: usize = 0;
    let mut n = compare_lines::text(a, b, from, &mut out);
    while 0 < n {
        files::write_all(to, &out[..n])?;
        from += n;
        n = compare_lines::text(a, b, from, &mut out);
    }
    Ok(())
}

// Says what cannot be done with a log.
fn complain_of<W: Write>(to: &mut W, name: &[u8], what: &[u8]) {
    let _ = files::write_all(to, b"compare: ");
    let _ = files::write_all(to, name);
    let _ = files::write_all(to, what);
}

// The log that an argument names, whole, in lent room. Where it cannot be had, standard error says why, in words of its own: they name the
// file, which files::first_log does not.
fn load<'a>(rt: &HostRuntime, which: usize, room: &'a mut [u8]) -> Option<&'a [u8]>
    ensures { IfSome result (λ log. length log.now ≤ length room.old) }
{
    let mut name = [0u8; 4096];
    let name = files::argument(rt, which, &mut name);
    let Ok(mut log) = files::open(rt, name) else {
        complain_of(
            &mut rt.stderr(),
            name,
            b" cannot be opened: name two logs\n",
        );
        return None;
    };
    let loaded = files::load_bytes(&mut log, room);
    if loaded.is_none() {
        complain_of(&mut rt.stderr(), name, b" cannot be read to its end\n");
    }
    loaded
}

fn main(rt: HostRuntime) {
    // More than any log has.
    let mut first = [0u8; 65536];
    let Some(a) = load(&rt, 1, &mut first) else {
        return;
    };
    let mut second = [0u8; 65536];
    let Some(b) = load(&rt, 2, &mut second) else {
        return;
    };
    if print(&mut rt.stdout(), a, b).is_err() {
        let _ = files::write_all(
            &mut rt.stderr(),
            b"compare: standard output cannot be written\n",
        );
    }
}
