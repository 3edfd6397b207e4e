// Prints the shift log that its argument names, newest first, a line a record; of a file that is no log the one line of its refusal.
#![tactic(auto)]

ghost use Rattle.std.specs.Prelude.{OnOk};
ghost use Rattle.std.specs.Io.KnownBytes.{Appends};
ghost use Rattle.wire_log.specs.Log.{kinds};
ghost use Rattle.wire_log.specs.Text.{log_text};

use std::io;
use std::io::Write;

// Prints all of a log's text, part after part. The program compare has this loop over its own text: one loop for both would take the part
// as a closure and require of it what it answers, and no public function requires anything.
fn print<W: Write>(to: &mut W, file: &[u8]) -> io::Result<()>
    ensures { OnOk result (Appends (W.contents to.old) (W.contents to.new) (log_text kinds file.now)) }
{
    let mut out = [0u8; 4096];
    let mut from: usize = 0;
    let mut n = wire_log::text::text(file, from, &mut out);
    while 0 < n {
        files::write_all(to, &out[..n])?;
        from += n;
        n = wire_log::text::text(file, from, &mut out);
    }
    Ok(())
}

fn main(rt: HostRuntime) {
    // More than any log has.
    let mut room = [0u8; 65536];
    let Some(file) = files::first_log(&rt, b"shift-log", &mut room) else {
        return;
    };
    if print(&mut rt.stdout(), file).is_err() {
        let _ = files::write_all(
            &mut rt.stderr(),
            b"shift-log: standard output cannot be written\n",
        );
    }
}
