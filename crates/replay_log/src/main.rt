// Prints the handover board at the end of the shift log that its first argument names, with the lease that its second says; of a log or a
// lease that is refused the one line of its number.
#![tactic(auto)]

use std::io;
use std::io::Write;

fn print<W: Write>(to: &mut W, file: &[u8], lease: u32) -> io::Result<()> {
    let mut out = [0u8; 4096];
    let n = board_lines::text(replay::replay(file, lease, 32), &mut out);
    files::write_all(to, &out[..n])
}

fn main(rt: HostRuntime) {
    // More than any log has.
    let mut room = [0u8; 65536];
    let Some(file) = files::first_log(&rt, b"replay", &mut room) else {
        return;
    };
    let mut text = [0u8; 4096];
    let lease = board_lines::lease::lease(files::argument(&rt, 2, &mut text));
    if print(&mut rt.stdout(), file, lease).is_err() {
        let _ = files::write_all(
            &mut rt.stderr(),
            b"replay: standard output cannot be written\n",
        );
    }
}
