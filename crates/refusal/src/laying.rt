// Bytes laid over lent room.
ghost use Rattle.std.specs.Prelude.{◌≡◌, length, take};
ghost use Rattle.refusal.specs.Room.{overlay};

// Writes bytes over the start of the room, as many as it has places for. By a loop: copy_from_slice asks for memmove of the C library, and
// the library for C needs memcpy and memset alone.
pub fn copy(out: &mut [u8], bytes: &[u8])
    ensures over { out.new ≡ overlay out.old 0 (take (length out.old) bytes.now) }
    ensures whole { length out.old ≡ length bytes.now → out.new ≡ bytes.now }
{
    let n = bytes.len().min(out.len());
    let room = &mut out[..n];
    for (i, b) in bytes[..n].iter().enumerate() {
        room[i] = *b;
    }
}
