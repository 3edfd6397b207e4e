// Whether two byte strings are the same, by blocks of a fixed width: the compiler tests such a block at once.
ghost use Rattle.std.specs.Prelude.{◌≡◌, ◌≤◌, length};
ghost use Rattle.compare.specs.Compare.{same_bytes};

// Of two blocks. All bytes are looked at: an early end would be a test for each byte.
fn same_block(x: &[u8], y: &[u8]) -> bool
    ensures { result ≡ same_bytes x.now y.now }
{
    x.len() == y.len() && x.iter().zip(y).fold(0, |found, (a, b)| found | (a ^ b)) == 0
}

// Of two strings of one length, by blocks of so many bytes; the last block is that at the end, which may have bytes of the one before.
fn same_by(x: &[u8], y: &[u8], width: usize) -> bool
    requires { (length x.now ≡ length y.now) × (1 ≤ width) × (width ≤ length x.now) }
    ensures { result ≡ same_bytes x.now y.now }
{
    for (a, b) in x.chunks_exact(width).zip(y.chunks_exact(width)) {
        if !same_block(a, b) {
            return false;
        }
    }
    let last = x.len() - width;
    same_block(&x[last..], &y[last..])
}

pub(crate) fn same_bytes(x: &[u8], y: &[u8]) -> bool
    ensures { result ≡ same_bytes x.now y.now }
{
    if x.len() != y.len() {
        return false;
    }
    match x.len() {
        0..4 => same_block(x, y),
        4..8 => same_by(x, y, 4),
        8..16 => same_by(x, y, 8),
        16..64 => same_by(x, y, 16),
        64.. => same_by(x, y, 64),
    }
}
