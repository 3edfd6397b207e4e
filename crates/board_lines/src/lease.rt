// The lease that an argument says in decimal digits.
ghost use Rattle.std.specs.Prelude.{◌≡◌};
ghost use Rattle.board_lines.specs.Lease.{lease_of};

// The number that the digits say, 65,536 for every larger one; 0 for no digits and for a text with another byte in it. No Option: 0 is a
// number that is no lease, as 65,536 is, and the definition `lease_of` says it so.
pub fn lease(text: &[u8]) -> u32
    ensures { result ≡ lease_of text.now }
{
    let mut n = 0;
    for b in text {
        if !b.is_ascii_digit() {
            return 0;
        }
        n = (n * 10 + u32::from(*b - b'0')).min(65536);
    }
    n
}
