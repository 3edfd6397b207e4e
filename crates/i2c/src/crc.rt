// The CRC-8 of the words by two engines that give the same: the plain one computes the eight bits of a byte, the other looks them up.
ghost use Rattle.std.specs.Prelude.{◌≡◌, [], ◌∷◌};
ghost use Rattle.i2c.specs.Crc.{bit_steps, byte_step, crc_of};
ghost use Rattle.i2c.specs.Engines.{table_step, table_crc_of, Steps, Steps-prop};

// Eight bit steps from each byte, 0x00 to 0xFF.
const STEPS: [u8; 256] = *b"\x00\x31\x62\x53\xC4\xF5\xA6\x97\xB9\x88\xDB\xEA\x7D\x4C\x1F\x2E\
    \x43\x72\x21\x10\x87\xB6\xE5\xD4\xFA\xCB\x98\xA9\x3E\x0F\x5C\x6D\
    \x86\xB7\xE4\xD5\x42\x73\x20\x11\x3F\x0E\x5D\x6C\xFB\xCA\x99\xA8\
    \xC5\xF4\xA7\x96\x01\x30\x63\x52\x7C\x4D\x1E\x2F\xB8\x89\xDA\xEB\
    \x3D\x0C\x5F\x6E\xF9\xC8\x9B\xAA\x84\xB5\xE6\xD7\x40\x71\x22\x13\
    \x7E\x4F\x1C\x2D\xBA\x8B\xD8\xE9\xC7\xF6\xA5\x94\x03\x32\x61\x50\
    \xBB\x8A\xD9\xE8\x7F\x4E\x1D\x2C\x02\x33\x60\x51\xC6\xF7\xA4\x95\
    \xF8\xC9\x9A\xAB\x3C\x0D\x5E\x6F\x41\x70\x23\x12\x85\xB4\xE7\xD6\
    \x7A\x4B\x18\x29\xBE\x8F\xDC\xED\xC3\xF2\xA1\x90\x07\x36\x65\x54\
    \x39\x08\x5B\x6A\xFD\xCC\x9F\xAE\x80\xB1\xE2\xD3\x44\x75\x26\x17\
    \xFC\xCD\x9E\xAF\x38\x09\x5A\x6B\x45\x74\x27\x16\x81\xB0\xE3\xD2\
    \xBF\x8E\xDD\xEC\x7B\x4A\x19\x28\x06\x37\x64\x55\xC2\xF3\xA0\x91\
    \x47\x76\x25\x14\x83\xB2\xE1\xD0\xFE\xCF\x9C\xAD\x3A\x0B\x58\x69\
    \x04\x35\x66\x57\xC0\xF1\xA2\x93\xBD\x8C\xDF\xEE\x79\x48\x1B\x2A\
    \xC1\xF0\xA3\x92\x05\x34\x67\x56\x78\x49\x1A\x2B\xBC\x8D\xDE\xEF\
    \x82\xB3\xE0\xD1\x46\x77\x24\x15\x3B\x0A\x59\x68\xFF\xCE\x9D\xAC";

// From how many bytes on the table of two steps is worth its making.
const LONG: usize = 128;

// Eight bits at once. The polynomial says that x^8 is x^5 + x^4 + 1, so eight bit steps are the byte, the byte moved left by 4 and the
// byte moved left by 5. What runs over the top is to be moved likewise, so it is added to the byte first: x / 8 and x / 16 run over, and
// x / 64 is what these two make run over. The remainders take off what would run over.
#[tactic(auto, using(crate::proofs::CrcLaws::fold_steps))]
fn folded(x: u8) -> u8
    ensures { result ≡ bit_steps 8 x }
{
    let y = x ^ (x / 8) ^ (x / 16) ^ (x / 64);
    y ^ ((y % 16) * 16) ^ ((y % 8) * 32)
}

// One byte.
#[tactic(auto, unfolding(crate::specs::Crc::byte_step))]
fn byte_step(c: u8, b: u8) -> u8
    ensures { result ≡ byte_step c b }
{
    folded(c ^ b)
}

// The CRC of bytes from a start value, by the plain engine.
pub fn crc(start: u8, bytes: &[u8]) -> u8
    ensures { result ≡ crc_of start bytes.now }
{
    bytes.iter().fold(start, |c, b| byte_step(c, *b))
}

// A table: the entry of each byte is so many bit steps from it, 8 for the step of one byte and 16 for that of two. The compiler lays the
// entries anew on the stack of each function that makes one, so such a function makes it once and lends it to what goes byte by byte or
// word by word.
#[derive(Drop)]
pub(crate) struct Table<const BITS: usize> {
    entries: [u8; 256],
    ghost steps: { Steps BITS entries } by { Steps-prop BITS entries },
}

impl Table<8> {
    // The table of one step. The one place that names the constant, so that its rule is shown once.
    pub(crate) fn new() -> Self {
        Table { entries: STEPS }
    }

    // One byte.
    #[tactic(auto, unfolding(crate::specs::Engines::table_step))]
    fn step(&self, c: u8, b: u8) -> u8
        ensures { result ≡ table_step self.now.entries c b }
    {
        self.entries[usize::from(c ^ b)]
    }

    // All bytes.
    fn crc(&self, start: u8, bytes: &[u8]) -> u8
        ensures { result ≡ table_crc_of self.now.entries start bytes.now }
    {
        bytes.iter().fold(start, |c, b| self.step(c, *b))
    }

    // The CRC of a word's two bytes.
    #[tactic(auto, using(crate::proofs::Engines::pair_agrees))]
    pub(crate) fn word_crc(&self, start: u8, h: u8, l: u8) -> u8
        ensures { result ≡ crc_of start (h ∷ l ∷ []) }
    {
        self.step(self.step(start, h), l)
    }

    // The table of two steps, which leads from a byte to the register after it and a byte 00. A loop, since with `map` of the array 128 bytes
    // took 1,140 ns in place of 380.
    fn doubled(&self) -> Table<16> {
        let mut entries = [0; 256];
        for (i, entry) in self.entries.iter().enumerate() {
            entries[i] = self.entries[usize::from(*entry)];
        }
        Table { entries }
    }

    // Two bytes at once. The steps are linear, so what the second byte adds does not wait for the first.
    #[tactic(auto, using(crate::proofs::PairLaws::pair_is))]
    fn pair_step(&self, two: &Table<16>, c: u8, a: u8, b: u8) -> u8
        ensures { result ≡ crc_of c (a ∷ b ∷ []) }
    {
        two.entries[usize::from(c ^ a)] ^ self.entries[usize::from(b)]
    }

    // All bytes, two at a time. A function of its own, so that a call with few bytes does not lay the second table.
    #[inline(never)]
    fn crc_by_pairs(&self, start: u8, bytes: &[u8]) -> u8
        ensures { result ≡ crc_of start bytes.now }
    {
        let two = self.doubled();
        let (pairs, last) = bytes.as_chunks::<2>();
        let c = pairs
            .iter()
            .fold(start, |c, [a, b]| self.pair_step(&two, c, *a, *b));
        self.crc(c, last)
    }
}

// The CRC of bytes from a start value, by the table.
#[tactic(auto, using(crate::proofs::Engines::engines_agree))]
pub fn table_crc(start: u8, bytes: &[u8]) -> u8
    ensures { result ≡ crc_of start bytes.now }
{
    let table = Table::new();
    if bytes.len() < LONG {
        return table.crc(start, bytes);
    }
    table.crc_by_pairs(start, bytes)
}
