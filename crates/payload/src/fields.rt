// The types of a field.
ghost use Rattle.std.specs.Prelude.{◌≡◌, ◌<◌, ◌≤◌, ℕ, length, take, MatchOption};
ghost use Rattle.payload.specs.Field.{big, bytes_in};
ghost use Rattle.payload.specs.declared.fields.Width.{Width};
ghost use Rattle.payload.specs.declared.fields.Width.TheVariants.{One, Two, Four};

// How many bytes a field takes.
#[derive(Clone, Copy, Debug, PartialEq, Eq)]
pub enum Width {
    One,
    Two,
    Four,
}

impl From<Width> for usize {
    ghost from_gives = { λ width n. n ≡ bytes_in width };

    fn from(width: Width) -> usize {
        match width {
            Width::One => 1,
            Width::Two => 2,
            Width::Four => 4,
        }
    }
}

// A number that stands in a payload as big-endian bytes.
pub trait Field: Copy {
    ghost WIDTH: { Width };

    ghost number: { Self → ℕ };

    const WIDTH: Width;

    // The number that the first bytes stand for, if there are enough.
    fn first_in(bytes: &[u8]) -> Option<Self>
        ensures { MatchOption result (length bytes.now < bytes_in WIDTH) (λ n. (bytes_in WIDTH ≤ length bytes.now) × (number n ≡ big (take (bytes_in WIDTH) bytes.now))) };
}

impl Field for u8 {
    ghost WIDTH = { One };

    ghost number = { λ n. n };

    const WIDTH: Width = Width::One;

    #[tactic(auto, using(crate::proofs::Big::big_1))]
    fn first_in(bytes: &[u8]) -> Option<u8> {
        let one = bytes.first_chunk()?;
        Some(u8::from_be_bytes(*one))
    }
}

impl Field for u16 {
    ghost WIDTH = { Two };

    ghost number = { λ n. n };

    const WIDTH: Width = Width::Two;

    #[tactic(auto, using(crate::proofs::Big::big_2))]
    fn first_in(bytes: &[u8]) -> Option<u16> {
        let two = bytes.first_chunk()?;
        Some(u16::from_be_bytes(*two))
    }
}

impl Field for u32 {
    ghost WIDTH = { Four };

    ghost number = { λ n. n };

    const WIDTH: Width = Width::Four;

    #[tactic(auto, using(crate::proofs::Big::big_4))]
    fn first_in(bytes: &[u8]) -> Option<u32> {
        let four = bytes.first_chunk()?;
        Some(u32::from_be_bytes(*four))
    }
}
