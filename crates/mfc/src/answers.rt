// The structs that C gets, each made of what the other crates answer. Each has the number of a refusal beside its values and a From of its own,
// since C has no Result and no generic types: the C interface.
ghost use Rattle.std.specs.Prelude.{◌≡◌};
ghost use Rattle.refusal.specs.Refusals.{paper, answered, answered_as};
ghost use Rattle.board.specs.Orders.{number_if};
ghost use Rattle.compare.specs.Compare.{counts};
ghost use Rattle.mfc.specs.Answers.{carried_by, written, counted, compared, register, thousandths, quantity};

use compare::Compared;
use refusal::Refusal;

// What a writer answers.
#[repr(C)]
#[derive(Clone, Copy, Debug, Default, PartialEq)]
pub struct MfcWritten {
    // The refusal's number, 0 for none.
    pub refusal: u8,
    // The bytes written.
    pub length: usize,
}

// What reading a request answers.
#[repr(C)]
#[derive(Clone, Copy, Debug, Default, PartialEq)]
pub struct MfcRequest {
    // The refusal's number, 0 for none.
    pub refusal: u8,
    // The address that the request went to.
    pub address: u8,
    // The request's number, 0 to 20.
    pub request: u8,
    // The value that it carries, a float by its bits.
    pub value: u32,
}

// What reading a reply answers.
#[repr(C)]
#[derive(Clone, Copy, Debug, Default, PartialEq)]
pub struct MfcReply {
    // The refusal's number, 0 for none.
    pub refusal: u8,
    // With refusal 15 the device's error code, 1 to 127.
    pub code: u8,
    // Bit 7 of the state, 0 or 1, beside a reply that was read and beside refusal 15.
    pub bit7: u8,
    // The reply's number, 0 to 14.
    pub reply: u8,
    // The value that it carries, a float by its bits, a validity as 0 for no and 1 for yes.
    pub value: u32,
    // Where the text of a product type starts in the body: at 4, also an empty one.
    pub text_start: usize,
    // The bytes of that text.
    pub text_length: usize,
}

// What feeding a receiver answers. Without a refusal, and with frame_length 0, there is no item yet.
#[repr(C)]
#[derive(Clone, Copy, Debug, Default, PartialEq)]
pub struct MfcFed {
    // The refusal's number, 0 for none.
    pub refusal: u8,
    // With refusals 3 and 4 the place of the wrong byte, the 7D or the bare byte, counted from 0 after the 7E that opened its stretch, in
    // the bytes as received; 65,535 for later ones too. With every other answer 0.
    pub place: u16,
    // The length of the body that stands at the start of the lent frame.
    pub frame_length: usize,
    // The bytes taken from the piece.
    pub taken: usize,
}

// What asking a receiver for its noise answers.
#[repr(C)]
#[derive(Clone, Copy, Debug, Default, PartialEq)]
pub struct MfcNoise {
    // The refusal's number, 0 for none.
    pub refusal: u8,
    // The bytes thrown away as noise since the receiver was made; 4,294,967,295 for more too. 0 with a refusal.
    pub count: u32,
}

// What reading words answers, and checking and listing a log.
#[repr(C)]
#[derive(Clone, Copy, Debug, Default, PartialEq)]
pub struct MfcWords {
    // The refusal's number, 0 for none.
    pub refusal: u8,
    // The words stored, the records of a log or the rows listed; with refusal 17 the index of the first word whose CRC is wrong.
    pub count: usize,
}

// What comparing two logs answers. With a refusal both numbers are 0.
#[repr(C)]
#[derive(Clone, Copy, Debug, Default, PartialEq)]
pub struct MfcCompared {
    // The refusal's number, 0 for none.
    pub refusal: u8,
    // The places, as many as the longer log has records.
    pub places: usize,
    // The places at which the records are the same.
    pub same: usize,
}

// What a field edit answers.
#[repr(C)]
#[derive(Clone, Copy, Debug, Default, PartialEq)]
pub struct MfcRegister {
    // The refusal's number, 0 for none.
    pub refusal: u8,
    // The register with the field changed.
    pub value: u16,
}

// What a scaled reading answers.
#[repr(C)]
#[derive(Clone, Copy, Debug, Default, PartialEq)]
pub struct MfcThousandths {
    // The refusal's number, 0 for none.
    pub refusal: u8,
    // The reading in thousandths of the unit.
    pub value: i32,
}

// What a scaled reading in single precision answers.
#[repr(C)]
#[derive(Clone, Copy, Debug, Default, PartialEq)]
pub struct MfcQuantity {
    // The refusal's number, 0 for none.
    pub refusal: u8,
    // The reading in the unit.
    pub value: f32,
}

// The value that a refusal carries beside its number.
fn carried(why: Refusal) -> usize
    ensures { result ≡ carried_by (paper why) }
{
    match why {
        Refusal::BadEscape(place) | Refusal::BareControl(place) => usize::from(place),
        Refusal::DeviceError(code) => usize::from(code),
        Refusal::WrongCrc(index) => index,
        _ => 0,
    }
}

// The refusal's number, 0 for none.
pub(crate) fn number_of(answer: Result<(), Refusal>) -> u8
    ensures { result ≡ number_if (answered answer) }
{
    match answer {
        Ok(()) => 0,
        Err(why) => why.number(),
    }
}

impl From<Result<usize, Refusal>> for MfcWritten {
    ghost from_gives = { λ answer struct. struct ≡ written (answered answer) };

    fn from(answer: Result<usize, Refusal>) -> MfcWritten {
        match answer {
            Ok(length) => MfcWritten { refusal: 0, length },
            Err(why) => MfcWritten {
                refusal: why.number(),
                length: 0,
            },
        }
    }
}

impl From<Result<usize, Refusal>> for MfcWords {
    ghost from_gives = { λ answer struct. struct ≡ counted (answered answer) };

    fn from(answer: Result<usize, Refusal>) -> MfcWords {
        match answer {
            Ok(count) => MfcWords { refusal: 0, count },
            Err(why) => MfcWords {
                refusal: why.number(),
                count: carried(why),
            },
        }
    }
}

impl From<Result<Compared, Refusal>> for MfcCompared {
    ghost from_gives = { λ answer struct. struct ≡ compared (answered_as counts answer) };

    fn from(answer: Result<Compared, Refusal>) -> MfcCompared {
        match answer {
            Ok(found) => MfcCompared {
                refusal: 0,
                places: found.places,
                same: found.same,
            },
            Err(why) => MfcCompared {
                refusal: why.number(),
                ..MfcCompared::default()
            },
        }
    }
}

impl From<Result<u16, Refusal>> for MfcRegister {
    ghost from_gives = { λ answer struct. struct ≡ register (answered answer) };

    fn from(answer: Result<u16, Refusal>) -> MfcRegister {
        match answer {
            Ok(value) => MfcRegister { refusal: 0, value },
            Err(why) => MfcRegister {
                refusal: why.number(),
                value: 0,
            },
        }
    }
}

impl From<Result<i32, Refusal>> for MfcThousandths {
    ghost from_gives = { λ answer struct. struct ≡ thousandths (answered answer) };

    fn from(answer: Result<i32, Refusal>) -> MfcThousandths {
        match answer {
            Ok(value) => MfcThousandths { refusal: 0, value },
            Err(why) => MfcThousandths {
                refusal: why.number(),
                value: 0,
            },
        }
    }
}

impl From<Result<f32, Refusal>> for MfcQuantity {
    ghost from_gives = { λ answer struct. struct ≡ quantity (answered answer) };

    fn from(answer: Result<f32, Refusal>) -> MfcQuantity {
        match answer {
            Ok(value) => MfcQuantity { refusal: 0, value },
            Err(why) => MfcQuantity {
                refusal: why.number(),
                value: 0.0,
            },
        }
    }
}
