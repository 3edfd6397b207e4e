// Scaled readings. Functions of one shape stand side by side, since C has no generic ones: the C interface.
ghost use Rattle.std.specs.Prelude.{◌≡◌};
ghost use Rattle.reading.specs.Reading.{in_thousandths, quantity};
ghost use Rattle.mfc.specs.Answers as answers;

use crate::answers::{MfcQuantity, MfcThousandths};

// (raw - offset) x 1000 / scale, rounded to nearest, halves away from zero. A word of mfc_read_words is handed in as a signed
// number, (int16_t)words[0]. Refusal 18 for a scale outside 1 to 32,767.
#[unsafe(no_mangle)]
pub extern "C" fn mfc_scaled(raw: i16, offset: i16, scale: i32) -> MfcThousandths
    ensures { result ≡ answers.thousandths (in_thousandths raw offset scale) }
{
    reading::scaled(raw, offset, scale).into()
}

// (raw - offset) / scale in single precision. Refusal 18 for a scale outside 1 to 32,767.
#[unsafe(no_mangle)]
pub extern "C" fn mfc_scaled_float(raw: i16, offset: i16, scale: i32) -> MfcQuantity
    ensures { result ≡ answers.quantity (quantity raw offset scale) }
{
    reading::scaled_float(raw, offset, scale).into()
}
