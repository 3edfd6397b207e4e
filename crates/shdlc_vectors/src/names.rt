// Requests and replies by their names, with the value that they carry behind a =.
use crate::words::{byte, cut, number};
use refusal::Refusal;
use replies::{Reading, Reply};
use sfc6::{Request, float_of};
use std::fmt;
use vector_text::Bits;

// The request that a word names, also one whose number is out of its range.
pub(crate) fn request_of(word: &[u8]) -> Option<Request> {
    let (name, value) = cut(word, b'=');
    Some(match name {
        b"GetSetpoint" => Request::GetSetpoint,
        b"SetSetpoint" => Request::SetSetpoint(float_of(number(value))),
        b"MeasuredValue" => Request::MeasuredValue,
        b"GetGain" => Request::GetGain,
        b"SetGain" => Request::SetGain(float_of(number(value))),
        b"GetInitStep" => Request::GetInitStep,
        b"SetInitStep" => Request::SetInitStep(float_of(number(value))),
        b"RawFlow" => Request::RawFlow,
        b"RawConductivity" => Request::RawConductivity,
        b"Temperature" => Request::Temperature,
        b"NumberOfCalibrations" => Request::NumberOfCalibrations,
        b"Validity" => Request::Validity(number(value)),
        b"FullScale" => Request::FullScale,
        b"GetCalibration" => Request::GetCalibration,
        b"SetCalibration" => Request::SetCalibration(number(value)),
        b"VolatileCalibration" => Request::VolatileCalibration(number(value)),
        b"GetAddress" => Request::GetAddress,
        b"SetAddress" => Request::SetAddress(byte(value)),
        b"GetBaud" => Request::GetBaud,
        b"SetBaud" => Request::SetBaud(number(value)),
        b"ProductType" => Request::ProductType,
        _ => return None,
    })
}

#[derive(Clone, Copy)]
pub(crate) struct Asked(pub(crate) Request);

impl fmt::Display for Asked {
    fn fmt<W: fmt::Write>(&self, f: &mut fmt::Formatter<W>) -> fmt::Result {
        match self.0 {
            Request::GetSetpoint => write!(f, "GetSetpoint"),
            Request::SetSetpoint(x) => write!(f, "SetSetpoint=x{}", Bits(x)),
            Request::MeasuredValue => write!(f, "MeasuredValue"),
            Request::GetGain => write!(f, "GetGain"),
            Request::SetGain(x) => write!(f, "SetGain=x{}", Bits(x)),
            Request::GetInitStep => write!(f, "GetInitStep"),
            Request::SetInitStep(x) => write!(f, "SetInitStep=x{}", Bits(x)),
            Request::RawFlow => write!(f, "RawFlow"),
            Request::RawConductivity => write!(f, "RawConductivity"),
            Request::Temperature => write!(f, "Temperature"),
            Request::NumberOfCalibrations => write!(f, "NumberOfCalibrations"),
            Request::Validity(n) => write!(f, "Validity={n}"),
            Request::FullScale => write!(f, "FullScale"),
            Request::GetCalibration => write!(f, "GetCalibration"),
            Request::SetCalibration(n) => write!(f, "SetCalibration={n}"),
            Request::VolatileCalibration(n) => write!(f, "VolatileCalibration={n}"),
            Request::GetAddress => write!(f, "GetAddress"),
            Request::SetAddress(address) => write!(f, "SetAddress={address}"),
            Request::GetBaud => write!(f, "GetBaud"),
            Request::SetBaud(rate) => write!(f, "SetBaud={rate}"),
            Request::ProductType => write!(f, "ProductType"),
        }
    }
}

// A float of a reply: one of the three codings by name, else a value by its bits.
fn reading_of(value: &[u8]) -> Reading {
    match value {
        b"invalid" => Reading::Invalid,
        b"+infinity" => Reading::PlusInfinity,
        b"-infinity" => Reading::MinusInfinity,
        _ => Reading::Finite(float_of(number(value))),
    }
}

#[derive(Clone, Copy)]
struct Read(Reading);

impl fmt::Display for Read {
    fn fmt<W: fmt::Write>(&self, f: &mut fmt::Formatter<W>) -> fmt::Result {
        match self.0 {
            Reading::Finite(x) => write!(f, "x{}", Bits(x)),
            Reading::Invalid => write!(f, "invalid"),
            Reading::PlusInfinity => write!(f, "+infinity"),
            Reading::MinusInfinity => write!(f, "-infinity"),
        }
    }
}

// The last two bytes of a number.
fn raw_of(value: &[u8]) -> u16 {
    let [_, _, high, low] = number(value).to_be_bytes();
    u16::from_be_bytes([high, low])
}

// The reply that a word names: an error, with the code that it carries, where it is none of the others.
pub(crate) fn reply_of(word: &[u8]) -> Reply {
    let (name, value) = cut(word, b'=');
    match name {
        b"Acknowledged" => Reply::Acknowledged,
        b"Setpoint" => Reply::Setpoint(reading_of(value)),
        b"MeasuredValue" => Reply::MeasuredValue(reading_of(value)),
        b"Gain" => Reply::Gain(reading_of(value)),
        b"InitStep" => Reply::InitStep(reading_of(value)),
        b"RawFlow" => Reply::RawFlow(raw_of(value)),
        b"RawConductivity" => Reply::RawConductivity(raw_of(value)),
        b"Temperature" => Reply::Temperature(reading_of(value)),
        b"NumberOfCalibrations" => Reply::NumberOfCalibrations(number(value)),
        b"Validity" => Reply::Validity(matches!(value, b"yes")),
        b"FullScale" => Reply::FullScale(reading_of(value)),
        b"Calibration" => Reply::Calibration(number(value)),
        b"Address" => Reply::Address(byte(value)),
        b"Baud" => Reply::Baud(number(value)),
        b"ProductType" => Reply::ProductType,
        _ => Reply::DeviceError(byte(value)),
    }
}

#[derive(Clone, Copy)]
pub(crate) struct Told(pub(crate) Reply);

impl fmt::Display for Told {
    fn fmt<W: fmt::Write>(&self, f: &mut fmt::Formatter<W>) -> fmt::Result {
        match self.0 {
            Reply::Acknowledged => write!(f, "Acknowledged"),
            Reply::Setpoint(x) => write!(f, "Setpoint={}", Read(x)),
            Reply::MeasuredValue(x) => write!(f, "MeasuredValue={}", Read(x)),
            Reply::Gain(x) => write!(f, "Gain={}", Read(x)),
            Reply::InitStep(x) => write!(f, "InitStep={}", Read(x)),
            Reply::RawFlow(n) => write!(f, "RawFlow={n}"),
            Reply::RawConductivity(n) => write!(f, "RawConductivity={n}"),
            Reply::Temperature(x) => write!(f, "Temperature={}", Read(x)),
            Reply::NumberOfCalibrations(n) => write!(f, "NumberOfCalibrations={n}"),
            Reply::Validity(true) => write!(f, "Validity=yes"),
            Reply::Validity(false) => write!(f, "Validity=no"),
            Reply::FullScale(x) => write!(f, "FullScale={}", Read(x)),
            Reply::Calibration(n) => write!(f, "Calibration={n}"),
            Reply::Address(address) => write!(f, "Address={address}"),
            Reply::Baud(rate) => write!(f, "Baud={rate}"),
            Reply::ProductType => write!(f, "ProductType"),
            Reply::DeviceError(code) => write!(f, "{} code {code}", Refusal::DeviceError(code)),
        }
    }
}
