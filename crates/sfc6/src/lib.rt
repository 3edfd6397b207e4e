// The typed commands of the SFC6 family: the table, and requests written and read.
#![tactic(auto)]

ghost use Rattle.std.specs.Prelude.{◌≡◌, [], ◌∷◌, ◌++◌, ℕ, ◌+◌, ◌-◌, ◌/◌, ◌%◌, ◌≤◌, ◌<◌, Bool, cond, min, ◌&&◌, ltb, eqb, length, take, Ok, Err};
ghost use Rattle.std.specs.Float.{binary32};
ghost use Rattle.std.specs.Float.Ieee.{to_bits, of_bits};
ghost use Rattle.sfc6.specs.declared.Request.{Request as Asked};
ghost use Rattle.sfc6.specs.Commands.{row, table, request_at, place_of, value_of, bauds, member, finite, out_of_range, bad_float, address_to_all};
ghost use Rattle.sfc6.specs.Requests.{check_request, numbered, sub_bytes, value_bytes, data_of, body_at, bytes_of, write_request, write_numbered};
ghost use Rattle.sfc6.specs.Rounds.{append_request, append_numbered, laid_by, poll_round};
ghost use Rattle.sfc6.specs.Reading.{starts_with, named, fitting, first, found_at, carried, typed, read_request};
ghost use Rattle.refusal.specs.Refusals.{answered, answered_as};
ghost use Rattle.refusal.specs.Room.{overlay};
ghost use Rattle.shdlc.specs.Checksum.{sum};
ghost use Rattle.shdlc.specs.Stuffing.{stuff_byte, stuff};
ghost use Rattle.shdlc.specs.Frame.{frame_of, write_frame};
ghost use Rattle.payload.specs.Field.{big_endian};

use payload::Reader;
use refusal::Refusal;
use shdlc::Kind;

mod form;

use form::{Form, Size, form_at};

// A request, with the value that it carries.
#[derive(Clone, Copy, Debug, PartialEq)]
pub enum Request {
    GetSetpoint,
    SetSetpoint(f32),
    MeasuredValue,
    GetGain,
    SetGain(f32),
    GetInitStep,
    SetInitStep(f32),
    RawFlow,
    RawConductivity,
    Temperature,
    NumberOfCalibrations,
    Validity(u32),
    FullScale,
    GetCalibration,
    SetCalibration(u32),
    VolatileCalibration(u32),
    GetAddress,
    SetAddress(u8),
    GetBaud,
    SetBaud(u32),
    ProductType,
}

// What a request carries after its subcommand.
#[derive(Clone, Copy, Debug, PartialEq)]
pub enum Value {
    Nothing,
    Float(f32),
    U32(u32),
    Address(u8),
    Baud(u32),
}

// What the reply carries.
#[derive(Clone, Copy, Debug, PartialEq)]
pub enum Answer {
    Nothing,
    Float,
    U16,
    U32,
    Validity,
    Address,
    Baud,
    Text,
}

// A row of the table of commands.
#[derive(Clone, Copy, Debug, PartialEq)]
pub struct Row {
    pub command: u8,
    pub sub: Option<u8>,
    pub value: Value,
    pub answer: Answer,
}

// What a polling round answers: the frames that it laid, the place after them, and whether one was refused.
#[derive(Clone, Copy, Debug, PartialEq)]
pub struct Round {
    pub frames: usize,
    pub end: usize,
    pub outcome: Result<(), Refusal>,
}

// The number of the last request.
const LAST: usize = 20;

// The bits of a float; of a NaN those of the quiet one.
pub fn bits_of(x: f32) -> u32
    ensures { result ≡ to_bits binary32 x }
{
    if x.is_nan() {
        return 0x7FC0_0000;
    }
    x.to_bits()
}

// The float of its bits; of the bits of any NaN, a NaN.
pub fn float_of(bits: u32) -> f32
    ensures { result ≡ of_bits binary32 bits }
{
    if 0x7F80_0000 < bits % 0x8000_0000 {
        return f32::NAN;
    }
    f32::from_bits(bits)
}

// Whether the exponent's bits are not all ones.
pub fn is_finite(bits: u32) -> bool
    ensures { result ≡ finite bits }
{
    bits / 0x80_0000 % 256 != 255
}

// The rates that the line can run at.
pub const BAUDS: [u32; 5] = [9600, 19200, 38400, 57600, 115200];

// Whether the rate is one of the five.
pub fn is_baud(rate: u32) -> bool
    ensures { result ≡ member rate bauds }
{
    BAUDS.contains(&rate)
}

impl Row {
    fn new(command: u8, sub: Option<u8>, value: Value, answer: Answer) -> Row
        ensures { (result.command ≡ command) × (result.sub ≡ sub) × (result.value ≡ value) × (result.answer ≡ answer) }
    {
        Row {
            command,
            sub,
            value,
            answer,
        }
    }
}

// The table of commands.
#[tactic(auto, unfolding(crate::specs::Commands::row))]
pub fn row_of(request: Request) -> Row
    ensures { result ≡ row request }
{
    match request {
        Request::GetSetpoint => Row::new(0x00, Some(0x01), Value::Nothing, Answer::Float),
        Request::SetSetpoint(x) => Row::new(0x00, Some(0x01), Value::Float(x), Answer::Nothing),
        Request::MeasuredValue => Row::new(0x08, Some(0x01), Value::Nothing, Answer::Float),
        Request::GetGain => Row::new(0x22, Some(0x00), Value::Nothing, Answer::Float),
        Request::SetGain(x) => Row::new(0x22, Some(0x00), Value::Float(x), Answer::Nothing),
        Request::GetInitStep => Row::new(0x22, Some(0x03), Value::Nothing, Answer::Float),
        Request::SetInitStep(x) => Row::new(0x22, Some(0x03), Value::Float(x), Answer::Nothing),
        Request::RawFlow => Row::new(0x30, Some(0x00), Value::Nothing, Answer::U16),
        Request::RawConductivity => Row::new(0x30, Some(0x02), Value::Nothing, Answer::U16),
        Request::Temperature => Row::new(0x30, Some(0x10), Value::Nothing, Answer::Float),
        Request::NumberOfCalibrations => Row::new(0x40, Some(0x00), Value::Nothing, Answer::U32),
        Request::Validity(index) => Row::new(0x40, Some(0x10), Value::U32(index), Answer::Validity),
        Request::FullScale => Row::new(0x44, Some(0x14), Value::Nothing, Answer::Float),
        Request::GetCalibration => Row::new(0x45, None, Value::Nothing, Answer::U32),
        Request::SetCalibration(n) => Row::new(0x45, None, Value::U32(n), Answer::Nothing),
        Request::VolatileCalibration(n) => Row::new(0x46, None, Value::U32(n), Answer::Nothing),
        Request::GetAddress => Row::new(0x90, None, Value::Nothing, Answer::Address),
        Request::SetAddress(a) => Row::new(0x90, None, Value::Address(a), Answer::Nothing),
        Request::GetBaud => Row::new(0x91, None, Value::Nothing, Answer::Baud),
        Request::SetBaud(rate) => Row::new(0x91, None, Value::Baud(rate), Answer::Nothing),
        Request::ProductType => Row::new(0xD0, Some(0x00), Value::Nothing, Answer::Text),
    }
}

// The request at a place of the table, carrying a number; 20 and above are the last. The address to be set is a byte.
fn request_at(place: usize, n: u32) -> Request
    requires { place ≡ 17 → n < 256 }
    ensures { result ≡ request_at place n }
{
    match place {
        0 => Request::GetSetpoint,
        1 => Request::SetSetpoint(float_of(n)),
        2 => Request::MeasuredValue,
        3 => Request::GetGain,
        4 => Request::SetGain(float_of(n)),
        5 => Request::GetInitStep,
        6 => Request::SetInitStep(float_of(n)),
        7 => Request::RawFlow,
        8 => Request::RawConductivity,
        9 => Request::Temperature,
        10 => Request::NumberOfCalibrations,
        11 => Request::Validity(n),
        12 => Request::FullScale,
        13 => Request::GetCalibration,
        14 => Request::SetCalibration(n),
        15 => Request::VolatileCalibration(n),
        16 => Request::GetAddress,
        17 => Request::SetAddress(n as u8),
        18 => Request::GetBaud,
        19 => Request::SetBaud(n),
        _ => Request::ProductType,
    }
}

// 12: an address above 254, or a baud that is none of the five.
fn out_of_range(value: Value) -> bool
    ensures { result ≡ out_of_range value }
{
    match value {
        Value::Address(a) => a > 254,
        Value::Baud(rate) => !is_baud(rate),
        _ => false,
    }
}

// 13: a float that is not finite.
fn bad_float(value: Value) -> bool
    ensures { result ≡ bad_float value }
{
    match value {
        Value::Float(x) => !is_finite(bits_of(x)),
        _ => false,
    }
}

// 10: set slave address sent to address 255.
fn address_to_all(address: u8, value: Value) -> bool
    ensures { result ≡ address_to_all address value }
{
    address == 255 && matches!(value, Value::Address(_))
}

// The refusals of what a request carries, in their order: 12, 13, 10.
#[tactic(auto, unfolding(crate::specs::Requests::check_request))]
fn check_value(address: u8, value: Value) -> Result<(), Refusal>
    ensures { (request : Asked) → (row request).value ≡ value → answered_as (λ _. (address, request)) result ≡ check_request address request }
{
    if out_of_range(value) {
        return Err(Refusal::OutOfRange);
    }
    if bad_float(value) {
        return Err(Refusal::BadFloat);
    }
    if address_to_all(address, value) {
        return Err(Refusal::AddressBroadcast);
    }
    Ok(())
}

// The request's own refusals, in their order: 12, 13, 10.
pub fn check_request(address: u8, request: Request) -> Result<(), Refusal>
    ensures { answered_as (λ _. (address, request)) result ≡ check_request address request }
{
    check_value(address, row_of(request).value)
}

// How many bytes the subcommand takes, and how many the value.
fn sub_size(sub: Option<u8>) -> usize
    ensures { (result ≡ length (sub_bytes sub)) × (result ≤ 1) }
{
    usize::from(sub.is_some())
}

#[tactic(auto, unfolding(payload::specs::Field::big_endian))]
fn value_size(value: Value) -> usize
    ensures { (result ≡ length (value_bytes value)) × (result ≤ 4) }
{
    match value {
        Value::Nothing => 0,
        Value::Address(_) => 1,
        Value::Float(_) | Value::U32(_) | Value::Baud(_) => 4,
    }
}

// How many data bytes a request has.
#[tactic(auto, unfolding(crate::specs::Requests::data_of))]
fn data_size(row: Row) -> usize
    ensures { (result ≡ length (data_of row)) × (result ≤ 5) }
{
    sub_size(row.sub) + value_size(row.value)
}

// Writes a byte, stuffed, at a place with room for two, and answers the place after it. Room and place stand side by side in these writers:
// as fields of one struct each clause would name them through it, and be no plainer.
fn put_byte(out: &mut [u8], place: usize, b: u8) -> usize
    requires { place + 2 ≤ length out.old }
    ensures laid { (result ≡ place + length (stuff_byte b)) × (out.new ≡ overlay out.old place (stuff_byte b)) }
    ensures short { result ≤ place + 2 }
{
    shdlc::put_at(out, place, b).unwrap()
}

// Writes the four bytes of a number, each stuffed, at a place, and answers the place after them.
fn put_four(out: &mut [u8], place: usize, n: u32) -> usize
    requires { place + 8 ≤ length out.old }
    ensures { (result ≡ place + length (stuff (big_endian 4 n))) × (out.new ≡ overlay out.old place (stuff (big_endian 4 n))) }
{
    let [first, second, third, fourth] = n.to_be_bytes();
    let place = put_byte(out, place, first);
    let place = put_byte(out, place, second);
    let place = put_byte(out, place, third);
    put_byte(out, place, fourth)
}

// Writes a number of so many bytes, stuffed, at a place, and answers the place after it.
fn put_number(out: &mut [u8], place: usize, size: Size, n: u32) -> usize
    requires { place + 8 ≤ length out.old }
    ensures { (result ≡ place + length (stuff (big_endian (bytes_of size) n))) × (out.new ≡ overlay out.old place (stuff (big_endian (bytes_of size) n))) }
{
    match size {
        Size::Nothing => place,
        Size::Byte => put_byte(out, place, (n % 0x100) as u8),
        Size::Four => put_four(out, place, n),
    }
}

// The sum of its bytes.
#[tactic(auto, unfolding(shdlc::specs::Checksum::sum, payload::specs::Field::big_endian))]
fn sum_of_number(size: Size, n: u32) -> u32
    ensures { (result ≡ sum (big_endian (bytes_of size) n)) × (result < 1024) }
{
    match size {
        Size::Nothing => 0,
        Size::Byte => n % 0x100,
        Size::Four => n / 0x100_0000 % 0x100 + n / 0x1_0000 % 0x100 + n / 0x100 % 0x100 + n % 0x100,
    }
}

// Writes the front of a frame, and answers the place after it. The command and L go as they are.
fn put_front(out: &mut [u8], address: u8, command: u8, size: u8) -> usize
    requires { 5 ≤ length out.old }
    ensures { (result ≡ length (0x7E ∷ (stuff_byte address ++ (command ∷ size ∷ [])))) × (out.new ≡ overlay out.old 0 (0x7E ∷ (stuff_byte address ++ (command ∷ size ∷ [])))) }
{
    out[0] = 0x7E;
    let place = put_byte(out, 1, address);
    out[place] = command;
    out[place + 1] = size;
    place + 2
}

// Ends a frame whose bytes so far have a sum, and answers the place after it.
fn put_end(out: &mut [u8], place: usize, total: u32) -> usize
    requires { place + 3 ≤ length out.old }
    ensures { (result ≡ place + length (stuff_byte (255 - total % 256) ++ (0x7E ∷ []))) × (out.new ≡ overlay out.old place (stuff_byte (255 - total % 256) ++ (0x7E ∷ []))) }
{
    let last = put_byte(out, place, 255 - (total % 256) as u8);
    out[last] = 0x7E;
    last + 1
}

// Writes the subcommand, if there is one, at a place, and answers the place after it.
fn put_sub(out: &mut [u8], place: usize, sub: Option<u8>) -> usize
    requires { place < length out.old }
    ensures { (result ≡ place + length (sub_bytes sub)) × (out.new ≡ overlay out.old place (sub_bytes sub)) }
{
    let Some(sub) = sub else {
        return place;
    };
    out[place] = sub;
    place + 1
}

// Writes the frame of the request at a place of the table, carrying a number, into room for the longest, and answers its length. No
// command, L or subcommand of the table is a byte that is stuffed, so that these are not tested.
fn lay_at(address: u8, place: usize, n: u32, out: &mut [u8]) -> usize
    requires { (place ≤ 20) × (17 ≤ length out.old) }
    ensures { (result ≤ 17) × (result ≡ length (frame_of (body_at address place n))) × (out.new ≡ overlay out.old 0 (frame_of (body_at address place n))) }
{
    // Never: it tells the compiler that no place below needs a test.
    if out.len() < 17 {
        return 0;
    }
    let form = form_at(place);
    let count = form.data_size();
    let Form(command, sub, size) = form;
    let front = put_front(out, address, command, count);
    let middle = put_sub(out, front, sub);
    let end = put_number(out, middle, size, n);
    let total = u32::from(address)
        + u32::from(command)
        + u32::from(count)
        + u32::from(sub.unwrap_or(0))
        + sum_of_number(size, n);
    put_end(out, end, total)
}

// The number of a request in the table's order, 0 to 20.
#[tactic(auto, unfolding(crate::specs::Commands::place_of))]
pub fn place_of(request: Request) -> usize
    ensures { (result ≡ place_of request) × (result ≤ 20) }
{
    match request {
        Request::GetSetpoint => 0,
        Request::SetSetpoint(_) => 1,
        Request::MeasuredValue => 2,
        Request::GetGain => 3,
        Request::SetGain(_) => 4,
        Request::GetInitStep => 5,
        Request::SetInitStep(_) => 6,
        Request::RawFlow => 7,
        Request::RawConductivity => 8,
        Request::Temperature => 9,
        Request::NumberOfCalibrations => 10,
        Request::Validity(_) => 11,
        Request::FullScale => 12,
        Request::GetCalibration => 13,
        Request::SetCalibration(_) => 14,
        Request::VolatileCalibration(_) => 15,
        Request::GetAddress => 16,
        Request::SetAddress(_) => 17,
        Request::GetBaud => 18,
        Request::SetBaud(_) => 19,
        Request::ProductType => 20,
    }
}

// The number that a request carries, a float by its bits; 0 where it carries none. No Option: C gets the number so, by the definition
// `value_of`.
#[tactic(auto, unfolding(crate::specs::Commands::value_of, crate::specs::Commands::row))]
pub fn value_of(request: Request) -> u32
    ensures { result ≡ value_of request }
{
    match row_of(request).value {
        Value::Nothing => 0,
        Value::Float(x) => bits_of(x),
        Value::U32(n) | Value::Baud(n) => n,
        Value::Address(a) => u32::from(a),
    }
}

// The same into any room, refused where that is too short. A room that might be is given the frame once it is known to fit.
fn lay_numbered(address: u8, place: usize, n: u32, out: &mut [u8]) -> Result<usize, Refusal>
    requires { place ≤ 20 }
    ensures { (answered result, out.new) ≡ write_frame (body_at address place n) out.old }
{
    if 16 < out.len() {
        return Ok(lay_at(address, place, n, out));
    }
    let mut spare = [0u8; 17];
    let end = lay_at(address, place, n, &mut spare);
    if out.len() < end {
        return Err(Refusal::NoRoom);
    }
    out[..end].copy_from_slice(&spare[..end]);
    Ok(end)
}

// Writes the frame of a request at the start of the lent room: 12, 13, 10, 1.
pub fn write_request(address: u8, request: Request, out: &mut [u8]) -> Result<usize, Refusal>
    ensures { (answered result, out.new) ≡ write_request address request out.old }
{
    check_request(address, request)?;
    lay_numbered(address, place_of(request), value_of(request), out)
}

// The request of its number in the table's order, 0 to 20, and of the number that it carries: 11, then 12 for an address that is no byte.
#[tactic(auto, unfolding(crate::specs::Requests::numbered))]
pub fn request_of(place: usize, n: u32) -> Result<Request, Refusal>
    ensures { answered result ≡ numbered place n }
{
    if LAST < place {
        return Err(Refusal::UnknownCommand);
    }
    if place == 17 && 255 < n {
        return Err(Refusal::OutOfRange);
    }
    Ok(request_at(place, n))
}

// The checks of a float by its bits, of an address to be set and of a baud.
fn check_float(bits: u32) -> Result<(), Refusal>
    ensures { result ≡ cond (finite bits) (Ok tt) (Err Refusal.BadFloat) }
{
    if is_finite(bits) {
        return Ok(());
    }
    Err(Refusal::BadFloat)
}

fn check_address(address: u8, n: u32) -> Result<(), Refusal>
    ensures { result ≡ cond (ltb 254 n) (Err Refusal.OutOfRange) (cond (eqb address 255) (Err Refusal.AddressBroadcast) (Ok tt)) }
{
    if 254 < n {
        return Err(Refusal::OutOfRange);
    }
    if address == 255 {
        return Err(Refusal::AddressBroadcast);
    }
    Ok(())
}

fn check_baud(rate: u32) -> Result<(), Refusal>
    ensures { result ≡ cond (member rate bauds) (Ok tt) (Err Refusal.OutOfRange) }
{
    if is_baud(rate) {
        return Ok(());
    }
    Err(Refusal::OutOfRange)
}

// The refusals of the request at a place, carrying a number: 12, 13, 10. It asks the number, and makes no request of it first, which would
// have to be taken apart again.
#[tactic(auto, unfolding(crate::specs::Commands::row, crate::specs::Requests::check_request))]
fn check_at(address: u8, place: usize, n: u32) -> Result<(), Refusal>
    ensures { answered_as (λ _. (address, request_at place n)) result ≡ check_request address (request_at place n) }
{
    match place {
        1 | 4 | 6 => check_float(n),
        17 => check_address(address, n),
        19 => check_baud(n),
        _ => Ok(()),
    }
}

// Writes the frame of a request by its number and the number that it carries: 11 comes first. It is laid into both of C's functions that call
// it: as a function of its own it would hand its answer over in memory, which takes a sixth more of the time of a short request.
#[inline(always)]
pub fn write_numbered(address: u8, place: usize, n: u32, out: &mut [u8]) -> Result<usize, Refusal>
    ensures { (answered result, out.new) ≡ write_numbered address place n out.old }
{
    if LAST < place {
        return Err(Refusal::UnknownCommand);
    }
    check_at(address, place, n)?;
    lay_numbered(address, place, n, out)
}

// Writes the frame of a request into the room that a buffer has left from `start` on. Past its end there is none: 1, but only where
// nothing else is refused.
pub fn append_request(
    buffer: &mut [u8],
    start: usize,
    address: u8,
    request: Request,
) -> Result<usize, Refusal>
    ensures { (answered result, buffer.new) ≡ append_request buffer.old start address request }
{
    let end = start.min(buffer.len());
    write_request(address, request, &mut buffer[end..])
}

// The same by the request's number.
pub fn append_numbered(
    buffer: &mut [u8],
    start: usize,
    address: u8,
    place: usize,
    n: u32,
) -> Result<usize, Refusal>
    ensures { (answered result, buffer.new) ≡ append_numbered buffer.old start address place n }
{
    let from = start.min(buffer.len());
    write_numbered(address, place, n, &mut buffer[from..])
}

// Lays the frames of a polling round one after another from `start` on: the same request to each of the nodes. The first frame that is
// refused ends the round; those before it stand.
pub fn poll_round(buffer: &mut [u8], start: usize, nodes: &[u8], request: Request) -> Round
    ensures { (laid_by result, buffer.new) ≡ poll_round buffer.old start nodes.now request }
{
    let mut end = start;
    for (frames, node) in nodes.iter().enumerate() {
        match append_request(buffer, end, *node, request) {
            Ok(size) => end += size,
            Err(refusal) => {
                return Round {
                    frames,
                    end,
                    outcome: Err(refusal),
                };
            }
        }
    }
    Round {
        frames: nodes.len(),
        end,
        outcome: Ok(()),
    }
}

// Whether the data start with the subcommand, where there is one.
#[tactic(auto, unfolding(crate::specs::Reading::starts_with))]
fn starts_with(sub: Option<u8>, payload: &[u8]) -> bool
    ensures { result ≡ starts_with sub payload.now }
{
    match sub {
        None => true,
        Some(sub) => payload.first() == Some(&sub),
    }
}

// Whether a row has this command and subcommand, and whether it also has as many data bytes.
#[tactic(auto, unfolding(crate::specs::Reading::named))]
fn is_named(row: Row, command: u8, payload: &[u8]) -> bool
    ensures { result ≡ named command payload.now row }
{
    command == row.command && starts_with(row.sub, payload)
}

#[tactic(auto, unfolding(crate::specs::Reading::fitting))]
fn is_fitting(row: Row, command: u8, payload: &[u8]) -> bool
    ensures { result ≡ fitting command payload.now row }
{
    is_named(row, command, payload) && payload.len() == data_size(row)
}

// The first place of the table whose row passes a test.
fn find<F: Fn(Row) -> bool>(passes: F) -> Option<usize>
    requires { F.IsAlwaysCallable passes }
    ensures { (test : Row → Bool) → ((k : ℕ) (b : Bool) → k < 21 → F.post passes (row (request_at k 0)) b → b ≡ test (row (request_at k 0))) → found_at result ≡ first test table }
{
    for place in 0..=LAST {
        if passes(row_of(request_at(place, 0))) {
            return Some(place);
        }
    }
    None
}

// The number that stands after the subcommand.
fn carried(row: Row, payload: &[u8]) -> u32
    requires { length payload.now ≡ length (data_of row) }
    ensures { (result ≡ carried row payload.now) × ((a : ℕ) → row.value ≡ Value.Address a → result < 256) }
{
    let mut reader = Reader {
        payload,
        place: sub_size(row.sub),
    };
    match row.value {
        Value::Nothing => 0,
        Value::Address(_) => u32::from(reader.take::<u8>().unwrap()),
        Value::Float(_) | Value::U32(_) | Value::Baud(_) => reader.take().unwrap(),
    }
}

// The first row that fits, and the first that is named.
fn first_fitting(command: u8, payload: &[u8]) -> Option<usize>
    ensures { found_at result ≡ first (fitting command payload.now) table }
{
    find(|row| is_fitting(row, command, payload))
}

fn first_named(command: u8, payload: &[u8]) -> Option<usize>
    ensures { found_at result ≡ first (named command payload.now) table }
{
    find(|row| is_named(row, command, payload))
}

// Reads a command and its data: 11, then 12 for the length. A row that fits is also named, so that 11 is looked for only where none fits.
fn read_typed(command: u8, payload: &[u8]) -> Result<Request, Refusal>
    ensures { answered result ≡ typed command payload.now }
{
    let Some(place) = first_fitting(command, payload) else {
        return match first_named(command, payload) {
            Some(_) => Err(Refusal::OutOfRange),
            None => Err(Refusal::UnknownCommand),
        };
    };
    let n = carried(row_of(request_at(place, 0)), payload);
    Ok(request_at(place, n))
}

// Reads a request from its unstuffed body, checksum included.
pub fn read_request(body: &[u8]) -> Result<(u8, Request), Refusal>
    ensures { answered result ≡ read_request body.now }
{
    shdlc::check_body(Kind::Request, body)?;
    let end = body.len() - 1;
    let request = read_typed(body[1], &body[3..end])?;
    let address = body[0];
    check_request(address, request)?;
    Ok((address, request))
}
