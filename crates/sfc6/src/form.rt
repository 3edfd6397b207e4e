// What the frame of a request has in its row, in the few bytes that the writer needs of it.
ghost use Rattle.std.specs.Prelude.{◌≡◌, ◌+◌, ◌≤◌, length};
ghost use Rattle.sfc6.specs.Commands.{row, request_at};
ghost use Rattle.sfc6.specs.Requests.{sub_bytes, value_bytes, bytes_of};

// How many bytes the number of a request takes.
#[derive(Clone, Copy)]
pub(crate) enum Size {
    Nothing,
    Byte,
    Four,
}

impl From<Size> for u8 {
    ghost from_gives = { λ size n. n ≡ bytes_of size };

    fn from(size: Size) -> u8 {
        match size {
            Size::Nothing => 0,
            Size::Byte => 1,
            Size::Four => 4,
        }
    }
}

// A request's command, its subcommand and the size of its number.
#[derive(Clone, Copy)]
pub(crate) struct Form(pub(crate) u8, pub(crate) Option<u8>, pub(crate) Size);

impl Form {
    // How many data bytes such a request has.
    pub(crate) fn data_size(self) -> u8
        ensures { (result ≡ length (sub_bytes self.1) + bytes_of self.2) × (result ≤ 5) }
    {
        u8::from(self.1.is_some()) + u8::from(self.2)
    }
}

// The forms of the requests in the table's order. They stand beside the rows of `row_of`, since a table of values is quicker for the writer:
// with a match that gives the form mixed requests took 24 ns in place of 17.
pub(crate) static FORMS: [Form; 21] = [
    Form(0x00, Some(0x01), Size::Nothing),
    Form(0x00, Some(0x01), Size::Four),
    Form(0x08, Some(0x01), Size::Nothing),
    Form(0x22, Some(0x00), Size::Nothing),
    Form(0x22, Some(0x00), Size::Four),
    Form(0x22, Some(0x03), Size::Nothing),
    Form(0x22, Some(0x03), Size::Four),
    Form(0x30, Some(0x00), Size::Nothing),
    Form(0x30, Some(0x02), Size::Nothing),
    Form(0x30, Some(0x10), Size::Nothing),
    Form(0x40, Some(0x00), Size::Nothing),
    Form(0x40, Some(0x10), Size::Four),
    Form(0x44, Some(0x14), Size::Nothing),
    Form(0x45, None, Size::Nothing),
    Form(0x45, None, Size::Four),
    Form(0x46, None, Size::Four),
    Form(0x90, None, Size::Nothing),
    Form(0x90, None, Size::Byte),
    Form(0x91, None, Size::Nothing),
    Form(0x91, None, Size::Four),
    Form(0xD0, Some(0x00), Size::Nothing),
];

// The form of the request at a place of the table. Three functions ask for a place of the table: a type for it would be made where a number
// is checked and taken apart here, and the clauses would be no plainer.
pub(crate) fn form_at(place: usize) -> Form
    requires { place ≤ 20 }
    ensures { (result.0 ≡ (row (request_at place 0)).command) × (result.1 ≡ (row (request_at place 0)).sub) × (bytes_of result.2 ≡ length (value_bytes (row (request_at place 0)).value)) }
{
    FORMS[place]
}
