ghost use Rattle.std.specs.Prelude.{◌≡◌};
ghost use Rattle.refusal.specs.Faults.{number, layer, layer_number, fault, in_field, in_record, fielded, recorded};

// Why a call is refused, with the number that the refusal goes by.
#[derive(Clone, Copy, PartialEq, Eq, Debug)]
pub enum Cause {
    // The length given passes the limit of an area, or the buffer.
    TooLong = 1,
    // Too few bytes are left for a header, or the length in it passes the end.
    CutOff = 2,
    // The tag breaks the rule of tags.
    BadTag = 3,
    // The length is not five digits, or out of range.
    BadLength = 4,
    // The spelling does not read.
    Unread = 5,
    // The data ends before or inside a field.
    EndsEarly = 6,
    // There is data where the record is done.
    PastDone = 7,
    // There is no such record, field or byte.
    NoSuch = 8,
    // The buffer, or the limit of an area, has too few bytes left.
    NoRoom = 9,
    // A draft is open.
    DraftOpen = 10,
    // No draft is open.
    NoDraft = 11,
    // A width differs, or a change would move the record's fields.
    BadWidth = 12,
    // The caller lent too few entries.
    FewEntries = 13,
    // A row of a form, or a tag of a roll, breaks a rule.
    BadForm = 14,
}

// Which layer of the library refuses.
#[derive(Clone, Copy, PartialEq, Eq, Debug)]
pub enum Layer {
    Area = 1,
    Record = 2,
    Field = 3,
    Form = 4,
}

// A refusal: why, at which byte, and in which record and field, which are 0 where there is none.
#[derive(Clone, Copy, PartialEq, Eq, Debug)]
pub struct Fault {
    pub cause: Cause,
    pub place: usize,
    pub record: usize,
    pub field: usize,
}

impl Cause {
    // The number that a refusal goes by.
    pub fn number(self) -> u8
        ensures { result ≡ number self }
    {
        self as u8
    }

    // The layer that gives it.
    pub fn layer(self) -> Layer
        ensures { result ≡ layer self }
    {
        match self {
            Cause::TooLong
            | Cause::NoSuch
            | Cause::NoRoom
            | Cause::DraftOpen
            | Cause::NoDraft
            | Cause::FewEntries => Layer::Area,
            Cause::CutOff
            | Cause::BadTag
            | Cause::BadLength
            | Cause::EndsEarly
            | Cause::PastDone
            | Cause::BadWidth => Layer::Record,
            Cause::Unread => Layer::Field,
            Cause::BadForm => Layer::Form,
        }
    }
}

// The number that a layer goes by.
impl From<Layer> for u8 {
    ghost from_gives = { λ layer number. number ≡ layer_number layer };

    fn from(layer: Layer) -> u8 {
        layer as u8
    }
}

impl Fault {
    // A refusal of the whole call, with no record and no field.
    pub fn new(cause: Cause, place: usize) -> Fault
        ensures { result ≡ fault cause place 0 0 }
    {
        Fault {
            cause,
            place,
            record: 0,
            field: 0,
        }
    }

    // The same refusal, with the place and number of the field that it arose in.
    pub fn in_field(self, place: usize, field: usize) -> Fault
        ensures { result ≡ in_field self place field }
    {
        Fault {
            place,
            field,
            ..self
        }
    }

    // The same refusal, with the number of the record that it arose in.
    pub fn in_record(self, record: usize) -> Fault
        ensures { result ≡ in_record self «record» }
    {
        Fault { record, ..self }
    }
}

// An outcome whose refusal, if it is one, is joined by the place and number of the field that it arose in.
pub fn at_field<T>(outcome: Result<T, Fault>, place: usize, field: usize) -> Result<T, Fault>
    ensures { result ≡ fielded outcome place field }
{
    outcome.map_err(|f| f.in_field(place, field))
}

// An outcome whose refusal, if it is one, is joined by the number of the record that it arose in.
pub fn at_record<T>(outcome: Result<T, Fault>, record: usize) -> Result<T, Fault>
    ensures { result ≡ recorded outcome «record» }
{
    outcome.map_err(|f| f.in_record(record))
}
