ghost use Rattle.std.specs.Prelude.{◌+◌, ◌≤◌, length};

use crate::search::Spanned;
use walk::header::{Header, read_header};

// A record in its area: its number, where it begins, its tag and its data.
#[derive(Clone, Copy)]
pub struct Spot<'b> {
    pub number: usize,
    pub place: usize,
    pub head: Header<'b>,
    // its header and data lie in an area
    ghost few: { place + (11 + length head.data.now) ≤ 99996 },
}

impl<'b> Spanned for Spot<'b> {
    ghost from = { λ s. s.place };

    ghost wide = { λ s. 11 + length s.head.data.now };

    fn start(&self) -> usize {
        self.place
    }

    fn width(&self) -> usize {
        11 + self.head.data.len()
    }
}

// The bytes that the finished records of an area are.
#[derive(Clone, Copy)]
pub struct RecordBytes<'b> {
    pub all: &'b [u8],
    // an area has no more
    ghost few: { length all.now ≤ 99996 },
}

// Goes over the records that some bytes are, one behind another.
#[derive(Drop)]
pub struct Records<'b> {
    pub number: usize,
    pub place: usize,
    pub rest: &'b [u8],
}

impl<'b> Records<'b> {
    ghost use Rattle.std.specs.Prelude.{◌≡◌};

    pub fn new(bytes: RecordBytes<'b>) -> Records<'b>
        ensures { (result.number ≡ 0) × (result.place ≡ 0) × (result.rest.now ≡ bytes.entry.all.now) }
    {
        Records {
            number: 0,
            place: 0,
            rest: bytes.all,
        }
    }
}

impl<'b> Iterator for Records<'b> {
    ghost use Rattle.std.specs.Iterator.{at_most};
    ghost use Rattle.area.specs.Going.{Roomy, Goes};

    type Item = Spot<'b>;

    ghost can_next = { Roomy };

    ghost next_gives = { Goes };

    ghost remaining = { λ s. at_most (length s.rest.now) };

    fn next(&mut self) -> Option<Spot<'b>> {
        let Records {
            number,
            place,
            rest,
        } = *self;
        let Ok(head) = read_header(rest, place) else {
            return None;
        };
        let size = 11 + head.data.len();
        *self = Records {
            number: number + 1,
            place: place + size,
            rest: &rest[size..],
        };
        Some(Spot {
            number,
            place,
            head,
        })
    }
}
