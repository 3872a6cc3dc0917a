ghost use Rattle.std.specs.Prelude.{◌≡◌};
ghost use Rattle.issued.specs.Meant.{first_of, past_of, tag_at, tag_of};

use super::table::ROWS;
use kinds::words::same;

// A tag of the book; the table has the tags' rows one behind another.
#[derive(Clone, Copy, PartialEq, Eq, Debug)]
pub enum Tag {
    Aimidb,
    Stdidc,
    Acftb,
}

impl Tag {
    // The tag that is written so, if it is known.
    pub fn of(tag: &[u8]) -> Option<Tag>
        ensures { result ≡ tag_of tag.now }
    {
        if same(tag, b"AIMIDB") {
            Some(Tag::Aimidb)
        } else if same(tag, b"STDIDC") {
            Some(Tag::Stdidc)
        } else if same(tag, b"ACFTB ") {
            Some(Tag::Acftb)
        } else {
            None
        }
    }

    // The tag that row i belongs to.
    pub fn at(i: usize) -> Tag
        ensures { result ≡ tag_at i }
    {
        if i < Tag::Stdidc.first() {
            Tag::Aimidb
        } else if i < Tag::Acftb.first() {
            Tag::Stdidc
        } else {
            Tag::Acftb
        }
    }

    // Its first row.
    pub fn first(self) -> usize
        ensures { result ≡ first_of self }
    {
        match self {
            Tag::Aimidb => 0,
            Tag::Stdidc => 18,
            Tag::Acftb => 36,
        }
    }

    // The row past its last.
    pub fn end(self) -> usize
        ensures { result ≡ past_of self }
    {
        match self {
            Tag::Aimidb => 18,
            Tag::Stdidc => 36,
            Tag::Acftb => ROWS,
        }
    }
}
