ghost use Rattle.std.specs.Prelude.{◌≡◌, ℕ, ◌+◌, ◌-◌, ◌≤◌, List, [], length, take};
ghost use Rattle.std.specs.Iterator.{at_most};
ghost use Rattle.area.specs.Parts.{Takes, Marked, Onward};

use crate::part::Part;
use book::Book;
use std::marker::PhantomData;
use walk::header::Header;

// The name number and the width of the field that the bytes begin with; the mark is moved past it. With no mark all the bytes are one field.
fn take_field<'a, B: Book<'a>>(
    book: &B,
    mark: &mut Option<B::Mark>,
    rest: &[u8],
) -> Option<(u16, usize)>
    ensures { Takes (B.Book.means book.now) (B.Book.stands book.now) mark.old mark.new rest.now result }
{
    let Some(mark) = mark else {
        return (!rest.is_empty()).then(|| (0, rest.len()));
    };
    let field = book.next(mark)?;
    let width = usize::from(field.width);
    book.pass(mark, rest.get(..width)?).ok()?;
    Some((field.name, width))
}

// Goes over the fields of a record's data. M is the book's mark; there is none under an unknown tag, where all the data is one field.
#[derive(Drop)]
pub struct Fields<'k, 'b, 'a, B, M> {
    pub book: &'k B,
    pub head: Header<'b>,
    pub mark: Option<M>,
    pub number: usize,
    pub at: usize,
    // the book's own lifetime, which no other field names
    pub of: PhantomData<&'a ()>,
}

impl<'k, 'b, 'a, B: Book<'a>> Fields<'k, 'b, 'a, B, B::Mark> {
    pub fn new(book: &'k B, head: Header<'b>) -> Fields<'k, 'b, 'a, B, B::Mark>
        ensures starts { (result.number ≡ 0) × (result.at ≡ 0) × (result.head ≡ head.entry) × (result.book.now ≡ book.now) }
        ensures marked { Marked (B.Book.means book.now) (B.Book.stands book.now) head.entry.tag [] result.mark }
    {
        Fields {
            book,
            head,
            mark: book.start(&head.tag),
            number: 0,
            at: 0,
            of: PhantomData,
        }
    }
}

impl<'k, 'b, 'a, B: Book<'a>> Iterator for Fields<'k, 'b, 'a, B, B::Mark> {
    type Item = Part;

    ghost can_next = { λ s. (s.number ≤ s.at) × (s.at ≤ length s.head.data.now) × Marked (B.Book.means s.book.now) (B.Book.stands s.book.now) s.head.tag (take s.at s.head.data.now) s.mark };

    ghost next_gives = { λ s r t. Onward (B.Book.means s.book.now) s.head.tag s.head.data.now s.number s.at r t.number t.at × (t.head ≡ s.head) × (t.book.now ≡ s.book.now) };

    ghost remaining = { λ s. at_most (length s.head.data.now - s.at) };

    fn next(&mut self) -> Option<Part> {
        let (name, width) = take_field(self.book, &mut self.mark, &self.head.data[self.at..])?;
        let part = Part {
            number: self.number,
            name,
            start: self.at,
            width,
        };
        self.number += 1;
        self.at += width;
        Some(part)
    }

    // The trait's own body, written out: the check doesn't cover that one over a struct with a reference to a book.
    fn size_hint(&self) -> (usize, Option<usize>) {
        (0, None)
    }
}
