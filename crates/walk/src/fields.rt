ghost use Rattle.std.specs.Prelude.{◌≡◌, ℕ, ◌+◌, ◌^◌, ◌<◌, length};
ghost use Rattle.model.specs.Looks.{Fieldeds};

use book::Book;
use model::seen::Read;
use refusal::fault::{Cause, Fault, at_field};

// Reads the data of a record, which begins at base, field by field; nothing under an unknown tag. A draft may end between two fields.
// Takes the tag and the data apart, since a draft has no header.
pub fn read_fields<'a, B: Book<'a>>(
    book: &B,
    tag: &[u8],
    bytes: &[u8],
    draft: bool, // two callers, one of each: an enum of two words says no more
    base: usize,
) -> Result<Option<Read<B::Mark>>, Fault>
    requires { base + length bytes.now < 2 ^ 32 }
    ensures { Fieldeds (B.Book.means book.now) (B.Book.stands book.now) draft 0 tag.now base bytes.now result }
{
    let Some(mut mark) = book.start(tag) else {
        return Ok(None);
    };
    // Each refusal states the place and the number of the field, so both are kept.
    let mut at = 0;
    let mut count = 0;
    while !draft || at < bytes.len() {
        let place = base + at;
        let Some(field) = book.next(&mark) else {
            if at < bytes.len() {
                return Err(Fault::new(Cause::PastDone, place));
            }
            break;
        };
        let end = at + field.width as usize;
        let Some(spelling) = bytes.get(at..end) else {
            return Err(Fault::new(Cause::EndsEarly, place).in_field(place, count));
        };
        at_field(book.pass(&mut mark, spelling), place, count)?;
        at = end;
        count += 1;
    }
    Ok(Some(Read { mark, count }))
}
