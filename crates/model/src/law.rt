ghost use Rattle.model.specs.Laws.{ReadingLaw, LookingLaw};

use book::Book;

// What holds of every book: bytes read as one table or are refused in one way, and never both; a table has one spelling.
// The same of a look at an area in its buffer, a draft included.
pub fn reading_law<'a, B: Book<'a>>() -> u8
    ensures reading { (b : B) → ReadingLaw (B.Book.means b) }
    ensures looking { (b : B) → LookingLaw (B.Book.means b) }
{
    0
}
