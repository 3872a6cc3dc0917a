#![tactic(auto)]

// The lines of a listing. Each is text of its own, with no newline in it.
ghost use Rattle.std.specs.Prelude.{◌≡◌, map, IfOk, string_bytes, OnOk};
ghost use Rattle.lines.specs.Lines.{shown, three, bracketed, with_line, record_line, field_line, end_line, refusal_line};

use refusal::fault::Fault;
use std::alloc::{AllocError, Global};

// Functions, and no Display: a line is of several values, and its text is the listing's own.

// Of a record: its number, the place of its header, the length of its data, its tag in brackets.
pub fn record_line(
    heap: Global,
    number: usize,
    place: usize,
    length: usize,
    tag: [u8; 6],
) -> Result<String, AllocError>
    ensures { IfOk result (λ s. string_bytes s ≡ record_line number place length tag) }
{
    let text = printed(heap, tag)?;
    in_brackets(heap, number, place, length, text.as_str())
}

// Of a field: its number in the record, its place in the area, its width.
pub fn field_line(
    heap: Global,
    number: usize,
    place: usize,
    width: usize,
) -> Result<String, AllocError>
    ensures { IfOk result (λ s. string_bytes s ≡ field_line number place width) }
{
    numbers(heap, "F", number, place, width)
}

// The last line: how many records the area has, and how many bytes.
pub fn end_line(heap: Global, records: usize, bytes: usize) -> Result<String, AllocError>
    ensures { IfOk result (λ s. string_bytes s ≡ end_line records bytes) }
{
    format!(in heap; "E {records} {bytes}")
}

// Of a refusal: its number, its layer, its place.
pub fn refusal_line(heap: Global, fault: Fault) -> Result<String, AllocError>
    ensures { IfOk result (λ s. string_bytes s ≡ refusal_line fault) }
{
    let number = fault.cause.number();
    let layer = u8::from(fault.cause.layer());
    numbers(
        heap,
        "X",
        usize::from(number),
        usize::from(layer),
        fault.place,
    )
}

// Puts a line and a newline behind a text. Where memory fails, the text may have the line without its end.
pub fn add_line(text: &mut String, line: String) -> Result<(), AllocError>
    ensures { OnOk result (string_bytes text.new ≡ with_line (string_bytes text.old) (string_bytes line)) }
{
    text.push_str(line.as_str())?;
    text.push('\n')?;
    Ok(())
}

// A letter and three numbers, a space before each.
fn numbers(heap: Global, letter: &str, a: usize, b: usize, c: usize) -> Result<String, AllocError>
    ensures { IfOk result (λ s. string_bytes s ≡ three letter.now a b c) }
{
    format!(in heap; "{letter} {a} {b} {c}")
}

// The line of a record whose tag is text already.
fn in_brackets(
    heap: Global,
    number: usize,
    place: usize,
    length: usize,
    tag: &str,
) -> Result<String, AllocError>
    ensures { IfOk result (λ s. string_bytes s ≡ bracketed number place length tag.now) }
{
    format!(in heap; "R {number} {place} {length} [{tag}]")
}

// A tag as text: a byte that does not print stands as a question mark.
fn printed(heap: Global, tag: [u8; 6]) -> Result<String, AllocError>
    ensures { IfOk result (λ s. string_bytes s ≡ map shown tag) }
{
    let mut text = String::new(heap);
    for b in &tag {
        text.push(printable(*b))?;
    }
    Ok(text)
}

fn printable(byte: u8) -> char
    ensures { result ≡ shown byte }
{
    match byte {
        0x20..=0x7E => byte as char,
        _ => '?',
    }
}
