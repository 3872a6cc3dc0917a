ghost use Rattle.std.specs.Prelude.{◌≡◌, ℕ, ◌+◌, ◌<◌, ◌≤◌, MatchOption, ◌≢◌};
ghost use Rattle.model.specs.Records.{GoodTag, digits5};
ghost use Rattle.model.specs.Walks.{Says};
ghost use Rattle.walk.specs.Heads.{Tells, Heads};

use refusal::fault::{Cause, Fault};

// A record's tag, and its data, which is as long as the header says.
#[derive(Clone, Copy)]
pub struct Header<'a> {
    pub tag: [u8; 6],
    pub data: &'a [u8],
}

// Whether a tag is six bytes from 0x20 to 0x7E, the first no space, with only spaces behind a space.
pub fn good_tag(tag: &[u8]) -> bool
    ensures { Tells result (GoodTag tag.now) }
{
    tag.len() == 6
        && tag[0] != b' '
        && tag.iter().all(|b| matches!(b, 0x20..=0x7e))
        && tag
            .windows(2)
            .all(|pair| pair[0] != b' ' || pair[1] == b' ')
}

// Not the digits of kinds: the walk stands on no kind, only on a book.
fn digit(b: u8) -> Option<usize>
    ensures { MatchOption result (((d : ℕ) → d < 10 → b ≢ 48 + d)) (λ d. (d < 10) × (b ≡ 48 + d)) }
{
    b.is_ascii_digit().then(|| usize::from(b - b'0'))
}

// The number that five digits say.
fn number(digits: [u8; 5]) -> Option<usize>
    ensures { MatchOption result (((n : ℕ) → n ≤ 99999 → digits ≢ digits5 n)) (λ n. (n ≤ 99999) × (digits ≡ digits5 n)) }
{
    let [a, b, c, d, e] = digits;
    Some(digit(a)? * 10000 + digit(b)? * 1000 + digit(c)? * 100 + digit(d)? * 10 + digit(e)?)
}

// The length that a header's five digits say, from 1 to 99985.
fn said(digits: [u8; 5]) -> Option<usize>
    ensures { MatchOption result (((n : ℕ) → Says digits n → ⊥)) (λ n. Says digits n) }
{
    number(digits).filter(|n| (1..=99985).contains(n))
}

// The header that the bytes begin with, which stand at this place, and its data.
pub fn read_header<'a>(bytes: &'a [u8], at: usize) -> Result<Header<'a>, Fault>
    requires { at ≤ 99996 }
    ensures { Heads at bytes.now result }
{
    let [t0, t1, t2, t3, t4, t5, d0, d1, d2, d3, d4, rest @ ..] = bytes else {
        return Err(Fault::new(Cause::CutOff, at));
    };
    let tag = [*t0, *t1, *t2, *t3, *t4, *t5];
    if !good_tag(&tag) {
        return Err(Fault::new(Cause::BadTag, at));
    }
    let Some(length) = said([*d0, *d1, *d2, *d3, *d4]) else {
        return Err(Fault::new(Cause::BadLength, at + 6));
    };
    let Some(data) = rest.get(..length) else {
        return Err(Fault::new(Cause::CutOff, at));
    };
    Ok(Header { tag, data })
}
