ghost use Rattle.std.specs.Prelude.{◌≡◌, ℕ, ◌+◌, ◌<◌, ◌≤◌, length, MatchOption, slice_index_or};
ghost use Rattle.area.specs.Spans.{Rising, Held};

use crate::answer::Entry;

// Anything that takes up bytes: where it begins, and how many they are.
pub trait Spanned {
    ghost from: { Self → ℕ };

    ghost wide: { Self → ℕ };

    fn start(&self) -> usize
        ensures { result ≡ from self.now };

    fn width(&self) -> usize
        ensures { result ≡ wide self.now };
}

// A run of bytes, for parts that are no more than that.
#[derive(Clone, Copy, PartialEq, Eq, Debug)]
pub struct Span {
    pub start: usize,
    pub width: usize,
}

impl Spanned for Span {
    ghost from = { λ s. s.start };

    ghost wide = { λ s. s.width };

    fn start(&self) -> usize {
        self.start
    }

    fn width(&self) -> usize {
        self.width
    }
}

impl Spanned for Entry {
    ghost from = { λ e. e.place };

    ghost wide = { λ e. e.width };

    fn start(&self) -> usize {
        self.place
    }

    fn width(&self) -> usize {
        self.width
    }
}

// The number of the part that holds byte n. Parts that rise, none before the end of the one before, are searched in full.
pub fn search<S: Spanned>(parts: &[S], n: usize) -> Option<usize>
    ensures { MatchOption result
        (Rising S.Spanned.from S.Spanned.wide parts.now → (k : ℕ) (d : S) → k < length parts.now → Held S.Spanned.from S.Spanned.wide n (slice_index_or parts.now k d) → ⊥)
        (λ i. (i < length parts.now) × ((d : S) → Held S.Spanned.from S.Spanned.wide n (slice_index_or parts.now i d))) }
{
    // No library method halves a slice of a trait's entries by two bounds.
    let mut lo = 0;
    let mut hi = parts.len();
    while lo < hi {
        let mid = lo + (hi - lo) / 2;
        let p = &parts[mid];
        let s = p.start();
        if n < s {
            hi = mid;
        } else if n - s < p.width() {
            return Some(mid);
        } else {
            lo = mid + 1;
        }
    }
    None
}
