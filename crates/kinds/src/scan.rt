ghost use Rattle.std.specs.Prelude.{◌≡◌};
ghost use Rattle.kinds.specs.Bytes.{within, spaces};

// Whether each byte lies from `low` to `high`.
pub fn each_within(s: &[u8], low: u8, high: u8) -> bool
    ensures { result ≡ within low high s.now }
{
    s.iter().all(|b| low <= *b && *b <= high)
}

// Whether each byte is a space.
pub(crate) fn all_spaces(s: &[u8]) -> bool
    ensures { result ≡ spaces s.now }
{
    each_within(s, b' ', b' ')
}
