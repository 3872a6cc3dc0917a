#![tactic(auto)]

ghost use Rattle.std.specs.Prelude.{◌≡◌, ℕ, List, Option};
ghost use Rattle.kind.specs.Kinds.{Laws, Told, Checked, Spelled, TwoLaws};

pub mod compound;

use refusal::fault::Fault;

// A kind says which spellings of its width read, and as what value. Its values may be parts of the bytes read.
pub trait Kind<'a> {
    type Value: Drop;

    // what the kind reads, as a reader of contracts sees it
    ghost Val: { Type 0 };

    ghost view: { Self.Value → Val };

    ghost wide: { Self → ℕ };

    ghost reads: { Self → List ℕ → Option Val };

    ghost laws: { (k : Self) → Laws (wide k) (reads k) };

    fn width(&self) -> usize
        ensures { result ≡ wide self.now };

    // Whether the bytes read; no value is made. No default goes through read, whose bytes live as long as 'a.
    fn check(&self, s: &[u8]) -> Result<(), Fault>
        ensures { Checked (reads self.now) s.now result };

    fn read(&self, s: &'a [u8]) -> Result<Self::Value, Fault>
        ensures { Told view (reads self.now) s.now result };

    // Writes the bytes that read as the value, or leaves `out` and refuses where no bytes of its length do.
    fn spell(&self, value: &Self::Value, out: &mut [u8]) -> Result<(), Fault>
        ensures { Spelled (reads self.now) (view value.now) out.old out.new result };
}

// The two laws, for every kind.
pub fn laws_of<'a, K: Kind<'a>>() -> u8
    ensures { (k : K) → TwoLaws (K.Kind.wide k) (K.Kind.reads k) }
{
    0
}
