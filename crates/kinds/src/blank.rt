ghost use Rattle.std.specs.Prelude.{◌≡◌, Option};
ghost use Rattle.kind.specs.Kinds.{Told, Checked, Spelled};
ghost use Rattle.kinds.specs.Layers.{blank, blank_laws, seen_some};

use super::layers::Blank;
use super::refuse::no_reading;
use super::scan::all_spaces;
use kind::Kind;
use refusal::fault::Fault;

impl<'a, K: Kind<'a>> Kind<'a> for Blank<K> {
    type Value = Option<K::Value>;

    ghost Val = { Option K.Kind.Val };

    ghost view = { seen_some K.Kind.view };

    ghost wide = { λ k. K.Kind.wide k.below };

    ghost reads = { λ k. blank (K.Kind.wide k.below) (K.Kind.reads k.below) };

    ghost laws = { λ k. blank_laws (K.Kind.laws k.below) };

    fn width(&self) -> usize {
        self.below.width()
    }

    fn check(&self, s: &[u8]) -> Result<(), Fault> {
        if s.len() == self.below.width() && all_spaces(s) {
            return Ok(());
        }
        self.below.check(s)
    }

    fn read(&self, s: &'a [u8]) -> Result<Option<K::Value>, Fault> {
        if s.len() == self.below.width() && all_spaces(s) {
            return Ok(None);
        }
        self.below.read(s).map(Some)
    }

    fn spell(&self, value: &Option<K::Value>, out: &mut [u8]) -> Result<(), Fault> {
        let width = self.below.width();
        if out.len() != width {
            return Err(no_reading());
        }
        match value {
            None => {
                out.fill(b' ');
                Ok(())
            }
            Some(v) => {
                // All spaces say absent, so they spell no value of the kind below.
                // No heap: no kind is wider than 999 bytes.
                let mut kept = [0u8; 999];
                let part = &mut kept[0..width];
                self.below.spell(v, part)?;
                if all_spaces(part) {
                    return Err(no_reading());
                }
                out.copy_from_slice(part);
                Ok(())
            }
        }
    }
}
