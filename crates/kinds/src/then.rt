ghost use Rattle.std.specs.Prelude.{◌≡◌, ◌+◌, ◌++◌, length};
ghost use Rattle.kind.specs.Kinds.{Told, Checked, Spelled};
ghost use Rattle.kinds.specs.declared.layers.Both.{Both};
ghost use Rattle.kinds.specs.Layers.{seq, seq_wide, seq_laws, seen_both};

use super::layers::{Both, Then};
use super::refuse::no_reading;
use kind::Kind;
use refusal::fault::Fault;

fn put_two(front: &[u8], back: &[u8], out: &mut [u8])
    requires { length out.old ≡ length front.now + length back.now }
    ensures { out.new ≡ front.now ++ back.now }
{
    let (head, tail) = out.split_at_mut(front.len());
    head.copy_from_slice(front);
    tail.copy_from_slice(back);
}

impl<'a, K: Kind<'a>, L: Kind<'a>> Kind<'a> for Then<K, L> {
    type Value = Both<K::Value, L::Value>;

    ghost Val = { Both K.Kind.Val L.Kind.Val };

    ghost view = { seen_both K.Kind.view L.Kind.view };

    ghost wide = { λ k. seq_wide (K.Kind.wide k.first) (L.Kind.wide k.second) };

    ghost reads = { λ k. seq (K.Kind.wide k.first) (L.Kind.wide k.second) (K.Kind.reads k.first) (L.Kind.reads k.second) };

    ghost laws = { λ k. seq_laws (K.Kind.laws k.first) (L.Kind.laws k.second) };

    fn width(&self) -> usize {
        let width = self.first.width() + self.second.width();
        if width > 999 { 999 } else { width }
    }

    fn check(&self, s: &[u8]) -> Result<(), Fault> {
        let at = self.first.width();
        let width = at + self.second.width();
        if s.len() != width || width > 999 {
            return Err(no_reading());
        }
        self.first.check(&s[0..at])?;
        self.second.check(&s[at..])
    }

    fn read(&self, s: &'a [u8]) -> Result<Both<K::Value, L::Value>, Fault> {
        let at = self.first.width();
        let width = at + self.second.width();
        if s.len() != width || width > 999 {
            return Err(no_reading());
        }
        let front = self.first.read(&s[0..at])?;
        let back = self.second.read(&s[at..])?;
        Ok(Both { front, back })
    }

    fn spell(&self, value: &Both<K::Value, L::Value>, out: &mut [u8]) -> Result<(), Fault> {
        let at = self.first.width();
        let width = at + self.second.width();
        if out.len() != width || width > 999 {
            return Err(no_reading());
        }
        // No heap: no kind is wider than 999 bytes. Both parts are spelled before one byte is handed over.
        let mut kept = [0u8; 999];
        let front = &mut kept[0..at];
        self.first.spell(&value.front, front)?;
        let mut more = [0u8; 999];
        let back = &mut more[0..width - at];
        self.second.spell(&value.back, back)?;
        put_two(front, back, out);
        Ok(())
    }
}
