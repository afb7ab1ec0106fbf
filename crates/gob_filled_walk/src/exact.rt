//! The exact text of what interfaces hold.

ghost use Rattle.std.specs.Prelude.{Ok, OnOk};
ghost use Rattle.gob_filled_walk.specs.HeldText.{held_head};

use crate::visitor::HeldVisitor;
use gob_json::{Exact, PartOut};
use gob_types::TypeId;

impl<O: PartOut> HeldVisitor for Exact<'_, O> {
    ghost use Rattle.std.specs.Prelude.{◌≡◌, Ok};
    ghost use Rattle.std.proofs.Common.{◌∙◌, subst, sym};
    ghost use Rattle.gob_filled_walk.specs.HeldText.{held_text, held_text_of_all, held_text_of_both};

    ghost hears = { λ old new events. (new.out.ghost_name ≡ old.out.ghost_name)
        × O.puts old.out.now new.out.now (held_text events) (Ok tt) };

    #[inline(always)]
    fn held_begins(&mut self, name: &[u8], id: TypeId) -> Result<(), O::Fault> {
        put_held_head(name, id, self.out)
    }

    #[inline(always)]
    fn held_ends(&mut self) -> Result<(), O::Fault> {
        self.out.put(b"}}")
    }

    ghost any = { λ a b es p. (
      p.0,
      subst (λ t. O.puts a.out.now b.out.now t (Ok tt)) (sym (held_text_of_all es)) p.1,
    ) };

    ghost both = { λ a b c x y p q. (
      q.0 ∙ p.0,
      subst (λ t. O.puts a.out.now c.out.now t (Ok tt)) (sym (held_text_of_both x y))
          (O.joined a.out.now b.out.now c.out.now (held_text x) (held_text y) (Ok tt) p.1 q.1),
    ) };
}

// Puts out what stands before the value that an interface holds.
// head: {"interface":{"name":NAME,"type":ID,"value":
fn put_held_head<O: PartOut>(name: &[u8], id: TypeId, out: &mut O) -> Result<(), O::Fault>
    ensures { OnOk result (O.puts out.old out.new (held_head name.now id) (Ok tt)) }
{
    out.put(b"{\"interface\":{\"name\":")?;
    out.put_text(name)?;
    out.put(b",\"type\":")?;
    out.put_natural(id.0)?;
    out.put(b",\"value\":")
}
