//! The tokens of plain JSON of what interfaces hold.

use crate::visitor::Plain;
use gob_filled_walk::HeldVisitor;
use gob_num::Memory;
use gob_types::{Shapes, TypeId};

impl<S: Shapes, const TAGGED: bool> HeldVisitor for Plain<'_, S, TAGGED> {
    ghost use Rattle.std.specs.Prelude.{◌≡◌};
    ghost use Rattle.std.proofs.Common.{subst, sym, ◌∙◌};
    ghost use Rattle.gob_plain.specs.HeldEvents.{plain_events, plain_events_all, plain_events_both};
    ghost use Rattle.gob_plain.specs.PlainEvents.{SaysEvents, says_both};
    ghost use Rattle.gob_plain.specs.PutsTokens.{PutSome, put_then};

    ghost hears = { λ old new events. (new.style ≡ old.style) × (new.shapes.now ≡ old.shapes.now)
        × PutSome old.out new.out
        (λ ts. SaysEvents old.style (S.table old.shapes.now) old.place (plain_events TAGGED events) ts new.place) };

    #[inline(always)]
    fn held_begins(&mut self, name: &[u8], _id: TypeId) -> Result<(), Memory> {
        self.place.leaves_name();
        if TAGGED {
            self.out.begin_object()?;
            return self.out.name(name);
        }
        Ok(())
    }

    #[inline(always)]
    fn held_ends(&mut self) -> Result<(), Memory> {
        if TAGGED {
            self.place.leaves_name();
            return self.out.end_object();
        }
        Ok(())
    }

    ghost any = { λ a b es p. (
      p.0,
      p.1,
      subst (λ l. PutSome a.out b.out (λ ts. SaysEvents a.style (S.table a.shapes.now) a.place l ts b.place))
          (sym (plain_events_all TAGGED es)) p.2,
    ) };

    ghost both = { λ a b c x y p q. (
      q.0 ∙ p.0,
      q.1 ∙ p.1,
      subst (λ l. PutSome a.out c.out (λ ts. SaysEvents a.style (S.table a.shapes.now) a.place l ts c.place))
          (sym (plain_events_both TAGGED x y))
          (put_then p.2 (λ xs ys u v. says_both a.style (S.table a.shapes.now) u
          (subst (λ w. SaysEvents w (S.table a.shapes.now) b.place (plain_events TAGGED y) ys c.place) p.0
          (subst (λ w. SaysEvents b.style (S.table w) b.place (plain_events TAGGED y) ys c.place) p.1 v))) q.2),
    ) };
}
