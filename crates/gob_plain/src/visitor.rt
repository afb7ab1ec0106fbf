//! The tokens of plain JSON, as a visitor is told of a value.

ghost use Rattle.std.specs.Prelude.{◌≡◌, ◌≢◌, true, false};
ghost use Rattle.gob_plain.specs.declared.visitor.VisitorPlace.TheVariants as place;

use crate::line::Line;
use crate::maps::{gives_names, is_interface};
use crate::style::Style;
use gob_num::Memory;
use gob_types::{Field, Fields, Kind, Shape, Shapes, TypeId};
use gob_walk::{Visitor, WalkEnd};

/// Where a visitor is in what it is told.
#[derive(Clone, Copy)]
pub(crate) enum VisitorPlace {
    /// Between two parts.
    Free,
    /// Before a key that gives a member its name.
    Name,
    /// Behind a part that stood in place of a name, which it does in no value, or in a map that may be an object or an
    /// array: what is written says nothing.
    Lost,
}

/// Puts into a line what it is told of a value. What interfaces hold is shown by its name where it is `TAGGED`.
#[derive(Drop)]
pub(crate) struct Plain<'a, S: Shapes, const TAGGED: bool> {
    /// The types by which absent fields have zeros.
    pub(crate) shapes: &'a S,
    /// How values are written.
    pub(crate) style: Style<'a>,
    /// Where it is.
    pub(crate) place: VisitorPlace,
    /// What is told.
    pub(crate) out: Line,
}

/// Nothing is made once of a struct's fields.
#[derive(Drop)]
pub(crate) struct NoHeads;

impl VisitorPlace {
    // Whether a name is due; then the next part is behind it.
    #[inline(always)]
    fn takes_name(&mut self) -> bool
        ensures name { result ≡ true → (self.old ≡ place.Name) × (self.new ≡ place.Free) }
        ensures other { result ≡ false → (self.old ≢ place.Name) × (self.new ≡ self.old) }
    {
        if let VisitorPlace::Name = *self {
            *self = VisitorPlace::Free;
            return true;
        }
        false
    }

    // A name is due, where this is between two parts.
    #[inline(always)]
    fn expects_name(&mut self)
        ensures free { self.old ≡ place.Free → self.new ≡ place.Name }
        ensures lost { self.old ≡ place.Lost → self.new ≡ place.Lost }
    {
        if let VisitorPlace::Free = *self {
            *self = VisitorPlace::Name;
        }
    }

    // What comes is no name.
    #[inline(always)]
    pub(crate) fn leaves_name(&mut self)
        ensures free { self.old ≡ place.Free → self.new ≡ place.Free }
        ensures lost { self.old ≢ place.Free → self.new ≡ place.Lost }
    {
        if let VisitorPlace::Name = *self {
            *self = VisitorPlace::Lost;
        }
    }

    // What is written says nothing from here on.
    #[inline(always)]
    fn gets_lost(&mut self)
        ensures { self.new ≡ place.Lost }
    {
        *self = VisitorPlace::Lost;
    }
}

impl<S: Shapes, const TAGGED: bool> Visitor for Plain<'_, S, TAGGED> {
    ghost use Rattle.std.specs.Prelude.{◌≡◌, ⊤};
    ghost use Rattle.std.proofs.Common.{refl, subst, ◌∙◌};
    ghost use Rattle.std.proofs.lemmas.Result.{on_ok_weaker};
    ghost use Rattle.gob_plain.specs.PlainEvents.{SaysEvents, says_both, says_nothing};
    ghost use Rattle.gob_plain.specs.PutsTokens.{PutsSome, nothing_put, put_then};

    type Fault = Memory;

    type Heads = NoHeads;

    ghost tells = { λ old new events result. (new.style ≡ old.style) × (new.shapes.now ≡ old.shapes.now)
        × PutsSome result old.out new.out
        (λ ts. SaysEvents old.style (S.table old.shapes.now) old.place events ts new.place) };

    ghost heads_of = { λ k h. ⊤ };

    #[inline(always)]
    fn truth(&mut self, truth: bool) -> Result<(), Memory> {
        if self.place.takes_name() {
            return self.out.known_name("");
        }
        self.out.boolean(truth)
    }

    #[inline(always)]
    fn int(&mut self, number: i64) -> Result<(), Memory> {
        if self.place.takes_name() {
            return self.out.signed_name(number);
        }
        self.out.i64(number)
    }

    #[inline(always)]
    fn uint(&mut self, number: u64) -> Result<(), Memory> {
        if self.place.takes_name() {
            return self.out.uint_name(number);
        }
        self.out.u64(number)
    }

    #[inline(always)]
    fn float(&mut self, pattern: u64) -> Result<(), Memory> {
        if self.place.takes_name() {
            return self.out.known_name("");
        }
        self.out.float(pattern)
    }

    #[inline(always)]
    fn complex(&mut self, real: u64, imaginary: u64) -> Result<(), Memory> {
        if self.place.takes_name() {
            return self.out.known_name("");
        }
        self.out.complex(real, imaginary)
    }

    #[inline(always)]
    fn bytes(&mut self, bytes: &[u8]) -> Result<(), Memory> {
        if self.place.takes_name() {
            return self.out.known_name("");
        }
        self.out.bytes(bytes)
    }

    #[inline(always)]
    fn text(&mut self, bytes: &[u8]) -> Result<(), Memory> {
        if !self.place.takes_name() {
            return self.out.text(bytes);
        }
        if self.out.key(bytes)? {
            return Ok(());
        }
        // another key may give this name
        self.place.gets_lost();
        Ok(())
    }

    #[inline(always)]
    fn nil(&mut self) -> Result<(), Memory> {
        if self.place.takes_name() {
            return self.out.known_name("");
        }
        self.out.null()
    }

    #[inline(always)]
    fn raw(&mut self, shape: &Shape, bytes: &[u8]) -> Result<(), Memory> {
        self.place.leaves_name();
        self.out.guessed(shape, bytes, self.style.raw)
    }

    #[inline(always)]
    fn list_begins(&mut self) -> Result<(), Memory> {
        self.place.leaves_name();
        self.out.begin_array()
    }

    #[inline(always)]
    fn element(&mut self, _later: bool) -> Result<(), Memory> {
        self.place.leaves_name();
        Ok(())
    }

    #[inline(always)]
    fn list_ends(&mut self) -> Result<(), Memory> {
        self.place.leaves_name();
        self.out.end_array()
    }

    #[inline(always)]
    fn ints(
        &mut self,
        count: u64,
        body: &[u8],
        begin: usize,
        known: bool,
    ) -> Result<usize, WalkEnd<Memory>> {
        self.place.leaves_name();
        self.out.ints(count, body, begin, known)
    }

    #[inline(always)]
    fn map_begins(&mut self, key: TypeId) -> Result<(), Memory> {
        self.place.leaves_name();
        if is_interface(key) {
            self.place.gets_lost();
            return Ok(());
        }
        if gives_names(key) {
            return self.out.begin_object();
        }
        self.out.begin_array()
    }

    #[inline(always)]
    fn entry(&mut self, key: TypeId, _later: bool) -> Result<(), Memory> {
        self.place.leaves_name();
        if gives_names(key) {
            self.place.expects_name();
            return Ok(());
        }
        self.out.begin_array()
    }

    #[inline(always)]
    fn between(&mut self, _key: TypeId) -> Result<(), Memory> {
        self.place.leaves_name();
        Ok(())
    }

    #[inline(always)]
    fn entry_ends(&mut self, key: TypeId) -> Result<(), Memory> {
        self.place.leaves_name();
        if gives_names(key) {
            return Ok(());
        }
        self.out.end_array()
    }

    #[inline(always)]
    fn map_ends(&mut self, key: TypeId) -> Result<(), Memory> {
        self.place.leaves_name();
        if gives_names(key) {
            return self.out.end_object();
        }
        self.out.end_array()
    }

    #[inline(always)]
    fn heads(_kind: &Kind, _count: u64, _known: bool) -> Option<NoHeads> {
        None
    }

    #[inline(always)]
    fn struct_begins(&mut self) -> Result<(), Memory> {
        self.place.leaves_name();
        self.out.begin_object()
    }

    #[inline(always)]
    fn field(
        &mut self,
        _heads: Option<&NoHeads>,
        types: &Fields,
        next: u64,
        number: u64,
        field: &Field,
    ) -> Result<(), Memory> {
        self.place.leaves_name();
        self.out
            .absent(types.as_slice(), next..number, self.shapes, self.style)?;
        self.out.name(field.name.as_bytes())
    }

    #[inline(always)]
    fn field_ends(&mut self) -> Result<(), Memory> {
        self.place.leaves_name();
        Ok(())
    }

    #[inline(always)]
    fn struct_ends(&mut self, types: &Fields, next: u64) -> Result<(), Memory> {
        self.place.leaves_name();
        let count = types.count();
        self.out
            .absent(types.as_slice(), next..count, self.shapes, self.style)?;
        self.out.end_object()
    }

    ghost nothing = { λ a. (refl, refl, nothing_put says_nothing) };

    ghost joined = { λ a b c x y r p q. (
      q.0 ∙ p.0,
      q.1 ∙ p.1,
      on_ok_weaker r (put_then p.2 (λ xs ys u v. says_both a.style (S.table a.shapes.now) u
          (subst (λ w. SaysEvents w (S.table a.shapes.now) b.place y ys c.place) p.0
          (subst (λ w. SaysEvents b.style (S.table w) b.place y ys c.place) p.1 v)))) q.2,
    ) };

    ghost cut = { λ a b x y e p. (p.0, p.1, tt) };
}
