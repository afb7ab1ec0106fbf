//! What is told of the fields that values leave out.

ghost use Rattle.std.specs.Prelude.{◌≡◌};
ghost use Rattle.gob_left_out.specs.TallyText.{plural};

use crate::tally::{TalliedField, Tally};
use gob_match::PathText;
use std::fmt;

// So many fields are told one by one.
const TOLD: usize = 20;

impl fmt::Display for Tally {
    ghost use Rattle.std.specs.Prelude.{Some};
    ghost use Rattle.gob_left_out.specs.TallyText.{tally_line};

    ghost output = { λ tally. Some (tally_line tally) };

    fn fmt<W: fmt::Write>(&self, f: &mut fmt::Formatter<W>) -> fmt::Result {
        let Some(first) = self.field_at(0) else {
            return f.write_str("gob: left out nothing");
        };
        let first = FirstText(first);
        let later = LaterText(self);
        let more = MoreText(self.len().saturating_sub(TOLD));
        let verdict = if self.len() == 1 {
            "it isn't wanted"
        } else {
            "they aren't wanted"
        };
        write!(f, "gob: left out {first}{later}{more}: {verdict}")
    }
}

// The first field.
#[derive(Clone, Copy)]
struct FirstText<'a>(&'a TalliedField);

impl fmt::Display for FirstText<'_> {
    ghost use Rattle.std.specs.Prelude.{Some};
    ghost use Rattle.gob_left_out.specs.TallyText.{first_text};

    ghost output = { λ first. Some (first_text first.0.now) };

    fn fmt<W: fmt::Write>(&self, f: &mut fmt::Formatter<W>) -> fmt::Result {
        let path = PathText(&self.0.path);
        let values = self.0.values;
        let s = plural(values);
        write!(f, "{path} of {values} value{s}")
    }
}

// The fields behind the first that are told one by one.
#[derive(Clone, Copy)]
struct LaterText<'a>(&'a Tally);

impl fmt::Display for LaterText<'_> {
    ghost use Rattle.std.specs.Prelude.{Some};
    ghost use Rattle.gob_left_out.specs.TallyText.{all_later_text};

    ghost output = { λ tally. Some (all_later_text tally.0.now) };

    fn fmt<W: fmt::Write>(&self, f: &mut fmt::Formatter<W>) -> fmt::Result {
        for place in 1..self.0.len().min(TOLD) {
            let Some(field) = self.0.field_at(place) else {
                unreachable!()
            };
            let path = PathText(&field.path);
            let values = field.values;
            write!(f, ", {path} of {values}")?;
        }
        Ok(())
    }
}

// How many fields more there are, if any.
#[derive(Clone, Copy)]
struct MoreText(usize);

impl fmt::Display for MoreText {
    ghost use Rattle.std.specs.Prelude.{Some};
    ghost use Rattle.gob_left_out.specs.TallyText.{more_text};

    ghost output = { λ more. Some (more_text more.0) };

    fn fmt<W: fmt::Write>(&self, f: &mut fmt::Formatter<W>) -> fmt::Result {
        let more = self.0;
        if more == 0 {
            return Ok(());
        }
        write!(f, ", and {more} more")
    }
}

// The ending of a noun behind the number.
fn plural(number: u64) -> &'static str
    ensures { result.now ≡ plural number }
{
    if number == 1 { "" } else { "s" }
}
