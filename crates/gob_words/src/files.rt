//! The files that the words name where a command reads some.

ghost use Rattle.std.specs.Prelude.{◌≡◌, IfOk, map};
ghost use Rattle.clap.specs.Words.{subcommand_of};
ghost use Rattle.gob_words.specs.Views.{files_in};
ghost use Rattle.gob_words.specs.Words.{HasNoFault, program};

use crate::command_line::program;
use crate::matched::words_among;
use clap::error::ErrorKind;
use std::alloc::{AllocError, Global};

/// The names of the files that the words ask to be verified or joined, in order, the program's name first among the
/// words. Words for which [`crate::view_of`] gives neither [`crate::ViewCommand::Verify`] nor
/// [`crate::ViewCommand::Join`] name none.
pub fn files_of<'a>(alloc: Global, words: &'a [&'a str]) -> Result<Vec<&'a str>, AllocError>
    ensures { let asked = map (λ word. word.now) words.entry.now in
        HasNoFault asked → IfOk result (λ files.
        map (λ file. file.now) files.items ≡ files_in (subcommand_of program asked)) }
{
    match program(alloc)?.try_get_matches_from(words) {
        Ok(matches) => words_among(alloc, &matches, "FILE"),
        Err(error) => match error.kind() {
            ErrorKind::OutOfMemory => Err(AllocError),
            _ => Ok(Vec::new(alloc)),
        },
    }
}
