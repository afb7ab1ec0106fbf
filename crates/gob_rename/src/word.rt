//! Words that say which field has another name in a stream.

ghost use Rattle.std.specs.Prelude.{◌↔◌, IsTrue, MatchResult, map};
ghost use Rattle.gob_rename.specs.Words.{AreSaid, HasEmptyName, IsSaidAt, IsWordFault, IsWordsFault, Says};

use crate::fault::{WordFault, WordsFault};
use crate::rename::Rename;
use gob_num::Memory;
use std::alloc::Global;

impl<'a> Rename<'a> {
    /// What the word says: `OLD=NEW` of all wanted structs, `STRUCT.OLD=NEW` of those of that name. The first equals
    /// sign parts the names of the field, and the last dot before it those of the struct and the field.
    pub fn said_by(word: &'a str) -> Result<Rename<'a>, WordFault>
        ensures { MatchResult result (λ said. Says word.now said × (¬ HasEmptyName said)) (IsWordFault word.now) }
    {
        let Some((place, new)) = word.split_once('=') else {
            return Err(WordFault::NoEqualsSign);
        };
        let said = Rename::at_place(place, new);
        if said.has_empty_name() {
            return Err(WordFault::EmptyName);
        }
        Ok(said)
    }

    // What is said by a word with these around its equals sign.
    fn at_place(place: &'a str, new: &'a str) -> Rename<'a>
        ensures { IsSaidAt place.now new.now result }
    {
        match place.rsplit_once('.') {
            Some((of, old)) => Rename {
                of: Some(of.as_bytes()),
                old: old.as_bytes(),
                new: new.as_bytes(),
            },
            None => Rename {
                of: None,
                old: place.as_bytes(),
                new: new.as_bytes(),
            },
        }
    }

    // Whether one of its names is empty.
    fn has_empty_name(&self) -> bool
        ensures { IsTrue result ↔ HasEmptyName self.now }
    {
        let nameless = match self.of {
            Some(name) => name.is_empty(),
            None => false,
        };
        nameless || self.old.is_empty() || self.new.is_empty()
    }
}

/// What the words say, each one of them, in order, or the first that says nothing.
pub fn renames_said_by<'a>(alloc: Global, words: &[&'a str]) -> Result<Vec<Rename<'a>>, WordsFault>
    ensures { MatchResult result (λ renames. AreSaid (map (λ word. word.now) words.now) renames.items)
        (IsWordsFault (map (λ word. word.now) words.now)) }
{
    let mut renames = Vec::new(alloc);
    for number in 0..words.len() {
        match Rename::said_by(words[number]) {
            Ok(rename) => renames.push(rename).map_err(Memory::from)?,
            Err(fault) => return Err(WordsFault::Word { number, fault }),
        }
    }
    Ok(renames)
}
