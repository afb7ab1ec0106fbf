//! What the words of the command line can ask to be shown.

ghost use Rattle.std.specs.Prelude.{◌≡◌, ◌≤◌};
ghost use Rattle.gob_words.specs.ViewDepths.{greatest_view_depth};

use crate::kinds::TypeKind;
use crate::words::OrderFault;
use std::alloc::AllocError;
use std::fmt;
use thiserror::Error;

// The greatest depth that can be asked for: that of a value which is written as plain JSON, and of one in which
// interfaces hold others.
pub(crate) const GREATEST_DEPTH: u64 = 1000;

/// What the program is to show.
#[derive(Clone, Copy, Debug, PartialEq, Eq)]
pub enum ViewCommand {
    /// Each value as a line of plain JSON.
    Values,
    /// The types as Go source.
    Types,
    /// Why the stream is refused, in words, or how much is in a whole one.
    Why,
    /// The bytes, row by row, each with what it is.
    Explain,
    /// Whether each of some files is a whole stream, and how much there is in it.
    Verify,
    /// What isn't damaged of a stream, in its own bytes, as one stream.
    Salvage,
    /// A stream as files of a directory, each a whole stream.
    Split,
    /// The values of some streams, in order, as one stream.
    Join,
    /// The stream that lines of JSON say, as `show` prints them.
    Write,
    /// The stream of the values that plain JSON says.
    Make,
    /// The program's name and version.
    Version,
    /// Each item of a stream of Go's encoder as a line of JSON, with what interfaces hold.
    ShowGo,
    /// How many items, types and bytes a whole stream of Go's encoder has, with what interfaces hold.
    CheckGo,
    /// The stream of the items of one of Go's encoder in their tidy form, with what interfaces hold.
    RewriteGo,
}

/// What the words ask to be shown. [`ViewCommand::Version`] reads no file, and its other fields are the usual ones. The
/// files of [`ViewCommand::Verify`] and [`ViewCommand::Join`] are those of [`crate::files_of`], and `input` is none of
/// them. The directory of [`ViewCommand::Split`] is that of [`crate::splitting_of`], and the
/// types of [`ViewCommand::Make`] are those of [`crate::making_of`].
#[derive(Debug, Drop)]
pub struct View<'a> {
    /// What to show.
    pub command: ViewCommand,
    /// The name of the file that is read. None: standard input, which the word `-` stands for too.
    pub input: Option<&'a str>,
    /// The greatest depth of a value: 1 to 1000.
    pub depth: u64,
    /// The most bytes of an item's body.
    pub item: u64,
    /// Whether absent fields are shown too, as zeros: for [`ViewCommand::Values`] alone.
    pub zeros: bool,
    /// Whether values of types that encode themselves are shown in base64: for [`ViewCommand::Values`] alone.
    pub raw: bool,
    /// Whether what an interface holds is shown under the name of its type: for [`ViewCommand::Values`] alone.
    pub tagged: bool,
    /// Whether each value is shown under the name of its type: for [`ViewCommand::Values`] alone.
    pub typed: bool,
    /// The name or the id of the type whose values alone are shown: for [`ViewCommand::Values`] alone.
    pub only: Option<&'a str>,
    /// Whether each element of a list or a map is shown on a line of its own: for [`ViewCommand::Values`] alone.
    pub each: bool,
    /// What is said of types whose values encode themselves, in the order of the words; of two that say something of
    /// one type, the later counts. For [`ViewCommand::Values`] alone.
    pub kinds: Vec<TypeKind>,
    /// Whether a program is printed that reads the stream and prints its values: for [`ViewCommand::Types`] alone.
    pub main: bool,
    /// Whether it is told on standard error how far the reading is: for [`ViewCommand::Values`], `Types`, `Verify`,
    /// `ShowGo` and `CheckGo` alone.
    pub progress: bool,
    /// Whether what is shown is what isn't damaged, as [`ViewCommand::Salvage`] keeps it: for [`ViewCommand::Values`],
    /// `Types` and `ShowGo` alone.
    pub salvage: bool,
    /// Whether each definition in a value stands in an item of its own before the value's: for
    /// [`ViewCommand::RewriteGo`] alone.
    pub hoist: bool,
    /// Whether the item that is refused is shown alone: for [`ViewCommand::Explain`] alone.
    pub fault: bool,
    /// The offset in the stream of a byte of the item that is shown alone: for [`ViewCommand::Explain`] alone, where
    /// `fault` isn't asked for.
    pub at: Option<u64>,
    /// The most bytes of a line, with its line feed: for [`ViewCommand::Write`] and `Make` alone.
    pub line: u64,
    /// Whether the lines are those that [`ViewCommand::ShowGo`] prints: for [`ViewCommand::Write`] alone.
    pub go: bool,
    pub ghost least: { 1 ≤ depth },
    pub ghost most: { depth ≤ greatest_view_depth },
}

/// Why the words ask for nothing to be shown. Display writes what the program prints then, without the last line feed.
#[derive(Debug, Drop, Error)]
pub enum ViewFault {
    /// They name one of the commands, and this line says which word of its is wrong, and why. It has no character that
    /// a terminal would obey.
    Word(String),
    /// They ask for help or name none of the commands, or no memory was had.
    Order(OrderFault),
}

impl fmt::Display for ViewFault {
    ghost use Rattle.std.specs.Prelude.{Some};
    ghost use Rattle.gob_words.specs.Views.{view_line};

    ghost output = { λ fault. Some (view_line fault) };

    fn fmt<W: fmt::Write>(&self, f: &mut fmt::Formatter<W>) -> fmt::Result {
        match self {
            ViewFault::Word(line) => write!(f, "gob: {line}"),
            ViewFault::Order(fault) => write!(f, "{fault}"),
        }
    }
}

impl From<AllocError> for ViewFault {
    ghost use Rattle.std.specs.Prelude.{◌≡◌};
    ghost use Rattle.gob_words.specs.declared.view.ViewFault.TheVariants.{Order};
    ghost use Rattle.gob_words.specs.declared.words.OrderFault.TheVariants.{Memory};

    ghost from_gives = { λ _ fault. fault ≡ Order Memory };

    fn from(_: AllocError) -> ViewFault {
        ViewFault::Order(OrderFault::Memory)
    }
}

impl ViewFault {
    ghost use Rattle.gob_words.specs.Views.{view_status};

    /// The exit status of the program after it: 0 where help was asked for, else 2.
    pub fn status(&self) -> u8
        ensures { result ≡ view_status self.now }
    {
        match self {
            ViewFault::Word(_) => 2,
            ViewFault::Order(fault) => fault.status(),
        }
    }
}
