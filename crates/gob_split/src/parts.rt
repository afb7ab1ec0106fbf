//! Where parts go.

use gob_tool::ToolFault;

/// A part wasn't begun, or not all of it was written. Whoever has the parts keeps the reason.
#[derive(Clone, Copy, Debug, PartialEq, Eq)]
pub struct NotWritten;

impl From<NotWritten> for ToolFault {
    ghost use Rattle.std.specs.Prelude.{◌≡◌};
    ghost use Rattle.gob_tool.specs.declared.fault.ToolFault.TheVariants as fault;

    ghost from_gives = { λ _ given. given ≡ fault.Write };

    fn from(_: NotWritten) -> ToolFault {
        ToolFault::Write
    }
}

/// Where the parts of a stream go, one behind another. After [`NotWritten`] nothing more is sent.
pub trait Parts {
    ghost use Rattle.std.specs.Prelude.{◌≡◌, ℕ, List, [], ◌∷◌, ◌++◌, MatchResult, OnErr, OnOk};
    ghost use Rattle.gob_split.specs.Parts.{SendsTo};

    /// The parts so far have these bytes, one behind another. Where that isn't known, as of files, it never holds.
    ghost are: { Self → List (List ℕ) → Type 0 };

    /// A call has failed.
    ghost has_failed: { Self → Type 0 };

    /// What was sent is out of all buffers.
    ghost is_finished: { Self → Type 0 };

    /// Begins a part behind the others, in which nothing stands yet. Behind a failure there is no part more.
    fn begin(&mut self) -> Result<(), NotWritten>
        ensures begun { (before : List (List ℕ)) → are self.old before
            → MatchResult result (λ _. are self.new (before ++ [] ∷ [])) (λ _. are self.new before) }
        ensures failed { OnErr result (has_failed self.new) };

    /// Sends bytes behind those of the last part. Behind a failure a prefix of them stands there.
    fn send(&mut self, bytes: &[u8]) -> Result<(), NotWritten>
        ensures sent { (before : List (List ℕ)) (last : List ℕ) → are self.old (before ++ last ∷ [])
            → SendsTo (are self.new) before last bytes.now result }
        ensures failed { OnErr result (has_failed self.new) };

    /// Puts out what is buffered of the last part, if there is one.
    fn finish(&mut self) -> Result<(), NotWritten>
        ensures same { (all : List (List ℕ)) → are self.old all → are self.new all }
        ensures finished { OnOk result (is_finished self.new) }
        ensures failed { OnErr result (has_failed self.new) };
}
