//! Lines put out one behind another, up to the first fault.

ghost use Rattle.std.specs.Prelude.{◌≡◌, [], None};
ghost use Rattle.gob_explain.specs.Column.{IsSomeLine};
ghost use Rattle.gob_explain.specs.Machine.Putting.{PutsLine};
ghost use Rattle.gob_explain.specs.Putting.{PutsMore, PutsOn};

use crate::text::lines::push_line;
use gob_json::TextOut;
use gob_words::escaped;
use std::alloc::{AllocError, Global};

/// Why lines were not all put out.
#[derive(Debug, Drop)]
pub enum LineFault<E> {
    /// There was no memory for a line.
    Memory,
    /// The output took no more.
    Out(E),
}

impl<E> From<AllocError> for LineFault<E> {
    ghost use Rattle.std.specs.Prelude.{◌≡◌};
    ghost use Rattle.gob_explain.specs.declared.text.lines_out.LineFault.TheVariants as fault;

    ghost from_gives = { λ _ given. given ≡ fault.Memory };

    fn from(_: AllocError) -> LineFault<E> {
        LineFault::Memory
    }
}

/// Puts lines out one behind another, and keeps the first fault. Behind it none is put out: so whoever makes lines goes
/// on to the end of what they show, and what was put out is a prefix of all of them.
#[derive(Drop)]
pub struct LinesOut<O: TextOut> {
    /// Where the lines go.
    pub out: O,
    /// The first fault, if there was one.
    pub fault: Option<LineFault<O::Fault>>,
    alloc: Global,
    // The line that is made.
    line: String,
}

impl<O: TextOut> LinesOut<O> {
    /// No line is put out yet.
    pub fn new(alloc: Global, out: O) -> LinesOut<O>
        ensures out { result.out ≡ out }
        ensures fault { result.fault ≡ None }
    {
        LinesOut {
            out,
            fault: None,
            alloc,
            line: String::new(alloc),
        }
    }

    /// The output, and the first fault, if there was one.
    pub fn into_parts(self) -> (O, Option<LineFault<O::Fault>>)
        ensures out { result.0 ≡ self.out }
        ensures fault { result.1 ≡ self.fault }
    {
        let LinesOut {
            out,
            fault,
            alloc: _,
            line: _,
        } = self;
        (out, fault)
    }

    /// Whether there was a fault.
    pub(crate) fn has_failed(&self) -> bool {
        self.fault.is_some()
    }

    /// Keeps that there was no memory for a line.
    pub(crate) fn want_memory(&mut self)
        ensures { PutsOn O.puts self.old.out self.old.fault self.new.out self.new.fault [] }
    {
        if self.fault.is_none() {
            self.fault = Some(LineFault::Memory);
        }
    }

    /// Puts out the line of bytes that stand at an offset of a stream, and what they are so many levels deep, if there
    /// was memory to say it. Of that each character is escaped that a terminal obeys, so it is one line.
    pub(crate) fn put_line(
        &mut self,
        offset: u64,
        bytes: &[u8],
        levels: u64,
        meaning: Result<String, AllocError>,
    )
        ensures { PutsMore O.puts self.old.out self.old.fault self.new.out self.new.fault
            (IsSomeLine offset bytes.now levels) }
    {
        if self.fault.is_some() {
            return;
        }
        match self.put_next(offset, bytes, levels, meaning) {
            Ok(()) => {}
            Err(fault) => self.fault = Some(fault),
        }
    }

    // Puts out the line where there was no fault.
    fn put_next(
        &mut self,
        offset: u64,
        bytes: &[u8],
        levels: u64,
        meaning: Result<String, AllocError>,
    ) -> Result<(), LineFault<O::Fault>>
        ensures put { PutsLine O.puts offset bytes.now levels self.old.out self.new.out result }
        ensures fault { self.new.fault ≡ self.old.fault }
    {
        let meaning = meaning?;
        let shown = escaped(self.alloc, meaning.as_str())?;
        self.line.clear();
        push_line(offset, bytes, levels, shown.as_str(), &mut self.line)?;
        self.out.put(self.line.as_bytes()).map_err(LineFault::Out)
    }
}
