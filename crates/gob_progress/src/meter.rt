//! What counts the bytes that pass, and tells how far that is.

ghost use Rattle.std.specs.Prelude.{◌≡◌, ◌^◌, ◌<◌, None};
ghost use Rattle.std.specs.Io.KnownBytes.{Keeps};
ghost use Rattle.gob_progress.specs.Telling.{TellsOnce, counted};

use crate::line::Reached;
use std::alloc::Global;
use std::io::Write;
use std::time::{Clock, Instant};

// How many milliseconds a line stands at least.
const BETWEEN: u64 = 200;

// What stands in the place of the line when it is gone.
const BLANK: &str = "\r                                                        \r";

/// What counts the bytes that pass, and tells a writer how far that is, a few times a second.
#[derive(Drop)]
pub struct Meter<'a, W, C> {
    writer: W,
    clock: &'a C,
    // None: nothing is told.
    started: Option<Instant>,
    passed: u64,
    total: Option<u64>,
    // When the last line was told, in milliseconds since the start.
    told: Option<u64>,
    ghost fits: { passed < 2 ^ 64 },
}

impl<'a, W: Write, C: Clock> Meter<'a, W, C> {
    /// One that tells the writer how many of so many bytes, where that is known, passed since this time. Without one
    /// it tells nothing.
    pub fn new(
        writer: W,
        clock: &'a C,
        started: Option<Instant>,
        total: Option<u64>,
    ) -> Meter<'a, W, C>
        ensures writer { result.writer ≡ writer }
        ensures started { result.started ≡ started }
        ensures total { result.total ≡ total }
        ensures none_passed { result.passed ≡ 0 }
    {
        Meter {
            writer,
            clock,
            started,
            passed: 0,
            total,
            told: None,
        }
    }

    /// Counts bytes that pass, and tells where that is if it is time to.
    pub(crate) fn pass(&mut self, alloc: Global, count: usize)
        ensures told { TellsOnce self.new.passed self.old.total (W.contents self.old.writer)
            (W.contents self.new.writer) }
        ensures silent { self.old.started ≡ None → Keeps (W.contents self.old.writer) (W.contents self.new.writer) }
        ensures counted { self.new.passed ≡ counted self.old.passed count }
        ensures kept { (self.new.started ≡ self.old.started) × (self.new.total ≡ self.old.total) }
    {
        self.passed = self.passed.saturating_add(count as u64);
        let Some(millis) = self.due() else {
            return;
        };
        self.told = Some(millis);
        let reached = Reached {
            passed: self.passed,
            total: self.total,
            millis,
        };
        if let Ok(line) = reached.line(alloc) {
            // Where standard error takes no line, none is told.
            let _ = self.writer.write(line.as_bytes());
        }
    }

    /// Takes the line away, where one was told.
    pub(crate) fn end(&mut self)
        ensures told { TellsOnce self.new.passed self.old.total (W.contents self.old.writer)
            (W.contents self.new.writer) }
        ensures untold { self.old.told ≡ None → Keeps (W.contents self.old.writer) (W.contents self.new.writer) }
    {
        if self.told.is_some() {
            let _ = self.writer.write(BLANK.as_bytes());
        }
    }

    // The milliseconds since the start, if it is time to tell: also the first line waits, so short readings have none.
    fn due(&self) -> Option<u64>
        ensures { self.now.started ≡ None → result ≡ None }
    {
        let elapsed = self.started?.elapsed(self.clock).ok()?;
        let millis = u64::try_from(elapsed.as_millis()).ok()?;
        let last = self.told.unwrap_or(0);
        if millis < last.saturating_add(BETWEEN) {
            return None;
        }
        Some(millis)
    }
}
