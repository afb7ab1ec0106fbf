//! The line that is told.

ghost use Rattle.std.specs.Prelude.{◌≡◌, ◌++◌, IfOk, codes, string_bytes};
ghost use Rattle.std.specs.Fmt.{decimal};
ghost use Rattle.gob_progress.specs.Lines.{megabytes, numbers_behind, percent, progress_line, rate};

use std::alloc::{AllocError, Global};

/// How far a reading is.
#[derive(Clone, Copy, Debug, PartialEq, Eq)]
pub(crate) struct Reached {
    /// How many bytes were read.
    pub(crate) passed: u64,
    /// How many there are, where that is known.
    pub(crate) total: Option<u64>,
    /// For how many milliseconds it has been read.
    pub(crate) millis: u64,
}

impl Reached {
    /// The line that tells it, which takes the place of the one before.
    pub(crate) fn line(&self, alloc: Global) -> Result<String, AllocError>
        ensures { IfOk result (λ line.
            string_bytes line ≡ progress_line self.now.passed self.now.total self.now.millis) }
    {
        let read = megabytes(self.passed);
        let rate = self.rate();
        match self.total {
            None => format!(in alloc; "\rgob: {read} MB, {rate} MB/s    "),
            Some(total) => {
                let all = megabytes(total);
                let percent = percent(self.passed, total);
                line_of_total(alloc, read, all, percent, rate)
            }
        }
    }

    // How many megabytes a second were read, or none where it was no millisecond.
    fn rate(&self) -> u64
        ensures { result ≡ rate self.now.passed self.now.millis }
    {
        match self.passed.checked_div(self.millis) {
            Some(kilobytes) => kilobytes / 1000,
            None => 0,
        }
    }
}

// The line of these numbers.
fn line_of_total(
    alloc: Global,
    read: u64,
    all: u64,
    percent: u64,
    rate: u64,
) -> Result<String, AllocError>
    ensures { IfOk result (λ line. string_bytes line
        ≡ codes "\rgob: " ++ (decimal read ++ numbers_behind all percent rate)) }
{
    format!(in alloc; "\rgob: {read} of {all} MB, {percent}%, {rate} MB/s    ")
}

// The whole megabytes of so many bytes.
fn megabytes(bytes: u64) -> u64
    ensures { result ≡ megabytes bytes }
{
    bytes / 1_000_000
}

// How many hundredths of all bytes were read: a file may grow while it is read.
fn percent(passed: u64, total: u64) -> u64
    ensures { result ≡ percent passed total }
{
    if passed >= total {
        return 100;
    }
    let hundredths = u128::from(passed) * 100 / u128::from(total);
    hundredths as u64
}
