//! The files of the parts of a stream.

ghost use Rattle.std.specs.Prelude.{◌≡◌, None, IsTrue, OnErr, OnOk, is_some};

use crate::{BLOCK, Exit, unopened_line};
use gob_split::{NotWritten, Parts};
use gob_tool::ToolFault;
use std::alloc::{AllocError, Global};
use std::fs::File;
use std::io;
use std::io::{BufWriter, Write};

/// The files `0000.gob`, `0001.gob` and so on of a directory, each of which is made where there is none of its name.
#[derive(Drop)]
pub(crate) struct PartFiles<'a> {
    rt: &'a HostRuntime,
    directory: &'a str,
    // How many were begun.
    count: u64,
    // The last one, until it is finished.
    last: Option<BufWriter<File>>,
    // What stops the program, where a call has failed.
    stop: Option<Exit>,
}

impl<'a> PartFiles<'a> {
    /// None is made yet.
    pub(crate) fn new(rt: &'a HostRuntime, directory: &'a str) -> PartFiles<'a> {
        PartFiles {
            rt,
            directory,
            count: 0,
            last: None,
            stop: None,
        }
    }

    /// How many were begun.
    pub(crate) fn count(&self) -> u64 {
        self.count
    }

    /// How a run that answered so ends the program: behind a failed write by what is wrong with the file.
    pub(crate) fn ending(self, answer: Result<(), ToolFault>) -> Result<(), Exit> {
        match (answer, self.stop) {
            (Ok(()), _) => Ok(()),
            (Err(ToolFault::Write), Some(stop)) => Err(stop),
            (Err(fault), _) => Err(Exit::Run(fault)),
        }
    }

    // The name of the file of this number.
    fn name(&self, number: u64) -> Result<String, AllocError> {
        let directory = self.directory;
        format!(in self.rt.alloc(); "{directory}/{number:04}.gob")
    }

    // Makes the next file.
    fn made(&self) -> io::Result<BufWriter<File>> {
        let Ok(name) = self.name(self.count) else {
            return Err(io::Error::from(io::ErrorKind::OutOfMemory));
        };
        let file = File::create_new(self.rt, name.as_str())?;
        BufWriter::with_capacity(self.rt.alloc(), BLOCK, file)
    }

    // Notes what is wrong with the file of this number.
    fn note(&mut self, number: u64, error: &io::Error) -> NotWritten
        ensures { IsTrue (is_some self.new.stop) }
    {
        let alloc = self.rt.alloc();
        let line = match self.name(number) {
            Ok(name) => unopened_line(alloc, name.as_str(), error),
            Err(memory) => Err(memory),
        };
        self.stop = Some(match line {
            Ok(line) => Exit::View(line),
            Err(_) => Exit::Run(ToolFault::Memory),
        });
        NotWritten
    }

    // What came of a call that wrote to the last file: what is wrong with it is noted.
    fn noted(&mut self, written: io::Result<()>) -> Result<(), NotWritten>
        ensures failed { OnErr result (IsTrue (is_some self.new.stop)) }
        ensures same { OnOk result (self.new.last ≡ self.old.last) }
    {
        match written {
            Ok(()) => Ok(()),
            Err(error) => Err(self.note(self.count.saturating_sub(1), &error)),
        }
    }

    // Closes the last file. What is left in its buffer isn't dropped with it, since that would write once more behind a
    // failed write.
    fn close(&mut self)
        ensures { self.new.last ≡ None }
    {
        if let Some(file) = self.last.take() {
            let (_file, _lost) = file.into_parts();
        }
    }
}

impl Parts for PartFiles<'_> {
    ghost use Rattle.std.specs.Prelude.{◌≡◌, None, IsTrue, is_some};

    ghost are = { λ files parts. ⊥ };

    ghost has_failed = { λ files. IsTrue (is_some files.stop) };

    ghost is_finished = { λ files. files.last ≡ None };

    fn begin(&mut self) -> Result<(), NotWritten> {
        self.finish()?;
        match self.made() {
            Ok(file) => {
                self.last = Some(file);
                self.count = self.count.saturating_add(1);
                Ok(())
            }
            Err(error) => Err(self.note(self.count, &error)),
        }
    }

    fn send(&mut self, bytes: &[u8]) -> Result<(), NotWritten> {
        let Some(file) = &mut self.last else {
            return Ok(());
        };
        let written = file.write_all(bytes);
        if written.is_err() {
            self.close();
        }
        self.noted(written)
    }

    fn finish(&mut self) -> Result<(), NotWritten> {
        let Some(file) = &mut self.last else {
            return Ok(());
        };
        let flushed = file.flush();
        self.close();
        self.noted(flushed)
    }
}
