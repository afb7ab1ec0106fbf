//! Reading the next item of a stream.

ghost use Rattle.std.specs.Prelude.{◌≡◌, ℕ, List, Err, Some, OnErr};
ghost use Rattle.gob_stream.specs.Calls.Ends.{bytes_read, failed_reads, reader_of};
ghost use Rattle.gob_stream.specs.Item.{StreamItem};
ghost use Rattle.gob_stream.specs.Reading.{CountsReads};
ghost use Rattle.gob_stream.specs.Calls.Session.{HasRead, HasFailed, StaysAsItWas, types_of, limits_of};
ghost use Rattle.gob_stream.specs.Calls.Session.{ReadItemAnswers, ReadsHonestly, ReadItemTakes};

use crate::fault::Fault;
use crate::input::Input;
use crate::item::Item;
use crate::session::Session;
use gob_read::Builder;
use std::alloc::Global;
use std::io::Read;

// How many bytes are read at a time, at most.
const CHUNK: u64 = 1024;

impl<B: Builder> Session<B> {
    /// Reads up to the end of the next item, and no byte behind it. None at the end of the input between two items.
    /// A read that fails for any reason, `Interrupted` too, is a fault. After a fault each call answers
    /// [`Fault::Failed`].
    pub fn read_item<R: Read>(
        &mut self,
        alloc: Global,
        input: &mut Input<R>,
    ) -> Result<Option<Item<B::Out>>, Fault>
        ensures read { (items : List StreamItem) (bytes rest : List ℕ)
            → HasRead B.building self.old items bytes
            → R.remaining (reader_of input.old) ≡ Some rest
            → ReadItemAnswers B.building self.old self.new items bytes rest (R.remaining (reader_of input.new)) result }
        ensures honest { (items : List StreamItem) (bytes rest : List ℕ)
            → HasRead B.building self.old items bytes
            → R.remaining (reader_of input.old) ≡ Some rest
            → ReadsHonestly B.building self.old items bytes rest (R.remaining (reader_of input.new)) result }
        ensures failed { OnErr result (HasFailed self.new) }
        ensures stays { HasFailed self.old
            → (result ≡ Err Fault.Failed) × StaysAsItWas self.old self.new × (input.new ≡ input.old) }
        ensures types { OnErr result (types_of self.new ≡ types_of self.old) }
        ensures limits { limits_of self.new ≡ limits_of self.old }
        ensures counted { CountsReads (failed_reads input.old) (failed_reads input.new) result }
        ensures taken { ReadItemTakes self.old self.new (bytes_read input.old) (bytes_read input.new) result }
    {
        if self.has_failed() {
            return Err(Fault::Failed);
        }
        let mut chunk = [0u8; CHUNK as usize];
        'pieces: loop {
            let wanted = CHUNK.min(self.wanted()) as usize;
            match input.read(&mut chunk[..wanted]) {
                Ok(0) => {
                    self.finish()?;
                    return Ok(None);
                }
                Ok(n) => {
                    let step = self.step(alloc, &chunk[..n])?;
                    if let Some(item) = step.item {
                        return Ok(Some(item));
                    }
                }
                Err(_) => {
                    self.fail();
                    return Err(Fault::Read);
                }
            }
        }
    }
}
