//! Lines on their way to a writer.

ghost use Rattle.std.specs.Prelude.{◌≡◌, [], OnOk, IfErr};
ghost use Rattle.mdb_writing.specs.Output.{Puts, output};
ghost use Rattle.mdb_verdict.specs.Telling.{IsFinished, IsNotTaken};

use super::fault::RunFault;
use mdb_writing::Page;
use std::alloc::Global;
use std::io::Write;

/// Lines that are still to be written, all of them whole.
#[derive(Drop)]
pub struct Printer {
    /// What waits for the writer.
    pub page: Page,
    /// What is added to it next, once it is whole. Its memory is used again and again.
    pub next: Vec<u8>,
}

impl Printer {
    /// No lines.
    pub fn new(alloc: Global) -> Printer
        ensures { result.page ≡ [] }
    {
        Printer {
            page: Page::new(),
            next: Vec::new(alloc),
        }
    }

    /// Writes what stands in `next`. Nothing waits here, so that a line never waits for the next
    /// row: a writer for which many writes are dear gathers them itself.
    ///
    /// # Errors
    ///
    /// The writer failed. It took a front of what waited and of this.
    pub fn add<W: Write>(&mut self, writer: &mut W) -> Result<(), RunFault>
        ensures added { OnOk result (Puts (output (W.contents writer.old) self.old.page)
            (output (W.contents writer.new) self.new.page) self.old.next.items) }
        ensures refused { IfErr result (λ fault. IsNotTaken fault
            (output (W.contents writer.old) self.old.page)
            (output (W.contents writer.new) self.new.page) self.old.next.items) }
    {
        Ok(self.page.put(writer, self.next.as_slice())?)
    }

    /// Writes what waits, unless the answer is that the writer has failed, and hands it on.
    ///
    /// # Errors
    ///
    /// That of the answer, or that the writer failed.
    pub fn finish<A: Drop, W: Write>(
        &mut self,
        writer: &mut W,
        answer: Result<A, RunFault>,
    ) -> Result<A, RunFault>
        ensures { IsFinished answer (output (W.contents writer.old) self.old.page)
            (W.contents writer.new) result }
    {
        if let Err(RunFault::Write) = answer {
            return answer;
        }
        self.page.write_out(writer)?;
        answer
    }
}
