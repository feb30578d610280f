//! The faults of a survey, as they are listed.

ghost use Rattle.std.specs.Prelude.{◌≡◌, ◌∷◌, ◌≤◌, ◌-◌, List, [], OnOk, false, true, ℕ, length};
ghost use Rattle.mdb_surveyor.specs.declared.stretch.Ended.{Ended};
ghost use Rattle.mdb_surveyor.specs.Lines.{ended_lines};
ghost use Rattle.mdb_surveyor.specs.SurveyText.{text_lines};
ghost use Rattle.mdb_page.specs.Answers.{written};
ghost use Rattle.mdb_page.specs.Surveys.{IsPlace};
ghost use Rattle.mdb_page.specs.inner.Surveying.{HasListed};
ghost use Rattle.mdb_page.specs.declared.faults.PageFault.{PageFault};
ghost use Rattle.mdb_page.specs.declared.sheet.PageLines.{PageLines};
ghost use Rattle.mdb_page.specs.declared.sheet.TheConstants.{LINES_ROOM};

use crate::sheet::{PageLines, PageText};
use mdb_surveyor::{Ended, write_fault, write_stretch};
use std::io;

/// Where a fault of a survey stands.
#[repr(C)]
#[derive(Drop)]
pub struct PageFault {
    /// The number of its row in the recording, from 1.
    pub row: u64,
    /// The number of bytes of the text before its line.
    pub offset: u64,
}

/// Which faults are listed.
#[derive(Drop)]
pub(crate) struct FaultListing {
    /// The number of bytes of the text.
    bytes: usize,
    /// So many are still passed over.
    skip: u64,
    /// So many are listed.
    listed: usize,
    /// Whether one had no room. No later one is listed.
    is_full: bool,
}

impl FaultListing {
    /// The list before the first fault of a text of so many bytes, where so many are passed over.
    pub(crate) fn after(skip: u64, bytes: usize) -> FaultListing
        ensures size { result.bytes ≡ bytes }
        ensures listed { (body : List ℕ) (faults : List PageFault) (lines : PageLines)
            → lines.count ≡ 0 → HasListed body skip [] result faults lines }
    {
        FaultListing {
            bytes,
            skip,
            listed: 0,
            is_full: false,
        }
    }

    /// The number of those that are listed.
    pub(crate) fn count(&self) -> u64
        ensures { (body : List ℕ) (skip : ℕ) (ended : List Ended) (faults : List PageFault)
            (lines : PageLines) → (has : HasListed body skip ended self.now faults lines)
            → result ≡ length has.shown }
    {
        self.listed as u64
    }

    /// Takes a fault, with the stretch that it ended. So many bytes are left of the text from its
    /// line on. Returns whether `entry` had room for its lines.
    pub(crate) fn take(
        &mut self,
        faults: &mut [PageFault],
        lines: &mut PageLines,
        entry: &mut PageText,
        ended: &Ended,
        left: usize,
    ) -> bool
        requires { lines.old.count ≤ LINES_ROOM }
        ensures taken { result ≡ true → (body : List ℕ) (skip : ℕ) (earlier : List Ended)
            → HasListed body skip earlier self.old faults.old lines.old
            → IsPlace self.old.bytes body ended.now.fault.row (self.old.bytes - left)
            → HasListed body skip (ended.now ∷ earlier) self.new faults.new lines.new }
        ensures size { self.new.bytes ≡ self.old.bytes }
        ensures count { lines.new.count ≤ LINES_ROOM }
    {
        if self.skip > 0 {
            self.skip -= 1;
            return true;
        }
        if self.is_full {
            return true;
        }
        self.list(faults, lines, entry, ended, left)
    }

    /// Lists a fault, if it has room. Returns whether `entry` had room for its lines.
    fn list(
        &mut self,
        faults: &mut [PageFault],
        lines: &mut PageLines,
        entry: &mut PageText,
        ended: &Ended,
        left: usize,
    ) -> bool
        requires room { lines.old.count ≤ LINES_ROOM }
        requires passed { self.old.skip ≡ 0 }
        requires open { self.old.is_full ≡ false }
        ensures taken { result ≡ true → (body : List ℕ) (skip : ℕ) (earlier : List Ended)
            → HasListed body skip earlier self.old faults.old lines.old
            → IsPlace self.old.bytes body ended.now.fault.row (self.old.bytes - left)
            → HasListed body skip (ended.now ∷ earlier) self.new faults.new lines.new }
        ensures size { self.new.bytes ≡ self.old.bytes }
        ensures count { lines.new.count ≤ LINES_ROOM }
    {
        if self.listed >= faults.len() {
            self.is_full = true;
            return true;
        }
        let Ok(()) = write_ended(entry, ended) else {
            return false;
        };
        if lines.add(entry.text()) {
            let place = &mut faults[self.listed];
            place.row = ended.fault.row;
            place.offset = self.bytes.saturating_sub(left) as u64;
            self.listed += 1;
        } else {
            self.is_full = true;
        }
        true
    }
}

/// Writes the lines of a stretch and of the fault that ended it.
fn write_ended(entry: &mut PageText, ended: &Ended) -> io::Result<()>
    ensures { OnOk result (written entry.new ≡ ended_lines text_lines ended.now) }
{
    entry.count = 0;
    write_stretch(entry, &ended.stretch)?;
    write_fault(entry, &ended.fault)
}
