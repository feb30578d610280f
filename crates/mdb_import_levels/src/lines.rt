//! Both lines of the bus, whose levels are taken one after the other.

use crate::fault::{Advice, Failure, LineRefusal};
use crate::instant::Instant;
use crate::side::{Noted, Side};
use mdb_import_shared::{Imported, Inverted, LowAtRest, Part, merged, write_part};
use mdb_words::Line;
use std::alloc::{AllocError, Global};
use std::io::Write;

/// Both lines of the bus.
#[derive(Drop)]
pub(crate) struct Lines {
    controller: Side,
    peripheral: Side,
    inverted: Inverted,
}

impl Lines {
    /// Both lines before their first levels; which of them an option has read upside down, and
    /// whether damaged words are left out, and not refused.
    pub(crate) fn new(alloc: Global, inverted: Inverted, skip_damaged: bool) -> Lines {
        let both = !(inverted.controller || inverted.peripheral);
        Lines {
            controller: Side::new(alloc, Line::Controller, skip_damaged, both),
            peripheral: Side::new(alloc, Line::Peripheral, skip_damaged, both),
            inverted,
        }
    }

    /// Takes whether each line is high from an instant on, which is after all that were taken, as
    /// far as that is known. The record of this number shows it.
    ///
    /// # Errors
    ///
    /// Memory was refused.
    #[inline(always)]
    pub(crate) fn take(
        &mut self,
        number: u64,
        at: Instant,
        controller: Option<bool>,
        peripheral: Option<bool>,
    ) -> Result<(), AllocError> {
        self.controller.take(number, at, controller)?;
        self.peripheral.take(number, at, peripheral)
    }

    /// Takes the end of the recording: both lines stay as they are.
    ///
    /// # Errors
    ///
    /// Memory was refused.
    pub(crate) fn end(&mut self, number: u64) -> Result<(), AllocError> {
        self.controller.end(number)?;
        self.peripheral.end(number)
    }

    /// The line that is read upside down, though no option says so: it alone stands so.
    fn turned(&self) -> Option<Line> {
        let controller = self.controller.is_upside_down();
        match (controller, self.peripheral.is_upside_down()) {
            (true, false) => Some(Line::Controller),
            (false, true) => Some(Line::Peripheral),
            _ => None,
        }
    }

    /// Why the levels that were taken are refused, if they are: the first fault of a line.
    pub(crate) fn refusal(&self) -> Option<LineRefusal> {
        let turned = self.turned();
        let mut first: Option<(Line, Noted)> = None;
        for line in [Line::Controller, Line::Peripheral] {
            if let Some(noted) = self.side(line).fault() {
                if turned != Some(line) && first.is_none_or(|(_, other)| noted.is_before(&other)) {
                    first = Some((line, noted));
                }
            }
        }
        let (line, noted) = first?;
        Some(LineRefusal {
            number: noted.number,
            micros: noted.micros,
            line,
            fault: noted.fault,
            advice: match self.low_at_rest(line) {
                Some(low) => Advice::LowAtRest(low),
                None => Advice::SkipDamaged,
            },
        })
    }

    /// What is reported of a line, if it is low at rest. An option may have turned the other one:
    /// what counts there is how it stands in the export.
    fn low_at_rest(&self, line: Line) -> Option<LowAtRest> {
        let other = match line {
            Line::Controller => Line::Peripheral,
            Line::Peripheral => Line::Controller,
        };
        if !self.side(line).is_low() {
            None
        } else if self.inverted.has(line) {
            Some(LowAtRest::Turned(line))
        } else if self.side(other).stands_low(self.inverted.has(other)) {
            Some(LowAtRest::Both)
        } else {
            Some(LowAtRest::Alone(line))
        }
    }

    /// What is reported of the first line that is low at rest, is read as it is, and of which
    /// damaged words were left out.
    fn low_and_damaged(&self, turned: Option<Line>) -> Option<LowAtRest> {
        for line in [Line::Controller, Line::Peripheral] {
            if turned != Some(line) && self.side(line).is_damaged() {
                if let Some(low) = self.low_at_rest(line) {
                    return Some(low);
                }
            }
        }
        None
    }

    /// A line.
    fn side(&self, line: Line) -> &Side {
        match line {
            Line::Controller => &self.controller,
            Line::Peripheral => &self.peripheral,
        }
    }

    /// Writes the rows of a part in the order of their times, once the end was taken and nothing is
    /// refused, and answers what is reported of all.
    ///
    /// # Errors
    ///
    /// Memory was refused, and nothing was written. Or the writer failed: it took a front of the
    /// rows.
    pub(crate) fn write<W: Write>(
        self,
        alloc: Global,
        part: Part,
        writer: &mut W,
    ) -> Result<Imported, Failure> {
        let mut told = Imported::new();
        told.turned = self.turned();
        told.low = self.low_and_damaged(told.turned);
        let Lines {
            controller,
            peripheral,
            ..
        } = self;
        let sent = controller.wave(told.turned == Some(Line::Controller));
        let answered = peripheral.wave(told.turned == Some(Line::Peripheral));
        for wave in [&sent, &answered] {
            told.pulses.add(wave.pulses());
            told.damaged.add(wave.damaged());
        }
        let rows = merged(alloc, sent.rows(), answered.rows())?;
        write_part(part, rows.as_slice(), &mut told, writer)?;
        Ok(told)
    }
}
