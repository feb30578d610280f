//! A line of the bus, as it is read and upside down.

use crate::fault::{LineFault, WaveFault};
use crate::instant::Instant;
use crate::rest::Rest;
use crate::wave::Wave;
use mdb_words::Line;
use std::alloc::{AllocError, Global};

/// What is wrong with a line, and where that is seen.
#[derive(Clone, Copy)]
pub(crate) struct Noted {
    /// The number of the record, or of the line of a dump.
    pub(crate) number: u64,
    /// Whether only the end of the export shows it.
    pub(crate) at_end: bool,
    /// When the faulty word or break began, in whole microseconds.
    pub(crate) micros: u64,
    /// What is wrong.
    pub(crate) fault: LineFault,
}

impl Noted {
    /// Whether it comes before what is wrong with the other line.
    pub(crate) fn is_before(&self, other: &Noted) -> bool {
        self.number < other.number || (self.number == other.number && !self.at_end && other.at_end)
    }
}

/// A line of the bus, whose levels are taken one after the other, as it is read and upside down.
#[derive(Drop)]
pub(crate) struct Side {
    // As it is read.
    upright: Wave,
    // What is wrong with that, if nothing is left out. No level more is taken then.
    fault: Option<Noted>,
    // Upside down; `None` where something is wrong with that, or nobody asks.
    turned: Option<Wave>,
    // As it is read.
    rest: Rest,
}

impl Side {
    /// A line before its first level. With `skip` damaged words are left out, and not refused. With
    /// `both` it is read upside down too.
    pub(crate) fn new(alloc: Global, line: Line, skip: bool, both: bool) -> Side {
        Side {
            upright: Wave::new(alloc, line, skip),
            fault: None,
            turned: match both {
                true => Some(Wave::new(alloc, line, false)),
                false => None,
            },
            rest: Rest::new(),
        }
    }

    /// Takes whether the line is high from an instant on, if that is known. A level that isn't
    /// known counts as low, upside down too. The record of this number shows it.
    ///
    /// # Errors
    ///
    /// Memory was refused.
    #[inline(always)]
    pub(crate) fn take(
        &mut self,
        number: u64,
        at: Instant,
        level: Option<bool>,
    ) -> Result<(), AllocError> {
        let is_high = level == Some(true);
        self.rest.take(at, is_high);
        if self.fault.is_none() {
            let taken = self.upright.take(at, is_high);
            self.note(number, false, taken)?;
        }
        if let Some(turned) = &mut self.turned {
            let taken = turned.take(at, level == Some(false));
            self.keep(taken)?;
        }
        Ok(())
    }

    /// Takes the end: the line stays as it is.
    ///
    /// # Errors
    ///
    /// Memory was refused.
    pub(crate) fn end(&mut self, number: u64) -> Result<(), AllocError> {
        if self.fault.is_none() {
            let taken = self.upright.end();
            self.note(number, true, taken)?;
        }
        if let Some(turned) = &mut self.turned {
            let taken = turned.end();
            self.keep(taken)?;
        }
        Ok(())
    }

    /// Notes what is wrong with the line as it is read, if something is.
    #[inline(always)]
    fn note(
        &mut self,
        number: u64,
        at_end: bool,
        taken: Result<(), WaveFault>,
    ) -> Result<(), AllocError> {
        match taken {
            Ok(()) => Ok(()),
            Err(WaveFault::Memory) => Err(AllocError),
            Err(WaveFault::Levels { micros, fault }) => {
                self.fault = Some(Noted {
                    number,
                    at_end,
                    micros,
                    fault,
                });
                Ok(())
            }
        }
    }

    /// Ends the reading upside down, if something is wrong with it.
    #[inline(always)]
    fn keep(&mut self, taken: Result<(), WaveFault>) -> Result<(), AllocError> {
        match taken {
            Ok(()) => Ok(()),
            Err(WaveFault::Memory) => Err(AllocError),
            Err(WaveFault::Levels { .. }) => {
                self.turned = None;
                Ok(())
            }
        }
    }

    /// Whether the line is low at rest, as it is read.
    pub(crate) fn is_low(&self) -> bool {
        self.rest.is_low()
    }

    /// Whether the line is low at rest in the export, if an option may have turned it.
    pub(crate) fn stands_low(&self, is_inverted: bool) -> bool {
        if is_inverted {
            self.rest.is_high()
        } else {
            self.rest.is_low()
        }
    }

    /// Whether damaged words were left out of the line as it is read.
    pub(crate) fn is_damaged(&self) -> bool {
        self.upright.damaged().count() > 0
    }

    /// Whether the line stands upside down: it is low at rest, something is wrong with it as it is
    /// read, nothing is upside down, and it has a word then.
    pub(crate) fn is_upside_down(&self) -> bool {
        let is_wrong = self.fault.is_some() || self.is_damaged();
        match &self.turned {
            Some(turned) => is_wrong && self.is_low() && turned.has_word(),
            None => false,
        }
    }

    /// What is wrong with the line as it is read, if nothing is left out.
    pub(crate) fn fault(&self) -> Option<Noted> {
        self.fault
    }

    /// The line as it is read, or upside down, if it is read so.
    pub(crate) fn wave(self, is_turned: bool) -> Wave {
        let Side {
            upright,
            turned,
            ..
        } = self;
        match turned {
            Some(turned) if is_turned => turned,
            _ => upright,
        }
    }
}
