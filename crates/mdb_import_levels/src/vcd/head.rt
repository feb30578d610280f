//! The header of a dump.

use super::fault::{DumpFault, Stop};
use super::values::{Keyword, scale_of};
use mdb_import_shared::Options;
use std::alloc::{AllocError, Global};

/// What a header has told so far.
#[derive(Drop)]
pub(super) struct Head {
    /// The parts of a unit of its times.
    pub(super) scale: Option<u128>,
    /// The code of the controller's line.
    pub(super) controller: Option<Vec<u8>>,
    /// The code of the peripherals' line.
    pub(super) peripheral: Option<Vec<u8>>,
    /// The names of the open scopes, each with a point after it.
    path: Vec<u8>,
    /// How long that was before each of them.
    outer: Vec<usize>,
}

/// Whether a variable is called as was told or, where nothing was, by one of two letters. It has a
/// name, and is in a scope of this path.
fn is_called(told: &Option<String>, letters: &[u8; 2], path: &[u8], name: &[u8]) -> bool {
    match told {
        Some(told) => {
            let told = told.as_bytes();
            name == told || told.strip_prefix(path) == Some(name)
        }
        None => matches!(name, [letter] if letters.contains(letter)),
    }
}

/// Whether a line's code has to be noted: it is that of a variable of this size and code, if that
/// is called so. It has one bit, and no other variable that is called so has another code.
fn expect_code(
    called: bool,
    size: &[u8],
    code: &[u8],
    old: &Option<Vec<u8>>,
) -> Result<bool, DumpFault> {
    match old {
        _ if !called => Ok(false),
        _ if size != b"1".as_slice() => Err(DumpFault::WideVariable),
        None => Ok(true),
        Some(other) if other.as_slice() == code => Ok(false),
        Some(_) => Err(DumpFault::SecondVariable),
    }
}

/// A copy of bytes.
pub(super) fn copy_of(alloc: Global, bytes: &[u8]) -> Result<Vec<u8>, AllocError> {
    let mut copy = Vec::new(alloc);
    copy.extend_from_slice(bytes)?;
    Ok(copy)
}

impl Head {
    /// Before the first command.
    pub(super) fn new(alloc: Global) -> Head {
        Head {
            scale: None,
            controller: None,
            peripheral: None,
            path: Vec::new(alloc),
            outer: Vec::new(alloc),
        }
    }

    /// Takes a command of these words.
    pub(super) fn take_command(
        &mut self,
        alloc: Global,
        options: &Options,
        keyword: Keyword,
        words: &[Vec<u8>],
    ) -> Result<(), Stop> {
        match (keyword, words) {
            (Keyword::Timescale, _) => self.take_scale(words)?,
            (Keyword::Scope, [_, name]) => self.open_scope(name.as_slice())?,
            (Keyword::Scope, _) => return Err(Stop::Form(DumpFault::BadScope)),
            (Keyword::Upscope, _) => self.close_scope()?,
            (Keyword::Variable, [_, size, code, name @ ..]) if !name.is_empty() => {
                self.take_variable(alloc, options, size.as_slice(), code.as_slice(), name)?;
            }
            (Keyword::Variable, _) => return Err(Stop::Form(DumpFault::BadVariable)),
            _ => (),
        }
        Ok(())
    }

    /// Takes a timescale of these words.
    fn take_scale(&mut self, words: &[Vec<u8>]) -> Result<(), DumpFault> {
        if self.scale.is_some() {
            return Err(DumpFault::SecondTimescale);
        }
        self.scale = match words {
            [count, unit] => scale_of(count.as_slice(), unit.as_slice()),
            [both] => {
                let text = both.as_slice();
                let digits = text.iter().position(|c| !c.is_ascii_digit()).unwrap_or(0);
                let (count, unit) = text.split_at(digits);
                scale_of(count, unit)
            }
            _ => None,
        };
        if self.scale.is_some() {
            Ok(())
        } else {
            Err(DumpFault::BadTimescale)
        }
    }

    /// Takes the beginning of a scope of this name.
    fn open_scope(&mut self, name: &[u8]) -> Result<(), Stop> {
        self.outer.push(self.path.len())?;
        self.path.extend_from_slice(name)?;
        self.path.push(b'.')?;
        Ok(())
    }

    /// Takes the end of a scope.
    fn close_scope(&mut self) -> Result<(), DumpFault> {
        let Some(length) = self.outer.pop() else {
            return Err(DumpFault::NoScope);
        };
        self.path.truncate(length);
        Ok(())
    }

    /// Takes a variable of this size and code, and of a name in words: notes its code, if it is one
    /// of a line.
    fn take_variable(
        &mut self,
        alloc: Global,
        options: &Options,
        size: &[u8],
        code: &[u8],
        words: &[Vec<u8>],
    ) -> Result<(), Stop> {
        let mut name = Vec::new(alloc);
        for word in words {
            name.extend_from_slice(word.as_slice())?;
        }
        let (path, name) = (self.path.as_slice(), name.as_slice());
        let called = is_called(&options.controller, b"Mm", path, name);
        let sends = expect_code(called, size, code, &self.controller)?;
        let called = is_called(&options.peripheral, b"Ss", path, name);
        let answers = expect_code(called, size, code, &self.peripheral)?;
        if sends {
            self.controller = Some(copy_of(alloc, code)?);
        }
        if answers {
            self.peripheral = Some(copy_of(alloc, code)?);
        }
        Ok(())
    }

    /// Refuses a header in which something is missing.
    pub(super) fn expect_whole(&self) -> Result<(), DumpFault> {
        if self.scale.is_none() {
            return Err(DumpFault::NoTimescale);
        }
        match (&self.controller, &self.peripheral) {
            (Some(code), Some(other)) if code.as_slice() == other.as_slice() => {
                Err(DumpFault::SameCode)
            }
            (Some(_), Some(_)) => Ok(()),
            _ => Err(DumpFault::NoVariable),
        }
    }
}
