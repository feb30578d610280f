//! The sizes of what lies in memory that the page provides.

use crate::acts::PageAct;
use crate::answer::PageTold;
use crate::faults::PageFault;
use crate::news::PageNews;
use crate::options::{PageOptions, PageReader, PageSetup};
use crate::rises::PageRise;
use crate::scale::PageEnd;
use crate::sheet::{PageLines, PageText};
use std::mem::size_of;

/// The sizes of the structures of the calls, in bytes.
#[repr(C)]
#[derive(Clone, Copy, PartialEq, Eq, Debug)]
pub struct PageLayout {
    /// That of `PageOptions`.
    pub options: u64,
    /// That of `PageSetup`.
    pub setup: u64,
    /// That of `PageReader`.
    pub reader: u64,
    /// That of `PageTold`.
    pub told: u64,
    /// That of `PageText`.
    pub answer: u64,
    /// That of `PageAct`.
    pub act: u64,
    /// That of `PageNews`.
    pub news: u64,
    /// That of `PageFault`.
    pub fault: u64,
    /// That of `PageLines`.
    pub lines: u64,
    /// That of `PageRise`.
    pub rise: u64,
    /// That of `PageEnd`.
    pub end: u64,
}

/// Tells the sizes of the structures of the calls.
#[unsafe(no_mangle)]
pub extern "C" fn mdb_page_layout(layout: &mut PageLayout) {
    *layout = PageLayout {
        options: size_of::<PageOptions>() as u64,
        setup: size_of::<PageSetup>() as u64,
        reader: size_of::<PageReader>() as u64,
        told: size_of::<PageTold>() as u64,
        answer: size_of::<PageText>() as u64,
        act: size_of::<PageAct>() as u64,
        news: size_of::<PageNews>() as u64,
        fault: size_of::<PageFault>() as u64,
        lines: size_of::<PageLines>() as u64,
        rise: size_of::<PageRise>() as u64,
        end: size_of::<PageEnd>() as u64,
    };
}
