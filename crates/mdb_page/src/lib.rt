//! The checker for a page in a browser.
//!
//! The recording lies in memory as text. [`mdb_page_check`] puts the verdict and its text into
//! memory that the page provides. [`mdb_page_replay`] does the same for one run: the one in which
//! nothing was lost. [`mdb_page_list`] puts there the acts, and the news: what the
//! acts report of money, sales, resets, breaks and silences. [`mdb_page_survey`] puts there the
//! lines of a survey and the places of its faults. [`mdb_page_rises`] puts there the rows by which
//! a sum becomes uncertain, or certain again. [`mdb_page_weights`] puts there how many marks the
//! ends of the sums rest on. [`mdb_page_layout`] has the sizes of what is put there.
//! The crate allocates nothing. Each call reads the whole text, and keeps nothing for the
//! next call. Rows are numbered from 1, and times are in microseconds.
#![tactic(auto)]

mod acts;
mod answer;
mod faults;
mod judge;
mod layout;
mod lines;
mod news;
mod options;
mod rises;
mod rows;
mod scale;
mod sheet;
mod survey;
mod walk;
mod watch;
mod weights;
mod worth;

pub use acts::PageAct;
pub use answer::{PageTold, mdb_page_check, mdb_page_replay};
pub use faults::PageFault;
pub use layout::{PageLayout, mdb_page_layout};
pub use news::PageNews;
pub use options::{PageOptions, PageReader, PageSetup};
pub use rises::{PageRise, mdb_page_rises};
pub use scale::PageEnd;
pub use sheet::{PageLines, PageText};
pub use survey::mdb_page_survey;
pub use walk::mdb_page_list;
pub use weights::mdb_page_weights;
