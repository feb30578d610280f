//! Why a command line is refused that names a command, and the line on it.

use super::command_line::program;
use command_words::{Line, row_of};
use mdb_bus::Profile;
use mdb_follow::AccountName;
use mdb_msgs::Device;

/// Why a command line is refused that names a command.
#[derive(Clone, Copy)]
pub(crate) enum Refusal<'a> {
    /// `show` has `--joined` without `--extended`.
    NotExtended,
    /// `--setup` stands without `--joined`.
    NotJoined,
    /// This value of `--setup` is refused.
    Setup(&'a str, SetupFault),
    /// This value of `--without` isn't the word of a device.
    Device(&'a str),
    /// This word isn't that of an account.
    Account(&'a str),
    /// This word isn't that of a side.
    Side(&'a str),
    /// This word isn't that of an end of a range.
    Bound(&'a str),
    /// The manual has no command of this name.
    Command(&'a str),
}

/// Why a value of `--setup` is refused.
#[derive(Clone, Copy)]
pub(crate) enum SetupFault {
    /// Memory was refused.
    Memory,
    /// It isn't a device's word and bytes after it, with or without what a line of `show` has
    /// before them. By the extended profile it isn't a reader's word and its level either.
    Form,
    /// The last byte isn't the sum of the others.
    Sum,
    /// The bytes are no answer of the device to SETUP.
    NoAnswer,
    /// The bytes are a block of the controller, but neither SETUP config nor ENABLE OPTIONS.
    NoAsk,
    /// They are an ENABLE OPTIONS that asks this reader for money that isn't followed.
    OtherMoney(Device),
    /// A value before it gives the same of its device.
    Twice,
    /// Its device is left out.
    LeftOut,
}

/// The line on words that are refused for this, where they ask for this profile.
pub(crate) fn line_on(refusal: Refusal<'_>, profile: Profile, words: &[String]) -> Line {
    let mut line = Line::of(program());
    line.add(&[": "]);
    match refusal {
        Refusal::NotExtended => line.add(&["--joined needs --extended"]),
        Refusal::NotJoined => line.add(&["--setup needs --joined"]),
        Refusal::Setup(_, SetupFault::Memory) => {
            line.add(&["out of memory"]);
            return line;
        }
        Refusal::Setup(text, fault) => {
            line.add_word("--setup \"", text, "\" ");
            line.add(&[reason_of(fault, profile)]);
            if let SetupFault::OtherMoney(device) = fault {
                // (in the place of the usage, for which there is no room)
                line.add(&[": leave that reader out (--without ", device.word(), ")"]);
                return line;
            }
        }
        Refusal::Command(word) => {
            line.add_word("unknown command \"", word, "\"");
            line.add_usage(program(), None);
            return line;
        }
        Refusal::Account(word) => {
            line.add_word("ACCOUNT \"", word, "\" isn't ");
            add_accounts(&mut line);
        }
        other => add_word(&mut line, other),
    }
    line.add_usage(program(), row_of(program(), words));
    line
}

/// Adds a word that is none of the few that may stand there.
fn add_word(line: &mut Line, refusal: Refusal<'_>) {
    match refusal {
        Refusal::Device(word) => {
            let isnt = "\" isn't changer, bill, cashless, cashless-2";
            line.add_word("--without \"", word, isnt);
        }
        Refusal::Side(word) => {
            line.add_word("SIDE \"", word, "\" isn't device, controller or difference");
        }
        Refusal::Bound(word) => line.add_word("BOUND \"", word, "\" isn't least or greatest"),
        _ => {}
    }
}

/// Adds the words of all accounts.
fn add_accounts(line: &mut Line) {
    for account in AccountName::ALL {
        let comma = if account.place() > 0 { ", " } else { "" };
        line.add(&[comma, account.word()]);
    }
}

/// Why a value of `--setup` is refused by a profile.
fn reason_of(fault: SetupFault, profile: Profile) -> &'static str {
    match fault {
        SetupFault::Memory => "",
        SetupFault::Form if profile == Profile::Extended => {
            "isn't BYTES, level 1-3 or a line of show"
        }
        SetupFault::Form => "isn't DEVICE BYTES or a line of show",
        SetupFault::Sum => "doesn't end with the sum of its bytes",
        SetupFault::NoAnswer => "is no answer of its device to SETUP",
        SetupFault::NoAsk => "is neither SETUP config nor ENABLE OPTIONS",
        SetupFault::OtherMoney(_) => "has money of 32 bits or several currencies",
        SetupFault::Twice => "names its device again",
        SetupFault::LeftOut => "names a device that is left out",
    }
}
