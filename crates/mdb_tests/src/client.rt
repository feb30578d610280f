//! The calls of a maker's client (`mdb_examples`), each where all goes well.

use mdb_bus::{Blame, Bus, LinkFault, Rule, Scope};
use mdb_examples::{
    Unread, Untaken, command_in, difference_of, explained, log_row, next_command, printed,
    sent_again, shown, take_word, tidied,
};
use mdb_follow::{AccountName, AccountSide, Bound, Follower, Goal, ROWS_MAX};
use mdb_msgs::{ChangerCommand, Command, MsgFault};
use mdb_surveyor::Surveyor;
use mdb_words::{BlockFault, Event, Line, RowFault};

/// A changer's RESET, and its ACK: start in microseconds, line, word.
const RESET: [(u64, Line, u16); 3] = [
    (1000, Line::Controller, 0x108),
    (2200, Line::Controller, 0x008),
    (4200, Line::Peripheral, 0x100),
];

#[test]
fn a_bus_is_followed(rt: HostRuntime) {
    let mut follower = Follower::new();
    for (micros, line, bits) in &RESET {
        assert_eq!(rt; take_word(&mut follower, *micros, *line, *bits), Ok(()));
    }
    let range = difference_of(&follower, AccountName::CoinsIn);
    assert_eq!(rt;
        range.map(|range| (range.least, range.greatest)),
        Ok((0, 0))
    );
    let tenth_bit = take_word(&mut follower, 5000, Line::Controller, 0x200);
    assert_eq!(rt; tenth_bit, Err(Untaken::OutOfRange));
    assert_eq!(rt; follower.rows(), 3);
    let early = take_word(&mut follower, 4200, Line::Controller, 0x10B);
    assert!(rt; matches!(early, Err(Untaken::Impossible(offence)) if offence.row == 4));
    assert!(rt; difference_of(&follower, AccountName::CoinsIn).is_err());
}

#[test]
fn commands_are_told(rt: HostRuntime) {
    let mut bus = Bus::new();
    let fields: [&[u8]; 3] = [b"1000", b"M", b"108"];
    let first = Event::read(&fields).map(|row| next_command(&mut bus, row));
    assert_eq!(rt; first, Ok(Ok(None)));
    let fields: [&[u8]; 3] = [b"2200", b"M", b"008"];
    let second = Event::read(&fields).map(|row| next_command(&mut bus, row));
    assert_eq!(rt;
        second,
        Ok(Ok(Some(Command::Changer(ChangerCommand::Reset))))
    );
}

#[test]
fn messages_are_read_and_written(rt: HostRuntime) {
    let poll = Command::Changer(ChangerCommand::Poll);
    assert_eq!(rt; command_in(&[0x0B, 0x0B]), Ok(poll));
    assert_eq!(rt;
        command_in(&[0x0B, 0x0C]),
        Err(Unread::NoBlock(BlockFault::BadSum))
    );
    assert_eq!(rt;
        command_in(&[0x0E, 0x0E]),
        Err(Unread::NoMessage(MsgFault::Profile))
    );
    let coin = [0x52, 0x09, 0x5B];
    let again = sent_again(&poll, &coin);
    assert!(rt; matches!(again, Ok(block) if block.bytes() == coin.as_slice()));
    let cut = sent_again(&poll, &[0x52, 0x52]);
    assert!(rt; matches!(cut, Err(Unread::NoMessage(MsgFault::Message))));
}

#[test]
fn a_verdict_is_printed(rt: HostRuntime) {
    let text = b"1000,M,108\n2200,M,009\n";
    let wanted = b"verdict no\nrow 2\nrule Sum\nblame controller\n";
    let said = printed(rt.alloc(), &Scope::POWER_ON, text).expect(&rt, "there is a verdict");
    assert_eq!(rt; said.as_slice(), wanted.as_slice());
}

#[test]
fn a_row_is_tidied(rt: HostRuntime) {
    let fields: [&[u8]; 3] = [b"0028497", b"M", b"10b"];
    let row = tidied(&fields).expect(&rt, "it is a row");
    assert_eq!(rt; row.as_str(), "28497,M,10B");
    let fields: [&[u8]; 2] = [b"28497", b"M"];
    assert!(rt; matches!(tidied(&fields), Err(RowFault::FieldCount)));
}

#[test]
fn acts_are_shown(rt: HostRuntime) {
    let text = b"1000,M,108\n2200,M,008\n4200,S,100\n24200,M,10B\n25400,M,00C\n";
    let wanted = b"1-2 ask changer 08 08\n3-3 ack changer\nfault 5 Sum controller\n";
    let (said, fault) = shown(rt.alloc(), &Scope::POWER_ON, text).expect(&rt, "the acts are shown");
    assert_eq!(rt; said.as_slice(), wanted.as_slice());
    let (rule, blame) = (Rule::Sum, Blame::Controller);
    assert_eq!(rt; fault, Some(LinkFault { rule, blame }));
}

#[test]
fn an_impossible_row_is_logged_and_the_survey_goes_on(rt: HostRuntime) {
    let mut surveyor = Surveyor::scoped(&Scope::POWER_ON);
    let mut log = Vec::new(rt.alloc());
    let rows: [[&[u8]; 3]; 3] = [
        [b"1000", b"M", b"108"],
        [b"2200", b"M", b"009"],
        [b"24200", b"M", b"108"],
    ];
    for fields in &rows {
        let row = Event::read(fields).expect(&rt, "it is a row");
        assert!(rt; surveyor.rows() < ROWS_MAX);
        log_row(&mut surveyor, row, &mut log).expect(&rt, "the log is in memory");
    }
    assert_eq!(rt; surveyor.rows(), 3);
    assert!(rt; log.starts_with(b"stretch 1 rows 1-1\ndecimals changer - "));
    assert!(rt; log.ends_with(b"\nfault 2 Sum controller\n"));
}

/// A coin of 25 that the changer reported twice. The controller acknowledged both reports.
const TWICE: &[u8] =
    b"1000,M,108\n2200,M,008\n4200,S,100\n24200,M,10B\n25400,M,00B\n27400,S,00B\n28600,S,10B\n\
30600,M,000\n50600,M,109\n51800,M,009\n53800,S,002\n55000,S,000\n56200,S,001\n\
57400,S,005\n58600,S,002\n59800,S,000\n61000,S,007\n62200,S,001\n63400,S,002\n\
64600,S,005\n65800,S,119\n67800,M,000\n87800,M,10C\n89000,M,000\n90200,M,007\n\
91400,M,000\n92600,M,007\n93800,M,01A\n95800,S,100\n115800,M,10B\n117000,M,00B\n\
119000,S,052\n120200,S,009\n121400,S,15B\n123400,M,000\n143400,M,10B\n144600,M,00B\n\
146600,S,052\n147800,S,009\n149000,S,15B\n151000,M,000\n";

#[test]
fn the_least_of_two_equal_coins_is_explained(rt: HostRuntime) {
    let goal = Goal {
        account: AccountName::CoinsIn,
        side: AccountSide::Device,
        bound: Bound::Least,
    };
    let said = explained(rt.alloc(), TWICE, &goal).expect(&rt, "there is a verdict");
    // The first report's acknowledgement was lost.
    assert!(rt; said.starts_with(b"35,L,-\n1000,M,108\n"));
    assert!(rt; said.ends_with(TWICE));
}
