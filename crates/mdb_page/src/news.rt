//! The news of a recording: what its acts tell of money, sales, resets, breaks and silences.

ghost use Rattle.std.specs.Prelude.{◌≡◌, ◌<◌, ◌*◌, IfSome};
ghost use Rattle.mdb_cash.specs.BillMessages as bills;
ghost use Rattle.mdb_cash.specs.Changer.{coin_value};
ghost use Rattle.mdb_cash.specs.ChangerMessages as coins_told;
ghost use Rattle.mdb_page.specs.inner.News as spec;

use crate::rows::{Rows, device_number};
use crate::watch::{Unanswered, Watch};
use crate::worth::{Worth, amount, bill, coins};
use mdb_bus::{Act, Beginning};
use mdb_msgs::{
    BillCommand, BillMsg, BillSetup, ChangerCommand, ChangerMsg, ChangerSetup, Command, Device,
    ReaderCommand, ReaderConfig, ReaderMsg, ReaderUnit, Reply, Setups,
};
use mdb_words::Time;

/// An entry of the news.
#[repr(C)]
#[derive(Clone, Copy)]
pub struct PageNews {
    /// Its first row. Of a silence: the first row of the first command that wasn't answered.
    pub first: u64,
    /// Its last row. Of a silence: the last row of its last command, which an answer may end.
    pub last: u64,
    /// When its first row started, in microseconds. Of a silence: when the last word of the first
    /// command started.
    pub start: u64,
    /// When its last row started. Of a silence: when the last word of the last command started.
    pub end: u64,
    /// The amount, in smallest units of money; 0 where there is none, or none is known.
    pub amount: u64,
    /// How long a break was, in microseconds.
    pub length: u64,
    /// How many coins or bills there are. Of a silence: how many commands, with the one whose
    /// answer ended it. Else 1.
    pub count: u64,
    /// The type of a coin or bill, or the number of an item.
    pub number: u16,
    /// Its kind: 0 coin deposited to tube, 1 coin deposited to cash box, 2 coins dispensed by hand,
    /// 3 coins ordered by DISPENSE, 4 bill stacked, 5 bill in escrow, 6 bill returned, 7 vend
    /// request, 8 cash sale, 9 vend approved, 10 vend denied, 11 vend success, 12 vend cancel, 13
    /// vend failure, 14 session begun, 15 session complete, 16 session ended, 17 reset told, 18
    /// RESET commanded, 19 break, 20 silence, 21 set-up told, 22 bill to the recycler.
    pub kind: u8,
    /// The device: 0 none, 1 changer, 2 bill, 3 cashless, 4 cashless-2.
    pub device: u8,
    /// Whether it has an amount: 0 none, 1 one that isn't known, 2 one that is.
    pub worth: u8,
    /// The decimal places of a known amount.
    pub decimals: u8,
    /// Not 0: the controller acknowledged the message, or the device answered the command with ACK
    /// or data.
    pub is_acknowledged: u8,
    /// Not 0: the coin or bill is a token.
    pub is_token: u8,
}

/// A kind of news, in the order of their numbers.
#[derive(Clone, Copy, PartialEq, Eq, Debug)]
enum Kind {
    Tube,
    CashBox,
    ByHand,
    Ordered,
    Stacked,
    Escrow,
    Returned,
    VendRequest,
    CashSale,
    Approved,
    Denied,
    Success,
    Cancel,
    Failure,
    SessionBegun,
    SessionComplete,
    SessionEnded,
    ResetTold,
    Reset,
    Break,
    Silence,
    SetupTold,
    Recycled,
}

impl Kind {
    /// Its number.
    fn number(self) -> u8
        ensures { result ≡ spec.kind_number self }
    {
        match self {
            Kind::Tube => 0,
            Kind::CashBox => 1,
            Kind::ByHand => 2,
            Kind::Ordered => 3,
            Kind::Stacked => 4,
            Kind::Escrow => 5,
            Kind::Returned => 6,
            Kind::VendRequest => 7,
            Kind::CashSale => 8,
            Kind::Approved => 9,
            Kind::Denied => 10,
            Kind::Success => 11,
            Kind::Cancel => 12,
            Kind::Failure => 13,
            Kind::SessionBegun => 14,
            Kind::SessionComplete => 15,
            Kind::SessionEnded => 16,
            Kind::ResetTold => 17,
            Kind::Reset => 18,
            Kind::Break => 19,
            Kind::Silence => 20,
            Kind::SetupTold => 21,
            Kind::Recycled => 22,
        }
    }
}

/// What a command or a message tells.
#[derive(Clone, Copy, PartialEq, Eq, Debug)]
struct Fact {
    kind: Kind,
    /// The type of a coin or bill, or the number of an item.
    number: u16,
    /// How many coins or bills.
    count: u8,
    /// What they are worth in all.
    worth: Worth,
    is_token: bool,
}

impl Fact {
    /// One without an amount.
    fn plain(kind: Kind) -> Fact
        ensures { result ≡ spec.plain_fact kind }
    {
        Fact::of_item(kind, 0, Worth::Nothing)
    }

    /// One about an item.
    fn of_item(kind: Kind, item: u16, worth: Worth) -> Fact
        ensures { result ≡ spec.item_fact kind item worth }
    {
        Fact {
            kind,
            number: item,
            count: 1,
            worth,
            is_token: false,
        }
    }

    /// One about coins of a type.
    fn of_coins(kind: Kind, setup: &Option<ChangerSetup>, coin: u8, count: u8) -> Fact
        ensures { result ≡ spec.coins_fact setup.now kind coin count
            (count * coin_value setup.now coin) }
    {
        Fact {
            kind,
            number: u16::from(coin),
            count,
            worth: coins(setup, coin, count),
            is_token: match setup {
                Some(setup) => setup.credit(coin) == 0xFF,
                None => false,
            },
        }
    }

    /// One about a bill of a type.
    fn of_bill(kind: Kind, setup: &Option<BillSetup>, number: u8) -> Fact
        ensures { result ≡ spec.bill_fact setup.now kind number }
    {
        Fact {
            kind,
            number: u16::from(number),
            count: 1,
            worth: bill(setup, number),
            is_token: match setup {
                Some(setup) => setup.credit(number) == 0xFF,
                None => false,
            },
        }
    }
}

/// Which entries are put, and how many there were.
#[derive(Drop)]
struct Tally {
    /// So many are passed over yet.
    skip: u64,
    /// So many were put.
    put: usize,
    /// So many there were.
    entries: u64,
}

impl Tally {
    /// The tally before the first entry, where so many are passed over.
    fn skipping(skip: u64) -> Tally
        ensures { (result.skip ≡ skip) × (result.put ≡ 0) × (result.entries ≡ 0) }
    {
        Tally {
            skip,
            put: 0,
            entries: 0,
        }
    }

    /// The place of one entry more, if it isn't passed over and there is room for it.
    fn next(&mut self, room: usize) -> Option<usize>
        ensures room { IfSome result (λ place. place < room) }
        ensures counted { spec.Counts room self.old self.new result }
    {
        self.entries = self.entries.saturating_add(1);
        if self.skip > 0 {
            self.skip -= 1;
            return None;
        }
        if self.put >= room {
            return None;
        }
        let place = self.put;
        self.put += 1;
        Some(place)
    }

    /// How many entries were put.
    fn put(&self) -> usize
        ensures { result ≡ self.now.put }
    {
        self.put
    }

    /// How many entries there were.
    fn entries(&self) -> u64
        ensures { result ≡ self.now.entries }
    {
        self.entries
    }
}

/// The list of the news.
#[derive(Drop)]
pub(crate) struct NewsListing {
    tally: Tally,
    /// From this entry on, of those that were put, all wait for an acknowledgement.
    waiting: usize,
    /// What is known of how the devices are set up.
    setups: Setups,
    watch: Watch,
}

impl NewsListing {
    /// The list before the first act of a recording that begins so, where so many are passed over.
    pub(crate) fn start(begins: &Beginning, skip: u64) -> NewsListing
        ensures { (result.tally.skip ≡ skip) × (result.tally.entries ≡ 0) }
    {
        NewsListing {
            tally: Tally::skipping(skip),
            waiting: 0,
            setups: match begins {
                Beginning::PowerOn(_) => Setups::NONE,
                Beginning::Joined(setups, _) => setups.copy(),
            },
            watch: Watch::start(begins),
        }
    }

    /// Takes an act, which has these rows and whose last word started at a time.
    pub(crate) fn act(&mut self, news: &mut [PageNews], rows: &Rows, act: &Act, at: Time) {
        self.watch.follow(rows, act, at);
        match act {
            Act::Ask(command) => {
                self.wait();
                self.ask(news, rows, command);
            }
            Act::Ack(command) => {
                self.acknowledge(news);
                self.end(news, command.device());
            }
            Act::Nak(command) => {
                self.end(news, command.device());
            }
            Act::Reply(command, reply) => {
                self.acknowledge(news);
                self.end(news, command.device());
                self.reply(news, rows, command.device(), reply);
            }
            Act::VmcAck(_, _) => self.acknowledge(news),
            Act::Break(length) => {
                self.end_all(news);
                self.put(news, break_of(rows, *length));
                self.wait();
            }
            Act::VmcNak(_, _) | Act::VmcRet(_, _) | Act::Repeat(_, _) => {}
            Act::Foreign => self.wait(),
        }
    }

    /// How many there were.
    pub(crate) fn count(&self) -> u64
        ensures { result ≡ self.now.tally.entries }
    {
        self.tally.entries()
    }

    /// Puts an entry, if it isn't passed over and there is room.
    fn put(&mut self, news: &mut [PageNews], entry: PageNews) {
        if let Some(place) = self.tally.next(news.len()) {
            news[place] = entry;
        }
    }

    /// No entry so far waits for an acknowledgement.
    fn wait(&mut self) {
        self.waiting = self.tally.put();
    }

    /// The entries that wait are acknowledged.
    fn acknowledge(&mut self, news: &mut [PageNews]) {
        if let Some(waiting) = news.get_mut(self.waiting..self.tally.put()) {
            for entry in waiting {
                entry.is_acknowledged = 1;
            }
        }
        self.wait();
    }

    /// A device answers, and ends its silence if there is one.
    fn end(&mut self, news: &mut [PageNews], device: Device) {
        if let Some(silence) = self.watch.ended(device) {
            self.put(news, silence_of(device, silence));
        }
        self.wait();
    }

    /// All silences end: at a break, and at the end of the recording.
    pub(crate) fn end_all(&mut self, news: &mut [PageNews]) {
        self.end(news, Device::Changer);
        self.end(news, Device::Bill);
        self.end(news, Device::Reader(ReaderUnit::First));
        self.end(news, Device::Reader(ReaderUnit::Second));
    }

    /// The controller asks.
    fn ask(&mut self, news: &mut [PageNews], rows: &Rows, command: &Command) {
        let fact = match *command {
            Command::Changer(command) => changer_asked(&self.setups.changer, command),
            Command::Bill(command) => bill_asked(command),
            Command::Reader(unit, command) => reader_asked(self.setups.config(unit), command),
        };
        self.tell(news, rows, command.device(), fact);
    }

    /// A device replies.
    fn reply(&mut self, news: &mut [PageNews], rows: &Rows, device: Device, reply: &Reply) {
        if self.setups.learn_reply(device, reply) {
            self.tell(news, rows, device, Some(Fact::plain(Kind::SetupTold)));
        }
        match reply {
            Reply::ChangerPoll(list) => {
                for message in list.as_slice() {
                    let fact = changer_told(&self.setups.changer, *message);
                    self.tell(news, rows, device, fact);
                }
            }
            Reply::BillPoll(list) => {
                for message in list.as_slice() {
                    let fact = bill_told(&self.setups.bill, *message);
                    self.tell(news, rows, device, fact);
                }
            }
            Reply::Reader(list) => {
                let config = match device {
                    Device::Reader(unit) => self.setups.config(unit),
                    _ => None,
                };
                for message in list.iter() {
                    self.tell(news, rows, device, reader_told(config, message));
                }
            }
            _ => {}
        }
    }

    /// Puts what an act of a device tells, if it tells something.
    fn tell(&mut self, news: &mut [PageNews], rows: &Rows, device: Device, fact: Option<Fact>) {
        if let Some(fact) = fact {
            self.put(news, entry_of(rows, device, fact));
        }
    }
}

/// What a command to the changer tells.
fn changer_asked(setup: &Option<ChangerSetup>, command: ChangerCommand) -> Option<Fact>
    ensures { result ≡ spec.changer_asked setup.now command }
{
    match command {
        ChangerCommand::Reset => Some(Fact::plain(Kind::Reset)),
        ChangerCommand::Dispense(coins) => {
            let (coin, count) = (coins % 16, coins / 16);
            Some(Fact::of_coins(Kind::Ordered, setup, coin, count))
        }
        _ => None,
    }
}

/// What a command to the validator tells.
fn bill_asked(command: BillCommand) -> Option<Fact>
    ensures { result ≡ spec.bill_asked command }
{
    match command {
        BillCommand::Reset => Some(Fact::plain(Kind::Reset)),
        _ => None,
    }
}

/// What a command to a reader tells.
fn reader_asked(config: Option<ReaderConfig>, command: ReaderCommand) -> Option<Fact>
    ensures { result ≡ spec.reader_asked config command }
{
    Some(match command {
        ReaderCommand::Reset => Fact::plain(Kind::Reset),
        ReaderCommand::VendRequest { price, item } => {
            Fact::of_item(Kind::VendRequest, item, amount(config, price))
        }
        ReaderCommand::CashSale { price, item } => {
            Fact::of_item(Kind::CashSale, item, amount(config, price))
        }
        ReaderCommand::VendSuccess { item } => {
            Fact::of_item(Kind::Success, item, Worth::Nothing)
        }
        ReaderCommand::VendCancel => Fact::plain(Kind::Cancel),
        ReaderCommand::VendFailure => Fact::plain(Kind::Failure),
        ReaderCommand::SessionComplete => Fact::plain(Kind::SessionComplete),
        _ => return None,
    })
}

/// What a message of the changer tells.
fn changer_told(setup: &Option<ChangerSetup>, message: ChangerMsg) -> Option<Fact>
    ensures { result ≡ spec.changer_told setup.now (coins_told.part_of message) }
{
    match message {
        ChangerMsg::Tube { coin, .. } => Some(Fact::of_coins(Kind::Tube, setup, coin, 1)),
        ChangerMsg::CashBox { coin, .. } => Some(Fact::of_coins(Kind::CashBox, setup, coin, 1)),
        ChangerMsg::ManualDispense { count: 0, .. } => None,
        ChangerMsg::ManualDispense { count, coin, .. } => {
            Some(Fact::of_coins(Kind::ByHand, setup, coin, count))
        }
        ChangerMsg::Reset => Some(Fact::plain(Kind::ResetTold)),
        _ => None,
    }
}

/// What a message of the validator tells.
fn bill_told(setup: &Option<BillSetup>, message: BillMsg) -> Option<Fact>
    ensures { result ≡ spec.bill_told setup.now (bills.part_of message) }
{
    match message {
        BillMsg::Stacked(number) => Some(Fact::of_bill(Kind::Stacked, setup, number)),
        BillMsg::Escrow(number) => Some(Fact::of_bill(Kind::Escrow, setup, number)),
        BillMsg::Returned(number) => Some(Fact::of_bill(Kind::Returned, setup, number)),
        BillMsg::Recycled(number) => Some(Fact::of_bill(Kind::Recycled, setup, number)),
        BillMsg::Reset => Some(Fact::plain(Kind::ResetTold)),
        _ => None,
    }
}

/// What a message of a reader tells.
fn reader_told(config: Option<ReaderConfig>, message: ReaderMsg) -> Option<Fact>
    ensures { result ≡ spec.reader_told config message }
{
    match message {
        ReaderMsg::JustReset => Some(Fact::plain(Kind::ResetTold)),
        ReaderMsg::BeginSession { funds } | ReaderMsg::BeginSessionLong { funds, .. } => {
            let worth = match funds {
                0xFFFF => Worth::Nothing,
                _ => amount(config, funds),
            };
            Some(Fact::of_item(Kind::SessionBegun, 0, worth))
        }
        ReaderMsg::VendApproved { amount: approved } => {
            Some(Fact::of_item(Kind::Approved, 0, amount(config, approved)))
        }
        ReaderMsg::VendDenied => Some(Fact::plain(Kind::Denied)),
        ReaderMsg::EndSession => Some(Fact::plain(Kind::SessionEnded)),
        _ => None,
    }
}

/// The entry of what an act of a device tells.
fn entry_of(rows: &Rows, device: Device, fact: Fact) -> PageNews
    ensures { spec.ShowsFact rows.now device fact result }
{
    let (worth, amount, decimals) = match fact.worth {
        Worth::Nothing => (0, 0, 0),
        Worth::Unknown => (1, 0, 0),
        Worth::Known { amount, decimals } => (2, amount, decimals),
    };
    PageNews {
        first: rows.first,
        last: rows.last,
        start: rows.start,
        end: rows.end,
        amount,
        length: 0,
        count: u64::from(fact.count),
        number: fact.number,
        kind: fact.kind.number(),
        device: device_number(device),
        worth,
        decimals,
        is_acknowledged: 0,
        is_token: u8::from(fact.is_token),
    }
}

/// The entry of a break.
fn break_of(rows: &Rows, length: u64) -> PageNews {
    PageNews {
        first: rows.first,
        last: rows.last,
        start: rows.start,
        end: rows.end,
        amount: 0,
        length,
        count: 1,
        number: 0,
        kind: Kind::Break.number(),
        device: 0,
        worth: 0,
        decimals: 0,
        is_acknowledged: 0,
        is_token: 0,
    }
}

/// The entry of a silence of a device.
fn silence_of(device: Device, silence: Unanswered) -> PageNews {
    PageNews {
        first: silence.first,
        last: silence.last,
        start: silence.from,
        end: silence.to,
        amount: 0,
        length: 0,
        count: silence.asks,
        number: 0,
        kind: Kind::Silence.number(),
        device: device_number(device),
        worth: 0,
        decimals: 0,
        is_acknowledged: 0,
        is_token: 0,
    }
}
