//! What a command may be answered with, other than ACK.

ghost use Rattle.std.specs.Prelude.{◌≡◌, ◌↔◌, IsTrue};
ghost use Rattle.mdb_msgs.specs.Answers.{form_of, changer_form_of, bill_form_of, lengths_of, may_tell_of_sales, HasDataAnswer, IsDataLength, MayHaveData};

use crate::command::{BillCommand, ChangerCommand, Command, ReaderCommand};

/// The form of a data answer, by the command that it answers.
#[derive(Clone, Copy, PartialEq, Eq, Debug)]
pub enum DataForm {
    /// To the changer's SETUP.
    ChangerSetup,
    /// To TUBE STATUS.
    TubeStatus,
    /// To the changer's POLL.
    ChangerPoll,
    /// To the changer's identification.
    ChangerIdentification,
    /// To the validator's SETUP.
    BillSetup,
    /// To the validator's POLL.
    BillPoll,
    /// To STACKER.
    Stacker,
    /// To the validator's identification.
    BillIdentification,
    /// To the validator's identification with options.
    BillIdentificationWithOptions,
    /// To every command of a reader: a list of messages. MDB/ICP 4.3 (cashless device) allows a
    /// list as the answer to most of them. For RESET, DISABLE, ENABLE and ENABLE OPTIONS, this
    /// profile allows it.
    Reader,
}

impl DataForm {
    /// The form of the data answers to a command. `None` if it can't have any.
    pub fn of(command: &Command) -> Option<Self>
        ensures { result ≡ form_of command.now }
    {
        match command {
            Command::Changer(command) => DataForm::of_changer(command),
            Command::Bill(command) => DataForm::of_bill(command),
            Command::Reader(_, _) => Some(DataForm::Reader),
        }
    }

    fn of_changer(command: &ChangerCommand) -> Option<Self>
        ensures { result ≡ changer_form_of command.now }
    {
        match command {
            ChangerCommand::Setup => Some(DataForm::ChangerSetup),
            ChangerCommand::TubeStatus => Some(DataForm::TubeStatus),
            ChangerCommand::Poll => Some(DataForm::ChangerPoll),
            ChangerCommand::Identification => Some(DataForm::ChangerIdentification),
            _ => None,
        }
    }

    fn of_bill(command: &BillCommand) -> Option<Self>
        ensures { result ≡ bill_form_of command.now }
    {
        match command {
            BillCommand::Setup => Some(DataForm::BillSetup),
            BillCommand::Poll => Some(DataForm::BillPoll),
            BillCommand::Stacker => Some(DataForm::Stacker),
            BillCommand::Identification => Some(DataForm::BillIdentification),
            BillCommand::IdentificationWithOptions => {
                Some(DataForm::BillIdentificationWithOptions)
            }
            _ => None,
        }
    }

    /// The least and the greatest number of data bytes, without the sum.
    ///
    /// SETUP and TUBE STATUS have up to 16 credits or counts. Any number of them may be left out
    /// from the end. A reader's list may have any number of bytes that a block can carry (this
    /// profile).
    pub fn lengths(self) -> (usize, usize)
        ensures { result ≡ lengths_of self }
    {
        match self {
            DataForm::ChangerSetup => (7, 23),
            DataForm::TubeStatus => (2, 18),
            DataForm::ChangerPoll | DataForm::BillPoll => (1, 16),
            DataForm::ChangerIdentification | DataForm::BillIdentificationWithOptions => (33, 33),
            DataForm::BillSetup => (11, 27),
            DataForm::Stacker => (2, 2),
            DataForm::BillIdentification => (29, 29),
            DataForm::Reader => (1, 35),
        }
    }

    /// Whether an answer of this form may have so many data bytes.
    pub fn allows(self, length: usize) -> bool
        ensures { IsTrue result ↔ IsDataLength self length }
    {
        let (least, greatest) = self.lengths();
        least <= length && length <= greatest
    }
}

impl Command {
    /// Whether some data block may answer the command.
    pub fn may_have_data(&self) -> bool
        ensures { IsTrue result ↔ MayHaveData self.now }
    {
        DataForm::of(self).is_some()
    }

    /// Whether so many data bytes, without their sum, may answer the command.
    pub fn has_data_answer(&self, count: usize) -> bool
        ensures { IsTrue result ↔ HasDataAnswer self.now count }
    {
        match DataForm::of(self) {
            Some(form) => form.allows(count),
            None => false,
        }
    }
}

/// Whether answers to this command may report sessions and sales by the base profile (this
/// profile). The commands are a reader's POLL and the five commands of a session, VEND REQUEST to
/// SESSION COMPLETE. They are 12 and 13 00 to 13 04, or 62 and 63 00 to 63 04.
pub(crate) fn may_tell_of_sales(command: &Command) -> bool
    ensures { result ≡ may_tell_of_sales command.now }
{
    matches!(
        command,
        Command::Reader(
            _,
            ReaderCommand::Poll
                | ReaderCommand::VendRequest { .. }
                | ReaderCommand::VendCancel
                | ReaderCommand::VendSuccess { .. }
                | ReaderCommand::VendFailure
                | ReaderCommand::SessionComplete
        )
    )
}
