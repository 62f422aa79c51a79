// The lengths of data and reply that a command asks for (L4), and those of the reports.
ghost use Rattle.std.specs.Prelude.{◌≡◌, min};
ghost use Rattle.protocol.specs.Lengths.{inquiry_room, configuration_room, data_length, reply_room, lengths_fit};

use crate::command::Command;

// Bytes of a command block.
pub const CDB_LENGTH: usize = 12;

// Bytes of a sector, and of an ECC block of sixteen.
pub const SECTOR_LENGTH: usize = 2048;

pub const BLOCK_LENGTH: usize = 32768;

// Bytes of the whole reports of REQUEST SENSE, INQUIRY, READ CAPACITY, READ DISC INFORMATION and READ TRACK INFORMATION.
pub(crate) const SENSE_LENGTH: usize = 18;

pub(crate) const INQUIRY_LENGTH: usize = 36;

pub(crate) const CAPACITY_LENGTH: usize = 8;

pub(crate) const DISC_INFORMATION_LENGTH: usize = 34;

pub(crate) const TRACK_INFORMATION_LENGTH: usize = 36;

// The fourth request type of GET CONFIGURATION, which the drive refuses: a number and no enum, `decode` gives every number.
pub const FOURTH_REQUEST_TYPE: u8 = 3;

// The room for INQUIRY's report: none where the page bit has it refused.
#[tactic(auto, unfolding(crate::specs::Lengths::inquiry_room))]
fn inquiry_room(page_bit: u8, allocation: usize) -> usize
    ensures { result ≡ inquiry_room page_bit allocation }
{
    if page_bit == 0 {
        INQUIRY_LENGTH.min(allocation)
    } else {
        0
    }
}

// The room for GET CONFIGURATION's reply: none where the request type has it refused.
#[tactic(auto, unfolding(crate::specs::Lengths::configuration_room))]
fn configuration_room(request_type: u8, start: u16, allocation: usize) -> usize
    ensures { result ≡ configuration_room request_type start allocation }
{
    if request_type == FOURTH_REQUEST_TYPE {
        0
    } else {
        features::configuration_length(request_type, start).min(allocation)
    }
}

impl Command {
    // The bytes that come with the command: a WRITE's sectors.
    #[tactic(auto, unfolding(crate::specs::Lengths::data_length))]
    pub fn data_length(self) -> usize
        ensures { result ≡ data_length self }
    {
        match self {
            Command::Write { length, .. } => SECTOR_LENGTH * (length as usize),
            _ => 0,
        }
    }

    // The least room for the reply: a READ's sectors, or a report cut to its allocation length.
    #[tactic(auto, unfolding(crate::specs::Lengths::reply_room))]
    pub fn reply_room(self) -> usize
        ensures { result ≡ reply_room self }
    {
        match self {
            Command::RequestSense { allocation } => SENSE_LENGTH.min(usize::from(allocation)),
            Command::Inquiry {
                page_bit,
                allocation,
            } => inquiry_room(page_bit, usize::from(allocation)),
            Command::ReadCapacity => CAPACITY_LENGTH,
            Command::Read { length, .. } => SECTOR_LENGTH * (length as usize),
            Command::GetConfiguration {
                request_type,
                start,
                allocation,
            } => configuration_room(request_type, start, usize::from(allocation)),
            Command::ReadDiscInformation { allocation, .. } => {
                DISC_INFORMATION_LENGTH.min(usize::from(allocation))
            }
            Command::ReadTrackInformation { allocation, .. } => {
                TRACK_INFORMATION_LENGTH.min(usize::from(allocation))
            }
            _ => 0,
        }
    }

    // Whether data and reply buffer have lengths that the command can work with.
    #[tactic(auto, unfolding(crate::specs::Lengths::lengths_fit))]
    pub fn lengths_fit(self, data: usize, reply: usize) -> bool
        ensures { result ≡ lengths_fit self «data» reply }
    {
        (data == self.data_length()) & (self.reply_room() <= reply)
    }
}
