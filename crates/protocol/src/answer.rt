// The sense and the answers of the drive. specs/Answer.antt gives document 01's number and values for each case.
ghost use Rattle.std.specs.Prelude.{◌≡◌};
ghost use Rattle.protocol.specs.Answer.{sense, no_sense, refusal_sense, allowed_sense, link_number, sense_number, number};

// Sense key, additional sense code and its qualifier, as a command left them. Numbers: the image of a state may have any (`is_allowed` is
// asked of every key, ASC and ASCQ), and REQUEST SENSE sends them.
#[derive(Clone, Copy, PartialEq, Eq, Debug)]
pub struct Sense {
    pub key: u8,
    pub asc: u8,
    pub ascq: u8,
}

impl Sense {
    fn new(key: u8, asc: u8, ascq: u8) -> Sense
        ensures { result ≡ sense key asc ascq }
    {
        Sense { key, asc, ascq }
    }

    // 0/00/00, which an accepted command sets.
    pub fn none() -> Sense
        ensures { result ≡ no_sense }
    {
        Sense::new(0x0, 0x00, 0x00)
    }

    // Whether a command can leave it: none, or a drive refusal's. A row of tests with no branch: a walk over the refusals takes ten times as long.
    pub fn is_allowed(self) -> bool
        ensures { result ≡ allowed_sense self }
    {
        (self == Sense::none())
            | (self == DriveRefusal::InvalidOperationCode.sense())
            | (self == DriveRefusal::WriteProtected.sense())
            | (self == DriveRefusal::InvalidFieldInCommand.sense())
            | (self == DriveRefusal::AddressOutOfRange.sense())
            | (self == DriveRefusal::BlankCheck.sense())
            | (self == DriveRefusal::InvalidAddressForWrite.sense())
            | (self == DriveRefusal::IncompleteTrackInSession.sense())
            | (self == DriveRefusal::EmptyTrack.sense())
            | (self == DriveRefusal::NoMoreReservations.sense())
            | (self == DriveRefusal::EndOfUserArea.sense())
    }
}

// Key, ASC and ASCQ as one number.
impl From<Sense> for u32 {
    ghost from_gives = { λ sense n. n ≡ sense_number sense };

    fn from(sense: Sense) -> u32 {
        u32::from_be_bytes([0, sense.key, sense.asc, sense.ascq])
    }
}

// The link refusals L1 to L4, with their numbers: the command never reaches the drive, and nothing changes.
#[derive(Clone, Copy, PartialEq, Eq, Debug)]
pub enum LinkRefusal {
    CommandBlockLength = 1,
    MediumSize = 2,
    UnsoundState = 3,
    TransferLength = 4,
}

// The drive refusals, in the order of document 01's table and by the names of their sense codes: only the sense changes.
#[derive(Clone, Copy, PartialEq, Eq, Debug)]
pub enum DriveRefusal {
    InvalidOperationCode,
    WriteProtected,
    InvalidFieldInCommand,
    AddressOutOfRange,
    BlankCheck,
    InvalidAddressForWrite,
    IncompleteTrackInSession,
    EmptyTrack,
    NoMoreReservations,
    EndOfUserArea,
}

// An enum, as document 01 binds it: a definition (`number`) gives its cases their numbers, and `Judged`, `Answered` and `Faced` promise those.
#[derive(Clone, Copy, PartialEq, Eq, Debug)]
pub enum Answer {
    Accepted,
    Link(LinkRefusal),
    Drive(DriveRefusal),
}

impl From<LinkRefusal> for u32 {
    ghost from_gives = { λ refusal n. n ≡ link_number refusal };

    fn from(refusal: LinkRefusal) -> u32 {
        refusal as u32
    }
}

impl DriveRefusal {
    // The sense that the refusal leaves.
    pub fn sense(self) -> Sense
        ensures { result ≡ refusal_sense self }
    {
        match self {
            DriveRefusal::InvalidOperationCode => Sense::new(0x5, 0x20, 0x00),
            DriveRefusal::WriteProtected => Sense::new(0x7, 0x27, 0x00),
            DriveRefusal::InvalidFieldInCommand => Sense::new(0x5, 0x24, 0x00),
            DriveRefusal::AddressOutOfRange => Sense::new(0x5, 0x21, 0x00),
            DriveRefusal::BlankCheck => Sense::new(0x8, 0x00, 0x00),
            DriveRefusal::InvalidAddressForWrite => Sense::new(0x5, 0x21, 0x02),
            DriveRefusal::IncompleteTrackInSession => Sense::new(0x5, 0x72, 0x03),
            DriveRefusal::EmptyTrack => Sense::new(0x5, 0x72, 0x04),
            DriveRefusal::NoMoreReservations => Sense::new(0x5, 0x72, 0x05),
            DriveRefusal::EndOfUserArea => Sense::new(0x5, 0x63, 0x00),
        }
    }
}

impl Answer {
    // Its number: 0 for accepted, 1 to 4 for L1 to L4, key, ASC and ASCQ in a row for a drive refusal. A method and no `From`: PROMISES.md
    // names it.
    pub fn number(self) -> u32
        ensures { result ≡ number self }
    {
        match self {
            Answer::Accepted => 0,
            Answer::Link(refusal) => u32::from(refusal),
            Answer::Drive(refusal) => u32::from(refusal.sense()),
        }
    }
}
