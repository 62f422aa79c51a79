// The replies of the commands that report: REQUEST SENSE (03h), READ CAPACITY (25h), READ DISC INFORMATION (51h) and READ TRACK
// INFORMATION (52h). Each is built here alone, from named fields.
ghost use Rattle.std.specs.Prelude.{◌≡◌, ◌∷◌, []};
ghost use Rattle.protocol.specs.Lengths.{capacity_length};
ghost use Rattle.protocol.specs.Reply.{report};
ghost use Rattle.protocol.specs.Reports.{low, high, bytes32, when, flags_of, valid_of, sense_bytes, capacity_bytes, disc_bytes, track_bytes};

use crate::answer::Sense;
use crate::lengths;
use crate::reply::Reply;
use fragments::Lba;

// What READ DISC INFORMATION says: the states of the last session and of the disc in one byte, how many sessions there are, and the
// numbers of the last one's first and last fragment. The states are a byte, and no enums: `Reply::of_disc` takes any, as it always did.
#[derive(Clone, Copy)]
pub struct DiscReport {
    pub states: u8,
    pub sessions: usize,
    pub first: usize,
    pub last: usize,
}

// What READ TRACK INFORMATION says of a fragment. An address stands beside the flag that says whether it is valid, and not in an Option: it is
// sent either way (`reported`, examples: Values).
#[derive(Clone, Copy)]
pub struct TrackReport {
    pub number: usize,
    pub session: usize,
    pub reserved: bool,
    pub blank: bool,
    // Some ECC block is recorded: the last recorded address is valid.
    pub written: bool,
    // The next writable address is valid.
    pub incomplete: bool,
    pub start: Lba,
    pub next: Lba,
    // Sectors from there to the end, and all of them.
    pub free: u64,
    pub size: u64,
    pub last: Lba,
}

// Bytes of the reports of READ DISC INFORMATION and READ TRACK INFORMATION after the two of the length itself.
const DISC_INFORMATION_REST: u8 = 0x20;

const TRACK_INFORMATION_REST: u8 = 0x22;

// A number that counts where a test holds.
fn when(test: bool, n: u8) -> u8
    ensures { result ≡ when test n }
{
    if test { n } else { 0 }
}

// A number's low byte, and the one above it.
fn halves(n: usize) -> [u8; 2]
    ensures { result ≡ (low n ∷ high n ∷ []) }
{
    let [low, high, ..] = n.to_le_bytes();
    [low, high]
}

// Its low four bytes, the highest first. `number_bytes` of contents is the same: for one line a crate below both would have to make it public.
fn word(n: u64) -> [u8; 4]
    ensures { result ≡ bytes32 n }
{
    ((n % 0x100000000) as u32).to_be_bytes()
}

impl TrackReport {
    // Byte 6: data mode 1, and whether the fragment is reserved and whether blank.
    fn flags(self) -> u8
        ensures { result ≡ flags_of self }
    {
        0x01 + when(self.reserved, 0x80) + when(self.blank, 0x40)
    }

    // Byte 7: whether the last recorded address and whether the next writable one is valid.
    fn valid(self) -> u8
        ensures { result ≡ valid_of self }
    {
        when(self.written, 0x02) + when(self.incomplete, 0x01)
    }

    #[tactic(auto, unfolding(crate::specs::Reports::track_bytes))]
    fn bytes(self) -> [u8; lengths::TRACK_INFORMATION_LENGTH]
        ensures { result ≡ track_bytes self }
    {
        let [number_low, number_high] = halves(self.number);
        let [session_low, session_high] = halves(self.session);
        let mut bytes = [0u8; lengths::TRACK_INFORMATION_LENGTH];
        bytes[..8].copy_from_slice(&[
            0x00,
            TRACK_INFORMATION_REST,
            number_low,
            session_low,
            0,
            0x04,
            self.flags(),
            self.valid(),
        ]);
        bytes[8..12].copy_from_slice(&word(self.start.0));
        bytes[12..16].copy_from_slice(&word(self.next.0));
        bytes[16..20].copy_from_slice(&word(self.free));
        bytes[20..24].copy_from_slice(&word(fragments::sectors_in(1)));
        bytes[24..28].copy_from_slice(&word(self.size));
        bytes[28..32].copy_from_slice(&word(self.last.0));
        bytes[32] = number_high;
        bytes[33] = session_high;
        bytes
    }
}

impl DiscReport {
    #[tactic(auto, unfolding(crate::specs::Reports::disc_bytes))]
    fn bytes(self) -> [u8; lengths::DISC_INFORMATION_LENGTH]
        ensures { result ≡ disc_bytes self }
    {
        let [sessions_low, sessions_high] = halves(self.sessions);
        let [first_low, first_high] = halves(self.first);
        let [last_low, last_high] = halves(self.last);
        let mut bytes = [0u8; lengths::DISC_INFORMATION_LENGTH];
        bytes[..12].copy_from_slice(&[
            0x00,
            DISC_INFORMATION_REST,
            self.states,
            1,
            sessions_low,
            first_low,
            last_low,
            0,
            0,
            sessions_high,
            first_high,
            last_high,
        ]);
        bytes
    }
}

impl Reply {
    // REQUEST SENSE's reply.
    #[tactic(auto, unfolding(crate::specs::Reports::sense_bytes))]
    pub fn of_sense(sense: Sense, allocation: usize) -> Reply
        ensures { result ≡ report (sense_bytes sense) allocation }
    {
        let mut bytes = [0u8; lengths::SENSE_LENGTH];
        bytes[0] = 0x70;
        bytes[2] = sense.key;
        bytes[7] = 0x0A;
        bytes[12] = sense.asc;
        bytes[13] = sense.ascq;
        Reply::report(&bytes, allocation)
    }

    // READ CAPACITY's reply: the last readable address and the size of a sector.
    pub fn of_capacity(last: Lba) -> Reply
        ensures { result ≡ report (capacity_bytes last) capacity_length }
    {
        let mut bytes = [0u8; lengths::CAPACITY_LENGTH];
        bytes[..4].copy_from_slice(&word(last.0));
        bytes[4..].copy_from_slice(&word(lengths::SECTOR_LENGTH as u64));
        Reply::report(&bytes, lengths::CAPACITY_LENGTH)
    }

    // READ DISC INFORMATION's reply.
    pub fn of_disc(disc: DiscReport, allocation: usize) -> Reply
        ensures { result ≡ report (disc_bytes disc) allocation }
    {
        Reply::report(&disc.bytes(), allocation)
    }

    // READ TRACK INFORMATION's reply.
    pub fn of_track(track: TrackReport, allocation: usize) -> Reply
        ensures { result ≡ report (track_bytes track) allocation }
    {
        Reply::report(&track.bytes(), allocation)
    }
}
