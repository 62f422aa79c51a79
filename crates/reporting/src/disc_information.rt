// READ DISC INFORMATION (51h): what it says of the disc; where the bytes stand is the protocol's.
ghost use Rattle.std.specs.Prelude.{◌≡◌};
ghost use Rattle.disc.specs.Apply.{decided};
ghost use Rattle.reporting.specs.Reports.{last_session, session_number, status_of, status_number, disc_report, read_disc_information};

use decisions::Decision;
use disc::Disc;
use protocol::{DiscReport, DriveRefusal, Reply};

// The state of the last session: with only a blank tail, any other, and on a finalized disc.
#[derive(Clone, Copy)]
enum SessionState {
    Empty = 0,
    Incomplete = 1,
    Complete = 3,
}

// The disc status.
#[derive(Clone, Copy)]
enum DiscStatus {
    Blank = 0,
    Appendable = 1,
    Finalized = 2,
}

impl SessionState {
    fn of(finalized: bool, only: bool) -> SessionState
        ensures { session_number result ≡ last_session finalized only }
    {
        if finalized {
            SessionState::Complete
        } else if only {
            SessionState::Empty
        } else {
            SessionState::Incomplete
        }
    }
}

// Its number in the reply.
impl From<SessionState> for u8 {
    ghost from_gives = { λ state n. n ≡ session_number state };

    fn from(state: SessionState) -> u8 {
        state as u8
    }
}

impl DiscStatus {
    fn of(finalized: bool, blank: bool) -> DiscStatus
        ensures { status_number result ≡ status_of finalized blank }
    {
        if finalized {
            DiscStatus::Finalized
        } else if blank {
            DiscStatus::Blank
        } else {
            DiscStatus::Appendable
        }
    }
}

// Its number in the reply.
impl From<DiscStatus> for u8 {
    ghost from_gives = { λ status n. n ≡ status_number status };

    fn from(status: DiscStatus) -> u8 {
        status as u8
    }
}

// What READ DISC INFORMATION says: the two states, and the numbers of the last session, its first and its last fragment.
#[tactic(auto, unfolding(crate::specs::Reports::session_state, crate::specs::Reports::disc_status))]
fn disc_report(disc: Disc) -> DiscReport
    ensures { result ≡ disc_report disc }
{
    let last = disc.last();
    let session = last.fragment.session;
    let only = disc.is_only_tail(last);
    let state = SessionState::of(disc.finalized, only);
    let status = DiscStatus::of(disc.finalized, only & (session == 1));
    DiscReport {
        states: 4 * u8::from(state) + u8::from(status),
        sessions: usize::from(session),
        first: disc.first_of_session(session),
        last: last.number,
    }
}

// READ DISC INFORMATION (51h): data type 0 alone is served. A Decision and no Result: the function is public, and its promise
// `decided disc result` is of a decision, refused or not.
#[tactic(auto, using(disc::proofs::Laws::Apply::verdicts), unfolding(crate::specs::Reports::read_disc_information))]
pub fn read_disc_information(disc: Disc, data_type: u8, allocation: u16) -> Decision
    ensures { decided disc result ≡ read_disc_information disc data_type allocation }
{
    if data_type == 0 {
        let reply = Reply::of_disc(disc_report(disc), usize::from(allocation));
        return Decision::unchanged(reply);
    }
    Decision::refused(DriveRefusal::InvalidFieldInCommand)
}
