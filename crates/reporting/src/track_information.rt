// READ TRACK INFORMATION (52h): what it says of a fragment; where the bytes stand is the protocol's.
ghost use Rattle.std.specs.Prelude.{◌≡◌};
ghost use Rattle.disc.specs.Records.{numbered};
ghost use Rattle.disc.specs.Apply.{decided};
ghost use Rattle.reporting.specs.Reports.{next_writable_or_zero, free_sectors, track_report, track_verdict, track_found, track_numbered};

use decisions::Decision;
use disc::Disc;
use fragments::{Entry, Lba};
use protocol::{DriveRefusal, Reply, TrackReport};

// The number that stands for the tail: the command's own (document 02), which `track_numbered` compares.
const TAIL: usize = 0xFF;

// A fragment of a disc. Its record is looked up once: each look-up costs a copy of the records.
#[derive(Drop)]
struct Track<'a> {
    disc: &'a Disc,
    entry: Entry,
    ghost listed: { entry.fragment ≡ numbered disc.now entry.number },
}

impl Track<'_> {
    // Its next writable address, or 0 if it is complete.
    #[tactic(auto, unfolding(crate::specs::Reports::next_writable_or_zero))]
    fn next_writable_or_zero(&self) -> Lba
        ensures { result ≡ next_writable_or_zero self.now.disc.now self.now.entry.number }
    {
        let Entry { number, fragment } = self.entry;
        if fragment.is_complete() {
            return Lba(0);
        }
        self.disc.next_writable(number, fragment)
    }

    // The sectors from there to its end, or 0 if it is complete.
    #[tactic(auto, unfolding(crate::specs::Reports::free_sectors))]
    fn free_sectors(&self) -> u64
        ensures { result ≡ free_sectors self.now.disc.now self.now.entry.number }
    {
        let Entry { number, fragment } = self.entry;
        if fragment.is_complete() {
            return 0;
        }
        let next = self.disc.next_writable(number, fragment);
        fragment.end_address().0.saturating_sub(next.0)
    }

    // What READ TRACK INFORMATION says of it.
    fn report(&self) -> TrackReport
        ensures { result ≡ track_report self.now.disc.now self.now.entry.number }
    {
        let Entry { number, fragment } = self.entry;
        TrackReport {
            number,
            session: usize::from(fragment.session),
            reserved: fragment.kind.is_reserved(),
            blank: self.disc.is_blank(number, fragment),
            written: fragment.recorded != 0,
            incomplete: !fragment.is_complete(),
            start: fragment.start.first_sector(),
            next: self.next_writable_or_zero(),
            free: self.free_sectors(),
            size: fragments::sectors_in(fragment.length),
            last: fragment.last_recorded(),
        }
    }

    // Its report.
    #[tactic(auto, using(disc::proofs::Laws::Apply::verdicts), unfolding(crate::specs::Reports::track_verdict))]
    fn decision(&self, allocation: u16) -> Decision
        ensures { decided self.now.disc.now result ≡ track_verdict self.now.disc.now allocation self.now.entry.number }
    {
        Decision::unchanged(Reply::of_track(self.report(), usize::from(allocation)))
    }
}

// The report of the fragment with a number.
fn track_decision(disc: &Disc, number: usize, allocation: u16) -> Decision
    ensures { decided disc.now result ≡ track_verdict disc.now allocation number }
{
    let entry = Entry::new(number, disc.numbered(number));
    Track { disc, entry }.decision(allocation)
}

// The report of the fragment that a search has found. A Decision and no Result, here and below: the functions are public, and their promise
// `decided disc result` is of a decision, refused or not.
#[tactic(auto, using(disc::proofs::Laws::Apply::verdicts), unfolding(crate::specs::Reports::track_found))]
pub fn track_found(disc: Disc, found: Option<usize>, allocation: u16) -> Decision
    ensures { decided disc result ≡ track_found disc allocation found }
{
    match found {
        Some(number) => track_decision(&disc, number, allocation),
        None => Decision::refused(DriveRefusal::AddressOutOfRange),
    }
}

// The fragment with a number; FFh stands for the tail.
#[tactic(auto, using(disc::proofs::Laws::Apply::verdicts), unfolding(crate::specs::Reports::track_numbered))]
pub fn track_numbered(disc: Disc, number: usize, allocation: u16) -> Decision
    ensures { decided disc result ≡ track_numbered disc allocation number }
{
    if number == TAIL {
        let last = disc.last();
        if last.fragment.is_tail() {
            let tail = Track {
                disc: &disc,
                entry: last,
            };
            return tail.decision(allocation);
        }
        return Decision::refused(DriveRefusal::InvalidFieldInCommand);
    }
    if disc.is_listed(number) {
        return track_decision(&disc, number, allocation);
    }
    Decision::refused(DriveRefusal::InvalidFieldInCommand)
}
