// CLOSE TRACK/SESSION (5Bh) of the session (010) and of the disc (110).
ghost use Rattle.std.specs.Prelude.{◌≡◌, true, false, IfOk, IfErr};
ghost use Rattle.commands.specs.Types.{IncompleteTrackInSession};
ghost use Rattle.fragments.specs.Fragment.{is_incomplete_reserved};
ghost use Rattle.fragments.specs.List.{last_of, listed, some};
ghost use Rattle.fragments.specs.Entry.{put};
ghost use Rattle.commands.specs.Conclusion.{concluded};
ghost use Rattle.commands.specs.Flush.{flush, flush_entry, flushing};
ghost use Rattle.commands.specs.Close.{has_incomplete_reserved, close_tail, close_session, finalize};

use crate::ready::ReadyDisc;
use decisions::{Decision, Flushing};
use disc::Disc;
use fragments::Entry;
use protocol::{DriveRefusal, Reply};

impl ReadyDisc {
    // Some reserved fragment is incomplete once a flush has left this record. A function of its own: the copies that it makes of the records
    // are then gone where the flush is decided.
    fn stays_incomplete(&self, flushed: Entry) -> bool
        ensures { result ≡ some is_incomplete_reserved (listed (put flushed self.now.disc.fragments)) }
    {
        fragments::has_incomplete_reserved(flushed.put(self.disc.fragments))
    }

    // The flush that comes first; refused where it leaves some reserved fragment incomplete.
    fn closing_flush(&self) -> Result<Flushing, DriveRefusal>
        ensures ok { IfOk result (λ first. (first ≡ flushing self.now.disc) × (has_incomplete_reserved (flush self.now.disc) ≡ false)) }
        ensures err { IfErr result (λ refusal. (refusal ≡ IncompleteTrackInSession) × (has_incomplete_reserved (flush self.now.disc) ≡ true)) }
    {
        let first = self.flushing();
        if self.stays_incomplete(first.entry) {
            return Err(DriveRefusal::IncompleteTrackInSession);
        }
        Ok(first)
    }

    // The last record that is left with the tail closed, after that flush, whose last record is `last`.
    fn last_kept(&self, flushed: Entry, last: Entry) -> Entry
        requires flushed_value { flushed ≡ flush_entry self.now.disc }
        requires last_value { last ≡ last_of (flush self.now.disc).fragments }
        ensures { result ≡ last_of (close_tail (flush self.now.disc)).fragments }
    {
        let f = last.fragment;
        if !f.is_tail() {
            return last;
        }
        if f.recorded != 0 {
            return Entry::new(last.number, f.shortened());
        }
        let number = last.number - 1;
        if number == 0 {
            return Entry::none();
        }
        Entry::new(number, flushed.over(number, self.disc.numbered(number)))
    }

    // CLOSE of the session (010).
    #[tactic(auto, using(disc::proofs::Laws::Apply::unchanged_verdict), unfolding(crate::specs::Close::close_session))]
    pub(crate) fn close_session(&self) -> Result<Decision, DriveRefusal>
        ensures { concluded self.now.disc result ≡ close_session self.now.disc }
    {
        let before = self.disc.last();
        if self.disc.finalized | self.disc.is_only_tail(before) {
            return Ok(Decision::unchanged(Reply::none()));
        }
        let first = self.closing_flush()?;
        let last = first.entry.over_last(before);
        let kept = self.last_kept(first.entry, last);
        if kept.number == Disc::LIMIT {
            return Err(DriveRefusal::NoMoreReservations);
        }
        let start = kept.fragment.next_session_start();
        if u64::from(self.disc.capacity) < start.0 + 1 {
            return Err(DriveRefusal::EndOfUserArea);
        }
        let tail = Entry::tail(
            self.disc.capacity,
            kept.number + 1,
            kept.fragment.session + 1,
            start,
        );
        Ok(first.closing(last, tail, self.disc.finalized))
    }

    // CLOSE of the disc (110): finalized.
    #[tactic(auto, using(disc::proofs::Laws::Apply::unchanged_verdict), unfolding(crate::specs::Close::finalize))]
    pub(crate) fn finalize(&self) -> Result<Decision, DriveRefusal>
        ensures { concluded self.now.disc result ≡ finalize self.now.disc }
    {
        if self.disc.finalized {
            return Ok(Decision::unchanged(Reply::none()));
        }
        let first = self.closing_flush()?;
        let before = self.disc.last();
        if self.disc.is_only_tail(before) & (before.fragment.session == 1) {
            return Err(DriveRefusal::EmptyTrack);
        }
        let last = first.entry.over_last(before);
        Ok(first.closing(last, Entry::none(), true))
    }
}
