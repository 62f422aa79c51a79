// A disc that a command may work on.
ghost use Rattle.std.specs.Prelude.{◌≡◌, ℕ, true, IfOk, IfErr, OnOk};
ghost use Rattle.disc.specs.Sound.{allowed_state};
ghost use Rattle.disc.specs.Ready.{Ready};
ghost use Rattle.disc.specs.Verdict.{refuse_link};
ghost use Rattle.commands.specs.Types.{Command};
ghost use Rattle.commands.specs.Judge.{judge_command};

use disc::Disc;
use protocol::LinkRefusal;

// Its capacity is in range and its list is sound. The tests of the link alone make one, and every command is a method of it.
#[derive(Clone, Copy)]
pub(crate) struct ReadyDisc {
    pub(crate) disc: Disc,
    ghost ready: { Ready disc },
}

impl TryFrom<Disc> for ReadyDisc {
    type Error = LinkRefusal;

    // The tests in order: L2 of the capacity, then L3.
    #[tactic(auto, using(crate::proofs::Laws::Judge::allowed_ready), unfolding(crate::specs::Judge::judge_command))]
    fn try_from(disc: Disc) -> Result<ReadyDisc, LinkRefusal>
        ensures same_disc { IfOk result (λ ready. ready.disc ≡ disc) }
        ensures allowed { OnOk result (allowed_state disc ≡ true) }
        ensures err { IfErr result (λ refusal. (c : Command) (n m : ℕ) → judge_command disc c n m ≡ refuse_link disc refusal) }
    {
        if !Disc::in_range(disc.capacity) {
            return Err(LinkRefusal::MediumSize);
        }
        if !disc.is_allowed() {
            return Err(LinkRefusal::UnsoundState);
        }
        Ok(ReadyDisc { disc })
    }
}
