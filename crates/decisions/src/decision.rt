// What a command is decided to.
ghost use Rattle.std.specs.Prelude.{◌≡◌};
ghost use Rattle.decisions.specs.Types.{Keep};
ghost use Rattle.decisions.specs.Plan.{no_plan};
ghost use Rattle.decisions.specs.Decision.{accepting, declining, refusing, refusing_link};

use crate::change::{Change, Effect};
use crate::plan::Plan;
use protocol::{Answer, DriveRefusal, LinkRefusal, Reply, Sense};

// The answer, the change, a report's bytes, the number of blocks recorded and what to do to the bytes.
#[derive(Clone, Copy)]
pub struct Decision {
    pub answer: Answer,
    pub change: Change,
    pub reply: Reply,
    pub recorded: u32,
    pub plan: Plan,
}

impl Decision {
    // Accepted: the sense is cleared, and so many blocks are recorded.
    #[tactic(auto, unfolding(crate::specs::Decision::accepting))]
    pub fn accepted(effect: Effect, recorded: u32, reply: Reply, plan: Plan) -> Decision
        ensures { result ≡ accepting effect recorded reply plan }
    {
        Decision {
            answer: Answer::Accepted,
            change: Change {
                sense: Sense::none(),
                effect,
            },
            reply,
            recorded,
            plan,
        }
    }

    // Accepted, and nothing but the sense changes.
    pub fn unchanged(reply: Reply) -> Decision
        ensures { result ≡ accepting Keep 0 reply no_plan }
    {
        Decision::accepted(Effect::Keep, 0, reply, Plan::none())
    }

    // Not accepted: nothing changes but the sense, if that is another one.
    fn declined(answer: Answer, sense: Sense) -> Decision
        ensures { result ≡ declining answer sense }
    {
        Decision {
            answer,
            change: Change {
                sense,
                effect: Effect::Keep,
            },
            reply: Reply::none(),
            recorded: 0,
            plan: Plan::none(),
        }
    }

    // Refused by the drive: only the sense changes.
    #[tactic(auto, unfolding(crate::specs::Decision::refusing))]
    pub fn refused(refusal: DriveRefusal) -> Decision
        ensures { result ≡ refusing refusal }
    {
        Decision::declined(Answer::Drive(refusal), refusal.sense())
    }

    // Refused on the link: nothing changes, the sense included.
    #[tactic(auto, unfolding(crate::specs::Decision::refusing_link))]
    pub fn refused_link(sense: Sense, refusal: LinkRefusal) -> Decision
        ensures { result ≡ refusing_link sense refusal }
    {
        Decision::declined(Answer::Link(refusal), sense)
    }
}
