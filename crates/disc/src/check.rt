// The check of a disc state (L3): the rules of a sound list, and the sense. Flags are joined by `&` here and in find.rt, with no branches.
ghost use Rattle.std.specs.Prelude.{◌≡◌};
ghost use Rattle.disc.specs.Sound.{sound, owner_incomplete, allowed_state};

use crate::state::Disc;

impl Disc {
    // The pending sectors name an incomplete record, or there are none and the number is 0.
    #[tactic(auto, unfolding(crate::specs::Sound::owner_incomplete))]
    pub(crate) fn owner_is_incomplete(self) -> bool
        ensures { result ≡ owner_incomplete self }
    {
        if self.pending == 0 {
            return self.owner == 0;
        }
        let owner = usize::from(self.owner);
        (fragments::whole_blocks(usize::from(self.pending)) == 0)
            & (1..=Disc::LIMIT).contains(&owner)
            & !self.numbered(owner).is_complete()
    }

    // The list is sound.
    #[tactic(auto, using(crate::proofs::Laws::Check::sound_check))]
    pub(crate) fn is_sound(self) -> bool
        ensures { result ≡ sound self }
    {
        fragments::list_is_sound(self.capacity, self.finalized, self.fragments)
            & self.owner_is_incomplete()
    }

    // The list is sound and the sense is one that a command can leave.
    #[tactic(auto, unfolding(crate::specs::Sound::allowed_state))]
    pub fn is_allowed(self) -> bool
        ensures { result ≡ allowed_state self }
    {
        self.is_sound() & self.sense.is_allowed()
    }
}
