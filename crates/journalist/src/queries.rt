// What is asked of the record, without a walk: each query answers where the counts hang together.
ghost use Rattle.std.specs.Prelude.{◌≡◌};
ghost use Rattle.refusals.specs.Answers.{outcome_of};
ghost use Rattle.journalist.specs.Calls.{query_call, has_frozen_journal, has_in_memory_journal, is_replay_empty};
ghost use Rattle.journalist.specs.Calls.{present};

use crate::Journalist;
use refusals::Refusal;

impl Journalist {
    #[tactic(auto, unfolding(crate::specs::Calls::query_call))]
    pub fn has_frozen_journal(self) -> Result<bool, Refusal>
        ensures { outcome_of result ≡ query_call self (has_frozen_journal self) }
    {
        self.checked()?;
        Ok(self.frozen.entries != 0)
    }

    #[tactic(auto, unfolding(crate::specs::Calls::query_call))]
    pub fn has_in_memory_journal(self) -> Result<bool, Refusal>
        ensures { outcome_of result ≡ query_call self (has_in_memory_journal self) }
    {
        self.checked()?;
        Ok(self.memory.entries != 0)
    }

    #[tactic(auto, unfolding(crate::specs::Calls::query_call))]
    pub fn is_replay_empty(self) -> Result<bool, Refusal>
        ensures { outcome_of result ≡ query_call self (is_replay_empty self) }
    {
        self.checked()?;
        Ok(self.replay.entries == 0)
    }

    #[tactic(auto, unfolding(crate::specs::Calls::query_call))]
    pub fn has_front(self) -> Result<bool, Refusal>
        ensures { outcome_of result ≡ query_call self (present self.front) }
    {
        self.checked()?;
        Ok(self.front.is_some())
    }

    #[tactic(auto, unfolding(crate::specs::Calls::query_call))]
    pub fn has_back(self) -> Result<bool, Refusal>
        ensures { outcome_of result ≡ query_call self (present self.back) }
    {
        self.checked()?;
        Ok(self.back.is_some())
    }

    #[tactic(auto, unfolding(crate::specs::Calls::query_call))]
    pub fn get_written_journal_len(self) -> Result<usize, Refusal>
        ensures { outcome_of result ≡ query_call self self.written }
    {
        self.checked()?;
        Ok(self.written)
    }

    // The clones that are pending, in both lists together.
    #[tactic(auto, unfolding(crate::specs::Calls::query_call))]
    pub fn waiting_clones(self) -> Result<usize, Refusal>
        ensures { outcome_of result ≡ query_call self self.clones }
    {
        self.checked()?;
        Ok(self.clones)
    }
}
