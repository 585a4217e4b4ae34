// Freeze, and thaw, which takes the last freeze back. No byte of the ring moves: the in-memory list's forms lie
// straight behind the frozen list's.
ghost use Rattle.std.specs.Prelude.{◌≡◌, true, ◌≤◌};
ghost use Rattle.refusals.specs.Answers.{outcome_of};
ghost use Rattle.journalist.specs.Record.{base_hangs, thawed_record};
ghost use Rattle.journalist.specs.Changes.{memory_blocks, last_freeze};
ghost use Rattle.journalist.specs.Calls.{freeze_call, thaw_call};

use crate::{Journalist, Last, Pending, blocks_for, list_weight};
use refusals::Refusal;

impl Journalist {
    // The last freeze that moved any entries, after one that adds so many blocks.
    fn last_freeze(self, more: usize) -> Last
        requires { more ≡ memory_blocks self }
        ensures { result ≡ last_freeze self }
    {
        if self.memory.entries == 0 {
            self.last
        } else {
            Last {
                entries: self.memory.entries,
                bytes: self.memory.bytes,
                blocks: more,
            }
        }
    }

    // Moves the in-memory list behind the frozen one and keeps blocks for it.
    #[tactic(auto, unfolding(crate::specs::Calls::freeze_call, crate::specs::Changes::frozen_record))]
    pub fn freeze(self) -> Result<Journalist, Refusal>
        ensures { outcome_of result ≡ freeze_call self }
    {
        self.checked()?;
        let more = blocks_for(list_weight(self.memory));
        Ok(Journalist {
            frozen: Pending {
                entries: self.frozen.entries + self.memory.entries,
                bytes: self.frozen.bytes + self.memory.bytes,
            },
            memory: Pending::NONE,
            last: self.last_freeze(more),
            held: self.held + more,
            ..self
        })
    }

    // The record that a thaw gives.
    pub(crate) fn thawed(self) -> Journalist
        requires self_value { base_hangs self ≡ true }
        requires entries_le_entries { (self.last.entries ≤ self.frozen.entries)
            × (self.last.bytes ≤ self.frozen.bytes) }
        requires blocks_le_held { self.last.blocks ≤ self.held }
        ensures { result ≡ thawed_record self }
    {
        Journalist {
            frozen: Pending {
                entries: self.frozen.entries - self.last.entries,
                bytes: self.frozen.bytes - self.last.bytes,
            },
            memory: Pending {
                entries: self.last.entries + self.memory.entries,
                bytes: self.last.bytes + self.memory.bytes,
            },
            last: Last::NONE,
            held: self.held - self.last.blocks,
            ..self
        }
    }

    // Takes back the last freeze: its entries go in front of the in-memory list, where their bytes lie already.
    #[tactic(auto, unfolding(crate::specs::Calls::thaw_call))]
    pub fn thaw(self) -> Result<Journalist, Refusal>
        ensures { outcome_of result ≡ thaw_call self }
    {
        self.checked()?;
        if self.last.entries == 0 {
            return Err(Refusal::NoFreeze);
        }
        Ok(self.thawed())
    }
}
