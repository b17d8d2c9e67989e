// Replies, and the queues that some of them repeat.
ghost use Rattle.std.specs.Prelude.{◌≡◌, ◌+◌, ◌≤◌, ◌<◌, ◌++◌, length, drop, vec_len, OnOk, IfOk};
ghost use Rattle.circuit_meaning.specs.Circuit.Steps.{outcomes_from, batches_from};
ghost use Rattle.circuit_core.specs.Replies.{replies_of};

use circuit_meaning::Rule;
use hub_messages::{Bytes, Down, Outcome};
use std::alloc::Global;
use text_core::Oom;

/// Takes the first of a queue away.
pub fn drop_first<T: Drop>(queue: &mut Vec<T>, count: usize)
    requires { count ≤ vec_len queue.old }
    ensures { queue.new.items ≡ drop count queue.old.items }
{
    queue.drain(..count);
}

/// The outcomes of the events behind one, up to the last.
pub fn push_outcomes(
    replies: &mut Vec<Down>,
    behind: u64,
    last: u64,
    outcomes: &[Outcome],
) -> Result<(), Oom>
    requires { behind + length outcomes.now ≡ last }
    ensures { OnOk result (replies.new.items ≡ replies.old.items ++ outcomes_from (behind + 1) outcomes.now) }
{
    for i in 0..outcomes.len() {
        replies.push(Down::Outcome {
            event: behind + i as u64 + 1,
            outcome: outcomes[i],
        })?;
    }
    Ok(())
}

/// The batches behind one, up to the last.
pub fn push_batches(
    alloc: Global,
    replies: &mut Vec<Down>,
    behind: u64,
    last: u64,
    batches: &[Bytes],
) -> Result<(), Oom>
    requires { behind + length batches.now ≡ last }
    ensures { OnOk result (replies.new.items ≡ replies.old.items ++ batches_from (behind + 1) batches.now) }
{
    for i in 0..batches.len() {
        let bytes = batches[i].copy(alloc)?;
        replies.push(Down::Batch {
            number: behind + i as u64 + 1,
            bytes,
        })?;
    }
    Ok(())
}

/// The replies to a message that is not taken.
pub fn without_a_step(alloc: Global, rule: Rule) -> Result<Vec<Down>, Oom>
    ensures { IfOk result (λ replies. replies.items ≡ replies_of rule) }
{
    let mut replies = Vec::new(alloc);
    match rule {
        Rule::Over(fault) => {
            replies.push(Down::Ended(fault))?;
            Ok(replies)
        }
        Rule::Refuses(refusal) => {
            replies.push(Down::Refused(refusal))?;
            Ok(replies)
        }
        Rule::Silent | Rule::Again | Rule::Takes => Ok(replies),
    }
}
