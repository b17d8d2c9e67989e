// How many edits of each kind a batch has.
ghost use Rattle.std.specs.Prelude.{◌≡◌, ◌+◌, ◌<◌, ◌^◌};
ghost use Rattle.frame_core.specs.Batch.{edits_of, edits_within};
ghost use Rattle.frame_core.specs.EditTypes.{of_type};
ghost use Rattle.edit_meaning.specs.Counted.{counts_of};

use frame_core::{Batch, Edit, EditList};
use page_core::Counts;

fn in_list(edits: &[Edit], number: u32) -> usize
    ensures { result ≡ of_type number edits.now }
{
    edits
        .iter()
        .filter(|edit| edit.type_number() == number)
        .count()
}

#[tactic(auto, using(crate::proofs::CountLemmas::few_in_front, crate::proofs::CountLemmas::of_type_first))]
fn in_lists(lists: &[EditList], number: u32) -> u32
    requires { edits_within lists.now < 2 ^ 32 }
    ensures { result ≡ of_type number (edits_of lists.now) }
{
    let mut count: u32 = 0;
    let mut rest = lists;
    while let [list, others @ ..] = rest {
        count += in_list(list.edits.as_slice(), number) as u32;
        rest = others;
    }
    count
}

/// The counts of a batch.
pub(crate) fn count(batch: &Batch) -> Counts
    ensures { result ≡ counts_of batch.now }
{
    let lists = batch.lists();
    Counts {
        prepend: in_lists(lists, 1),
        remove: in_lists(lists, 2),
        set: in_lists(lists, 3),
        unset: in_lists(lists, 4),
        text: in_lists(lists, 5),
        step_in: in_lists(lists, 6),
        step_out: in_lists(lists, 7),
        markup: in_lists(lists, 8),
        moves: in_lists(lists, 9),
        ends: in_lists(lists, 10),
    }
}
