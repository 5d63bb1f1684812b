// Whether the order law holds of what a run has shown.
ghost use Rattle.std.specs.Prelude.{Decides};
ghost use Rattle.verdicts.specs.Law.{Settled, OneOrderAtRest, KeepsOneOrder};

use crate::evidence::{Evidence, Terms};
use crate::law::{
    all_crashes_suspected, crashed_logs_begin_running_ones, no_note_twice, one_begins_the_other,
    only_posted_notes, running_logs_agree, running_posts_logged, steps_within_bound,
};

// At rest, and every running card suspects every crashed one.
pub fn is_settled(evidence: &Evidence) -> bool
    ensures { Decides result (Settled evidence.now) }
{
    evidence.at_rest && all_crashes_suspected(&evidence.cards, &evidence.suspicions)
}

fn keeps_one_order_at_rest(terms: &Terms, evidence: &Evidence) -> bool
    ensures { Decides result (OneOrderAtRest terms.now evidence.now) }
{
    running_logs_agree(&evidence.cards)
        && running_posts_logged(&evidence.cards, &evidence.posts)
        && (!terms.uniform || crashed_logs_begin_running_ones(&evidence.cards))
}

pub fn keeps_one_order(terms: &Terms, evidence: &Evidence) -> bool
    ensures { Decides result (KeepsOneOrder terms.now evidence.now) }
{
    let Terms {
        cards,
        post_bound,
        proposal_bound,
        ..
    } = *terms;
    let posts = evidence.posts.len();
    evidence.cards.len() == usize::from(cards)
        && steps_within_bound(evidence.steps, posts, cards, post_bound, proposal_bound)
        && one_begins_the_other(&evidence.cards)
        && no_note_twice(&evidence.cards)
        && only_posted_notes(&evidence.cards, &evidence.posts)
        && (!is_settled(evidence) || keeps_one_order_at_rest(terms, evidence))
}
