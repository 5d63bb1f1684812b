// A drawn schedule that was run.
ghost use Rattle.std.specs.Prelude.{◌≡◌, IfOk, filter_map};
ghost use Rattle.verdicts.specs.Law.{KeepsOneOrder};
ghost use Rattle.random_schedules.specs.Happened.{accepted, post_of, suspicion_of};

use crate::draw::Drawn;
use crate::happened::{accepted, posts_in, suspicions_in};
use crate::outcome::{Outcome, read_report};
use crate::pile::KnownPile;
use entries::event::Event;
use report::report;
use std::alloc::{AllocError, Global};
use verdicts::count::Case;
use verdicts::evidence::{Evidence, Terms};
use verdicts::verdict::{is_settled, keeps_one_order};

// What a run was made of, and what its report has shown.
#[derive(Drop)]
pub(crate) struct Trial {
    pub(crate) terms: Terms,
    pub(crate) evidence: Evidence,
}

impl Case for Trial {
    ghost Passes = { λ trial. KeepsOneOrder trial.terms trial.evidence };

    fn passes(&self) -> bool {
        keeps_one_order(&self.terms, &self.evidence)
    }
}

// Only accepted events did anything.
pub(crate) fn evidence_of(
    heap: Global,
    events: &[Event],
    outcome: Outcome,
) -> Result<Evidence, AllocError>
    ensures posts { IfOk result (λ e. e.posts.items ≡ filter_map post_of (accepted events.now outcome.refused.items)) }
    ensures suspicions { IfOk result (λ e. e.suspicions.items ≡ filter_map suspicion_of (accepted events.now outcome.refused.items)) }
    ensures cards { IfOk result (λ e. e.cards ≡ outcome.cards) }
    ensures steps { IfOk result (λ e. e.steps ≡ outcome.steps) }
    ensures at_rest { IfOk result (λ e. e.at_rest ≡ outcome.at_rest) }
{
    let Outcome {
        refused,
        cards,
        steps,
        at_rest,
    } = outcome;
    let accepted = accepted(heap, events, &refused)?;
    Ok(Evidence {
        cards,
        posts: posts_in(heap, &accepted)?,
        suspicions: suspicions_in(heap, &accepted)?,
        steps,
        at_rest,
    })
}

fn terms_of(cards: u8, pile: KnownPile) -> Terms
    ensures cards { result.cards ≡ cards }
    ensures uniform { result.uniform ≡ pile.uniform }
    ensures post_bound { result.post_bound ≡ pile.post_bound }
    ensures proposal_bound { result.proposal_bound ≡ pile.proposal_bound }
{
    Terms {
        cards,
        uniform: pile.uniform,
        post_bound: pile.post_bound,
        proposal_bound: pile.proposal_bound,
    }
}

impl Trial {
    pub(crate) fn of(heap: Global, drawn: &Drawn, pile: KnownPile) -> anyhow::Result<Trial>
        ensures cards { IfOk result (λ trial. trial.terms.cards ≡ drawn.now.cards) }
        ensures uniform { IfOk result (λ trial. trial.terms.uniform ≡ pile.uniform) }
        ensures post_bound { IfOk result (λ trial. trial.terms.post_bound ≡ pile.post_bound) }
        ensures proposal_bound { IfOk result
            (λ trial. trial.terms.proposal_bound ≡ pile.proposal_bound) }
    {
        let came = report(heap, drawn.file.as_bytes())?;
        let text = String::from_utf8_lossy(heap, &came)?;
        let outcome = read_report(heap, &text, drawn.events.len())?;
        Ok(Trial {
            terms: terms_of(u8::try_from(drawn.cards)?, pile),
            evidence: evidence_of(heap, &drawn.events, outcome)?,
        })
    }

    pub(crate) fn is_settled(&self) -> bool {
        is_settled(&self.evidence)
    }
}
