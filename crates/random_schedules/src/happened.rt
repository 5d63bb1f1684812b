// What the accepted events of a schedule did.
ghost use Rattle.std.specs.Prelude.{◌≡◌, IfOk, filter_map};
ghost use Rattle.random_schedules.specs.Happened.{accepted, post_of, suspicion_of};

use entries::event::Event;
use std::alloc::{AllocError, Global};
use verdicts::evidence::{Post, Suspicion};

// The events that were not refused.
pub(crate) fn accepted(
    heap: Global,
    events: &[Event],
    refused: &[bool],
) -> Result<Vec<Event>, AllocError>
    ensures { IfOk result (λ those. those.items ≡ accepted events.now refused.now) }
{
    events
        .iter()
        .zip(refused)
        .filter(|(_, refused)| !**refused)
        .map(|(event, _)| *event)
        .collect(heap)
}

fn post_of(event: &Event) -> Option<Post>
    ensures { result ≡ post_of event.now }
{
    match *event {
        Event::Post { card, note } => Some(Post { card, note }),
        _ => None,
    }
}

fn suspicion_of(event: &Event) -> Option<Suspicion>
    ensures { result ≡ suspicion_of event.now }
{
    match *event {
        Event::Suspect { by, card } => Some(Suspicion { by, card }),
        _ => None,
    }
}

pub(crate) fn posts_in(heap: Global, accepted: &[Event]) -> Result<Vec<Post>, AllocError>
    ensures { IfOk result (λ posts. posts.items ≡ filter_map post_of accepted.now) }
{
    accepted.iter().filter_map(post_of).collect(heap)
}

pub(crate) fn suspicions_in(heap: Global, accepted: &[Event]) -> Result<Vec<Suspicion>, AllocError>
    ensures { IfOk result (λ all. all.items ≡ filter_map suspicion_of accepted.now) }
{
    accepted.iter().filter_map(suspicion_of).collect(heap)
}
