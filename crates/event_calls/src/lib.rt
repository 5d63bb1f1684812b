// The events of a schedule as calls on a carrier.
#![tactic(auto)]

ghost use Rattle.std.specs.Prelude.{◌≡◌, map, IfOk};
ghost use Rattle.event_calls.specs.Calls.{call_of};

use entries::event::Event;
use std::alloc::{AllocError, Global};
use total_order::call::Call;

// The call that an event makes. Neither type is of this crate, so it can be no `From`; and they are two types, since an event holds only what a file can
// say, while a carrier is called with any number. Each kind of event is another kind of call.
pub fn call_of(event: Event) -> Call
    ensures { result ≡ call_of event }
{
    match event {
        Event::Post { card, note } => Call::Post(card as usize, note as usize),
        Event::Propose { card } => Call::Propose(card as usize),
        Event::Take { card } => Call::Take(card as usize),
        Event::Crash { card } => Call::Crash(card as usize),
        Event::Suspect { by, card } => Call::Suspect(by as usize, card as usize),
        Event::Carry { wire, item } => Call::Carry(wire, item as usize),
        Event::Lose { wire, item } => Call::Lose(wire, item as usize),
        Event::Settle { limit } => Call::Settle(limit as usize),
    }
}

// The calls that events make, one for each, in their order.
pub fn calls_of(heap: Global, events: &[Event]) -> Result<Vec<Call>, AllocError>
    ensures { IfOk result (λ calls. calls.items ≡ map call_of events.now) }
{
    events.iter().map(|event| call_of(*event)).collect(heap)
}
