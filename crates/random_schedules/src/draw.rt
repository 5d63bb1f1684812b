// Drawing a schedule, as a file.
use crate::pile::KnownPile;
use crate::random::Random;
use entries::event::{Event, Wire};
use std::alloc::{AllocError, Global};

#[derive(Drop)]
pub(crate) struct Drawn {
    pub(crate) cards: u32,
    pub(crate) events: Vec<Event>,
    pub(crate) file: String,
}

fn draw_wire(random: &mut Random) -> Wire {
    if random.below(2) == 0 {
        Wire::Broadcast
    } else {
        Wire::Consensus
    }
}

// Mostly what there is, now and then a number beyond it.
fn draw_number(random: &mut Random, count: u32, beyond: u32) -> u32 {
    if random.below(20) == 0 {
        random.below(beyond)
    } else {
        random.below(count)
    }
}

// Each range of lots makes another event.
fn draw_event(random: &mut Random, cards: u32, notes: u32) -> Event {
    let lot = random.below(100);
    let card = draw_number(random, cards, 8);
    let item = random.one_of(&[0, 0, 0, 1, 2, 3, 9]);
    match lot {
        0..=19 => Event::Post {
            card,
            note: draw_number(random, notes, 34),
        },
        20..=61 => Event::Carry {
            wire: draw_wire(random),
            item,
        },
        62..=71 => Event::Propose { card },
        72..=81 => Event::Take { card },
        82..=84 => Event::Crash { card },
        85..=90 => Event::Suspect {
            by: draw_number(random, cards, 8),
            card,
        },
        91..=94 => Event::Lose {
            wire: draw_wire(random),
            item,
        },
        _ => Event::Settle {
            limit: random.one_of(&[0, 1, 2, 5, 20, 60000]),
        },
    }
}

// Every card suspects every other, as far as it may, and the carrier works on to rest.
fn push_settling(events: &mut Vec<Event>, cards: u32) -> Result<(), AllocError> {
    events.extend((0..cards).flat_map(|by| (0..cards).map(move |card| Event::Suspect {
        by,
        card,
    })))?;
    events.push(Event::Settle { limit: 60000 })?;
    Ok(())
}

fn draw_events(
    heap: Global,
    random: &mut Random,
    cards: u32,
    notes: u32,
) -> Result<Vec<Event>, AllocError> {
    let count = random.one_of(&[0, 3, 8, 20, 40, 80]);
    let mut events: Vec<Event> = (0..count)
        .map(|_| draw_event(random, cards, notes))
        .collect(heap)?;
    if random.below(10) < 6 {
        push_settling(&mut events, cards)?;
    }
    Ok(events)
}

// Few blocks and counts, so that many notes are equal. A `for`, as each turn asks for memory.
fn push_wear_notes(
    heap: Global,
    file: &mut String,
    random: &mut Random,
    notes: u32,
) -> Result<(), AllocError> {
    for _ in 0..notes {
        let block = random.one_of(&[0, 1, 2, 4294967295]);
        let erases = random.one_of(&[0, 1, 5, 4294967295]);
        file.push_str(&format!(in heap; "{block} {erases}\n")?)?;
    }
    Ok(())
}

// The lowest and the highest that a label may have, and two between.
fn draw_character(random: &mut Random) -> char {
    match random.below(4) {
        0 => ' ',
        1 => 'A',
        2 => 'B',
        _ => '~',
    }
}

// Few characters, and at most three of them, so that many labels are equal and many begin others. Each turn asks for memory.
fn push_labels(file: &mut String, random: &mut Random, notes: u32) -> Result<(), AllocError> {
    for _ in 0..notes {
        for _ in 0..=random.below(3) {
            file.push(draw_character(random))?;
        }
        file.push('\n')?;
    }
    Ok(())
}

fn push_events(heap: Global, file: &mut String, events: &[Event]) -> Result<(), AllocError> {
    for event in events {
        file.push_str(&format!(in heap; "{event}\n")?)?;
    }
    Ok(())
}

pub(crate) fn draw(
    heap: Global,
    random: &mut Random,
    pile: KnownPile,
) -> Result<Drawn, AllocError> {
    let cards = random.below(6).saturating_add(1);
    let notes = random.one_of(&[0, 1, 2, 3, 4, 6, 12, 32]);
    let events = draw_events(heap, random, cards, notes)?;
    let words = pile.words;
    let count = events.len();
    let labels = random.below(2) == 0;
    let kind = if labels { "label" } else { "wear" };
    let mut file = format!(in heap;
        "kind {kind}\ncards {cards}\npile {words}\nnotes {notes}\nevents {count}\n"
    )?;
    if labels {
        push_labels(&mut file, random, notes)?;
    } else {
        push_wear_notes(heap, &mut file, random, notes)?;
    }
    push_events(heap, &mut file, &events)?;
    Ok(Drawn {
        cards,
        events,
        file,
    })
}
