// How large the arguments are.
use anyhow::Context;
use entries::event::{Event, Wire};
use notes::wear::Wear;
use std::alloc::{AllocError, Global};

#[derive(Clone, Copy, Drop)]
pub(crate) struct Size {
    pub(crate) cards: u32,
    pub(crate) notes: u32,
    pub(crate) events: u32,
}

fn number_in(field: Option<&str>) -> anyhow::Result<u32> {
    let text = field.context("a line is three numbers: cards, notes, events")?;
    Ok(text.parse()?)
}

impl Size {
    pub(crate) fn of(line: &str) -> anyhow::Result<Size> {
        let mut fields = line.split(' ');
        Ok(Size {
            cards: number_in(fields.next())?,
            notes: number_in(fields.next())?,
            events: number_in(fields.next())?,
        })
    }

    // So many wear notes, no two of them equal.
    pub(crate) fn book(self, heap: Global) -> Result<Vec<Wear>, AllocError> {
        (0..self.notes)
            .map(|erases| Wear { block: 0, erases })
            .collect(heap)
    }

    // So many events. Each six of them are a card's: it posts, an item arrives, it proposes, an item arrives, it takes, and the carrier goes on.
    pub(crate) fn events(self, heap: Global) -> Result<Vec<Event>, AllocError> {
        (0..self.events).map(|k| self.event(k)).collect(heap)
    }

    fn event(self, k: u32) -> Event {
        let card = (k / 6).checked_rem(self.cards).unwrap_or(0);
        let note = (k / 6).checked_rem(self.notes).unwrap_or(0);
        match k % 6 {
            0 => Event::Post { card, note },
            1 => Event::Carry {
                wire: Wire::Broadcast,
                item: 0,
            },
            2 => Event::Propose { card },
            3 => Event::Carry {
                wire: Wire::Consensus,
                item: 0,
            },
            4 => Event::Take { card },
            _ => Event::Settle { limit: 9 },
        }
    }
}
