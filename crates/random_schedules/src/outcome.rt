// What a report says.
use anyhow::{Context, bail};
use std::alloc::Global;
use verdicts::evidence::CardLog;

#[derive(Drop)]
pub(crate) struct Outcome {
    // Whether each event was refused.
    pub(crate) refused: Vec<bool>,
    // The log of each card, and whether the card is down.
    pub(crate) cards: Vec<CardLog>,
    pub(crate) steps: u32,
    pub(crate) at_rest: bool,
}

fn number_in(field: Option<&str>) -> anyhow::Result<u32> {
    let text = field.context("a line of the report ends too early")?;
    Ok(text.parse()?)
}

fn notes_in(heap: Global, fields: &str) -> anyhow::Result<Vec<u32>> {
    fields
        .split_whitespace()
        .map(|field| -> anyhow::Result<u32> { Ok(field.parse::<u32>()?) })
        .try_collect(heap)
}

impl Outcome {
    fn note_refusal(&mut self, fields: &str) -> anyhow::Result<()> {
        let event = number_in(fields.split(' ').next())? as usize;
        let refused = self
            .refused
            .get_mut(event)
            .context("the report refuses an event that there is not")?;
        *refused = true;
        Ok(())
    }

    // The cards come in ascending order, so a log's place is its card.
    fn note_log(&mut self, heap: Global, fields: &str) -> anyhow::Result<()> {
        let (card, rest) = fields.split_once(' ').context("a log without its card")?;
        if number_in(Some(card))? as usize != self.cards.len() {
            bail!("the logs are not in the order of the cards");
        }
        let (state, notes) = rest.split_once(' ').unwrap_or((rest, ""));
        let notes = notes_in(heap, notes)?;
        let down = state == "down";
        self.cards.push(CardLog { down, notes })?;
        Ok(())
    }

    fn note_steps(&mut self, fields: &str) -> anyhow::Result<()> {
        self.steps = number_in(fields.split(' ').next())?;
        self.at_rest = fields.ends_with(" rest");
        Ok(())
    }

    // The first word says what the rest of the line is. A table of functions by word would need a search, and no less text.
    fn note_line(&mut self, heap: Global, line: &str) -> anyhow::Result<()> {
        match line.split_once(' ') {
            Some(("no", fields)) => self.note_refusal(fields),
            Some(("log", fields)) => self.note_log(heap, fields),
            Some(("steps", fields)) => self.note_steps(fields),
            _ => bail!("a line of the report that no rule knows"),
        }
    }
}

pub(crate) fn read_report(heap: Global, report: &str, events: usize) -> anyhow::Result<Outcome> {
    let mut outcome = Outcome {
        refused: vec![in heap; false; events]?,
        cards: Vec::new(heap),
        steps: 0,
        at_rest: false,
    };
    for line in report.lines() {
        outcome.note_line(heap, line)?;
    }
    Ok(outcome)
}
