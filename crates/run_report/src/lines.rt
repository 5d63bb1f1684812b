// Writing the lines of a report.
ghost use Rattle.std.specs.Prelude.{◌≡◌, [], ◌∷◌, ◌++◌, map, string_bytes, decimal, OnOk};
ghost use Rattle.text.specs.Written.{spaced_after};
ghost use Rattle.run_report.specs.Lines.{lines_text, refusal_line, refusal_lines, card_word, log_line, rest_word, steps_line};

use std::alloc::AllocError;
use total_order::call::Answer;

// One line for each event that was refused.
pub(crate) fn write_refusals(out: &mut String, answers: &[Answer]) -> Result<(), AllocError>
    ensures { OnOk result (string_bytes out.new ≡ string_bytes out.old ++ lines_text (refusal_lines 0 answers.now)) }
{
    for (event, answer) in answers.iter().enumerate() {
        write_refusal(out, event, *answer)?;
    }
    Ok(())
}

// The number of the event, and the number of the refusal, if it was refused.
#[tactic(auto, using(crate::proofs::Bytes::refusal_words))]
fn write_refusal(out: &mut String, event: usize, answer: Answer) -> Result<(), AllocError>
    ensures { OnOk result (string_bytes out.new ≡ string_bytes out.old ++ lines_text (refusal_line event answer)) }
{
    if let Err(refusal) = answer {
        let number = refusal.number();
        write!(out, "no {event} {number}\n")?;
    }
    Ok(())
}

// The card, whether it runs, and the notes of its log.
#[tactic(auto, using(crate::proofs::Bytes::log_words))]
pub(crate) fn write_log(
    out: &mut String,
    card: usize,
    crashed: bool,
    log: &[usize],
) -> Result<(), AllocError>
    ensures { OnOk result (string_bytes out.new ≡ string_bytes out.old ++ lines_text (log_line card crashed log.now ∷ [])) }
{
    let word = card_word(crashed);
    write!(out, "log {card} {word}")?;
    write_notes(out, log)?;
    write!(out, "\n")?;
    Ok(())
}

// A yes or no prints as true or false, so the word of a report is chosen here.
fn card_word(crashed: bool) -> &'static str
    ensures { result.now ≡ card_word crashed }
{
    if crashed { "down" } else { "up" }
}

// Each note with a space before it.
fn write_notes(out: &mut String, log: &[usize]) -> Result<(), AllocError>
    ensures { OnOk result (string_bytes out.new ≡ string_bytes out.old ++ spaced_after (map decimal log.now)) }
{
    for note in log {
        write!(out, " {note}")?;
    }
    Ok(())
}

// The steps, and whether the carrier is at rest.
#[tactic(auto, using(crate::proofs::Bytes::steps_words))]
pub(crate) fn write_steps(out: &mut String, steps: usize, at_rest: bool) -> Result<(), AllocError>
    ensures { OnOk result (string_bytes out.new ≡ string_bytes out.old ++ lines_text (steps_line steps at_rest ∷ [])) }
{
    let word = rest_word(at_rest);
    write!(out, "steps {steps} {word}\n")?;
    Ok(())
}

// Likewise a word of a yes or no.
fn rest_word(at_rest: bool) -> &'static str
    ensures { result.now ≡ rest_word at_rest }
{
    if at_rest { "rest" } else { "more" }
}
