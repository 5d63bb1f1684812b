// Writing what a run came to. What is written and where to are two values, of which only the second changes.
ghost use Rattle.std.specs.Prelude.{◌≡◌, [], ◌∷◌, ◌++◌, string_bytes, OnOk};
ghost use Rattle.total_order.specs.Models.{model};
ghost use Rattle.run_report.specs.Lines.{lines_text};
ghost use Rattle.run_report.specs.Reports.{log_line_of, log_lines, end_text};

use crate::lines::{write_log, write_refusals, write_steps};
use parts::broadcast::Broadcast;
use parts::consensus::Consensus;
use std::alloc::AllocError;
use total_order::call::Answer;
use total_order::carrier::Carrier;

#[tactic(auto, using(crate::proofs::Bytes::three_parts))]
pub(crate) fn write_end<B: Broadcast, C: Consensus>(
    out: &mut String,
    carrier: &Carrier<B, C>,
    answers: &[Answer],
) -> Result<(), AllocError>
    ensures { OnOk result (string_bytes out.new ≡ string_bytes out.old ++ end_text B.Broadcast C.Consensus answers.now (model B.Broadcast C.Consensus carrier.now)) }
{
    write_refusals(out, answers)?;
    write_logs(out, carrier)?;
    write_steps(out, carrier.steps(), carrier.is_at_rest())?;
    Ok(())
}

fn write_logs<B: Broadcast, C: Consensus>(
    out: &mut String,
    carrier: &Carrier<B, C>,
) -> Result<(), AllocError>
    ensures { OnOk result (string_bytes out.new ≡ string_bytes out.old ++ lines_text (log_lines B.Broadcast C.Consensus (model B.Broadcast C.Consensus carrier.now))) }
{
    // A carrier answers by a card's number, and has no list of cards to go over.
    for card in 0..carrier.card_count() {
        write_card(out, carrier, card)?;
    }
    Ok(())
}

fn write_card<B: Broadcast, C: Consensus>(
    out: &mut String,
    carrier: &Carrier<B, C>,
    card: usize,
) -> Result<(), AllocError>
    ensures { OnOk result (string_bytes out.new ≡ string_bytes out.old ++ lines_text (log_line_of B.Broadcast C.Consensus (model B.Broadcast C.Consensus carrier.now) card ∷ [])) }
{
    write_log(out, card, carrier.has_crashed(card), carrier.log(card))
}
