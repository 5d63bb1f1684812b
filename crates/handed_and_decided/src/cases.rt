ghost use Rattle.std.specs.Prelude.{◌≡◌, ◌++◌, Err, IfOk, OnOk, Some, None, string_bytes};
ghost use Rattle.parts.specs.declared.refusal.Refusal.TheVariants.{SenderNotCrashed};
ghost use Rattle.handed_and_decided.specs.Lines.{refusal_line, cases_text};

use crate::report::{write_decided, write_handed};
use board::state::Board;
use notes::set::NoteSet;
use parts::broadcast::Broadcast;
use parts::consensus::Consensus;
use parts::refusal::Refusal;
use register::state::Register;
use std::alloc::{AllocError, Global};

// What the three cases come to.
pub fn cases_text(heap: Global) -> Result<String, AllocError>
    ensures { IfOk result (λ out. string_bytes out ≡ cases_text) }
{
    let mut out = String::new(heap);
    let (first, second) = one_carried_item(heap)?;
    write_handed(&mut out, 0, false, first)?;
    write_handed(&mut out, 1, false, second)?;
    write_refusal(&mut out, posted_item_is_not_lost(heap)?)?;
    let (crashed, running) = first_carried_is_decided(heap)?;
    write_decided(&mut out, 0, true, crashed)?;
    write_decided(&mut out, 1, false, running)?;
    Ok(out)
}

// A line with the number of the refusal, if there is one.
fn write_refusal(out: &mut String, answer: Result<(), Refusal>) -> Result<(), AllocError>
    ensures { OnOk result (string_bytes out.new ≡ string_bytes out.old ++ refusal_line answer) }
{
    if let Err(refusal) = answer {
        let number = refusal.number();
        write!(out, "no {number}\n")?;
    }
    Ok(())
}

// What the calls below answer is not asked: each contract tells what they come to.

// A note reaches the card whose item is carried, and no other.
pub fn one_carried_item(heap: Global) -> Result<(NoteSet, NoteSet), AllocError>
    ensures { IfOk result (λ x. (x.0 ≡ 0) × (x.1 ≡ 8)) }
{
    let mut board: Board = Board::new(heap, 2)?;
    let _ = board.post(0, 3);
    let _ = board.carry(1);
    Ok((board.handed_to(0), board.handed_to(1)))
}

// An item of a crashed poster is the carrier's, and cannot be lost.
pub fn posted_item_is_not_lost(heap: Global) -> Result<Result<(), Refusal>, AllocError>
    ensures { IfOk result (λ a. a ≡ Err SenderNotCrashed) }
{
    let mut board: Board = Board::new(heap, 2)?;
    let _ = board.post(0, 3);
    let _ = board.crash(0);
    Ok(board.lose(0))
}

// The first carried proposal is decided, also if its card has crashed, which then decides nothing.
pub fn first_carried_is_decided(
    heap: Global,
) -> Result<(Option<NoteSet>, Option<NoteSet>), AllocError>
    ensures { IfOk result (λ x. (x.0 ≡ None) × (x.1 ≡ Some 2)) }
{
    let mut register: Register = Register::new(heap, 2)?;
    let _ = register.propose(5, 0, NoteSet::from_bits(2));
    let _ = register.propose(5, 1, NoteSet::from_bits(9));
    let _ = register.crash(0);
    let _ = register.carry(0);
    let _ = register.carry(0);
    Ok((register.decision_of(5, 0), register.decision_of(5, 1)))
}
