// Posts over a board, proposals over a register, all items carried: what each card was handed and decided.
#![tactic(auto)]

mod carrying;
mod cases;
mod report;

use crate::carrying::{carry_all, carry_all_proposals, complete_set};
use crate::cases::cases_text;
use crate::report::{decided, handed};
use board::state::Board;
use notes::set::NoteSet;
use parts::broadcast::Broadcast;
use parts::consensus::Consensus;
use register::state::Register;
use std::io;

fn main(rt: HostRuntime) -> io::Result<()> {
    let mut board: Board = Board::new(rt.alloc(), 3)?;
    // A refusal would show in what is printed.
    let _ = board.post(0, 4);
    let _ = board.post(2, 1);
    let _ = board.crash(2);
    carry_all(&mut board, 192);
    println!(rt; "board")?;
    let lines = handed(rt.alloc(), &board)?;
    print!(rt; "{lines}")?;
    println!(rt; "complete: {}", complete_set(&board, 0).is_some())?;
    let _ = board.suspect(0, 2);
    let _ = board.suspect(1, 2);
    println!(rt; "complete: {}", complete_set(&board, 0).is_some())?;

    let mut register: Register = Register::new(rt.alloc(), 3)?;
    let _ = register.propose(0, 2, NoteSet::empty().with(1));
    let _ = register.crash(2);
    let _ = register.propose(0, 0, NoteSet::empty().with(4).with(1));
    let _ = register.propose(0, 1, NoteSet::empty().with(4));
    carry_all_proposals(&mut register, 192);
    println!(rt; "register")?;
    let lines = decided(rt.alloc(), &register, 0)?;
    print!(rt; "{lines}")?;

    println!(rt; "cases")?;
    let lines = cases_text(rt.alloc())?;
    print!(rt; "{lines}")
}
