ghost use Rattle.board.specs.Board.{BoardState, board_cards, board_crashed, board_suspects, board_wire, board_work, board_poster, board_handed, new_board, post_on, carry_on, lose_on, crash_on, suspect_on};
ghost use Rattle.board.specs.Made.{MadeBoard};
ghost use Rattle.std.proofs.Common.{arith};
ghost use Rattle.board.specs.Keeps.{new_made, post_made, carry_made, none_lost, crash_made, suspect_made};
ghost use Rattle.board.specs.Means.{new_means, post_means, carry_means, lose_means, crash_means, suspect_means, lawful};

use super::Board;
use cards::Cards;
use notes::set::NoteSet;
use parts::broadcast::Broadcast;
use parts::refusal::Refusal;
use parts::uniform::Uniform;
use std::alloc::{AllocError, Global};
use tables::card_sets::CardSets;
use tables::posters::Posters;
use wire::Wire;

// A post puts one item for each of at most six cards.
const ITEMS_OF_A_POST: u32 = 6;

impl Broadcast for Board {
    ghost State = { BoardState };

    ghost state = { λ b. b };

    ghost cards = { board_cards };

    ghost crashed = { board_crashed };

    ghost suspects = { board_suspects };

    ghost wire = { board_wire };

    ghost work = { board_work };

    ghost poster = { board_poster };

    ghost handed = { board_handed };

    ghost made = { MadeBoard };

    ghost bound = { 6 };

    ghost start = { new_board };

    ghost posting = { post_on };

    ghost carrying = { carry_on };

    ghost losing = { lose_on };

    ghost crashing = { crash_on };

    ghost suspecting = { suspect_on };

    ghost meaning = { record {
      bound_fits_32_bits = omega arith;
      new_made = new_made;
      new_means = new_means;
      post_made = post_made;
      post_means = post_means;
      carry_made = carry_made;
      carry_means = carry_means;
      lose_made = λ x i g h. absurd (none_lost x i g h);
      lose_means = lose_means;
      crash_made = crash_made;
      crash_means = crash_means;
      suspect_made = suspect_made;
      suspect_means = suspect_means;
      lawful = lawful;
    } };

    // 32 notes, each for at most 6 cards.
    fn new(heap: Global, count: usize) -> Result<Board, AllocError> {
        let wire = Wire::new(heap, 192)?;
        Ok(Board {
            cards: Cards::new(count),
            posters: Posters::new(),
            handed: CardSets::new(),
            wire,
        })
    }

    fn post(&mut self, card: usize, note: usize) -> Result<(), Refusal> {
        self.posters.post(&self.cards, card, note)?;
        self.wire.send(&self.cards, 7, note);
        Ok(())
    }

    fn carry(&mut self, item: usize) -> Result<(), Refusal> {
        let taken = self.wire.take(item).ok_or(Refusal::NoSuchItem)?;
        self.handed.add(taken.to, taken.load);
        Ok(())
    }

    // Every item is the carrier's own, so none is ever lost.
    fn lose(&mut self, item: usize) -> Result<(), Refusal> {
        self.wire.lose(&self.cards, item)
    }

    fn crash(&mut self, card: usize) -> Result<(), Refusal> {
        self.wire.crash(&mut self.cards, card)
    }

    fn suspect(&mut self, by: usize, card: usize) -> Result<(), Refusal> {
        self.cards.suspect(by, card)
    }

    fn bound() -> u32 {
        ITEMS_OF_A_POST
    }

    fn card_count(&self) -> usize {
        self.cards.count()
    }

    fn has_crashed(&self, card: usize) -> bool {
        self.cards.has_crashed(card)
    }

    fn suspects(&self, by: usize, card: usize) -> bool {
        self.cards.suspects(by, card)
    }

    fn wire_len(&self) -> usize {
        self.wire.len()
    }

    fn sender_of(&self, item: usize) -> Option<usize> {
        self.wire.sender_of(item)
    }

    fn poster_of(&self, note: usize) -> Option<usize> {
        self.posters.of(note)
    }

    fn handed_to(&self, card: usize) -> NoteSet {
        self.handed.of(card)
    }
}

impl Uniform for Board {
    #[tactic(auto, using(crate::specs::Means::quiet_board, crate::specs::Means::quiet_gives, crate::specs::Means::agreed))]
    fn is_quiet(&self) -> bool {
        self.wire_len() == 0 && self.cards.all_suspected()
    }
}
