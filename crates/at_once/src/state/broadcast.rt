ghost use Rattle.std.specs.Prelude.{◌≡◌, IfOk, IsOk};
ghost use Rattle.at_once.specs.AtOnce.{AtOnceState, at_once_cards, at_once_crashed, at_once_suspects, at_once_wire, at_once_work, at_once_poster, at_once_handed, new_at_once, post_on, unchanged, crash_on, suspect_on, hand_out};
ghost use Rattle.at_once.specs.Made.{MadeAtOnce};
ghost use Rattle.std.proofs.Common.{arith};
ghost use Rattle.at_once.specs.Means.{new_made, new_means, post_made, post_means, nothing_carried, nothing_lost, crash_made, crash_means, suspect_made, suspect_means, lawful};

use super::AtOnce;
use cards::Cards;
use notes::set::NoteSet;
use parts::broadcast::Broadcast;
use parts::refusal::Refusal;
use parts::uniform::Uniform;
use std::alloc::{AllocError, Global};
use tables::card_sets::CardSets;
use tables::posters::Posters;

impl Broadcast for AtOnce {
    ghost State = { AtOnceState };

    ghost state = { λ b. b };

    ghost cards = { at_once_cards };

    ghost crashed = { at_once_crashed };

    ghost suspects = { at_once_suspects };

    ghost wire = { at_once_wire };

    ghost work = { at_once_work };

    ghost poster = { at_once_poster };

    ghost handed = { at_once_handed };

    ghost made = { MadeAtOnce };

    ghost bound = { 0 };

    ghost start = { new_at_once };

    ghost posting = { post_on };

    ghost carrying = { unchanged };

    ghost losing = { unchanged };

    ghost crashing = { crash_on };

    ghost suspecting = { suspect_on };

    ghost meaning = { record {
      bound_fits_32_bits = omega arith;
      new_made = new_made;
      new_means = new_means;
      post_made = post_made;
      post_means = post_means;
      carry_made = λ x i g h. absurd (nothing_carried x i h);
      carry_means = λ x i g h. absurd (nothing_carried x i h);
      lose_made = λ x i g h. absurd (nothing_lost x i h);
      lose_means = λ x i g h. absurd (nothing_lost x i h);
      crash_made = crash_made;
      crash_means = crash_means;
      suspect_made = suspect_made;
      suspect_means = suspect_means;
      lawful = lawful;
    } };

    // Nothing here asks for memory, so beside what the trait asks it promises that it answers one.
    fn new(_heap: Global, count: usize) -> Result<AtOnce, AllocError>
        ensures made { IfOk result (λ x. x ≡ new_at_once count) }
        ensures never_without_memory { IsOk result }
    {
        Ok(AtOnce {
            cards: Cards::new(count),
            posters: Posters::new(),
            handed: CardSets::new(),
        })
    }

    fn post(&mut self, card: usize, note: usize) -> Result<(), Refusal> {
        self.posters.post(&self.cards, card, note)?;
        hand_out(&self.cards, &mut self.handed, note);
        Ok(())
    }

    // No item is ever under way.
    fn carry(&mut self, _item: usize) -> Result<(), Refusal> {
        Err(Refusal::NoSuchItem)
    }

    fn lose(&mut self, _item: usize) -> Result<(), Refusal> {
        Err(Refusal::NoSuchItem)
    }

    fn crash(&mut self, card: usize) -> Result<(), Refusal> {
        self.cards.crash(card)
    }

    fn suspect(&mut self, by: usize, card: usize) -> Result<(), Refusal> {
        self.cards.suspect(by, card)
    }

    // A post leaves nothing to be carried.
    fn bound() -> u32 {
        0
    }

    fn card_count(&self) -> usize {
        self.cards.count()
    }

    fn has_crashed(&self, card: usize) -> bool {
        self.cards.has_crashed(card)
    }

    fn suspects(&self, by: usize, card: usize) -> bool {
        self.cards.suspects(by, card)
    }

    fn wire_len(&self) -> usize {
        0
    }

    fn sender_of(&self, _item: usize) -> Option<usize> {
        None
    }

    fn poster_of(&self, note: usize) -> Option<usize> {
        self.posters.of(note)
    }

    fn handed_to(&self, card: usize) -> NoteSet {
        self.handed.of(card)
    }
}

// Every running card is handed the note.
fn hand_out(cards: &Cards, handed: &mut CardSets, note: usize)
    ensures { handed.new ≡ hand_out cards.now note handed.old cards.now.count }
{
    for card in 0..cards.count() {
        if !cards.has_crashed(card) {
            handed.add(card, note);
        }
    }
}

impl Uniform for AtOnce {
    #[tactic(auto, using(crate::specs::Means::quiet_when_suspected, crate::specs::Means::suspected_when_quiet, crate::specs::Means::agreed))]
    fn is_quiet(&self) -> bool {
        self.cards.all_suspected()
    }
}
