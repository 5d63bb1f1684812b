ghost use Rattle.std.specs.Prelude.{◌≡◌, ◌<◌, ◌≤◌, true, [], is_ok, if◌then◌else◌, Decides, Ok};
ghost use Rattle.parts.specs.Refusals.{acting_answer, crash_answer, suspect_answer};
ghost use Rattle.parts.specs.Cases.{case_of, turned_down_by, acting_reasons, crash_reasons, suspect_reasons};
ghost use Rattle.cards.specs.Cards.{crashed_in, suspects_in, new_cards, with_crash, with_suspicion, net_of, knows, knows_all, AllSuspected, SixCards};

use super::{Card, Cards};
use parts::refusal::Refusal;

impl Cards {
    // A count above 6 makes none.
    #[tactic(auto, using(crate::proofs::Known::new_six))]
    pub fn new(count: usize) -> Cards
        ensures { result ≡ new_cards count }
    {
        Cards {
            size: if count > 6 { 0 } else { count },
            cards: [Card {
                crashed: false,
                suspects: [false; 6],
            }; 6],
        }
    }

    pub fn count(&self) -> usize
        ensures count { result ≡ self.now.count }
        ensures few { result ≤ 6 }
        ensures six { SixCards self.now }
    {
        self.size
    }

    pub fn has_crashed(&self, card: usize) -> bool
        ensures answer { result ≡ crashed_in self.now card }
        ensures six { SixCards self.now }
    {
        self.cards.get(card).is_some_and(|known| known.crashed)
    }

    // Whether the card may act: it is one of the cards, and runs.
    pub fn acting(&self, card: usize) -> Result<(), Refusal>
        ensures answer { result ≡ acting_answer (net_of self.now [] 0) card (Ok tt) }
        ensures case { case_of result ≡ turned_down_by (acting_reasons (net_of self.now [] 0) card) }
        ensures few { is_ok result ≡ true → card < 6 }
        ensures six { SixCards self.now }
    {
        if card >= self.count() {
            return Err(Refusal::NoSuchCard);
        }
        if self.has_crashed(card) {
            return Err(Refusal::CardCrashed);
        }
        Ok(())
    }

    pub fn suspects(&self, who: usize, whom: usize) -> bool
        ensures answer { result ≡ suspects_in self.now who whom }
        ensures six { SixCards self.now }
    {
        self.cards
            .get(who)
            .and_then(|known| known.suspects.get(whom))
            .copied()
            .unwrap_or(false)
    }

    #[tactic(auto, using(crate::proofs::Known::crash_written, crate::proofs::Known::crash_apart, crate::proofs::Known::crash_six))]
    pub fn crash(&mut self, card: usize) -> Result<(), Refusal>
        ensures answer { result ≡ crash_answer (net_of self.old [] 0) card }
        ensures case { case_of result ≡ turned_down_by (crash_reasons (net_of self.old [] 0) card) }
        ensures after { self.new ≡ (if is_ok result then with_crash self.old card else self.old) }
        ensures six { SixCards self.old }
        ensures still_six { SixCards self.new }
    {
        self.acting(card)?;
        self.cards[card].crashed = true;
        Ok(())
    }

    #[tactic(auto, using(crate::proofs::Known::suspicion_written, crate::proofs::Known::suspicion_apart, crate::proofs::Known::suspicion_six))]
    pub fn suspect(&mut self, by: usize, card: usize) -> Result<(), Refusal>
        ensures answer { result ≡ suspect_answer (net_of self.old [] 0) by card }
        ensures case { case_of result ≡ turned_down_by (suspect_reasons (net_of self.old [] 0) by card) }
        ensures after { self.new ≡ (if is_ok result then with_suspicion self.old by card else self.old) }
        ensures six { SixCards self.old }
        ensures still_six { SixCards self.new }
    {
        if by >= self.count() || card >= self.count() {
            return Err(Refusal::NoSuchCard);
        }
        if self.has_crashed(by) {
            return Err(Refusal::CardCrashed);
        }
        if !self.has_crashed(card) {
            return Err(Refusal::CardRuns);
        }
        self.cards[by].suspects[card] = true;
        Ok(())
    }

    // Whether every running card suspects every crashed one.
    pub fn all_suspected(&self) -> bool
        ensures { Decides result (AllSuspected self.now) }
    {
        (0..self.count()).all(|who| self.knows_all(who))
    }

    // Whether the card, if it runs, suspects every crashed one.
    fn knows_all(&self, who: usize) -> bool
        ensures { result ≡ knows_all self.now who }
    {
        (0..self.count()).all(|whom| self.knows(who, whom))
    }

    fn knows(&self, who: usize, whom: usize) -> bool
        ensures { result ≡ knows self.now who whom }
    {
        self.has_crashed(who) || !self.has_crashed(whom) || self.suspects(who, whom)
    }
}
