ghost use Rattle.std.specs.Prelude.{◌≡◌, ◌+◌, ◌<◌, ◌≤◌, ◌++◌, true, is_some};
ghost use Rattle.notes.specs.Sets.{low};
ghost use Rattle.tables.specs.Tables.{ballot_in};
ghost use Rattle.wire.specs.Wires.{sent};
ghost use Rattle.flooding.specs.Enough.{demand_of, MayEnter, MayKeep};
ghost use Rattle.flooding.specs.Flooding.{proposal_of, take_in_on, enter_on, decide_on, may_move, move_on, settle_on, through_on, arrive_on};
ghost use Rattle.flooding.specs.Seats.{seat_in};

use super::Flooding;
use crate::mail::{Load, let_go, take_in};
use crate::seats::{Place, Seat};
use histories::rounds;
use notes::set::NoteSet;
use wire::Item;

impl Flooding {
    // The card enters a round: it has counted only itself, sends what it knows, and only then takes in what was kept for the round.
    #[tactic(auto, using(crate::proofs::Rooms::left_after))]
    pub(super) fn enter(&mut self, place: Place, round: usize, known: NoteSet)
        requires { MayEnter self.old place.instance place.card round }
        ensures { self.new ≡ enter_on self.old place.instance place.card round known }
    {
        self.seats.put(place, Seat::enter(place.card, round, known));
        let load = self.seats.load(place);
        self.tell(place.card, load);
        self.take_in(place);
    }

    // It sends to at most 5 others.
    #[tactic(auto, using(crate::proofs::Rooms::items_counted))]
    fn tell(&mut self, card: usize, load: Load)
        requires card { card < self.old.cards.count }
        requires room { demand_of self.old + 5 ≤ 5760 }
        ensures { let items = sent self.old.cards card load self.old.cards.count in
            self.new ≡ record self.old { wire = self.old.wire ++ items } }
    {
        self.wire.send(&self.cards, card, load);
    }

    // What it takes in is not kept any longer: a card enters a round once.
    #[tactic(auto, using(crate::proofs::Rooms::left_after, crate::specs::Mails::taking_round))]
    fn take_in(&mut self, place: Place)
        ensures { self.new ≡ take_in_on self.old place.instance place.card }
    {
        let seat = self.seats.of(place);
        let taken = take_in(&self.kept, &self.cards, place, seat);
        let_go(&mut self.kept, place, taken.round);
        self.seats.put(place, taken);
    }

    fn decide(&mut self, place: Place)
        ensures { self.new ≡ decide_on self.old place.instance place.card }
    {
        let choice = self.choice(place);
        self.decisions.put(place.instance, place.card, choice);
    }

    // The proposal of the lowest card that the card knows.
    fn choice(&self, place: Place) -> Option<NoteSet>
        ensures { result ≡ proposal_of self.now.proposals place.instance (low (seat_in self.now.seats place.instance place.card).known) }
    {
        self.seats
            .of(place)
            .known
            .lowest()
            .and_then(|proposer| self.proposals.of(place.instance, proposer))
    }

    fn has_decided(&self, place: Place) -> bool
        ensures { result ≡ is_some (ballot_in self.now.decisions place.instance place.card) }
    {
        self.decisions.of(place.instance, place.card).is_some()
    }

    fn may_move(&self, place: Place) -> bool
        ensures { result ≡ may_move self.now place.instance place.card }
    {
        place.card < self.cards.count()
            && !self.has_decided(place)
            && self.seats.of(place).is_ready(&self.cards, place.card)
    }

    // From the last round the card decides, from any other it enters the next.
    #[tactic(auto, using(crate::proofs::Rooms::rounds_step))]
    fn move_on(&mut self, place: Place)
        requires { may_move self.old place.instance place.card ≡ true }
        ensures { self.new ≡ move_on self.old place.instance place.card }
    {
        let seat = self.seats.of(place);
        if seat.round < rounds(self.cards.count()) {
            self.enter(place, seat.round + 1, seat.known);
        } else {
            self.decide(place);
        }
    }

    // The card moves as often as it can: there are as many rounds as cards, and the last move is the decision.
    #[tactic(auto, using(crate::proofs::Turns::steps_none, crate::proofs::Turns::steps_more, crate::proofs::Turns::steps_end))]
    pub(super) fn settle(&mut self, place: Place)
        ensures { self.new ≡ settle_on self.old place.instance place.card }
    {
        for _turn in 0..self.cards.count() {
            if !self.may_move(place) {
                return;
            }
            self.move_on(place);
        }
    }

    // The card moves in each instance, ascending.
    #[tactic(auto, using(crate::proofs::Turns::through_none, crate::proofs::Turns::through_more))]
    pub(super) fn settle_all(&mut self, card: usize)
        ensures { self.new ≡ through_on self.old card 32 }
    {
        for instance in 0..32 {
            self.settle(Place { instance, card });
        }
    }

    // An item has come, off a wire that it leaves room on.
    #[tactic(auto, using(crate::proofs::Rooms::left_after))]
    pub(super) fn arrive(&mut self, item: Item<Load>)
        requires { MayKeep self.old }
        ensures { self.new ≡ arrive_on self.old item }
    {
        let place = Place {
            instance: item.load.instance,
            card: item.to,
        };
        let seat = self.seats.of(place);
        if self.has_decided(place) || self.cards.suspects(item.to, item.from) {
            return;
        }
        if seat.round < item.load.round {
            self.kept.push_reserved(item);
        } else if seat.round == item.load.round {
            self.seats.put(place, seat.hear(&self.cards, item));
            self.settle(place);
        }
    }
}
