ghost use Rattle.std.specs.Prelude.{◌≡◌, Decides};
ghost use Rattle.notes.specs.Sets.{has};
ghost use Rattle.inturn.specs.Layers.{Layered, MadeInTurn, HeldInTurn, InOrder};
ghost use Rattle.inturn.specs.Models.{layer_of, posted_in, Made, view_below, view_in_turn};
ghost use Rattle.inturn.specs.Calls.{behaviour, in_turn_over, AsBelow, TwiceAsOnce};
ghost use Rattle.inturn.specs.Means.{means_in_turn};
ghost use Rattle.parts.specs.Broadcasting.{broadcast_view};

use crate::table::Table;
use notes::set::NoteSet;
use parts::broadcast::Broadcast;
use parts::refusal::Refusal;
use parts::uniform::Uniform;
use std::alloc::{AllocError, Global};

// A layer over a broadcast: a note counts as handed when it and all earlier posts of its poster are handed below.
#[derive(Drop)]
pub struct InTurn<B: Broadcast> {
    lower: B,
    table: Table,
}

impl<B: Broadcast> Broadcast for InTurn<B> {
    ghost State = { Layered B.Broadcast.State };

    // No Model of `InTurn`, since its `Value` could not be made of `B.Broadcast.State`.
    ghost state = { layer_of B.Broadcast.state };

    ghost cards = { λ s. B.Broadcast.cards s.below };

    ghost crashed = { λ s. B.Broadcast.crashed s.below };

    ghost suspects = { λ s. B.Broadcast.suspects s.below };

    ghost wire = { λ s. B.Broadcast.wire s.below };

    ghost work = { λ s. B.Broadcast.work s.below };

    ghost poster = { λ s. B.Broadcast.poster s.below };

    ghost handed = { λ s. ((in_turn_over (behaviour B.Broadcast)).view s).handed };

    ghost made = { MadeInTurn B.Broadcast.made B.Broadcast.poster };

    ghost bound = { B.Broadcast.bound };

    ghost start = { (in_turn_over (behaviour B.Broadcast)).start };

    ghost posting = { (in_turn_over (behaviour B.Broadcast)).posting };

    ghost carrying = { (in_turn_over (behaviour B.Broadcast)).carrying };

    ghost losing = { (in_turn_over (behaviour B.Broadcast)).losing };

    ghost crashing = { (in_turn_over (behaviour B.Broadcast)).crashing };

    ghost suspecting = { (in_turn_over (behaviour B.Broadcast)).suspecting };

    ghost meaning = { means_in_turn (record {
      view = broadcast_view B.Broadcast.cards B.Broadcast.crashed B.Broadcast.suspects B.Broadcast.wire B.Broadcast.work B.Broadcast.poster B.Broadcast.handed;
      start = B.Broadcast.start;
      posting = B.Broadcast.posting;
      carrying = B.Broadcast.carrying;
      losing = B.Broadcast.losing;
      crashing = B.Broadcast.crashing;
      suspecting = B.Broadcast.suspecting;
    }) B.Broadcast.made B.Broadcast.bound B.Broadcast.meaning };

    fn new(heap: Global, count: usize) -> Result<InTurn<B>, AllocError> {
        let table = Table::new(heap)?;
        let lower = B::new(heap, count)?;
        Ok(InTurn { lower, table })
    }

    // A post is written down once the lower broadcast has accepted it.
    fn post(&mut self, card: usize, note: usize) -> Result<(), Refusal> {
        self.lower.post(card, note)?;
        self.table.write(card, note);
        Ok(())
    }

    fn carry(&mut self, item: usize) -> Result<(), Refusal> {
        self.lower.carry(item)
    }

    fn lose(&mut self, item: usize) -> Result<(), Refusal> {
        self.lower.lose(item)
    }

    fn crash(&mut self, card: usize) -> Result<(), Refusal> {
        self.lower.crash(card)
    }

    fn suspect(&mut self, by: usize, card: usize) -> Result<(), Refusal> {
        self.lower.suspect(by, card)
    }

    fn bound() -> u32 {
        B::bound()
    }

    fn card_count(&self) -> usize {
        self.lower.card_count()
    }

    fn has_crashed(&self, card: usize) -> bool {
        self.lower.has_crashed(card)
    }

    fn suspects(&self, by: usize, card: usize) -> bool {
        self.lower.suspects(by, card)
    }

    fn wire_len(&self) -> usize {
        self.lower.wire_len()
    }

    fn sender_of(&self, item: usize) -> Option<usize> {
        self.lower.sender_of(item)
    }

    fn poster_of(&self, note: usize) -> Option<usize> {
        self.lower.poster_of(note)
    }

    fn handed_to(&self, card: usize) -> NoteSet {
        self.table.in_turn(self.lower.handed_to(card))
    }
}

impl<B: Uniform> Uniform for InTurn<B> {
    fn is_quiet(&self) -> bool {
        self.lower.is_quiet()
    }
}

impl<B: Broadcast> InTurn<B> {
    // Whether a note counts as handed to a card: it and all earlier posts of its poster are handed below. These then count too.
    pub fn counts_as_handed(&self, card: usize, note: usize) -> bool
        ensures answer { result ≡ has ((view_in_turn B.Broadcast self.now).handed card) note }
        ensures rule { Made B.Broadcast self.now → Decides result (HeldInTurn (posted_in self.now) ((view_below B.Broadcast self.now).handed card) note) }
        ensures order { Made B.Broadcast self.now → InOrder (posted_in self.now) (view_in_turn B.Broadcast self.now).handed }
    {
        self.handed_to(card).contains(note)
    }

    // Takes the layer off. But for the handed sets, all was as in the broadcast below.
    pub fn into_lower(self) -> B
        ensures lower { B.Broadcast.state result ≡ (layer_of B.Broadcast.state self).below }
        ensures as_below { AsBelow (behaviour B.Broadcast) }
    {
        let InTurn { lower, table: _ } = self;
        lower
    }
}

impl<B: Broadcast> InTurn<InTurn<B>> {
    // Takes one of two layers off: the other alone behaves as both.
    pub fn into_one_layer(self) -> InTurn<B>
        ensures inner { layer_of B.Broadcast.state result ≡ (layer_of (layer_of B.Broadcast.state) self).below }
        ensures as_once { TwiceAsOnce (behaviour B.Broadcast) }
    {
        self.into_lower()
    }
}
