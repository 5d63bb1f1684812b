// The law of the order: whatever the broadcast and the consensus below, as long as they mean what a broadcast and a consensus mean,
// every card of a carrier logs the notes in one order.
#![tactic(auto)]

ghost use Rattle.std.specs.Prelude.{◌≡◌};
ghost use Rattle.order.specs.Words.{step_bound};
ghost use Rattle.order.specs.Law.{OrderLaw};

// The most steps that a run can make with so many posts and cards, over a broadcast and a consensus with these bounds.
// That no run makes more is a clause of the law.
pub fn step_bound(posts: u8, cards: u8, broadcast: u32, consensus: u32) -> u64
    ensures bound { result ≡ step_bound posts cards broadcast consensus }
    ensures order { OrderLaw }
{
    every_run_keeps_one_order();
    let per_card = u64::from(consensus) + 2;
    u64::from(posts) * (u64::from(broadcast) + u64::from(cards) * per_card)
}

fn every_run_keeps_one_order()
    ensures { OrderLaw }
{}
