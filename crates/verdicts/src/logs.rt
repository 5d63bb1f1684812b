// Questions about one log.
ghost use Rattle.std.specs.Prelude.{◌≡◌, Decides};
ghost use Rattle.order.specs.Words.{among, Begins, NoneTwice};
ghost use Rattle.verdicts.specs.Sentences.{OneBegins};

// Whether a log is a beginning of another.
#[tactic(auto, using(crate::proofs::Lists::begins_where_it_starts))]
pub(crate) fn begins(log: &[u32], whole: &[u32]) -> bool
    ensures { Decides result (Begins log.now whole.now) }
{
    whole.starts_with(log)
}

#[tactic(auto, unfolding(crate::specs::Sentences::OneBegins))]
pub(crate) fn one_begins(a: &[u32], b: &[u32]) -> bool
    ensures { Decides result (OneBegins a.now b.now) }
{
    begins(a, b) || begins(b, a)
}

#[tactic(auto, using(crate::proofs::Lists::among_where_any))]
pub(crate) fn stands_in(note: u32, log: &[u32]) -> bool
    ensures { result ≡ among note log.now }
{
    log.iter().any(|other| note == *other)
}

// Whether no note stands twice in a log.
pub(crate) fn has_none_twice(log: &[u32]) -> bool
    ensures { Decides result (NoneTwice log.now) }
{
    let mut rest = log;
    while let Some((note, later)) = rest.split_first() {
        if stands_in(*note, later) {
            return false;
        }
        rest = later;
    }
    true
}
