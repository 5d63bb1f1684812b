// Reports that break the order law are told, each by the sentence that it breaks.
use crate::outcome::read_report;
use crate::pile::piles;
use crate::trial::{Trial, evidence_of};
use entries::event::Event;
use std::alloc::Global;
use verdicts::count::Case;
use verdicts::evidence::Terms;

// Three cards over a uniform broadcast: each posts a note, the last one crashes, and the others suspect it.
fn events() -> [Event; 7] {
    [
        Event::Post { card: 0, note: 0 },
        Event::Post { card: 1, note: 1 },
        Event::Post { card: 2, note: 2 },
        Event::Crash { card: 2 },
        Event::Suspect { by: 0, card: 2 },
        Event::Suspect { by: 1, card: 2 },
        Event::Settle { limit: 100 },
    ]
}

// Three posts, each of at most 6 + 3 * (1 + 2) steps.
fn terms() -> Terms {
    Terms {
        cards: 3,
        uniform: true,
        post_bound: 6,
        proposal_bound: 1,
    }
}

fn is_lawful(heap: Global, report: &str) -> anyhow::Result<bool> {
    let events = events();
    let outcome = read_report(heap, report, events.len())?;
    let evidence = evidence_of(heap, &events, outcome)?;
    let trial = Trial {
        terms: terms(),
        evidence,
    };
    Ok(trial.passes())
}

#[test]
fn lawful_reports_pass(rt: HostRuntime) -> anyhow::Result<()> {
    let reports = [
        "log 0 up 0 1 2\nlog 1 up 0 1 2\nlog 2 down 0\nsteps 45 rest\n",
        "log 0 up 0 1\nlog 1 up 0 1\nlog 2 down\nsteps 30 rest\n",
        // Not at rest, or not suspected by all.
        "log 0 up 0 1\nlog 1 up\nlog 2 down 0 1 2\nsteps 45 more\n",
        "no 5 5\nlog 0 up 0 1\nlog 1 up\nlog 2 down 0 1 2\nsteps 45 rest\n",
        // A refused post was made by nobody.
        "no 1 2\nlog 0 up 0\nlog 1 up 0\nlog 2 down\nsteps 30 rest\n",
    ];
    for report in reports {
        assert!(rt; is_lawful(rt.alloc(), report)?, "{report}");
    }
    Ok(())
}

#[test]
fn unlawful_reports_fail(rt: HostRuntime) -> anyhow::Result<()> {
    let reports = [
        // A log is missing.
        "log 0 up\nlog 1 up\nsteps 0 more\n",
        // A step too many.
        "log 0 up\nlog 1 up\nlog 2 down\nsteps 46 more\n",
        // Neither log begins the other.
        "log 0 up 0 1\nlog 1 up 1 0\nlog 2 down\nsteps 9 more\n",
        // A note twice.
        "log 0 up 0 1 0\nlog 1 up\nlog 2 down\nsteps 9 more\n",
        // A note that nobody posted, and one whose post was refused.
        "log 0 up 3\nlog 1 up\nlog 2 down\nsteps 9 more\n",
        "no 1 2\nlog 0 up 0 1\nlog 1 up\nlog 2 down\nsteps 9 more\n",
        // At rest: running cards with logs of their own, and without a note that a running card posted.
        "log 0 up 0 1 2\nlog 1 up 0 1\nlog 2 down\nsteps 9 rest\n",
        "log 0 up 0\nlog 1 up 0\nlog 2 down\nsteps 9 rest\n",
        // At rest: a crashed card that went on alone.
        "log 0 up 0 1\nlog 1 up 0 1\nlog 2 down 0 1 2\nsteps 9 rest\n",
    ];
    for report in reports {
        assert!(rt; !is_lawful(rt.alloc(), report)?, "{report}");
    }
    Ok(())
}

// Of the broadcasts relay alone is not uniform.
#[test]
fn piles_without_relay_are_uniform(rt: HostRuntime) {
    for pile in piles() {
        let words = pile.words;
        assert_eq!(rt; pile.uniform, !words.contains("relay"), "{words}");
    }
}
