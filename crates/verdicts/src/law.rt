// The sentences of the order law, each decided on plain lists.
ghost use Rattle.std.specs.Prelude.{◌≡◌, ◌≤◌, Decides, All, length};
ghost use Rattle.order.specs.Words.{step_bound};
ghost use Rattle.verdicts.specs.Sentences.{BeginsOrIsBegunByAll, OneBeginsTheOther, NoNoteTwice, IsPosted, ArePosted, OnlyPostedNotes, Runs, IsDown, EqualsRunningLogs, RunningLogsAgree, HoldsRunningPosts, RunningPostsLogged, IsBegunByCrashedLogs, CrashedLogsBeginRunningOnes, Suspects, SuspectsAllDown, AllCrashesSuspected};

use crate::evidence::{CardLog, Post, Suspicion};
use crate::logs::{begins, has_none_twice, one_begins, stands_in};

// Of any two logs, one begins the other.
#[tactic(auto, unfolding(crate::specs::Sentences::OneBeginsTheOther))]
pub fn one_begins_the_other(cards: &[CardLog]) -> bool
    ensures { Decides result (OneBeginsTheOther cards.now) }
{
    cards
        .iter()
        .all(|card| begins_or_is_begun_by_all(&card.notes, cards))
}

#[tactic(auto, unfolding(crate::specs::Sentences::BeginsOrIsBegunByAll))]
fn begins_or_is_begun_by_all(log: &[u32], cards: &[CardLog]) -> bool
    ensures { Decides result (BeginsOrIsBegunByAll log.now cards.now) }
{
    cards.iter().all(|other| one_begins(log, &other.notes))
}

// No note stands twice in a log.
#[tactic(auto, unfolding(crate::specs::Sentences::NoNoteTwice))]
pub fn no_note_twice(cards: &[CardLog]) -> bool
    ensures { Decides result (NoNoteTwice cards.now) }
{
    cards.iter().all(|card| has_none_twice(&card.notes))
}

// Only posted notes stand in a log.
#[tactic(auto, unfolding(crate::specs::Sentences::OnlyPostedNotes))]
pub fn only_posted_notes(cards: &[CardLog], posts: &[Post]) -> bool
    ensures { Decides result (OnlyPostedNotes cards.now posts.now) }
{
    cards.iter().all(|card| are_posted(&card.notes, posts))
}

#[tactic(auto, unfolding(crate::specs::Sentences::ArePosted))]
fn are_posted(log: &[u32], posts: &[Post]) -> bool
    ensures { Decides result (ArePosted posts.now log.now) }
{
    log.iter().all(|note| is_posted(*note, posts))
}

#[tactic(auto, unfolding(crate::specs::Sentences::IsPosted))]
fn is_posted(note: u32, posts: &[Post]) -> bool
    ensures { Decides result (IsPosted posts.now note) }
{
    posts.iter().any(|post| post.note == note)
}

// The logs of running cards are equal.
#[tactic(auto, unfolding(crate::specs::Sentences::RunningLogsAgree))]
pub fn running_logs_agree(cards: &[CardLog]) -> bool
    ensures { Decides result (RunningLogsAgree cards.now) }
{
    cards.iter().all(|card| card.down || equals_running_logs(&card.notes, cards))
}

#[tactic(auto, unfolding(crate::specs::Sentences::EqualsRunningLogs))]
fn equals_running_logs(log: &[u32], cards: &[CardLog]) -> bool
    ensures { Decides result (EqualsRunningLogs log.now cards.now) }
{
    cards
        .iter()
        .all(|other| other.down || log == other.notes.as_slice())
}

// The log of each running card holds what running cards posted.
#[tactic(auto, unfolding(crate::specs::Sentences::RunningPostsLogged))]
pub fn running_posts_logged(cards: &[CardLog], posts: &[Post]) -> bool
    ensures { Decides result (RunningPostsLogged cards.now posts.now) }
{
    cards.iter().all(|card| card.down || holds_running_posts(&card.notes, cards, posts))
}

#[tactic(auto, unfolding(crate::specs::Sentences::HoldsRunningPosts))]
fn holds_running_posts(log: &[u32], cards: &[CardLog], posts: &[Post]) -> bool
    ensures { Decides result (HoldsRunningPosts log.now cards.now posts.now) }
{
    posts.iter().all(|post| !runs(post.card as usize, cards) || stands_in(post.note, log))
}

// Each crashed card's log begins that of each running card.
#[tactic(auto, unfolding(crate::specs::Sentences::CrashedLogsBeginRunningOnes))]
pub fn crashed_logs_begin_running_ones(cards: &[CardLog]) -> bool
    ensures { Decides result (CrashedLogsBeginRunningOnes cards.now) }
{
    cards.iter().all(|card| card.down || is_begun_by_crashed_logs(&card.notes, cards))
}

#[tactic(auto, unfolding(crate::specs::Sentences::IsBegunByCrashedLogs))]
fn is_begun_by_crashed_logs(log: &[u32], cards: &[CardLog]) -> bool
    ensures { Decides result (IsBegunByCrashedLogs log.now cards.now) }
{
    cards
        .iter()
        .all(|other| !other.down || begins(&other.notes, log))
}

#[tactic(auto, unfolding(crate::specs::Sentences::Runs))]
fn runs(card: usize, cards: &[CardLog]) -> bool
    ensures { Decides result (Runs cards.now card) }
{
    match cards.get(card) {
        Some(found) => !found.down,
        None => false,
    }
}

#[tactic(auto, unfolding(crate::specs::Sentences::IsDown))]
fn is_down(card: usize, cards: &[CardLog]) -> bool
    ensures { Decides result (IsDown cards.now card) }
{
    match cards.get(card) {
        Some(found) => found.down,
        None => false,
    }
}

// Every running card suspects every crashed one.
#[tactic(auto, unfolding(crate::specs::Sentences::AllCrashesSuspected))]
pub fn all_crashes_suspected(cards: &[CardLog], suspicions: &[Suspicion]) -> bool
    ensures { Decides result (AllCrashesSuspected cards.now suspicions.now) }
{
    (0..cards.len()).all(|by| !runs(by, cards) || suspects_all_down(by, cards, suspicions))
}

#[tactic(auto, unfolding(crate::specs::Sentences::SuspectsAllDown))]
fn suspects_all_down(by: usize, cards: &[CardLog], suspicions: &[Suspicion]) -> bool
    ensures { Decides result (SuspectsAllDown by cards.now suspicions.now) }
{
    (0..cards.len()).all(|card| !is_down(card, cards) || suspects(by, card, suspicions))
}

#[tactic(auto, unfolding(crate::specs::Sentences::Suspects))]
fn suspects(by: usize, card: usize, suspicions: &[Suspicion]) -> bool
    ensures { Decides result (Suspects suspicions.now by card) }
{
    suspicions
        .iter()
        .any(|one| one.by as usize == by && one.card as usize == card)
}

// The steps are no more than posts, cards and bounds allow.
pub fn steps_within_bound(
    steps: u32,
    posts: usize,
    cards: u8,
    post_bound: u32,
    proposal_bound: u32,
) -> bool
    ensures { Decides result (steps ≤ step_bound posts cards post_bound proposal_bound) }
{
    let per_card = u128::from(proposal_bound) + 2;
    let per_post = u128::from(post_bound) + u128::from(cards) * per_card;
    u128::from(steps) <= posts as u128 * per_post
}
