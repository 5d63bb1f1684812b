// Examples of a broadcast that hands over at once, run as tests.
use crate::state::AtOnce;
use parts::broadcast::Broadcast;
use parts::refusal::Refusal;
use parts::uniform::Uniform;
use std::test::Fail;

#[test]
fn a_posted_note_is_with_every_card_that_runs(rt: HostRuntime) -> Result<(), Fail> {
    let mut at_once: AtOnce = AtOnce::new(rt.alloc(), 3)?;
    at_once.crash(2)?;
    at_once.post(0, 4)?;
    assert_eq!(rt; at_once.handed_to(0).to_bits(), 0b10000);
    assert_eq!(rt; at_once.handed_to(1).to_bits(), 0b10000);
    assert_eq!(rt; at_once.handed_to(2).to_bits(), 0);
    Ok(())
}

#[test]
fn nothing_is_ever_under_way(rt: HostRuntime) -> Result<(), Fail> {
    let mut at_once: AtOnce = AtOnce::new(rt.alloc(), 2)?;
    at_once.post(1, 0)?;
    assert_eq!(rt; at_once.wire_len(), 0);
    assert!(rt; at_once.carry(0) == Err(Refusal::NoSuchItem));
    assert!(rt; at_once.is_quiet());
    Ok(())
}
