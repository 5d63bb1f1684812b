use board::state::Board;
use inturn::layer::InTurn;
use parts::broadcast::Broadcast;
use parts::refusal::Refusal;
use std::alloc::{AllocError, Global};
use std::test::Fail;

// A post on a board of two cards puts two items on the wire, the first for card 0 and the second for card 1.
fn two_cards(heap: Global) -> Result<InTurn<Board>, AllocError> {
    InTurn::new(heap, 2)
}

#[test]
fn a_second_note_waits_for_the_first(rt: HostRuntime) -> Result<(), Fail> {
    let mut layer = two_cards(rt.alloc())?;
    layer.post(0, 0)?;
    layer.post(0, 1)?;
    layer.carry(3)?;
    assert_eq!(rt; layer.handed_to(1).to_bits(), 0);
    assert!(rt; !layer.counts_as_handed(1, 1));
    layer.carry(1)?;
    assert_eq!(rt; layer.handed_to(1).to_bits(), 0b11);
    assert_eq!(rt; layer.handed_to(0).to_bits(), 0);
    Ok(())
}

#[test]
fn the_order_is_that_of_posting_and_not_of_numbers(rt: HostRuntime) -> Result<(), Fail> {
    let mut layer = two_cards(rt.alloc())?;
    layer.post(0, 5)?;
    layer.post(0, 2)?;
    layer.carry(2)?;
    assert_eq!(rt; layer.handed_to(0).to_bits(), 0);
    layer.carry(0)?;
    assert_eq!(rt; layer.handed_to(0).to_bits(), 0b100100);
    Ok(())
}

#[test]
fn a_card_does_not_wait_for_another(rt: HostRuntime) -> Result<(), Fail> {
    let mut layer = two_cards(rt.alloc())?;
    layer.post(0, 0)?;
    layer.post(1, 1)?;
    layer.carry(2)?;
    assert_eq!(rt; layer.handed_to(0).to_bits(), 0b10);
    Ok(())
}

#[test]
fn a_refused_post_keeps_nothing_back(rt: HostRuntime) -> Result<(), Fail> {
    let mut layer = two_cards(rt.alloc())?;
    layer.post(0, 0)?;
    assert!(rt; layer.post(1, 0) == Err(Refusal::AlreadyPosted));
    layer.post(1, 1)?;
    layer.carry(2)?;
    assert_eq!(rt; layer.handed_to(0).to_bits(), 0b10);
    Ok(())
}

// What a crashed card was handed stays; what arrived too early for it never counts.
#[test]
fn a_crashed_card_keeps_what_counted(rt: HostRuntime) -> Result<(), Fail> {
    let mut layer = two_cards(rt.alloc())?;
    layer.post(0, 0)?;
    layer.post(0, 1)?;
    layer.post(0, 2)?;
    layer.carry(1)?;
    layer.carry(4)?;
    layer.crash(1)?;
    assert_eq!(rt; layer.handed_to(1).to_bits(), 0b1);
    assert_eq!(rt; layer.wire_len(), 3);
    Ok(())
}

#[test]
fn all_32_notes_are_taken(rt: HostRuntime) -> Result<(), Fail> {
    let mut layer = two_cards(rt.alloc())?;
    // Notes and items are numbers: there is no list to go over.
    for note in 0..32 {
        layer.post(1, note)?;
    }
    for _item in 0..64 {
        layer.carry(0)?;
    }
    assert_eq!(rt; layer.handed_to(0).count(), 32);
    assert_eq!(rt; layer.handed_to(1).count(), 32);
    Ok(())
}
