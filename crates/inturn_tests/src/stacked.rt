use board::state::Board;
use inturn::layer::InTurn;
use parts::broadcast::Broadcast;
use parts::uniform::Uniform;
use std::test::Fail;

#[test]
fn two_layers_count_as_one(rt: HostRuntime) -> Result<(), Fail> {
    let mut twice: InTurn<InTurn<Board>> = InTurn::new(rt.alloc(), 3)?;
    twice.post(2, 7)?;
    twice.post(2, 4)?;
    twice.carry(3)?;
    assert_eq!(rt; twice.handed_to(0).to_bits(), 0);
    twice.carry(0)?;
    assert!(rt; !twice.is_quiet());
    assert_eq!(rt; twice.handed_to(0).to_bits(), 0b10010000);
    let once = twice.into_one_layer();
    assert_eq!(rt; once.handed_to(0).to_bits(), 0b10010000);
    let board = once.into_lower();
    assert_eq!(rt; board.wire_len(), 4);
    Ok(())
}
