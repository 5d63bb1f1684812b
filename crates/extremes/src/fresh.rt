// New parts.
use crate::size::Size;
use allack::state::AllAck;
use at_once::state::AtOnce;
use board::state::Board;
use flooding::state::Flooding;
use inturn::layer::InTurn;
use parts::broadcast::Broadcast;
use parts::consensus::Consensus;
use register::state::Register;
use relay::state::Relay;
use std::alloc::{AllocError, Global};

fn try_broadcast<B: Broadcast + Drop>(heap: Global, size: Size) -> Result<(), AllocError> {
    let _ = B::new(heap, size.cards as usize)?;
    Ok(())
}

fn try_consensus<C: Consensus + Drop>(heap: Global, size: Size) -> Result<(), AllocError> {
    let _ = C::new(heap, size.cards as usize)?;
    Ok(())
}

// One of each, and a pile of two layers.
pub(crate) fn try_parts(heap: Global, size: Size) -> Result<(), AllocError> {
    try_broadcast::<Relay>(heap, size)?;
    try_broadcast::<AllAck>(heap, size)?;
    try_broadcast::<Board>(heap, size)?;
    try_broadcast::<AtOnce>(heap, size)?;
    try_broadcast::<InTurn<InTurn<AllAck>>>(heap, size)?;
    try_consensus::<Register>(heap, size)?;
    try_consensus::<Flooding>(heap, size)
}
