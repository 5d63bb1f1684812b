// A wire is the list of items on their way. There are two, that of the broadcast and that of the consensus.
#[derive(Clone, Copy, Debug, PartialEq, Eq)]
pub enum Wire {
    Broadcast,
    Consensus,
}
