// A linear congruential generator, so that every run draws the same schedules.
#[derive(Drop)]
pub(crate) struct Random {
    state: u64,
}

impl Random {
    pub(crate) fn new(seed: u64) -> Random {
        Random { state: seed }
    }

    // A number below the limit; 0 where the limit is 0.
    pub(crate) fn below(&mut self, limit: u32) -> u32 {
        self.state = self
            .state
            .wrapping_mul(6364136223846793005)
            .wrapping_add(1442695040888963407);
        // The high bits of such a generator are the better ones.
        (self.state >> 33)
            .checked_rem(u64::from(limit))
            .and_then(|number| u32::try_from(number).ok())
            .unwrap_or(0)
    }

    // One of some numbers.
    pub(crate) fn one_of(&mut self, numbers: &[u32]) -> u32 {
        let count = u32::try_from(numbers.len()).unwrap_or(0);
        let place = self.below(count) as usize;
        numbers.get(place).copied().unwrap_or(0)
    }
}
