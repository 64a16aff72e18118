// Numbers that look random, each from the one before.

#[derive(Clone, Copy)]
pub struct Numbers {
    state: u64,
}

impl Numbers {
    pub fn new(seed: u64) -> Self {
        Numbers {
            state: seed.wrapping_mul(0x9E37_79B9_7F4A_7C15).wrapping_add(1),
        }
    }

    // A number below `bound`.
    pub fn below(&mut self, bound: u64) -> u64 {
        self.state = self
            .state
            .wrapping_mul(6_364_136_223_846_793_005)
            .wrapping_add(1_442_695_040_888_963_407);
        (self.state >> 33).checked_rem(bound).unwrap_or(0)
    }

    // A place in a list of so many.
    pub fn place(&mut self, count: usize) -> usize {
        self.below(count as u64) as usize
    }

    // From 1 to `most`.
    pub fn some(&mut self, most: usize) -> usize {
        self.place(most).saturating_add(1)
    }

    // .. in few bits.
    pub fn small(&mut self, most: u64) -> u32 {
        u32::try_from(self.below(most))
            .unwrap_or(0)
            .saturating_add(1)
    }

    pub fn once_in(&mut self, count: u64) -> bool {
        self.below(count) == 0
    }
}
