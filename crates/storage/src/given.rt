// What a pass is given besides lent slices: the entry count, the place that tells where the first entry's row
// begins, the budget, the operations of the pass before
// it, and the number of the name `__functor`.
#[derive(Clone, Copy)]
pub struct Canon {
    pub count: u32,
    pub base: u32,
    pub budget: u32,
    pub spent: u32,
    pub functor: u32,
}

impl Canon {
    pub const KEYS: u32 = 96;

    pub const OPERATIONS: u32 = 2147483647;

    pub const INTERVAL: u32 = 512;

    pub const CHAIN: u32 = 4;
}
