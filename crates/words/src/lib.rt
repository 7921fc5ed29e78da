// Numbers and durations in English words: the types that reading them answers. The definitions are in specs/, the laws in
// proofs/; the functions that write and read words are in the crate spoken.

#![tactic(auto)]

// A number as far as its words were read: the sum of the thousands groups that are complete, and the current group.
#[derive(Clone, Copy)]
pub struct Groups {
    pub sum: u64,
    pub current: u64,
}

// A number that was read, and the offset after its last word.
#[derive(Clone, Copy)]
pub struct Quantity {
    pub value: u32,
    pub end: usize,
}
