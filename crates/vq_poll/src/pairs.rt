//! What is waited for, and what a wait answers.
//!
//! Source: this project's own, where an item names no other.

/// A chain of a board's plan, and the value that it is to come to. Source: Vulkan 1.3, VkSemaphoreWaitInfo.
#[derive(Clone, Copy, Debug, PartialEq, Eq)]
pub struct Pair {
    pub chain: u32,
    pub value: u64,
}

/// A pair that was found reached, by its place among the pairs, and the value that was read of its chain.
#[derive(Clone, Copy, Debug, PartialEq, Eq)]
pub struct Met {
    pub index: u32,
    pub value: u64,
}

/// Whether a wait is for all of its pairs, or for one of them. Source: Vulkan 1.3, VkSemaphoreWaitFlagBits.
#[derive(Clone, Copy, Debug, PartialEq, Eq)]
pub enum WaitMode {
    All,
    Any,
}
