//! Memory that the trees of a task take before rows have come.

// What the tables and counters of a task's trees take from the start, in bytes, at most.
const MOST_BYTES: u64 = 1 << 20;

/// How many bytes the tables and counters of a task's trees may still take from the start. A tree that finds too few left makes its
/// table once it has many codes.
#[derive(Drop)]
pub struct TableRoom {
    left: u64,
}

impl TableRoom {
    /// Of a task that has no tree yet: 1 MiB.
    pub fn new() -> Self {
        TableRoom { left: MOST_BYTES }
    }

    /// Takes so many bytes, or none where fewer are left, and tells whether it did.
    pub(crate) fn take(&mut self, bytes: u64) -> bool {
        if bytes > self.left {
            return false;
        }
        self.left -= bytes;
        true
    }
}
