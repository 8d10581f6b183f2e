//! Gates that hold workers back.
use std::sync::atomic::{AtomicU32, Ordering};
use std::thread::yield_now;
use worker_gate::{Gate, Point};

/// How often a worker looks before it gives up: some seconds.
pub const MAX_TURNS: u32 = 10_000_000;

/// Waits until the count is `due`, for so many turns at most, and tells whether it was in time.
fn has_come(count: &AtomicU32, due: u32, turns: u32) -> bool {
    for _turn in 0..turns {
        if count.load(Ordering::SeqCst) >= due {
            return true;
        }
        yield_now();
    }
    false
}

/// A gate that holds one task where it was claimed, until other tasks have passed a point so many times.
#[derive(Drop)]
pub struct HeldBack {
    task: u32,
    point: Point,
    due: u32,
    passed: AtomicU32,
    released: AtomicU32,
}

impl HeldBack {
    /// A gate that holds the task for `MAX_TURNS` at most, until others have passed the point `due` times.
    pub fn new(task: u32, point: Point, due: u32) -> HeldBack {
        HeldBack {
            task,
            point,
            due,
            passed: AtomicU32::new(0),
            released: AtomicU32::new(0),
        }
    }

    /// Whether the task came, and was held until the others had passed.
    pub fn has_released(&self) -> bool {
        self.released.load(Ordering::SeqCst) == 1
    }
}

impl Gate for HeldBack {
    fn pass(&self, task: u32, point: Point) {
        if task != self.task {
            if point == self.point {
                self.passed.fetch_add(1, Ordering::SeqCst);
            }
        } else if point == Point::Claimed && has_come(&self.passed, self.due, MAX_TURNS) {
            self.released.fetch_add(1, Ordering::SeqCst);
        }
    }
}

/// A gate at which each task waits until so many are claimed, so that they all run at the same time.
#[derive(Drop)]
pub struct Meeting {
    due: u32,
    turns: u32,
    claimed: AtomicU32,
    missed: AtomicU32,
}

impl Meeting {
    /// A gate at which each task waits for so many turns at most until `due` are claimed.
    pub fn new(due: u32, turns: u32) -> Meeting {
        Meeting {
            due,
            turns,
            claimed: AtomicU32::new(0),
            missed: AtomicU32::new(0),
        }
    }

    /// Whether no task waited in vain.
    pub fn have_met(&self) -> bool {
        self.missed.load(Ordering::SeqCst) == 0
    }
}

impl Gate for Meeting {
    fn pass(&self, _task: u32, point: Point) {
        if point == Point::Claimed {
            self.claimed.fetch_add(1, Ordering::SeqCst);
            if !has_come(&self.claimed, self.due, self.turns) {
                self.missed.fetch_add(1, Ordering::SeqCst);
            }
        }
    }
}
