//! A gate that can hold the first item until the second was begun.

use desk_workers::Gate;
use std::sync::atomic::{AtomicU64, Ordering};

/// How often a gate looks whether the second item was begun.
const TURNS: u64 = 50_000_000;

/// Where it holds, item 0 waits where it is begun for the k-th time until item 1 was begun k times; it counts how often it saw
/// that. Else it does nothing.
#[derive(Drop)]
pub struct Pairs {
    holds: bool,
    first: AtomicU64,
    second: AtomicU64,
    saw: AtomicU64,
}

impl Pairs {
    /// A gate that holds, or doesn't.
    pub fn new(holds: bool) -> Pairs {
        Pairs {
            holds,
            first: AtomicU64::new(0),
            second: AtomicU64::new(0),
            saw: AtomicU64::new(0),
        }
    }

    /// How often both items were under way at once.
    pub fn saw(&self) -> u64 {
        self.saw.load(Ordering::SeqCst)
    }

    /// Whether item 1 was begun so many times, within so many turns.
    fn sees(&self, times: u64) -> bool {
        for _ in 0..TURNS {
            if self.second.load(Ordering::SeqCst) >= times {
                return true;
            }
        }
        false
    }

    /// Holds item 0 where it is begun once more.
    fn hold(&self) {
        let times = self.first.fetch_add(1, Ordering::SeqCst).saturating_add(1);
        if self.sees(times) {
            self.saw.fetch_add(1, Ordering::SeqCst);
        }
    }
}

impl Gate for Pairs {
    fn enter(&self, item: u32) {
        match item {
            0 if self.holds => self.hold(),
            1 => {
                self.second.fetch_add(1, Ordering::SeqCst);
            }
            _ => {}
        }
    }

    fn leave(&self, _item: u32) {}
}
