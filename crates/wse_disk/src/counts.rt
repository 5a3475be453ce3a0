// Counts of calls, of which some are to fail.
ghost use Rattle.std.specs.Prelude.{◌≡◌, ◌≤◌, ◌||◌, true, false};
ghost use Rattle.wse_path.specs.Causes.{Rose};
ghost use Rattle.wse_disk.specs.CallCounts.{uncalled, next_fails, called, starved_once, finished};

use std::marker::Model;

/// Counts the calls of an object in memory. Those fail whose number, counted from 1, is in a list. Each count stops at
/// 2^64-1.
#[derive(Drop)]
pub struct CallCounts {
    fails: Vec<u64>,
    calls: u64,
    faults: u64,
    starved: u64,
}

impl Model for CallCounts {
    ghost use Rattle.wse_disk.specs.CallCounts.{CallState};

    ghost Value = { CallState };

    ghost view = { λ a. record { fails = a.fails.items; calls = a.calls; faults = a.faults; starved = a.starved } };
}

impl CallCounts {
    /// No call was made yet. Takes no memory.
    pub fn new(fails: Vec<u64>) -> CallCounts
        ensures { result ≡ uncalled fails.items }
    {
        CallCounts {
            fails,
            calls: 0,
            faults: 0,
            starved: 0,
        }
    }

    /// Counts a call, and answers whether it is one that fails.
    pub fn call(&mut self) -> bool
        ensures fails { result ≡ next_fails self.old }
        ensures counts { self.new ≡ called self.old }
        ensures later { self.old.faults ≤ self.new.faults }
        ensures rose { result ≡ true → Rose self.old.faults self.new.faults }
        ensures kept { result ≡ false → self.new.faults ≡ self.old.faults }
    {
        self.calls = self.calls.saturating_add(1);
        let fails = self.fails.contains(&self.calls);
        if fails {
            self.faults = self.faults.saturating_add(1);
        }
        fails
    }

    /// Whether the next call is one that fails.
    pub fn fails_next(&self) -> bool
        ensures { result ≡ next_fails self.now }
    {
        let next = self.calls.saturating_add(1);
        self.fails.contains(&next)
    }

    /// Counts a call, which may have found no memory, and answers whether it fails.
    pub fn finish(&mut self, no_memory: bool) -> bool
        ensures fails { result ≡ (no_memory || next_fails self.old) }
        ensures counts { self.new ≡ finished self.old no_memory }
        ensures later { self.old.faults ≤ self.new.faults }
        ensures rose { result ≡ true → Rose self.old.faults self.new.faults }
        ensures kept { result ≡ false → self.new.faults ≡ self.old.faults }
    {
        if !no_memory {
            return self.call();
        }
        self.calls = self.calls.saturating_add(1);
        self.starve();
        true
    }

    /// Counts that the call found no memory.
    pub fn starve(&mut self)
        ensures counts { self.new ≡ starved_once self.old }
        ensures later { self.old.faults ≤ self.new.faults }
        ensures rose { Rose self.old.faults self.new.faults }
    {
        self.faults = self.faults.saturating_add(1);
        self.starved = self.starved.saturating_add(1);
    }

    /// How many calls failed.
    pub fn faults(&self) -> u64
        ensures { result ≡ self.now.faults }
    {
        self.faults
    }

    /// How many of them failed for want of memory.
    pub fn starved(&self) -> u64
        ensures { result ≡ self.now.starved }
    {
        self.starved
    }
}
