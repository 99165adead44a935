//! The calls of a transport in memory.
ghost use Rattle.std.specs.Prelude.{◌≡◌, ◌≤◌, ◌==◌};
ghost use Rattle.std.specs.List.{list_any};
ghost use Rattle.std.specs.Bool.{OnTrue, OnFalse};
ghost use Rattle.http_config.specs.Causes.{Rose, counted};

/// Which calls fail, the number of the next one, and how many failed.
#[derive(Drop)]
pub(crate) struct Calls {
    pub(crate) fail: Vec<usize>,
    pub(crate) next: usize,
    pub(crate) faults: u64,
}

impl Calls {
    /// Counts a call, and answers whether it fails: then the fault is counted too.
    pub(crate) fn fails(&mut self) -> bool
        ensures listed { result ≡ list_any (λ n. n == self.old.next) self.old.fail.items }
        ensures failed { OnTrue result ((self.old.faults ≤ self.new.faults) × Rose self.old.faults self.new.faults) }
        ensures others { OnFalse result (self.new.faults ≡ self.old.faults) }
        ensures fail { self.new.fail ≡ self.old.fail }
        ensures next { self.new.next ≡ counted self.old.next }
    {
        let call = self.next;
        self.next = call.saturating_add(1);
        let fails = self.fail.contains(&call);
        if fails {
            self.faults = self.faults.saturating_add(1);
        }
        fails
    }

    /// Counts a fault.
    pub(crate) fn fault(&mut self)
        ensures failed { (self.old.faults ≤ self.new.faults) × Rose self.old.faults self.new.faults }
        ensures others { self.new ≡ record self.old { faults = self.new.faults } }
    {
        self.faults = self.faults.saturating_add(1);
    }
}
