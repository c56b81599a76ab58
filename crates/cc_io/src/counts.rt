// The counts that a shelf keeps of what went wrong.
ghost use Rattle.std.specs.Prelude.{◌≡◌, ◌≤◌};
ghost use Rattle.cc_io.specs.Count.{one_more};

// Each count stays at 2^64 - 1 once it is there.
#[derive(Clone, Copy)]
pub struct Counts {
    pub faults: u64,
    pub misses: u64,
    pub longs: u64,
}

impl Counts {
    pub const NONE: Counts = Counts {
        faults: 0,
        misses: 0,
        longs: 0,
    };

    pub fn add_fault(&mut self)
        ensures value { self.new ≡ record self.old { faults = one_more self.old.faults } }
        ensures grows { self.old.faults ≤ self.new.faults }
    {
        self.faults = self.faults.saturating_add(1);
    }

    pub fn add_miss(&mut self)
        ensures value { self.new ≡ record self.old { misses = one_more self.old.misses } }
        ensures grows { self.old.misses ≤ self.new.misses }
    {
        self.misses = self.misses.saturating_add(1);
    }

    pub fn add_long(&mut self)
        ensures value { self.new ≡ record self.old { longs = one_more self.old.longs } }
        ensures grows { self.old.longs ≤ self.new.longs }
    {
        self.longs = self.longs.saturating_add(1);
    }
}
