// A sink that text is put into.
ghost use Rattle.std.specs.Prelude.{◌≡◌, ◌≤◌, ℕ, List, Option, OnOk, IsErrOf};
ghost use Rattle.std.specs.Io.KnownBytes.{append_known};
ghost use Rattle.cc_io.specs.Count.{Rose};
ghost use Rattle.cc_io.specs.Sink.{GrowsByPrefix};

/// Why a put did not take all.
#[derive(Clone, Copy, Debug, PartialEq, Eq)]
pub enum SinkFault {
    /// The put failed, and a prefix of the bytes may have been taken.
    Failed,
    /// Memory was wanting, and nothing was taken.
    Memory,
}

/// What takes bytes.
pub trait Sink {
    /// The bytes taken so far, where the sink tells them.
    ghost held: { Self → Option (List ℕ) };

    /// How often a put failed. Stays at 2^64 - 1 once it is there.
    ghost faults: { Self → ℕ };

    /// Takes the bytes, after those that it has.
    fn put(&mut self, bytes: &[u8]) -> Result<(), SinkFault>
        ensures faults_stay { faults self.old ≤ faults self.new }
        ensures ok { OnOk result (held self.new ≡ append_known (held self.old) bytes.now) }
        ensures failed { IsErrOf result SinkFault.Failed
            → Rose (faults self.old) (faults self.new) }
        ensures prefix { IsErrOf result SinkFault.Failed
            → GrowsByPrefix (held self.old) (held self.new) bytes.now }
        ensures memory { IsErrOf result SinkFault.Memory → held self.new ≡ held self.old };
}
