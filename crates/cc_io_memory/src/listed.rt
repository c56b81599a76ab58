// Lists of calls that fail.
ghost use Rattle.std.specs.Prelude.{◌≡◌};
ghost use Rattle.cc_io_memory.specs.Calls.{is_listed};

// Whether the call of this number is one of these.
pub fn is_listed(fails: &[u64], call: u64) -> bool
    ensures { result ≡ is_listed fails.now call }
{
    for fail in fails {
        if *fail == call {
            return true;
        }
    }
    false
}
