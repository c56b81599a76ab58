// What goes to out.
ghost use Rattle.std.specs.Prelude.{◌≡◌};
ghost use Rattle.cc_top.specs.Tells as spec;
ghost use Rattle.cc_top.specs.Answer.{status_when};

/// A text for out.
#[derive(Drop)]
pub struct Output {
    pub text: Vec<u8>,
    /// Each criterion that the command judges is met; most judge none.
    pub is_met: bool,
}

impl Output {
    /// A text that judges no criterion.
    pub fn plain(text: Vec<u8>) -> Output
        ensures { result ≡ spec.plain text }
    {
        Output { text, is_met: true }
    }

    /// The status that goes with it.
    pub fn status(&self) -> u8
        ensures { result ≡ status_when self.now.is_met }
    {
        if self.is_met { 0 } else { 1 }
    }
}
