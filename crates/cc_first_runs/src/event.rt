// What a run tells.

/// Call number `i` in the body of function number `f`, both counted from 0.
#[derive(Clone, Copy, PartialEq, Eq, Debug)]
pub struct Site {
    pub f: usize,
    pub i: usize,
}

/// What happens in a run. An activation is one execution of a function's body; activations are numbered from 1 in the
/// order in which they begin.
#[derive(Clone, Copy, PartialEq, Eq, Debug)]
pub enum Event {
    /// A call enters a function. A test's call has no site.
    Enter {
        site: Option<Site>,
        callee: usize,
        act: u64,
    },
    /// An activation ends by a `return` statement, or with none at the closing brace of its body (C17 6.9.1p12).
    Leave {
        ret: Option<usize>,
        act: u64,
    },
}

/// How a run ends.
#[derive(Clone, Copy, PartialEq, Eq, Debug)]
pub enum End {
    /// Each of the test's calls has returned.
    Done,
    /// A function was to be entered, and no turn was left.
    TurnsOut,
    /// A function was to be entered that has no body (C17 6.9p5 asks for one). No run of a whole program ends so whose
    /// test calls functions of it.
    NoBody,
}
