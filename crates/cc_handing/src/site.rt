// Sites.

/// A site in a live function may call a function with a body.
#[derive(Clone, Copy)]
pub struct Site {
    /// The node of the call.
    pub site: u32,
    /// The function's number.
    pub callee: u32,
}
