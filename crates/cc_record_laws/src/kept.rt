// What a recorder keeps of entries and of passed formals.
use cc_program::FuncId;

/// How an activation was entered by a call.
#[derive(Clone, Copy)]
pub struct Entry {
    /// The call.
    pub site: u32,
    /// The function that it entered.
    pub callee: FuncId,
}

/// How a formal's cell was passed.
#[derive(Clone, Copy)]
pub struct Passed {
    /// The call.
    pub site: u32,
    /// The argument's number, counted from 1.
    pub k: u32,
    /// How the formal's activation was entered, if by a call.
    pub entry: Option<Entry>,
    /// The definition of the argument, if it has one.
    pub definition: Option<u32>,
}
