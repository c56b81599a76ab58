// What a value may be, and what may be a target.

/// What a value may be, or what a slot may hold.
#[derive(Clone, Copy, Debug, PartialEq, Eq)]
pub enum Target {
    /// The function of this number.
    Function(u32),
    /// The part of this number.
    Part(u32),
}

/// What has targets: the value of an occurrence, or a slot.
#[derive(Clone, Copy, Debug, PartialEq, Eq)]
pub enum Holder {
    Value(u32),
    Slot(u32),
}
