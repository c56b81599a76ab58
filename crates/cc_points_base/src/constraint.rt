// What a node asks of the facts.

/// What a target of a holder does.
#[derive(Clone, Copy)]
pub enum Watch {
    /// What its slot holds goes to a holder.
    Loads(u32),
    /// What a holder has goes to its slot.
    Stores(u32),
    /// Its member goes to a holder.
    Member(u32, u32),
    /// Its elements go to a holder.
    Element(u32),
    /// It goes to a holder, where it is a part.
    Parts(u32),
    /// It goes to a holder, where it is a function.
    Functions(u32),
    /// What a holder has goes to a formal of it.
    Passes(u32, u32),
    /// What the pointer in it that comes so many parts after it holds goes to a holder, if it is of this struct type.
    Copies(u32, u32, u32),
    /// What a holder has goes to the pointer in it that comes so many parts after it, if it is of this struct type.
    Pastes(u32, u32, u32),
    /// What its returns may be goes to a holder.
    Returns(u32),
}

/// A target of a holder, a holder that has all targets of another one, or what each target of a holder does.
#[derive(Clone, Copy)]
pub enum Constraint {
    Has(u32, u32),
    Joins(u32, u32),
    Watches(u32, Watch),
}
