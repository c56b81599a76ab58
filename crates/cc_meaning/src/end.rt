// How a run ends.
ghost use Rattle.std.specs.Prelude.{◌≡◌, ◌<◌, ◌≤◌};
ghost use Rattle.cc_meaning.specs.Kinds.{number_of};

/// What makes the next step of a run undefined. The numbers 1 to 14 of the kinds are those of the tables, and the order in
/// which one is named where several fit.
#[derive(Clone, Copy, Debug, PartialEq, Eq)]
pub enum Undef {
    /// Signed overflow, or a quotient that cannot be represented (C17 6.5p5).
    Overflow,
    /// A zero divisor (C17 6.5.5p5).
    ZeroDivisor,
    /// A shift count that is negative or at least the width (C17 6.5.7p3).
    ShiftCount,
    /// A left shift of a negative value or with a result that cannot be represented (C17 6.5.7p4).
    ShiftNegative,
    /// An automatic cell is read that was never written (C17 6.3.2.1p2).
    NeverWritten,
    /// The target of a null pointer is read, written, entered by a member or, being an array, used as a value (C17 6.5.3.2p4).
    NullAccess,
    /// An object that has ended is read or written, or a pointer into it is used in arithmetic, order or subtraction
    /// (C17 6.2.4p2).
    Ended,
    /// An element one past the end is read, written, entered by a member or, being an array, used as a value (C17 6.5.6p8).
    PastEnd,
    /// Pointer arithmetic leaves the range from 0 to the length (C17 6.5.6p8).
    OutOfArray,
    /// Pointers into different arrays are ordered or subtracted (C17 6.5.8p5, 6.5.6p9).
    OtherArray,
    /// An object defined const, or a string literal, is written (C17 6.7.3p6, 6.4.5p7).
    ReadOnly,
    /// The value is used of a call whose function reached its closing brace (C17 6.9.1p12).
    NoValue,
    /// A null function pointer is called (C17 6.5.2.2).
    NullCall,
    /// A null pointer is used in arithmetic other than adding 0, in order, or in subtraction (C17 6.5.6p8).
    NullArithmetic,
}

impl Undef {
    /// The kind's number, from 1 to 14.
    pub fn number(self) -> u8
        ensures { result ≡ number_of self }
    {
        match self {
            Undef::Overflow => 1,
            Undef::ZeroDivisor => 2,
            Undef::ShiftCount => 3,
            Undef::ShiftNegative => 4,
            Undef::NeverWritten => 5,
            Undef::NullAccess => 6,
            Undef::Ended => 7,
            Undef::PastEnd => 8,
            Undef::OutOfArray => 9,
            Undef::OtherArray => 10,
            Undef::ReadOnly => 11,
            Undef::NoValue => 12,
            Undef::NullCall => 13,
            Undef::NullArithmetic => 14,
        }
    }
}

/// How a run ends. The events before its end count, and nothing comes after it.
#[derive(Clone, Copy, Debug, PartialEq, Eq)]
pub enum End {
    /// Each of the test's calls has returned.
    Done,
    /// The next step is undefined, at this node.
    Undefined { at: u32, kind: Undef },
    /// A turn was to be taken, and none was left.
    TurnsOut,
    /// An object was to be made, and too many cells would have lived.
    CellsOut,
    /// The call at this node asks the environment for a value, and no answer is left.
    EnvDry { at: u32 },
}
