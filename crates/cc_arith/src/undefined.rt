// Why an operator gives no result.

/// Why an operator gives no result: what C17 leaves undefined.
#[derive(Clone, Copy, Debug, PartialEq, Eq)]
pub enum ArithUndef {
    /// U1: a signed kind can't represent the result (C17 6.5, paragraph 5), or for `/` and `%` the
    /// quotient (6.5.5, paragraph 6).
    Overflow,
    /// U2: the divisor is 0 (C17 6.5.5, paragraph 5).
    ZeroDivisor,
    /// U3: the count of a shift is negative, or not below the width (C17 6.5.7, paragraph 3).
    ShiftCount,
    /// U4: a signed kind is shifted left from a negative value, or to a result that it can't represent
    /// (C17 6.5.7, paragraph 4).
    ShiftNegative,
}
