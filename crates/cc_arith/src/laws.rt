//! Laws of the definitions, for the crates above: each function does nothing, and its contract is the
//! law, for all whole numbers.

ghost use Rattle.cc_arith.specs.Laws.{ConversionKeepsValues, ConversionGivesValues, ConversionKeepsLowBits, PromotionPromotes, PromotionKeepsValues, CommonIsPromoted, CommonIsSymmetric, BinaryGivesValues, UnaryGivesValues, ComparisonGivesTruth, NotGivesTruth, ValueHasItsBits, BitsGiveTheValue, ComplementIsMinusOneLess, DivisionRebuilds, RemainderIsSmall, RemainderHasTheSignOfTheDividend, RightShiftRoundsDown};

/// A conversion gives a value of the kind, keeps what is one already, and to any kind but `Bool` keeps the low bits
/// of any other (C17 6.3.1.2, 6.3.1.3).
pub fn conversion_laws()
    ensures gives_values { ConversionGivesValues }
    ensures keeps_values { ConversionKeepsValues }
    ensures keeps_low_bits { ConversionKeepsLowBits }
{}

/// The promotions and the usual arithmetic conversions give promoted kinds; promotion loses no value, and
/// the common kind of two kinds is the same in either order (C17 6.3.1.1, 6.3.1.8).
pub fn promotion_laws()
    ensures promotes { PromotionPromotes }
    ensures keeps_values { PromotionKeepsValues }
    ensures common_is_promoted { CommonIsPromoted }
    ensures common_is_symmetric { CommonIsSymmetric }
{}

/// Each result is a value of its kind; comparisons and `!` give 0 or 1 (C17 6.5).
pub fn result_laws()
    ensures binary_gives_values { BinaryGivesValues }
    ensures unary_gives_values { UnaryGivesValues }
    ensures comparison_gives_truth { ComparisonGivesTruth }
    ensures not_gives_truth { NotGivesTruth }
{}

/// In every kind but `Bool` a value and its bits determine each other (C17 6.2.6.2). In a promoted kind `~a` is -1 - a,
/// if it is signed, and else the greatest value less `a` (6.5.3.3).
pub fn bit_laws()
    ensures value_has_its_bits { ValueHasItsBits }
    ensures bits_give_the_value { BitsGiveTheValue }
    ensures complement { ComplementIsMinusOneLess }
{}

/// Quotients round toward 0, and shifts to the right round down (C17 6.5.5, 6.5.7).
pub fn division_laws()
    ensures rebuilds { DivisionRebuilds }
    ensures remainder_is_small { RemainderIsSmall }
    ensures remainder_has_the_sign { RemainderHasTheSignOfTheDividend }
    ensures right_shift_rounds_down { RightShiftRoundsDown }
{}
