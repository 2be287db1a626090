//! What the values of words are, said without a reader.

ghost use Rattle.fk_script.specs.WordLaws.{DataIsEncoded, NumbersAreDecimal};

/// A word stands for a number exactly where it is the number's decimal text, within the limit.
pub fn numbers_are_decimal()
    ensures { NumbersAreDecimal }
{}

/// A word of data in base64 stands for bytes exactly where it is what encoding them gives.
pub fn data_is_encoded()
    ensures { DataIsEncoded }
{}
