//! The table of what operations say: a line for each, in the order of its words.

/// A word of a line: a text as it stands, or a field by what its name says.
macro_rules! said_word {
    (session, $field:ident) => {
        Piece::Client(*$field)
    };
    (command, $field:ident) => {
        Piece::Number(*$field as u64)
    };
    (path, $field:ident) => {
        Piece::Path($field)
    };
    (code, $field:ident) => {
        Piece::Code(*$field)
    };
    (place, $field:ident) => {
        Piece::Place(*$field)
    };
    (at, $field:ident) => {
        Piece::At(*$field)
    };
    (word, $field:ident) => {
        Piece::Word($field.text())
    };
    ($name:ident, $field:ident) => {
        Piece::Number(*$field)
    };
    ($text:literal, $same:literal) => {
        Piece::Word($text)
    };
}

/// Writes the words of the one of these operations that it is, and leaves any other to `rest`.
macro_rules! said {
    (
        $out:ident, $clients:ident, $op:ident, $rest:expr;
        $($name:ident $({ $($field:ident),* })? => [$($word:tt)*],)*
    ) => {
        match $op {
            $(Op::$name $({ $($field),* })? => words(
                $out,
                $clients,
                &[$(said_word!($word, $word)),*],
            ),)*
            _ => $rest,
        }
    };
}

pub(crate) use said;
pub(crate) use said_word;
