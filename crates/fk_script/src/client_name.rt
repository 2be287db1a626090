ghost use Rattle.std.specs.Prelude.{◌≡◌};
ghost use Rattle.std.specs.List.{list_all};
ghost use Rattle.fk_print.specs.ClientNames.{is_client_name, is_letter_or_digit, is_reserved, starts_with_letter};

use crate::words::Word;

/// Whether a client may have this name.
pub(crate) fn is_client_name(name: &Word<'_>) -> bool
    ensures { result ≡ is_client_name name.now }
{
    let bytes = name.text().as_bytes();
    starts_with_letter(bytes)
        && are_letters_or_digits(bytes)
        && bytes.len() <= 32
        && !is_reserved(name)
}

fn starts_with_letter(bytes: &[u8]) -> bool
    ensures { result ≡ starts_with_letter bytes.now }
{
    match bytes {
        [] => false,
        [first, ..] => first.is_ascii_lowercase(),
    }
}

fn are_letters_or_digits(bytes: &[u8]) -> bool
    ensures { result ≡ list_all is_letter_or_digit bytes.now }
{
    bytes.iter().all(|byte| is_letter_or_digit(*byte))
}

fn is_letter_or_digit(byte: u8) -> bool
    ensures { result ≡ is_letter_or_digit byte }
{
    byte.is_ascii_lowercase() || byte.is_ascii_digit()
}

/// The words that the line of an event has in a client's place.
fn is_reserved(name: &Word<'_>) -> bool
    ensures { result ≡ is_reserved name.now }
{
    name.is("leader") || name.is("watch") || name.is("client")
}
