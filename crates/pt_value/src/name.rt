ghost use Rattle.std.specs.Prelude.{◌≡◌, ◌↔◌, IsTrue, bytes_eq};
ghost use Rattle.pt_value.specs.Name as spec;
ghost use Rattle.pt_value.specs.Name.{IsName, HasNameForm};

/// The greatest number of bytes of a name.
const LONGEST: usize = 64;

fn is_word(text: &[u8], word: &str) -> bool
    ensures { result ≡ bytes_eq text.now word.now }
{
    text == word.as_bytes()
}

/// Whether the text is one of the words that expressions reserve.
fn is_reserved(text: &[u8]) -> bool
    ensures { result ≡ spec.is_reserved text.now }
{
    is_word(text, "true")
        || is_word(text, "false")
        || is_word(text, "abs")
        || is_word(text, "max")
        || is_word(text, "min")
}

/// Whether a text is of the form `[A-Za-z_][A-Za-z0-9_]*`.
fn has_name_form(text: &[u8]) -> bool
    ensures { IsTrue result ↔ HasNameForm text.now }
{
    match text.split_first() {
        None => false,
        Some((first, rest)) => {
            (first.is_ascii_alphabetic() || *first == b'_')
                && rest.iter().all(|b| b.is_ascii_alphanumeric() || *b == b'_')
        }
    }
}

/// Whether a text is a name of an expression: `[A-Za-z_][A-Za-z0-9_]*`, at most 64 bytes, and none of `true`, `false`,
/// `abs`, `max` and `min`.
pub fn is_name(text: &[u8]) -> bool
    ensures { IsTrue result ↔ IsName text.now }
{
    has_name_form(text) && text.len() <= LONGEST && !is_reserved(text)
}
