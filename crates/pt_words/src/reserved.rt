// Words that clap would answer by itself.
ghost use Rattle.std.specs.Prelude.{◌≡◌, string_bytes};
ghost use Rattle.std.specs.List.{list_any};
ghost use Rattle.pt_words.specs.Matches as told;

/// Whether the word ends the options, or asks for help or the version.
#[tactic(auto, unfolding(crate::specs::Matches::is_reserved))]
fn is_reserved(word: &str) -> bool
    ensures { result ≡ told.is_reserved word.now }
{
    word == "--"
        || word == "-h"
        || word == "--help"
        || word == "-V"
        || word == "--version"
        || word == "help"
}

/// Whether one of the words is such a word. No line has one.
pub fn has_reserved(words: &[String]) -> bool
    ensures { result ≡ list_any (λ word. told.is_reserved (string_bytes word)) words.now }
{
    words.iter().any(|word| is_reserved(word.as_str()))
}
