ghost use Rattle.std.specs.Prelude.{◌≡◌, ◌↔◌, ◌≤◌, ◌<◌, ◌+◌, IsTrue, false, length};
ghost use Rattle.pt_language.specs.Deep.{most_open, open_behind, counted, ends_operand, is_counted, IsTooFull};

use crate::front::bare_digits;
use pt_language::{Symbol, Word, binding};

/// The most brackets that may be open at a word.
const MOST_BRACKETS: usize = 64;

/// The most operators that may stand in a text.
const MOST_OPERATORS: usize = 256;

/// Whether words have too many brackets or operators.
pub(crate) fn is_too_full(words: &[Word]) -> bool
    ensures { IsTrue result ↔ IsTooFull words.now }
{
    most_open(words) > MOST_BRACKETS || operator_count(words) > MOST_OPERATORS
}

/// The most brackets that are open at some word.
fn most_open(words: &[Word]) -> usize
    ensures { result ≡ most_open 0 words.now }
{
    let mut now = 0;
    let mut most = 0;
    for word in words {
        now = open_behind(now, word);
        if most < now {
            most = now;
        }
    }
    most
}

/// The open brackets behind a word.
fn open_behind(count: usize, word: &Word) -> usize
    requires { count < usize.MAX }
    ensures value { result ≡ open_behind count word.now }
    ensures more { result ≤ count + 1 }
{
    if word.is(Symbol::Open) || word.is(Symbol::OpenBrace) {
        return count + 1;
    }
    if word.is(Symbol::Close) || word.is(Symbol::CloseBrace) {
        return count.saturating_sub(1);
    }
    count
}

/// How many operators there are, signs of literals left out.
fn operator_count(words: &[Word]) -> usize
    ensures { result ≡ counted false words.now }
{
    let mut count = 0;
    let mut behind_operand = false;
    let mut rest = words;
    while let Some((word, behind)) = rest.split_first() {
        let signs_literal = word.is(Symbol::Minus)
            && !behind_operand
            && bare_digits(behind).is_some();
        if !signs_literal && is_counted(word) {
            count += 1;
        }
        behind_operand = ends_operand(word);
        rest = behind;
    }
    count
}

/// Whether a word is an operator, a dot or an opening parenthesis.
fn is_counted(word: &Word) -> bool
    ensures { result ≡ is_counted word.now }
{
    word.is(Symbol::Not) || binding(word) > 0
}

/// Whether an operand ends with a word.
fn ends_operand(word: &Word) -> bool
    ensures { result ≡ ends_operand word.now }
{
    match word {
        Word::Digits(_) | Word::Quoted(_) | Word::Name(_) => true,
        Word::Symbol(symbol) => {
            matches!(
                *symbol,
                Symbol::True | Symbol::False | Symbol::Close | Symbol::CloseBrace
            )
        }
    }
}
