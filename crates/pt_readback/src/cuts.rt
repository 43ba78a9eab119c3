//! The parts of a text up to marks, and the numbers that they tell.
ghost use Rattle.std.specs.Prelude.{◌≡◌, ◌≢◌, ◌<◌, ◌≤◌, ◌^◌, ◌∷◌, ◌++◌, ◌==◌, ℕ, List, length, position, decimal, slice_index, not, true, IfSome, IfNone, MatchOption, Some, option_map};
ghost use Rattle.std.specs.List.{list_all};
ghost use Rattle.pt_readback.specs.Listed as spec;
ghost use Rattle.pt_readback.specs.Lines as lines;

use itoa::Buffer;

/// The first byte, or 0 where there is none.
pub(crate) fn front(text: &[u8]) -> u8
    ensures { result ≡ spec.front text.now }
{
    text.first().copied().unwrap_or(0)
}

/// What stands before the first mark, and what follows it.
pub(crate) fn cut(mark: u8, text: &[u8]) -> Option<(&[u8], &[u8])>
    ensures parts { option_map (λ x. (x.0.now, x.1.now)) result ≡ spec.cut mark text.now }
    ensures shorter { IfSome result (λ x. length x.1.now < length text.now) }
{
    let at = first_mark(mark, text)?;
    Some((&text[..at], &text[at + 1..]))
}

/// The place of the first mark.
fn first_mark(mark: u8, text: &[u8]) -> Option<usize>
    ensures place { result ≡ position (λ c. c == mark) text.now }
    ensures within { IfSome result (λ i. i < length text.now) }
{
    text.iter().position(|c| *c == mark)
}

/// Two parts, each up to its mark, and what follows them.
pub(crate) fn cut_two(first: u8, second: u8, text: &[u8]) -> Option<(&[u8], &[u8], &[u8])>
    ensures parts { option_map (λ x. (x.0.now, x.1.now, x.2.now)) result ≡ spec.cut_two first second text.now }
    ensures shorter { IfSome result (λ x. length x.2.now < length text.now) }
{
    let (a, rest) = cut(first, text)?;
    let (b, rest) = cut(second, rest)?;
    Some((a, b, rest))
}

/// Three parts, each up to its mark, and what follows them.
pub(crate) fn cut_three(
    first: u8,
    second: u8,
    third: u8,
    text: &[u8],
) -> Option<(&[u8], &[u8], &[u8], &[u8])>
    ensures parts { option_map (λ x. (x.0.now, x.1.now, x.2.now, x.3.now)) result ≡ spec.cut_three first second third text.now }
    ensures shorter { IfSome result (λ x. length x.3.now < length text.now) }
{
    let (a, rest) = cut(first, text)?;
    let (b, c, rest) = cut_two(second, third, rest)?;
    Some((a, b, c, rest))
}

/// What stands before the last mark, and what follows it.
pub(crate) fn cut_last(mark: u8, text: &[u8]) -> Option<(&[u8], &[u8])>
    ensures whole { IfSome result (λ x. x.0.now ++ mark ∷ x.1.now ≡ text.now) }
    ensures last { (a b : List ℕ) → list_all (λ c. not (c == mark)) b ≡ true → a ++ mark ∷ b ≡ text.now → option_map {U = List ℕ × List ℕ} (λ x. (x.0.now, x.1.now)) result ≡ Some (a, b) }
{
    let at = last_mark(mark, text)?;
    Some((&text[..at], &text[at + 1..]))
}

/// The place of the last mark.
fn last_mark(mark: u8, text: &[u8]) -> Option<usize>
    ensures some { IfSome result (λ i. (i < length text.now) × (slice_index text.now i ≡ mark)) }
    ensures later { IfSome result (λ i. (k : ℕ) → i < k → k < length text.now → slice_index text.now k ≢ mark) }
    ensures none { IfNone result ((k : ℕ) → k < length text.now → slice_index text.now k ≢ mark) }
{
    let mut end = text.len();
    while end > 0 {
        end -= 1;
        if text[end] == mark {
            return Some(end);
        }
    }
    None
}

/// What follows some bytes at the front.
pub(crate) fn without<'t>(front: &[u8], text: &'t [u8]) -> Option<&'t [u8]>
    ensures { option_map (λ r. r.now) result ≡ lines.without front.now text.now }
{
    text.strip_prefix(front)
}

/// The number that is printed so.
pub(crate) fn number(digits: &[u8]) -> Option<u64>
    ensures found { (n : ℕ) → n < 2 ^ 64 → decimal n ≡ digits.now → result ≡ Some n }
    ensures written { IfSome result (λ n. decimal n ≡ digits.now) }
    ensures fits { IfSome result (λ n. n < 2 ^ 64) }
{
    let number = parsed(digits)?;
    if Buffer::new().format(number).as_bytes() == digits {
        Some(number)
    } else {
        None
    }
}

/// The number that some digits tell, which may be printed otherwise.
fn parsed(digits: &[u8]) -> Option<u64>
    ensures { (n : ℕ) → n < 2 ^ 64 → decimal n ≡ digits.now → result ≡ Some n }
{
    let Ok(text) = str::from_utf8(digits) else {
        return None;
    };
    match text.parse::<u64>() {
        Ok(number) => Some(number),
        Err(_) => None,
    }
}
