// Numbers among the words.
ghost use Rattle.std.specs.Prelude.{ℕ, IfSome, IfNone};
ghost use Rattle.pt_words.specs.Number.{IsNumber, IsBudget};
ghost use Rattle.pt_words.specs.Parts.{IsWorkers, IsStages};

const GREATEST_BUDGET: u64 = 1_000_000_000;

const MOST_WORKERS: u64 = 64;

const MOST_STAGES: u64 = 9_000;

/// A number has at most this many digits.
const MOST_DIGITS: usize = 10;

/// The number that 1 to 10 decimal digits write.
fn number(text: &str) -> Option<u64>
    ensures some { IfSome result (λ n. IsNumber text.now n) }
    ensures none { IfNone result ((n : ℕ) → IsNumber text.now n → ⊥) }
{
    if text.len() > MOST_DIGITS || text.as_bytes().first() == Some(&b'+') {
        return None;
    }
    match text.parse::<u64>() {
        Ok(number) => Some(number),
        Err(_) => None,
    }
}

/// The budget that a text gives.
pub fn budget(text: &str) -> Option<u64>
    ensures some { IfSome result (λ n. IsBudget text.now n) }
    ensures none { IfNone result ((n : ℕ) → IsBudget text.now n → ⊥) }
{
    match number(text) {
        Some(n) if 1 <= n && n <= GREATEST_BUDGET => Some(n),
        _ => None,
    }
}

/// The number of workers that a text gives.
pub fn workers(text: &str) -> Option<u32>
    ensures some { IfSome result (λ n. IsWorkers text.now n) }
    ensures none { IfNone result ((n : ℕ) → IsWorkers text.now n → ⊥) }
{
    match number(text) {
        Some(n) if 1 <= n && n <= MOST_WORKERS => Some(n as u32),
        _ => None,
    }
}

/// The number of stages that a text gives.
pub fn stages(text: &str) -> Option<u32>
    ensures some { IfSome result (λ n. IsStages text.now n) }
    ensures none { IfNone result ((n : ℕ) → IsStages text.now n → ⊥) }
{
    match number(text) {
        Some(n) if 1 <= n && n <= MOST_STAGES => Some(n as u32),
        _ => None,
    }
}
