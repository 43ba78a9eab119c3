ghost use Rattle.std.specs.Prelude.{◌≡◌, ◌≤◌, ◌-◌, ◌*◌, ◌^◌, ◌≤ℤ◌, ◌<ℤ◌, ◌+ℤ◌, ◌-ℤ◌, ◌&&◌, [], FitsSigned, neg_ℤ, pos, length, take, drop, if◌then◌else◌};
ghost use Rattle.std.specs.Int.{w128};
ghost use Rattle.pt_meaning.specs.Node.{is_none};
ghost use Rattle.pt_flow_base.specs.Row.{with_number, present, total};

use crate::numbered::Numbered;

/// The sum of some numbers, and whether there are none.
#[derive(Clone, Copy, Debug)]
pub struct Sum {
    pub number: i128,
    pub is_empty: bool,
}

impl Sum {
    /// The sum with one number more, if there is one.
    fn with(self, number: Option<i64>) -> Sum
        requires room_below { neg_ℤ (pos (2 ^ 127 - 2 ^ 63)) ≤ℤ self.number }
        requires room_above { self.number <ℤ pos (2 ^ 127 - 2 ^ 63) }
        ensures number { result.number ≡ self.number +ℤ total (with_number number []) }
        ensures empty { result.is_empty ≡ (self.is_empty && is_none (with_number number [])) }
        ensures low { (self.number -ℤ pos (2 ^ 63)) ≤ℤ result.number }
        ensures high { result.number ≤ℤ (self.number +ℤ pos (2 ^ 63)) }
    {
        match number {
            Some(n) => Sum {
                number: self.number + i128::from(n),
                is_empty: false,
            },
            None => self,
        }
    }

    /// What is left of this sum without another, unless there are no numbers in either.
    pub fn without(self, other: Sum) -> Option<i128>
        requires { FitsSigned w128 (self.number -ℤ other.number) }
        ensures { result ≡ (if self.is_empty && other.is_empty then None else Some (self.number -ℤ other.number)) }
    {
        if self.is_empty && other.is_empty {
            return None;
        }
        Some(self.number - other.number)
    }
}

/// The sum of the numbers at the places from one on, up to before another.
pub fn sum_between<I: Numbered>(inputs: &I, from: usize, to: usize) -> Sum
    requires order { from ≤ to }
    requires within { to ≤ length (I.streams inputs.now) }
    ensures number { result.number ≡ total (present (drop from (take to (I.streams inputs.now)))) }
    ensures empty { result.is_empty ≡ is_none (present (drop from (take to (I.streams inputs.now)))) }
    ensures low { neg_ℤ (pos ((to - from) * 2 ^ 63)) ≤ℤ result.number }
    ensures high { result.number ≤ℤ pos ((to - from) * 2 ^ 63) }
{
    let mut sum = Sum {
        number: 0,
        is_empty: true,
    };
    for place in from..to {
        sum = sum.with(inputs.number_at(place));
    }
    sum
}
