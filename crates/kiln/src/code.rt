// A call's answer for another language: a code, 0 or the number of the refusal, and a value written where it is to
// stand.
ghost use Rattle.std.specs.Prelude.{◌≡◌};
ghost use Rattle.answers.specs.Answers.{value_answer};
ghost use Rattle.answers.specs.Refusals.{cause_of};
ghost use Rattle.answers.specs.Codes.{NumberTold};

use answers::Refusal;

// The code of a call that gives nothing beside it.
pub fn code(answer: Result<(), Refusal>) -> u8
    ensures { result ≡ cause_of answer }
{
    match answer {
        Ok(()) => 0,
        Err(refusal) => refusal.number(),
    }
}

// The code of a call that gives a value, which is written; a refusal writes nothing.
pub fn told<T: Copy>(answer: Result<T, Refusal>, at: &mut T) -> u8
    ensures { NumberTold (value_answer answer) result at.old at.new }
{
    match answer {
        Ok(value) => {
            *at = value;
            0
        }
        Err(refusal) => refusal.number(),
    }
}
