// An answer in numbers.
ghost use Rattle.std.specs.Prelude.{◌≡◌};
ghost use Rattle.std.specs.Result.{result_unwrap_or};
ghost use Rattle.rules.specs.Answers.{number_in};

use rules::Refusal;

// A refusal's number or 0, and the value, or what stands in its place where there is none.
pub(crate) fn told<T: Copy>(answer: Result<T, Refusal>, nothing: T) -> (u8, T)
    ensures { result ≡ (number_in answer, result_unwrap_or answer nothing) }
{
    match answer {
        Ok(value) => (0, value),
        Err(refusal) => (u8::from(refusal), nothing),
    }
}
