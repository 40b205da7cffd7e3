// A step's result with its mark.
ghost use Rattle.std.specs.Prelude.{◌≡◌};
ghost use Rattle.rounding_spec.specs.Numbers.{number_value};
ghost use Rattle.binary32_spec.specs.Inner.{outcome};

use binary32_spec::{EXACT, Outcome, ROUNDED, SPECIAL};
use choose::choose;
use pattern::is_finite;
use rounding_spec::{Number, Ties};

// Rounds a number that counts 2^-298. Nothing is lost where the rounding leaves nothing over, unless it overflows.
pub fn rounded(n: Number) -> Outcome
    ensures { result ≡ outcome (number_value n) }
{
    let number = rounding::round_with_rest(Ties::ToEven, n);
    let kept = number.none & is_finite(number.pattern);
    Outcome {
        result: number.pattern,
        mark: choose(kept, EXACT, ROUNDED),
    }
}

// The result of a step with an infinite or NaN operand.
pub fn special(res: u32) -> Outcome
    ensures { result ≡ record { result = res; mark = 2 } }
{
    Outcome {
        result: res,
        mark: SPECIAL,
    }
}
