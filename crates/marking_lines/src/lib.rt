// A candidate's line: whether its operands are allowed behind the lines before it, and whether it is true.
#![tactic(auto)]

mod operands;

ghost use Rattle.std.specs.Prelude.{◌≡◌};
ghost use Rattle.worksheet_spec.specs.Lines.{mark_of};
ghost use Rattle.marking_spec.specs.Marking.{claims, step_of, step_result, known, allowed, is_true};

use binary32_spec::Outcome;
use marking_spec::Claim;
use operands::known;
use worksheet_spec::Step;

pub fn allowed(x: u32, y: u32, earlier: &[u32], line: Claim) -> bool
    ensures { result ≡ allowed (known x y (claims earlier.now)) line }
{
    let Ok(step) = Step::try_from(line.step) else {
        return false;
    };
    known(x, y, earlier, line.x)
        && known(x, y, earlier, line.y)
        && match step {
            Step::Fused => known(x, y, earlier, line.z),
            _ => line.z == 0,
        }
}

pub fn is_true(line: Claim) -> bool
    ensures { result ≡ is_true line }
{
    let outcome = step(line.step, line.x, line.y, line.z);
    line.result == outcome.result && line.mark == outcome.mark
}

// A number that is no step's counts as a fused one: `allowed` keeps it out.
fn step(number: u32, x: u32, y: u32, z: u32) -> Outcome
    ensures { (result.result ≡ step_result (step_of number) x y z) × (result.mark ≡ mark_of (step_of number) x y z) }
{
    match Step::try_from(number).unwrap_or(Step::Fused) {
        Step::Add => binary32::add(x, y),
        Step::Subtract => binary32::sub(x, y),
        Step::Multiply => binary32::mul(x, y),
        Step::Fused => binary32::fma(x, y, z),
    }
}
