// What is known on a line: the question's patterns, constants and earlier results. A flipped sign makes no difference, so that magnitudes
// are compared.
ghost use Rattle.std.specs.Prelude.{◌≡◌, ◌||◌, ◌∷◌, eqb};
ghost use Rattle.worksheet_spec.specs.Lines.{minus};
ghost use Rattle.marking_spec.specs.Marking.{claims, claimed_results, constants, minus_zero, among, known};

use worksheet_spec::{
    HALF, KAPPA, LINE_SIZE, PLUS_ZERO, PSI, SMALLEST, TWO, TWO_TO_24, TWO_TO_48, TWO_TO_MINUS_24,
};

pub fn known(x: u32, y: u32, earlier: &[u32], p: u32) -> bool
    ensures { result ≡ among p (known x y (claims earlier.now)) }
{
    is_either(p, x) || is_either(p, y) || is_constant(p) || is_result(earlier, p)
}

// The pattern k, or that with its sign flipped.
fn is_either(p: u32, k: u32) -> bool
    ensures { result ≡ (eqb p k || eqb p (minus k)) }
{
    p % 0x8000_0000 == k % 0x8000_0000
}

fn is_constant(p: u32) -> bool
    ensures { result ≡ among p (minus_zero ∷ constants) }
{
    matches!(
        p % 0x8000_0000,
        PSI | TWO | HALF | KAPPA | TWO_TO_24 | TWO_TO_48 | TWO_TO_MINUS_24 | PLUS_ZERO | SMALLEST
    )
}

fn is_result(earlier: &[u32], p: u32) -> bool
    ensures { result ≡ among p (claimed_results (claims earlier.now)) }
{
    let (lines, _) = earlier.as_chunks::<LINE_SIZE>();
    lines.iter().any(|line| is_either(p, line[4]))
}
