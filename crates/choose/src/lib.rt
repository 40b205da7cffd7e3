// One of two values by a flag. Each is small enough that the compiler makes a conditional move of it, and no jump to mispredict.
#![tactic(auto)]

ghost use Rattle.std.specs.Prelude.{◌≡◌, cond};

pub fn choose<T: Copy>(c: bool, a: T, b: T) -> T
    ensures { result ≡ cond c a b }
{
    if c { a } else { b }
}
