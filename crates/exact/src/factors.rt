// Products of an infinity or a number, and a class.
ghost use Rattle.std.specs.Prelude.{◌≡◌};
ghost use Rattle.rounding_spec.specs.Value.{infinite};
ghost use Rattle.rounding_spec.specs.Numbers.{number_value};
ghost use Rattle.pattern_spec.specs.Exact.{times};
ghost use Rattle.pattern_spec.specs.Classes.{value_of};
ghost use Rattle.pattern_spec.specs.Inner.{Operand, Bounded, ProductIs};

use pattern_spec::Class;
use rounding_spec::Number;

pub fn infinite_times(s: bool, b: Class) -> Class
    ensures { ProductIs (times (infinite s) (value_of b)) result }
{
    match b {
        Class::NotANumber => Class::NotANumber,
        Class::Infinite(t) => Class::Infinite(s != t),
        Class::Finite(n) => {
            if n.sig == 0 {
                Class::NotANumber
            } else {
                Class::Infinite(s != n.sign)
            }
        }
    }
}

// `Operand` stays a predicate, here and for sums: products, scaled operands and rests are `Number`s past its bounds, so that a type for it
// would be a second number, with a second class.
pub fn finite_times(m: Number, b: Class) -> Class
    requires operand { Operand m.sig m.exp }
    requires bounded { Bounded Operand b }
    ensures { ProductIs (times (number_value m) (value_of b)) result }
{
    match b {
        Class::NotANumber => Class::NotANumber,
        Class::Infinite(t) => {
            if m.sig == 0 {
                Class::NotANumber
            } else {
                Class::Infinite(m.sign != t)
            }
        }
        Class::Finite(n) => Class::Finite(Number {
            sign: m.sign != n.sign,
            sig: m.sig * n.sig,
            exp: m.exp + n.exp,
        }),
    }
}
