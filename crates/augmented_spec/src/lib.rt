// A pair with its flags, as the code hands it back, and the operations that a question asks for.
#![tactic(auto)]

ghost use Rattle.std.specs.Prelude.{◌≡◌};
ghost use Rattle.augmented_spec.specs.Operations.{Numbers, operation_number};
ghost use Rattle.augmented_spec.specs.Pairs.{flags_of};

// I, O, U and X; by default none is raised.
#[repr(C)]
#[derive(Clone, Copy, Default)]
pub struct Flags {
    pub invalid: bool,
    pub overflow: bool,
    pub underflow: bool,
    pub inexact: bool,
}

impl Flags {
    // X is raised with O and with U, and never alone.
    pub fn raised(invalid: bool, overflow: bool, underflow: bool) -> Flags
        ensures { result ≡ flags_of invalid overflow underflow }
    {
        Flags {
            invalid,
            overflow,
            underflow,
            inexact: overflow | underflow,
        }
    }
}

// Both halves of a pair, as patterns.
#[derive(Clone, Copy)]
pub struct Halves {
    pub first: u32,
    pub second: u32,
}

#[repr(C)]
#[derive(Clone, Copy)]
pub struct Pair {
    pub first: u32,
    pub second: u32,
    pub flags: Flags,
}

#[derive(Clone, Copy, PartialEq, Eq)]
pub enum Operation {
    Sum,
    Difference,
    Product,
}

// A number that is no operation's.
#[derive(Clone, Copy, PartialEq, Eq)]
pub struct NoOperation;

// Operation numbers (R8.5).
impl TryFrom<u32> for Operation {
    type Error = NoOperation;

    ghost try_from_gives = { Numbers };

    fn try_from(number: u32) -> Result<Operation, NoOperation> {
        match number {
            1 => Ok(Operation::Sum),
            2 => Ok(Operation::Difference),
            3 => Ok(Operation::Product),
            _ => Err(NoOperation),
        }
    }
}

impl From<Operation> for u32 {
    ghost from_gives = { λ operation number. number ≡ operation_number operation };

    fn from(operation: Operation) -> u32 {
        match operation {
            Operation::Sum => 1,
            Operation::Difference => 2,
            Operation::Product => 3,
        }
    }
}
