// The lines of a sheet, in rows. Each result, with its mark, is a rounding step's.
#![tactic(auto)]

pub mod blocks;

ghost use Rattle.std.specs.Prelude.{◌≡◌, ◌∷◌, ◌+◌, ◌++◌, ◌<◌, ◌≤◌, [], length, set, drop};
ghost use Rattle.worksheet_spec.specs.declared.Step.TheVariants.{Add as add, Subtract as subtract, Multiply as multiply};
ghost use Rattle.worksheet_spec.specs.Steps.{step_number};
ghost use Rattle.worksheet_spec.specs.Lines.{line_size, most_lines, sheet_size, line, fused_line};
ghost use Rattle.worksheet_lines.specs.Inner.{Written, no_lines, flat};

use binary32::Outcome;
use worksheet_spec::{LINE_SIZE, MOST_LINES, Step};

pub type Rows = [[u32; LINE_SIZE]; MOST_LINES];

// Rows of words, and which of them the next line goes into.
#[derive(Clone, Copy)]
pub struct Lines {
    pub rows: Rows,
    pub used: u32,
}

// The pair that lines reach.
#[derive(Clone, Copy)]
pub struct Foot {
    pub first: u32,
    pub second: u32,
}

impl Lines {
    pub fn new() -> Lines
        ensures { result ≡ no_lines }
    {
        Lines {
            rows: [[0; LINE_SIZE]; MOST_LINES],
            used: 0,
        }
    }

    pub fn count(&self) -> u32
        ensures { result ≡ self.now.used }
    {
        self.used
    }

    // A method for each step: one by `Step` would promise its line by cases (`Gives`), and choose anew what each caller knows.
    pub fn add(&mut self, x: u32, y: u32) -> u32
        requires { self.old.used < most_lines }
        ensures { Written self.old self.new (line add x y result) }
    {
        self.put(Step::Add, x, y, 0, binary32::add(x, y))
    }

    pub fn sub(&mut self, x: u32, y: u32) -> u32
        requires { self.old.used < most_lines }
        ensures { Written self.old self.new (line subtract x y result) }
    {
        self.put(Step::Subtract, x, y, 0, binary32::sub(x, y))
    }

    pub fn mul(&mut self, x: u32, y: u32) -> u32
        requires { self.old.used < most_lines }
        ensures { Written self.old self.new (line multiply x y result) }
    {
        self.put(Step::Multiply, x, y, 0, binary32::mul(x, y))
    }

    pub fn fused(&mut self, x: u32, y: u32, z: u32) -> u32
        requires { self.old.used < most_lines }
        ensures { Written self.old self.new (fused_line x y z result) }
    {
        self.put(Step::Fused, x, y, z, binary32::fma(x, y, z))
    }

    // All rows, the unused ones too.
    pub fn copy_out(&self, words: &mut [u32])
        requires { sheet_size ≤ length words.old }
        ensures { words.new ≡ flat self.now.rows ++ drop sheet_size words.old }
    {
        copy_out(&self.rows, words);
    }

    fn put(&mut self, step: Step, x: u32, y: u32, z: u32, outcome: Outcome) -> u32
        requires { self.old.used < most_lines }
        ensures row { self.new.rows ≡ set self.old.rows self.old.used (step_number step ∷ x ∷ y ∷ z ∷ outcome.result ∷ outcome.mark ∷ []) }
        ensures next { self.new.used ≡ self.old.used + 1 }
        ensures given { result ≡ outcome.result }
    {
        self.rows[self.used as usize] = [u32::from(step), x, y, z, outcome.result, outcome.mark];
        self.used += 1;
        outcome.result
    }
}

// Rows, one after the other.
pub fn copy_out(rows: &Rows, words: &mut [u32])
    requires { sheet_size ≤ length words.old }
    ensures { words.new ≡ flat rows.now ++ drop sheet_size words.old }
{
    for (i, row) in rows.iter().enumerate() {
        let at = i * LINE_SIZE;
        copy_line(row, &mut words[at..at + LINE_SIZE]);
    }
}

// Word by word: a `copy_from_slice` is a call for each line, and filling a sheet took a fifth more instructions with it.
fn copy_line(line: &[u32; LINE_SIZE], words: &mut [u32])
    requires { length words.old ≡ line_size }
    ensures { words.new ≡ line.now }
{
    for (i, word) in line.iter().enumerate() {
        words[i] = *word;
    }
}
