// Column totals for programs in C. Lent words are a pointer and a count.
ghost use Rattle.std.specs.Prelude.{◌≡◌};
ghost use Rattle.accumulator_spec.specs.Totals.{of_pattern, of_product, AddsNumbered, ClearsNumbered, reading, reading_numbers};
ghost use Rattle.accumulator_spec.specs.Joins.{JoinsNumbered};
ghost use Rattle.accumulator_spec.specs.Carrying.{CarriesNumbered};

use accumulator_spec::ReadingNumbers;

#[unsafe(no_mangle)]
pub extern "C" fn jirmeklo_clear(total: &mut [u32]) -> u32
    ensures { ClearsNumbered total.old result total.new }
{
    accumulator::numbers::clear(total)
}

#[unsafe(no_mangle)]
pub extern "C" fn jirmeklo_add_pattern(total: &mut [u32], x: u32) -> u32
    ensures { AddsNumbered total.old (of_pattern x) result total.new }
{
    accumulator::numbers::add_pattern(total, x)
}

#[unsafe(no_mangle)]
pub extern "C" fn jirmeklo_add_product(total: &mut [u32], x: u32, y: u32) -> u32
    ensures { AddsNumbered total.old (of_product x y) result total.new }
{
    accumulator::numbers::add_product(total, x, y)
}

#[unsafe(no_mangle)]
pub extern "C" fn jirmeklo_join(first: &mut [u32], second: &[u32]) -> u32
    ensures joins_numbered { JoinsNumbered first.old second.now result first.new }
    ensures second_kept { second.exit.now ≡ second.entry.now }
{
    accumulator::numbers::join(first, second)
}

#[unsafe(no_mangle)]
pub extern "C" fn jirmeklo_carry_over(old: &[u32], total: &mut [u32]) -> u32
    ensures carries_numbered { CarriesNumbered old.now total.old result total.new }
    ensures old_kept { old.exit.now ≡ old.entry.now }
{
    accumulator::numbers::carry_over(old, total)
}

#[unsafe(no_mangle)]
pub extern "C" fn jirmeklo_read(total: &[u32]) -> ReadingNumbers
    ensures { result ≡ reading_numbers (reading total.now) }
{
    accumulator::numbers::read(total)
}
