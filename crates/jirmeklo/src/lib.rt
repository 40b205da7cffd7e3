// The library's functions for programs in C and other languages: steps and pairs here, totals and sheets in files of their own.
#![tactic(auto)]

mod sheets;
mod totals;

ghost use Rattle.std.specs.Prelude.{◌≡◌};
ghost use Rattle.rounding_spec.specs.Format.{binary32};
ghost use Rattle.binary32_spec.specs.Steps.{add_step, sub_step, mul_step, fma_step};
ghost use Rattle.binary32_spec.specs.Marks.{add_mark, sub_mark, mul_mark, fma_mark};
ghost use Rattle.augmented_spec.specs.Pairs.{sum_pair, difference_pair, product_pair};

use augmented::Pair;
use binary32::Outcome;

#[unsafe(no_mangle)]
pub extern "C" fn jirmeklo_add(x: u32, y: u32) -> Outcome
    ensures result_value { result.result ≡ add_step x y }
    ensures mark_value { result.mark ≡ add_mark x y }
{
    binary32::add(x, y)
}

#[unsafe(no_mangle)]
pub extern "C" fn jirmeklo_sub(x: u32, y: u32) -> Outcome
    ensures result_value { result.result ≡ sub_step x y }
    ensures mark_value { result.mark ≡ sub_mark x y }
{
    binary32::sub(x, y)
}

#[unsafe(no_mangle)]
pub extern "C" fn jirmeklo_mul(x: u32, y: u32) -> Outcome
    ensures result_value { result.result ≡ mul_step x y }
    ensures mark_value { result.mark ≡ mul_mark x y }
{
    binary32::mul(x, y)
}

#[unsafe(no_mangle)]
pub extern "C" fn jirmeklo_fma(x: u32, y: u32, z: u32) -> Outcome
    ensures result_value { result.result ≡ fma_step x y z }
    ensures mark_value { result.mark ≡ fma_mark x y z }
{
    binary32::fma(x, y, z)
}

#[unsafe(no_mangle)]
pub extern "C" fn jirmeklo_sum(x: u32, y: u32) -> Pair
    ensures { result ≡ sum_pair binary32 x y }
{
    augmented::sum(x, y)
}

#[unsafe(no_mangle)]
pub extern "C" fn jirmeklo_difference(x: u32, y: u32) -> Pair
    ensures { result ≡ difference_pair binary32 x y }
{
    augmented::difference(x, y)
}

#[unsafe(no_mangle)]
pub extern "C" fn jirmeklo_product(x: u32, y: u32) -> Pair
    ensures { result ≡ product_pair binary32 x y }
{
    augmented::product(x, y)
}
