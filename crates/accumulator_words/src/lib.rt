// Words of 32 bits, lowest first: a term goes into the number that they hold; whether they are all zero.
#![tactic(auto)]

ghost use Rattle.std.specs.Prelude.{◌≡◌, ◌+◌, ◌*◌, ◌^◌, ◌<◌, ◌≤◌, length};
ghost use Rattle.accumulator_spec.specs.Words.{all_zero};
ghost use Rattle.accumulator_spec.specs.Inner.{after_walk};
ghost use Rattle.accumulator_words.specs.Inner.{after_placed, TwoWordsAdded};

use choose::choose;
use rounding_spec::Number;

// A term and where it goes in the words of a number: ±sig * 2^shift from `word` on. All that the walk over the words asks of a term (R6.4).
#[derive(Clone, Copy)]
pub struct Placed {
    pub minus: bool,
    pub sig: u64,
    pub word: usize,
    pub shift: u16,
}

// The place of a number: the word that has its lowest digit, and the shift within that word.
pub fn place(number: Number) -> Placed
    ensures { (result.minus ≡ number.sign) × (result.sig ≡ number.sig) × (32 * result.word + result.shift ≡ number.exp)
        × (result.shift < 32) }
{
    Placed {
        minus: number.sign,
        sig: number.sig,
        word: (number.exp / 32) as usize,
        shift: number.exp % 32,
    }
}

// Adds the term. The words from its lowest one on are lent to the walk (R6.4).
pub fn add(number: &mut [u32], term: Placed)
    requires { (term.word + 3 ≤ length number.old) × (term.shift < 32) }
    ensures { number.new ≡ after_placed number.old term }
{
    let w = term.word;
    walk(&mut number[w..], term);
}

// The same for a significand below 2^32, which reaches into two words; any other may reach into three.
pub fn add_short(number: &mut [u32], term: Placed)
    requires { (term.word + 2 ≤ length number.old) × (term.shift < 32) × (term.sig < 2 ^ 32) }
    ensures { number.new ≡ after_placed number.old term }
{
    let w = term.word;
    walk_short(&mut number[w..], term);
}

// Adds sig * 2^shift to the number of a term's words, from its lowest one on, or takes it away, over three words and seldom more. What goes
// beyond the last word is lost. Taking away is adding to the complements, so that nothing jumps by the sign.
fn walk(words: &mut [u32], term: Placed)
    requires { (3 ≤ length words.old) × (term.shift < 32) }
    ensures { words.new ≡ after_walk words.old term.minus (term.sig * 2 ^ term.shift) }
{
    let carry = add_two_words(words, term.minus, term.sig << term.shift);
    // The digits that the shift moves beyond 64. Halved first: without a shift this would be one by 64.
    let high = term.sig / 2 >> 63 - term.shift;
    add_word(&mut words[2..], term.minus, high + carry);
}

// The same over two words and seldom more. Not one function with `walk`, by the size of the significand: terms took 1.2 times as long.
fn walk_short(words: &mut [u32], term: Placed)
    requires { (2 ≤ length words.old) × (term.shift < 32) × (term.sig < 2 ^ 32) }
    ensures { words.new ≡ after_walk words.old term.minus (term.sig * 2 ^ term.shift) }
{
    let carry = add_two_words(words, term.minus, term.sig << term.shift);
    if carry != 0 {
        add_one(&mut words[2..], term.minus);
    }
}

// Adds to the two lowest words at once, or takes away; the answer is what is carried on.
fn add_two_words(words: &mut [u32], minus: bool, low: u64) -> u64
    requires { 2 ≤ length words.old }
    ensures { TwoWordsAdded words.old minus low result words.new }
{
    let mask = choose(minus, 0xffff_ffff_ffff_ffff, 0);
    let held = u64::from(words[0]) + u64::from(words[1]) * 0x1_0000_0000 ^ mask;
    let sum = std::num::wrapping_add_u64(held, low);
    let written = sum ^ mask;
    words[0] = (written % 0x1_0000_0000) as u32;
    words[1] = (written / 0x1_0000_0000) as u32;
    choose(sum < low, 1, 0)
}

// Adds to the lowest word, or takes away, and seldom carries on.
fn add_word(words: &mut [u32], minus: bool, n: u64)
    requires { (1 ≤ length words.old) × (n < 2 ^ 32) }
    ensures { words.new ≡ after_walk words.old minus n }
{
    let mask = choose(minus, 0xffff_ffff, 0);
    let sum = u64::from(words[0] ^ mask) + n;
    words[0] = (sum % 0x1_0000_0000) as u32 ^ mask;
    if sum >= 0x1_0000_0000 {
        add_one(&mut words[1..], minus);
    }
}

// Adds 1, or takes it away: word by word, for as long as it is carried on.
fn add_one(words: &mut [u32], minus: bool)
    ensures { words.new ≡ after_walk words.old minus 1 }
{
    let mask = choose(minus, 0xffff_ffff, 0);
    for w in words.iter_mut() {
        let sum = u64::from(*w ^ mask) + 1;
        *w = (sum % 0x1_0000_0000) as u32 ^ mask;
        if sum < 0x1_0000_0000 {
            return;
        }
    }
}

pub fn is_zero(words: &[u32]) -> bool
    ensures { result ≡ all_zero words.now }
{
    words.iter().all(|w| *w == 0)
}
