// The magnitude of a total's number, and its leading digits: what rounding asks of it.
ghost use Rattle.std.specs.Prelude.{◌≡◌, cond, map, nat_abs};
ghost use Rattle.accumulator_spec.specs.Words.{natural, integer, complement};
ghost use Rattle.accumulator_spec.specs.Inner.{Leading};

use accumulator_spec::NUMBER_SIZE;
use accumulator_words::place;
use choose::choose;
use rounding_spec::Number;

// The word that shows the sign.
pub const TOP: usize = NUMBER_SIZE - 1;

// The number's digits in all.
const DIGITS: u16 = 32 * NUMBER_SIZE as u16;

// The complement and one more, for a negative number. That of -2^639 has room too.
pub fn magnitude(number: [u32; NUMBER_SIZE]) -> [u32; NUMBER_SIZE]
    ensures { natural result ≡ nat_abs (integer number) }
{
    let minus = number[TOP] >= 0x8000_0000;
    let mut words = turned(number, minus);
    let one = Number {
        sign: false,
        sig: choose(minus, 1, 0),
        exp: 0,
    };
    accumulator_words::add(&mut words[0..NUMBER_SIZE], place(one));
    words
}

// The words themselves, or their complements.
fn turned(number: [u32; NUMBER_SIZE], minus: bool) -> [u32; NUMBER_SIZE]
    ensures { result ≡ cond minus (map complement number) number }
{
    let mask = choose(minus, 0xffff_ffff, 0);
    let mut words = number;
    for w in words.iter_mut() {
        *w ^= mask;
    }
    words
}

// Leading digits, and the exponent of the last one.
#[derive(Clone, Copy)]
pub struct Digits {
    pub sig: u64,
    pub exp: u16,
}

// The first digits from the highest on, 33 to 64 of them; of those below, only whether there are any. How significand and exponent share
// the number is free within `Leading`.
pub fn first_digits(words: [u32; NUMBER_SIZE]) -> Digits
    ensures { Leading (natural words) result.sig result.exp }
{
    let mut sig: u64 = 0;
    let mut exp: u16 = DIGITS;
    for i in (0..NUMBER_SIZE).rev() {
        let w = u64::from(words[i]);
        if sig < 0x1_0000_0000 {
            sig = sig * 0x1_0000_0000 + w;
            exp -= 32;
        } else {
            sig = choose(w == 0, sig, sig - sig % 2 + 1);
        }
    }
    Digits { sig, exp }
}
