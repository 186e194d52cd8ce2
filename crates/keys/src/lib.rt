// Keys of a dictionary of names: two numbers and three names, each a place of the plain text. Two keys are the same where their numbers
// are and their names are spelled alike. Any place is taken: behind the text's end no name stands.
#![tactic(auto)]

ghost use Rattle.std.specs.Prelude.{◌≡◌, ◌<◌};
ghost use Rattle.common.specs.Words.{get_or};
ghost use Rattle.words.specs.Letters.{same};
ghost use Rattle.keys.specs.Keys.{spelled, meant, same_meaning, name_byte, prime, Below, turned, stirred, named, hash_of};

use tokens::in_name;
use words::{byte_at, wide};

#[derive(Clone, Copy)]
pub struct Key {
    pub sort: usize,
    pub within: usize,
    pub first: usize,
    pub second: usize,
    pub third: usize,
}

impl Key {
    // The key of no row, which others are made from.
    pub const NONE: Key = Key {
        sort: 0,
        within: 0,
        first: 0,
        second: 0,
        third: 0,
    };
}

// A hash that grows with each number: two lanes.
#[derive(Clone, Copy)]
struct Lanes {
    low: usize,
    high: usize,
}

// The modulus of the lanes, a prime below 2^31, and what each turn of a lane multiplies by, another number in each lane: products of two
// numbers below the prime fit.
const PRIME: usize = 2_147_483_647;

const LOW_FACTOR: usize = 742_938_285;

const HIGH_FACTOR: usize = 950_706_376;

// A byte that can stand in a name, 0 for any other.
#[tactic(auto, unfolding(crate::specs::Keys::name_byte))]
fn name_byte(b: u8) -> u8
    ensures { result ≡ name_byte b }
{
    if in_name(b) { b } else { 0 }
}

// The byte of a name at a place, 0 where none stands.
fn letter_at(text: &[u8], at: usize) -> u8
    ensures { result ≡ name_byte (get_or text.now at 0) }
{
    name_byte(byte_at(text, at))
}

// Whether two names are spelled alike: no more is read than what they begin with in common and a byte more. The two places are counted by
// hand: each of the names may come to the text's end first, and a zip of them would stop there without the other's next byte.
fn same_name(text: &[u8], a: usize, b: usize) -> bool
    ensures { result ≡ same (spelled text.now a) (spelled text.now b) }
{
    if a == b {
        return true;
    }
    let mut i = a;
    let mut j = b;
    while i < text.len() {
        let letter = letter_at(text, i);
        if letter != letter_at(text, j) {
            return false;
        }
        if letter == 0 {
            return true;
        }
        i += 1;
        j += 1;
    }
    letter_at(text, j) == 0
}

// Whether two keys are the same. Numbers are compared first, they cost least.
#[tactic(auto, using(common::specs::Tests::tests), unfolding(crate::specs::Keys::meant, crate::specs::Keys::same_meaning))]
pub fn same_key(text: &[u8], a: Key, b: Key) -> bool
    ensures { result ≡ same_meaning (meant text.now a) (meant text.now b) }
{
    a.sort == b.sort
        && a.within == b.within
        && same_name(text, a.first, b.first)
        && same_name(text, a.second, b.second)
        && same_name(text, a.third, b.third)
}

// One lane with one number more. It is squared: a lane that were a sum over the bytes could be shared by reckoning.
fn turn(own: usize, other: usize, n: usize, factor: usize) -> usize
    requires { (own < prime) × (other < prime) × (factor < prime) }
    ensures { (result ≡ turned factor own other n) × (result < prime) }
{
    let more = other + n % PRIME;
    let x = (own * factor + more + 1) % PRIME;
    (x * x + more) % PRIME
}

impl Lanes {
    // Both lanes with one number more. Each takes in the other: names that share one lane would soon share another that runs by itself.
    fn stir(self, n: usize) -> Lanes
        requires { Below self }
        ensures { (result ≡ stirred self n) × Below result }
    {
        Lanes {
            low: turn(self.low, self.high, n, LOW_FACTOR),
            high: turn(self.high, self.low, n, HIGH_FACTOR),
        }
    }

    // Both lanes with one name more.
    fn stir_name(self, text: &[u8], at: usize) -> Lanes
        requires { Below self }
        ensures { (result ≡ named self (spelled text.now at)) × Below result }
    {
        let mut lanes = self;
        for i in at..text.len() {
            let byte = name_byte(text[i]);
            if byte == 0 {
                return lanes.stir(0);
            }
            lanes = lanes.stir(wide(byte));
        }
        lanes.stir(0)
    }
}

// A number for a key, the same for keys that are the same, whose low bits differ for most that are not. By trying, a pair that shares it is
// found among about 2^31 keys; one who knows how it is reckoned and spends enough on it can still make such keys.
pub fn hash_of(text: &[u8], key: Key) -> usize
    ensures { result ≡ hash_of (meant text.now key) }
{
    let none = Lanes { low: 0, high: 0 };
    let numbers = none.stir(key.sort).stir(key.within);
    let one = numbers.stir_name(text, key.first);
    let two = one.stir_name(text, key.second);
    let all = two.stir_name(text, key.third);
    all.low + PRIME * all.high
}
