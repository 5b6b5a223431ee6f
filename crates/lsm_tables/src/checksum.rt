// The checksum of a file's bytes.
ghost use Rattle.std.specs.Prelude.{◌≡◌, ℕ, List, ◌+◌, ◌*◌, ◌%◌, ◌^◌, ◌++◌, length};
ghost use Rattle.std.specs.List.{fold};
ghost use Rattle.lsm_tables.specs.Sum.{prime, step, sum_of};
ghost use Rattle.lsm_tables.specs.Weights.{AreWeights};

const PRIME: u128 = 1_099_511_628_211;

const SQUARED_PRIME: u128 = 1_208_925_820_571_204_291_060_521;

/// The prime to the powers 3 and 4, modulo 2^128.
const CUBED_PRIME: u128 = 1329227997362564068125063396651957931;

const FOURTH_PRIME: u128 = 271162512512676767733861726548342979729;

/// From how many bytes of a part on the making of weights pays.
const MANY: usize = 2048;

/// The checksum of a file's bytes: `s`, from 0, with `s = (s * 1099511628211 + byte + 1) mod 2^128`
/// for each byte in turn. It tells an honest mistake; no claim that damage is found rests on it.
///
/// ```text
/// let sum = Checksum::of(bytes);
/// sum == Checksum::from_raw(kept)
/// ```
#[derive(Clone, Copy, Debug, PartialEq, Eq)]
pub struct Checksum(u128);

/// What each byte adds to a sum, with one, two and three bytes after it.
#[derive(Drop)]
struct Weights {
    one: [u64; 256],
    two: [u128; 256],
    three: [u128; 256],
}

/// The sums of two parts of one length.
struct Sums {
    first: u128,
    second: u128,
}

fn with_byte(sum: u128, byte: u8) -> u128
    ensures { result ≡ step sum byte }
{
    sum.wrapping_mul(PRIME).wrapping_add(byte as u128 + 1)
}

/// The sum with two more bytes, by one multiplication of it.
fn with_pair(sum: u128, first: u8, second: u8) -> u128
    ensures { result ≡ step (step sum first) second }
{
    let pair = (first as u64 + 1) * PRIME as u64 + second as u64 + 1;
    sum.wrapping_mul(SQUARED_PRIME).wrapping_add(pair as u128)
}

/// The weights of all bytes.
fn make_weights() -> Weights
    ensures { AreWeights result }
{
    let mut one = [0u64; 256];
    let mut two = [0u128; 256];
    let mut three = [0u128; 256];
    for byte in 0..256 {
        one[byte] = (byte as u64 + 1) * PRIME as u64;
        two[byte] = (byte as u128 + 1).wrapping_mul(SQUARED_PRIME);
        three[byte] = (byte as u128 + 1).wrapping_mul(CUBED_PRIME);
    }
    Weights { one, two, three }
}

/// The sum with four more bytes, by one multiplication.
fn with_four(weights: &Weights, sum: u128, a: u8, b: u8, c: u8, d: u8) -> u128
    requires { AreWeights weights.now }
    ensures { result ≡ step (step (step (step sum a) b) c) d }
{
    // What they add doesn't wait for the sum.
    let low = weights.one[c as usize] + d as u64 + 1;
    let four = weights.three[a as usize]
        .wrapping_add(weights.two[b as usize])
        .wrapping_add(low as u128);
    sum.wrapping_mul(FOURTH_PRIME).wrapping_add(four)
}

/// The sum goes on over more bytes.
fn sum_on(sum: u128, bytes: &[u8]) -> u128
    ensures { result ≡ fold step sum bytes.now }
{
    let mut total = sum;
    for byte in bytes {
        total = with_byte(total, *byte);
    }
    total
}

/// The prime to the power n, modulo 2^128.
fn power(n: usize) -> u128
    ensures { result ≡ prime ^ n % 2 ^ 128 }
{
    if n == 0 {
        return 1;
    }
    let half = power(n / 2);
    let square = half.wrapping_mul(half);
    if n % 2 == 0 {
        square
    } else {
        square.wrapping_mul(PRIME)
    }
}

/// The sum of two parts, the second of which has so many bytes as the power says.
fn joined(first: u128, power: u128, second: u128) -> u128
    ensures { result ≡ (first * power + second) % 2 ^ 128 }
{
    first.wrapping_mul(power).wrapping_add(second)
}

/// Two parts of one length, an even one, side by side: neither sum waits for the other.
fn two_sums(first: &[u8], second: &[u8]) -> Sums
    requires second { length second.now ≡ length first.now }
    requires even { length first.now % 2 ≡ 0 }
    ensures first { result.first ≡ sum_of first.now }
    ensures second { result.second ≡ sum_of second.now }
{
    let mut a = 0;
    let mut b = 0;
    for pair in 0..first.len() / 2 {
        let i = 2 * pair;
        a = with_pair(a, first[i], first[i + 1]);
        b = with_pair(b, second[i], second[i + 1]);
    }
    Sums {
        first: a,
        second: b,
    }
}

/// `two_sums`, four bytes at a time.
fn two_long_sums(first: &[u8], second: &[u8]) -> Sums
    requires second { length second.now ≡ length first.now }
    requires fours { length first.now % 4 ≡ 0 }
    ensures first { result.first ≡ sum_of first.now }
    ensures second { result.second ≡ sum_of second.now }
{
    let weights = make_weights();
    let mut a = 0;
    let mut b = 0;
    for four in 0..first.len() / 4 {
        let i = 4 * four;
        a = with_four(
            &weights,
            a,
            first[i],
            first[i + 1],
            first[i + 2],
            first[i + 3],
        );
        b = with_four(
            &weights,
            b,
            second[i],
            second[i + 1],
            second[i + 2],
            second[i + 3],
        );
    }
    Sums {
        first: a,
        second: b,
    }
}

/// Two parts of one length, a multiple of four.
fn both_sums(first: &[u8], second: &[u8]) -> Sums
    requires second { length second.now ≡ length first.now }
    requires fours { length first.now % 4 ≡ 0 }
    ensures first { result.first ≡ sum_of first.now }
    ensures second { result.second ≡ sum_of second.now }
{
    if first.len() < MANY {
        two_sums(first, second)
    } else {
        two_long_sums(first, second)
    }
}

fn sum_of_bytes(bytes: &[u8]) -> u128
    ensures { result ≡ sum_of bytes.now }
{
    let half = bytes.len() / 8 * 4;
    let (first, rest) = bytes.split_at(half);
    let (second, last) = rest.split_at(half);
    let Sums { first, second } = both_sums(first, second);
    let sum = joined(first, power(half), second);
    sum_on(sum, last)
}

impl Checksum {
    /// The checksum of the bytes.
    pub fn of(bytes: &[u8]) -> Checksum
        ensures { result.0 ≡ sum_of bytes.now }
    {
        Checksum(sum_of_bytes(bytes))
    }

    /// A checksum that was kept as a number.
    pub fn from_raw(value: u128) -> Checksum
        ensures { result.0 ≡ value }
    {
        Checksum(value)
    }

    /// The checksum as a number.
    pub fn into_u128(self) -> u128
        ensures { result ≡ self.0 }
    {
        self.0
    }
}

/// The sum of two parts is made of their sums and the second one's length.
pub fn sums_of_parts()
    ensures { (a b : List ℕ) → sum_of (a ++ b) ≡ (sum_of a * prime ^ length b + sum_of b) % 2 ^ 128 }
{}
