// The number that stands for a list in an answer: X = (X * 1,000,003 + w + 1) modulo 1,000,000,000,039, a prime, over its words or bytes
// in order, from X = 0 on.
const PRIME: u64 = 1000000000039;

// The next X, before it is taken modulo the prime.
fn mix(x: u64, word: u32) -> u64 {
    x % PRIME * 1000003 + word as u64 + 1
}

// The digest of words or bytes.
pub(crate) fn digest<T: Copy + Into<u32>>(items: &[T]) -> u64 {
    items.iter().fold(0, |x, item| mix(x, (*item).into())) % PRIME
}
