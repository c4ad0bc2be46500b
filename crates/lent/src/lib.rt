// What lent bytes and words are put to, by callers of every storey: how many there are of a number asked for, words made 0, and
// little-endian numbers.

#![tactic(auto)]

ghost use Rattle.std.specs.Prelude.{◌≡◌, ◌≤◌, min, length, replicate};
ghost use Rattle.lent.specs.Lesser.{Lesser};
ghost use Rattle.lent.specs.Little.{little_of, bytes_of, number_at};

// As many items as asked for, or as there are.
pub fn least<T>(a: usize, items: &[T]) -> usize
    ensures { Lesser a items.now result }
{
    a.min(items.len())
}

// Makes all words 0.
pub fn clear(words: &mut [u32])
    ensures { words.new ≡ replicate (length words.old) 0 }
{
    for word in words {
        *word = 0;
    }
}

// The number that at most four bytes hold.
fn whole(bytes: &[u8]) -> u32
    requires at_most_four { length bytes.now ≤ 4 }
    ensures { result ≡ little_of bytes.now }
{
    let mut v: u32 = 0;
    for b in bytes.iter().rev() {
        v = 256 * v + *b as u32;
    }
    v
}

// The number of a width at a place: of the bytes that are there, and of at most four.
pub fn number(bytes: &[u8], at: usize, width: usize) -> u32
    ensures { result ≡ number_at at (min width 4) bytes.now }
{
    let rest = &bytes[least(at, bytes)..];
    whole(&rest[..least(width.min(4), rest)])
}

// The four bytes of a number, least first.
#[tactic(auto, using(crate::proofs::Numbers::four_bytes))]
pub fn bytes(number: u32) -> [u8; 4]
    ensures { result ≡ bytes_of 4 number }
{
    number.to_le_bytes()
}
