// Words as a table file has them: four bytes each, the lowest first.
#![tactic(auto)]

ghost use Rattle.std.specs.Prelude.{◌≡◌, ℕ, ◌+◌, ◌*◌, ◌/◌, ◌<◌, ◌≤◌, min, length, get_or};
ghost use Rattle.laws.specs.Puts.{Grows};
ghost use Rattle.table_file.specs.Words.{word_at, word_bytes, file_bytes, most_words};

use layout::bytes::put_piece;

// The word whose first byte is at index at.
pub fn word(bytes: &[u8], at: usize) -> u32
    requires { at + 4 ≤ length bytes.now }
    ensures { result ≡ word_at bytes.now at }
{
    u32::from_le_bytes([bytes[at], bytes[at + 1], bytes[at + 2], bytes[at + 3]])
}

// Decodes as many words as both slices hold, and answers how many.
pub fn decode(bytes: &[u8], words: &mut [u32]) -> usize
    ensures value { result ≡ min (length words.old) (length bytes.now / 4) }
    ensures by_index { (j : ℕ) → j < result → get_or words.new j 0 ≡ word_at bytes.now (4 * j) }
{
    let many = words.len().min(bytes.len() / 4);
    for i in 0..many {
        words[i] = word(bytes, 4 * i);
    }
    many
}

// The four bytes of a word.
pub fn bytes_of(word: u32) -> [u8; 4]
    ensures { result ≡ word_bytes word }
{
    word.to_le_bytes()
}

// Writes the bytes of the words to the front of the slice, as far as they fit, and answers how many they are.
pub fn encode(words: &[u32], bytes: &mut [u8]) -> usize
    requires { length words.now ≤ most_words }
    ensures { Grows (file_bytes words.now (length words.now)) 0 result bytes.old bytes.new }
{
    let mut at = 0;
    for word in words {
        at = put_piece(&bytes_of(*word), at, bytes);
    }
    at
}
