// The buckets of labels. Labels fall into them by a hash of their bytes, equal labels alike, so that most labels are told from all
// before them without a comparison.
ghost use Rattle.std.specs.Prelude.{◌≡◌};
ghost use Rattle.label_check.specs.Buckets.{hash_of, fall_of, mark_after, first_compared};

pub const BUCKETS: usize = 8192;

// Labels in one bucket have prints from 1 to this number.
const PRINTS: usize = 128;

// The mark of a bucket that has labels of two prints.
// As it is: (b) table E's check; a mark is one byte, an enum with the print in it takes two, 16 KB to clear at each call.
const MIXED: u8 = 255;

// A label's hash is its bytes as digits to this base, of which 32 bits are kept.
const BASE: usize = 131;

const HASHES: usize = 4294967296;

// Where a label falls: its bucket, and its print there.
#[derive(Clone, Copy, Debug, PartialEq, Eq)]
pub struct Fall {
    pub bucket: usize,
    pub print: u8,
}

#[tactic(auto, unfolding(crate::specs::Buckets::hash_to))]
fn hash_of(label: &[u8]) -> usize
    ensures { result ≡ hash_of label.now }
{
    let mut hash: usize = 0;
    for byte in label {
        hash = (hash * BASE + *byte as usize) % HASHES;
    }
    hash
}

#[tactic(auto, unfolding(crate::specs::Buckets::fall_of))]
pub fn fall_of(label: &[u8]) -> Fall
    ensures { result ≡ fall_of label.now }
{
    let hash = hash_of(label);
    Fall {
        bucket: hash % BUCKETS,
        print: (hash / BUCKETS % PRINTS + 1) as u8,
    }
}

// The mark of a bucket after a label with this print fell into it: 0 while it is empty, then the print of all its labels, or MIXED.
#[tactic(auto, unfolding(crate::specs::Buckets::mark_after))]
pub fn mark_after(mark: u8, print: u8) -> u8
    ensures { result ≡ mark_after mark print }
{
    if mark == 0 {
        return print;
    }
    if mark != print {
        return MIXED;
    }
    mark
}

// The first statement with which the label of statement k is compared: 0, or k itself where the mark of its bucket says that no label
// before it is equal.
#[tactic(auto, unfolding(crate::specs::Buckets::first_compared))]
pub fn first_compared(mark: u8, print: u8, k: u32) -> u32
    ensures { result ≡ first_compared mark print k }
{
    if mark == MIXED {
        return 0;
    }
    if mark != print {
        return k;
    }
    0
}
