// The index of the locations known in one translation, by hashes of their records, lent by the caller: a search looks
// at the records with one hash alone, from the newest back. A hash that spreads badly costs time and nothing else.
#![tactic(auto)]

ghost use Rattle.std.specs.Prelude.{◌≡◌, ◌<◌, IfSome, get_or, length};
ghost use Rattle.model.specs.Answers.{found_of};
ghost use Rattle.model.specs.Base.{most_locations, record_size};
ghost use Rattle.model.specs.Search.{equal_at, highest_below};
ghost use Rattle.index.specs.Index.{EnterAllReady, EntersAll, FindReady, after, entered, hash_count, hash_of, index_kept, index_size};

use word::four;

// How many hashes there are, and how many places the index has: one for each hash and each location.
pub const HASHES: usize = 512;

pub const SIZE: usize = 1536;

// The hash of a record: of its first 24 bytes, since those after them are zero. They are read at the places where they
// were written as words, or the processor would wait for them.
pub fn hash(rec: &[u8]) -> usize
    requires { length rec.now ≡ record_size }
    ensures { (result ≡ hash_of rec.now) × (result < hash_count) }
{
    let sum = four(rec, 0) as u64 * 0x1337_79b1
        + four(rec, 4) as u64 * 0x1c3a_f9d3
        + four(rec, 8) as u64 * 0x15a4_0e35
        + four(rec, 12) as u64 * 0x1b87_3593
        + four(rec, 16) as u64 * 0xf4b_a5ed
        + four(rec, 20) as u64 * 0x2b_a5ed;
    (sum / 0x4000_0000 % 512) as usize
}

// Enters location n, with its hash.
fn enter(index: &mut [u16], n: usize, h: usize)
    requires { (length index.old ≡ index_size) × (n < most_locations) × (h < hash_count) }
    ensures { index.new ≡ entered index.old n h }
{
    let before = index[h];
    index[HASHES + n] = before;
    index[h] = (n + 1) as u16;
}

// A location with number j of n is kept: it is entered where it is new.
pub fn keep(index: &mut [u16], n: usize, j: usize, h: usize)
    requires { (length index.old ≡ index_size) × (j < most_locations) × (h < hash_count) }
    ensures { index.new ≡ index_kept index.old n j h }
{
    if n <= j {
        enter(index, n, h);
    }
}

// The location that stands in the index at n: as the number after it, in two bytes of fixed memory, and 0 for none, so
// that an index of zeros is that of no location.
fn entry(index: &[u16], n: usize) -> Option<usize>
    requires { n < length index.now }
    ensures { after (found_of result) ≡ get_or index.now n 0 }
{
    (index[n] as usize).checked_sub(1)
}

// What `search::find` finds, by the records with the hash alone.
pub fn find(index: &[u16], h: usize, table: &[u8], count: usize, rec: &[u8]) -> Option<usize>
    requires { FindReady index.now h table.now count rec.now }
    ensures found { found_of result ≡ highest_below count (equal_at table.now rec.now) }
    ensures below { IfSome result (λ i. i < count) }
{
    // A walk along the chain of the hash: each location tells the one before it, and nothing is counted.
    let mut next = entry(index, h);
    while let Some(j) = next {
        if search::same_at(table, model::RECORD * j, rec) {
            return Some(j);
        }
        next = entry(index, HASHES + j);
    }
    None
}

// Enters the n locations of the table into an index of zeros.
pub fn enter_all(table: &[u8], n: usize, index: &mut [u16])
    requires { EnterAllReady table.now n index.old }
    ensures { EntersAll table.now n index.new }
{
    for j in 0..n {
        enter(index, j, hash(model::record_at(table, j)));
    }
}
