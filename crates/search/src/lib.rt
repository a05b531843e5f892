// Looking for a record among those of a table: a known location, or a shape among those before it.
#![tactic(auto)]

ghost use Rattle.std.specs.Prelude.{◌≡◌, ◌+◌, ◌*◌, ◌<◌, ◌≤◌, IfSome, eqb, length, take, drop};
ghost use Rattle.model.specs.Answers.{found_of};
ghost use Rattle.model.specs.Base.{same_list, record_size};
ghost use Rattle.model.specs.Search.{equal_at, highest_below};
ghost use Rattle.search.specs.Search.{key_at};

use word::eight;

// The key of the record at `at`: bytes 1 to 8, in which most locations differ (statement, fault, node count, five
// pointers). Most records are passed by one comparison of keys.
fn key(t: &[u8], at: usize) -> u64
    requires { at + 9 ≤ length t.now }
    ensures { result ≡ key_at t.now at }
{
    eight(t, at + 1)
}

// Whether the eight bytes at `at` are those of rec at `from`.
fn same_eight(table: &[u8], at: usize, rec: &[u8], from: usize) -> bool
    requires { (at + 8 ≤ length table.now) × (from + 8 ≤ length rec.now) }
    ensures { result ≡ same_list eqb (take 8 (drop at table.now))
        (take 8 (drop from rec.now)) }
{
    eight(table, at) == eight(rec, from)
}

// Whether the 32 bytes at `at` are those of rec. By words and not as arrays: a record is looked for right after it was
// written by words, and the processor would wait to read it otherwise (tried: a sixth to a fifth slower).
pub fn same_at(table: &[u8], at: usize, rec: &[u8]) -> bool
    requires { (at + record_size ≤ length table.now) × (length rec.now ≡ record_size) }
    ensures { result ≡ same_list eqb (take record_size (drop at table.now)) rec.now }
{
    (same_eight(table, at, rec, 0) & same_eight(table, at + 8, rec, 8))
        & (same_eight(table, at + 16, rec, 16) & same_eight(table, at + 24, rec, 24))
}

// The same, with the keys compared first.
fn same_by_key(table: &[u8], at: usize, rec: &[u8], k: u64) -> bool
    requires { (at + record_size ≤ length table.now) × (length rec.now ≡ record_size) × (k ≡ key_at rec.now 0) }
    ensures { result ≡ same_list eqb (take record_size (drop at table.now)) rec.now }
{
    key(table, at) == k && same_at(table, at, rec)
}

// The newest of the table's first `count` records that equals rec, or none: looked for from the newest back, as 02,
// job 8, asks.
pub fn find(table: &[u8], count: usize, rec: &[u8]) -> Option<usize>
    requires { (record_size * count ≤ length table.now) × (length rec.now ≡ record_size) }
    ensures found { found_of result ≡ highest_below count (equal_at table.now rec.now) }
    ensures below { IfSome result (λ i. i < count) }
{
    let k = key(rec, 0);
    for i in (0..count).rev() {
        if same_by_key(table, model::RECORD * i, rec, k) {
            return Some(i);
        }
    }
    None
}
