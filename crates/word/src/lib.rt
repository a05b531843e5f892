// Bytes of records as numbers, the low byte first, and back: two, four or eight of them. What is written as eight bytes
// in a row is one move of the processor, and is read at once as eight bytes; what was written byte by byte is not.
#![tactic(auto)]

ghost use Rattle.std.specs.Prelude.{◌≡◌, ◌++◌, ◌+◌, ◌<◌, ◌≤◌, drop, length, take};
ghost use Rattle.model.specs.Base.{record_size};
ghost use Rattle.model.specs.Records.{word};
ghost use Rattle.word.specs.Words.{bytes_of, eight_at, four_at};

use model::RECORD;

// The N bytes at a place; the compiler makes one load of them. (A copy over an array of zeros looks first whether the
// two overlap.)
pub fn bytes<const N: usize>(t: &[u8], at: usize) -> [u8; N]
    requires { (0 < N) × (at + N ≤ length t.now) }
    ensures { result ≡ take N (drop at t.now) }
{
    let (chunks, _) = t[at..].as_chunks();
    chunks[0]
}

// Two bytes as a number.
pub fn two(t: &[u8], at: usize) -> u16
    requires { at + 2 ≤ length t.now }
    ensures { result ≡ word t.now at }
{
    u16::from_le_bytes(bytes(t, at))
}

// Four bytes as a number.
pub fn four(t: &[u8], at: usize) -> u32
    requires { at + 4 ≤ length t.now }
    ensures { result ≡ four_at t.now at }
{
    u32::from_le_bytes(bytes(t, at))
}

// Eight bytes as a number.
pub fn eight(t: &[u8], at: usize) -> u64
    requires { at + 8 ≤ length t.now }
    ensures { result ≡ eight_at t.now at }
{
    u64::from_le_bytes(bytes(t, at))
}

// Writes a number over the first eight bytes; the compiler makes one store of it.
pub fn put_eight(part: &mut [u8], x: u64)
    requires { 8 ≤ length part.old }
    ensures { part.new ≡ bytes_of 8 x ++ drop 8 part.old }
{
    part[..8].copy_from_slice(&x.to_le_bytes());
}

// Writes a number over the eight bytes at a place.
pub fn put_at(to: &mut [u8], at: usize, x: u64)
    requires { at + 8 ≤ length to.old }
    ensures { to.new ≡ take at to.old ++ (bytes_of 8 x ++ drop (at + 8) to.old) }
{
    to[at..at + 8].copy_from_slice(&x.to_le_bytes());
}

// Copies a record over the first 32 bytes. It is read whole before it is written, since a copy from one lent part to
// another compares their addresses first.
pub fn copy_record(from: &[u8], to: &mut [u8])
    requires { (record_size ≤ length from.now) × (record_size ≤ length to.old) }
    ensures { to.new ≡ take record_size from.now ++ drop record_size to.old }
{
    to[..RECORD].copy_from_slice(&bytes::<RECORD>(from, 0));
}
