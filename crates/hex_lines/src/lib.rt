// Records as lines of hex digits: 64 to a line, a line for each location and then for each edge.
#![tactic(auto)]

ghost use Rattle.std.specs.Prelude.{◌≡◌, ◌++◌, ◌+◌, ◌*◌, ◌≤◌, ◌<◌, length, take, drop};
ghost use Rattle.model.specs.Base.{record_size};
ghost use Rattle.hex_lines.specs.Lines.{byte_of, digit_of, line_of, lines_of, Stand};

// The hex digit of a number below 16.
fn digit(n: u8) -> u8
    requires { n < 16 }
    ensures { result ≡ digit_of n }
{
    if n < 10 { 48 + n } else { 87 + n }
}

// The two digits of byte i of a record, in their place.
fn write_byte(byte: u8, line: &mut [u8], i: usize)
    requires { 2 * i + 2 ≤ length line.old }
    ensures { line.new
        ≡ take (2 * i) line.old ++ (byte_of byte ++ drop (2 * i + 2) line.old) }
{
    line[2 * i] = digit(byte / 16);
    line[2 * i + 1] = digit(byte % 16);
}

// A record as a line: two digits for each of its 32 bytes.
fn write_line(rec: &[u8], line: &mut [u8])
    requires { (length rec.now ≡ record_size) × (65 ≤ length line.old) }
    ensures { line.new ≡ line_of rec.now ++ drop 65 line.old }
{
    for (i, byte) in rec.iter().enumerate() {
        write_byte(*byte, line, i);
    }
    line[64] = 0x0a;
}

// The first n records of a table as lines, behind the first `at` bytes of the text; answers where they end.
fn write_lines(table: &[u8], n: usize, text: &mut [u8], at: usize) -> usize
    requires { (record_size * n ≤ length table.now) × (at + 65 * n ≤ length text.old) }
    ensures { (result ≡ at + 65 * n)
        × (take result text.new ≡ take at text.old ++ lines_of n table.now) }
{
    for i in 0..n {
        write_line(model::record_at(table, i), &mut text[at + 65 * i..]);
    }
    at + 65 * n
}

// The text of a routine's automaton: its l locations and then its e edges.
pub fn write_tables(locations: &[u8], l: usize, edges: &[u8], e: usize, text: &mut [u8]) -> usize
    requires { Stand l locations.now e edges.now × (199680 ≤ length text.old) }
    ensures { (result ≤ 199680)
        × (take result text.new ≡ lines_of l locations.now ++ lines_of e edges.now) }
{
    let end = write_lines(locations, l, text, 0);
    write_lines(edges, e, text, end)
}
