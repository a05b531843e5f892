// The translator as a program: a routine in records on standard input, its locations and then its edges on standard
// output.
#![tactic(auto)]

ghost use Rattle.std.specs.Prelude.{◌≡◌, ◌<◌, ◌≤◌, IfOk, IfSome, OnOk, length, take};
ghost use Rattle.std.specs.Io.KnownBytes.{Appends, Consumes, IsAtEnd};
ghost use Rattle.io.specs.Counts.{IsPrefixLen};
ghost use Rattle.translate.specs.Printed.{printed};

use std::io::{Read, Result, Write};

// The bytes of a table for 1,024 locations.
const LOCATION_BYTES: usize = 32768;

// Room for the longest text: a line of 65 bytes for each of 1,024 locations and 2,048 edges.
const TEXT_BYTES: usize = 199680;

// So many bytes, all zero.
fn zeros<const N: usize>() -> [u8; N]
    ensures { length result ≡ N }
{
    [0; N]
}

// The whole text for an input: the bytes before the place that is answered.
fn write_answer(input: &[u8], n: usize, text: &mut [u8]) -> usize
    requires { (length input.now ≡ 4096) × (n ≤ 4096) × (199680 ≤ length text.old) }
    ensures prefix_len { IsPrefixLen result text.new }
    ensures text_after { take result text.new ≡ printed (take n input.now) }
{
    let mut locations = zeros::<LOCATION_BYTES>();
    let mut edges = io::large_buffer();
    let outcome = automaton::translate(&input[..n], &mut locations, &mut edges);
    text::write_outcome(outcome, &locations, &edges, text)
}

// Reads until the buffer is full or the input ends, however few bytes each read gives; answers how many.
fn read_full<R: Read>(from: &mut R, buffer: &mut [u8]) -> Result<usize>
    ensures prefix_len { IfOk result (λ n. IsPrefixLen n buffer.new) }
    ensures read { IfOk result (λ n.
        Consumes (R.remaining from.old) (R.remaining from.new) (take n buffer.new)) }
    ensures whole { IfOk result (λ n. n < length buffer.new → IsAtEnd (R.remaining from.new)) }
{
    let mut done = 0;
    // counts no index, but bytes: the library reads all of a buffer or fails, and a short input is whole here
    while done < buffer.len() {
        let n = from.read(&mut buffer[done..])?;
        if n == 0 {
            return Ok(done);
        }
        done += n;
    }
    Ok(done)
}

// Where the bytes that are read and those that are written are known, as in memory: without an error the whole text
// for the input is written, and nothing else.
fn answer<R: Read, W: Write>(from: &mut R, to: &mut W) -> Result<()>
    ensures { OnOk result (IfSome (R.remaining from.old) (λ input.
        Appends (W.contents to.old) (W.contents to.new) (printed input))) }
{
    let mut input = io::buffer();
    let mut text = zeros::<TEXT_BYTES>();
    let n = read_full(from, &mut input)?;
    let end = write_answer(&input, n, &mut text);
    to.write_all(&text[..end])
}

fn main(rt: HostRuntime) -> Result<()> {
    answer(&mut rt.stdin(), &mut rt.stdout())
}
