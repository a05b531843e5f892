// The text of an outcome: a line of 64 hex digits for each location and then for each edge, or the refusal.
#![tactic(auto)]

ghost use Rattle.std.specs.Prelude.{◌≡◌, ◌++◌, ◌+◌, ◌≤◌, length, take};
ghost use Rattle.model.specs.Answers.{outcome_of};
ghost use Rattle.model.specs.Records.{refusal_at, tells_node};
ghost use Rattle.text.specs.Text.{decimal_of, node_part, refusal_line, text_of, Stands};

use model::{Counts, Node, Refusal};

// Puts bytes behind the first `at` of the text; answers where they end. (The text and its end are no struct: one that
// lends the text would say in each contract here that it is the same text still.)
fn put(from: &[u8], text: &mut [u8], at: usize) -> usize
    requires { at + length from.now ≤ length text.old }
    ensures { (result ≡ at + length from.now)
        × (take result text.new ≡ take at text.old ++ from.now) }
{
    let n = fill::copy(from, &mut text[at..]);
    at + n
}

// The same for a number in base 10.
fn put_number(n: usize, text: &mut [u8], at: usize) -> usize
    requires { at + 20 ≤ length text.old }
    ensures { (result ≤ at + 20) × (take result text.new ≡ take at text.old ++ decimal_of n) }
{
    let mut digits = [0; 20];
    let k = io::decimal(n as u64, &mut digits);
    put(&digits[..k], text, at)
}

// Whether a refusal tells a node.
fn tells_node(number: u8) -> bool
    ensures { result ≡ tells_node number }
{
    (number == 9) | (number == 18) | (number == 19)
}

// Puts a space and the node behind the first `at` of the text, where the refusal tells one.
fn put_node(number: u8, node: Node, text: &mut [u8], at: usize) -> usize
    requires { at + 21 ≤ length text.old }
    ensures { (result ≤ at + 21)
        × (take result text.new ≡ take at text.old ++ node_part number node.0) }
{
    if !tells_node(number) {
        return at;
    }
    let end = put(b" ", text, at);
    put_number(node.0 as usize, text, end)
}

// The text of a refusal, whatever its number: this tells numbers, and no names.
pub fn write_refusal(number: u8, place: usize, node: Node, text: &mut [u8]) -> usize
    requires { 71 ≤ length text.old }
    ensures { (result ≤ 71) × (take result text.new ≡ refusal_line (refusal_at number place node.0)) }
{
    let mut end = put(b"refused ", text, 0);
    end = put_number(number as usize, text, end);
    end = put(b" ", text, end);
    end = put_number(place, text, end);
    end = put_node(number, node, text, end);
    put(b"\n", text, end)
}

// The text of an outcome: the bytes before the place that is answered.
pub fn write_outcome(
    outcome: Result<Counts, Refusal>,
    locations: &[u8],
    edges: &[u8],
    text: &mut [u8],
) -> usize
    requires { Stands outcome locations.now edges.now × (199680 ≤ length text.old) }
    ensures { (result ≤ 199680)
        × (take result text.new ≡ text_of (outcome_of outcome locations.now edges.now)) }
{
    match outcome {
        Ok(counts) => hex_lines::write_tables(
            locations,
            counts.locations,
            edges,
            counts.edges,
            text,
        ),
        Err(refusal) => {
            let node = refusal.reason.node().unwrap_or(Node(0));
            write_refusal(refusal.reason.number(), refusal.place, node, text)
        }
    }
}
