// The answers of the calls in numbers, written over the start of what the caller lends, as far as it reaches.
#![tactic(auto)]

ghost use Rattle.std.specs.Prelude.{◌≡◌, ◌++◌, set};
ghost use Rattle.model.specs.Answers.{found_numbers, found_of, refusal_of, step_answer_of, step_numbers, verdict_of};
ghost use Rattle.model.specs.Image.{step_verdict, to_fault};
ghost use Rattle.model.specs.Records.{is_refused, refusal, refusal_at};
ghost use Rattle.answers.specs.Numbers.{node_number, over, told, IsTold};

use model::{Node, Refusal, Stepped};

// Lays a list over the start of another, as far as both reach.
pub fn lay<T: Copy>(from: &[T], to: &mut [T])
    ensures { to.new ≡ over from.now to.old }
{
    let n = from.len().min(to.len());
    to[..n].copy_from_slice(&from[..n]);
}

// Lays the lowest values of ranges over the start of a list, and the highest behind them.
pub fn lay_ranges(lows: &[u32], highs: &[u32], to: &mut [u32])
    ensures { to.new ≡ over (lows.now ++ highs.now) to.old }
{
    lay(lows, to);
    if lows.len() < to.len() {
        lay(highs, &mut to[lows.len()..]);
    }
}

// Puts a number at a place of the answer, where the answer reaches so far.
fn tell_one(answer: &mut [usize], i: usize, n: usize)
    ensures { answer.new ≡ set answer.old i n }
{
    if i < answer.len() {
        answer[i] = n;
    }
}

// Puts a refusal's place and two numbers more at the first three places of the answer.
pub fn tell(answer: &mut [usize], place: usize, first: usize, second: usize)
    ensures { answer.new ≡ told answer.old place first second }
{
    tell_one(answer, 0, place);
    tell_one(answer, 1, first);
    tell_one(answer, 2, second);
}

// The number of a node that is told, 0 where none is.
fn node_number(node: Option<Node>) -> u8
    ensures { result ≡ node_number node }
{
    node.map_or(0, |v| v.0)
}

// Puts a refusal's node at the fourth place of the answer, 0 where none is told.
pub fn tell_node(answer: &mut [usize], node: Option<Node>)
    ensures { answer.new ≡ set answer.old 3 (node_number node) }
{
    tell_one(answer, 3, node_number(node) as usize);
}

// Answers a refusal's number, whatever it is, and writes its place.
pub fn tell_refused(number: u8, at: usize, place: &mut usize) -> u8
    ensures { IsTold (is_refused (refusal number at)) result place.new }
{
    *place = at;
    number
}

// The same, and writes its node.
pub fn tell_refused_node(number: u8, at: usize, of: Node, place: &mut usize, node: &mut u8) -> u8
    ensures told { IsTold (is_refused (refusal_at number at of.0)) result place.new }
    ensures node_after { node.new ≡ of.0 }
{
    let told = tell_refused(number, at, place);
    *node = of.0;
    told
}

// Answers a refusal's number, 0 for none, and writes its place.
pub fn tell_ended(ended: Result<(), Refusal>, place: &mut usize) -> u8
    ensures { IsTold (verdict_of ended) result place.new }
{
    match ended {
        Ok(()) => {
            *place = 0;
            0
        }
        Err(refusal) => tell_refused(refusal.reason.number(), refusal.place, place),
    }
}

// Answers the number of an unfolding's refusal, 0 for none, and writes its place and its node.
pub fn tell_unfolded(unfolded: Result<(), Refusal>, place: &mut usize, node: &mut u8) -> u8
    ensures told { IsTold (verdict_of unfolded) result place.new }
    ensures node_after { node.new ≡ (refusal_of (verdict_of unfolded)).node }
{
    match unfolded {
        Ok(()) => {
            *place = 0;
            *node = 0;
            0
        }
        Err(refusal) => {
            let of = Node(node_number(refusal.reason.node()));
            tell_refused_node(refusal.reason.number(), refusal.place, of, place, node)
        }
    }
}

// The numbers of a step that faults, whatever the fault's number.
pub fn fault_numbers(fault: u8) -> [u8; 4]
    ensures { result ≡ step_numbers (to_fault fault) }
{
    [fault, 0, 0, 0]
}

// The fault, 1 for a stop, the branch and the next statement.
pub fn step_numbers(stepped: Result<Stepped, Refusal>) -> [u8; 4]
    ensures { result ≡ step_numbers (step_answer_of stepped) }
{
    match stepped {
        Ok(Stepped::Went { branch, next }) => [0, 0, branch, next.0],
        Ok(Stepped::Faulted(fault)) => fault_numbers(fault.number()),
        Ok(Stepped::Stopped) => [0, 1, 0, 0],
        Err(_) => [0, 0, 0, 0],
    }
}

// How a step ended.
pub fn step_ended(stepped: Result<Stepped, Refusal>) -> Result<(), Refusal>
    ensures { verdict_of result ≡ step_verdict (step_answer_of stepped) }
{
    stepped.map(|_| ())
}

// Answers 1 and writes the number that was found, or answers 0 for none and writes 0.
pub fn tell_found(found: Option<usize>, number: &mut usize) -> u8
    ensures { (result ≡ (found_numbers (found_of found)).0)
        × (number.new ≡ (found_numbers (found_of found)).1) }
{
    match found {
        Some(n) => {
            *number = n;
            1
        }
        None => {
            *number = 0;
            0
        }
    }
}
