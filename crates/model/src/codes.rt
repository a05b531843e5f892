// What is told in numbers: ops, faults and refusals, each by its name here.

ghost use Rattle.std.specs.Prelude.{◌≡◌};
ghost use Rattle.model.specs.Codes.{fault_code, move_refusal_number, no_record_number, node_told, op_at, range_refusal_number, range_refusal_place, reason_number, refusal_for};

use super::Node;

// What a statement does, by the number in its record.
#[derive(Clone, Copy, PartialEq, Eq)]
pub enum Op {
    Stop,
    SetNull,
    Copy,
    Load,
    Clear,
    Store,
    New,
    Free,
    IsNull,
    Same,
    Choose,
    Skip,
    Relink,
    LetGo,
}

impl Op {
    // The op with a number. A number that is none is read as a stop.
    pub fn at(number: u8) -> Op
        ensures { result ≡ op_at number }
    {
        match number {
            1 => Op::SetNull,
            2 => Op::Copy,
            3 => Op::Load,
            4 => Op::Clear,
            5 => Op::Store,
            6 => Op::New,
            7 => Op::Free,
            8 => Op::IsNull,
            9 => Op::Same,
            10 => Op::Choose,
            11 => Op::Skip,
            12 => Op::Relink,
            13 => Op::LetGo,
            _ => Op::Stop,
        }
    }
}

// Why a statement faults.
#[derive(Clone, Copy, PartialEq, Eq)]
pub enum Fault {
    Null = 1,
    Undefined = 2,
    Leak = 3,
}

impl Fault {
    pub fn number(self) -> u8
        ensures { result ≡ fault_code self }
    {
        self as u8
    }
}

// Why a call on records or images is refused: each reason by its number in `number`, three with the first node
// concerned.
#[derive(Clone, Copy, PartialEq, Eq)]
pub enum Reason {
    InputLength,
    StatementCount,
    ShapeCount,
    RecordKind,
    UnknownOp,
    StatementFields,
    Target,
    ShapeLayout,
    UnreachableNode(Node),
    RepeatedShape,
    LocationsFull,
    EdgesFull,
    Image,
    LostCell,
    Counters,
    Entry,
    NodeNotCore(Node),
    NodeOrder(Node),
}

impl Reason {
    pub fn number(self) -> u8
        ensures { result ≡ reason_number self }
    {
        match self {
            Reason::InputLength => 1,
            Reason::StatementCount => 2,
            Reason::ShapeCount => 3,
            Reason::RecordKind => 4,
            Reason::UnknownOp => 5,
            Reason::StatementFields => 6,
            Reason::Target => 7,
            Reason::ShapeLayout => 8,
            Reason::UnreachableNode(_) => 9,
            Reason::RepeatedShape => 10,
            Reason::LocationsFull => 11,
            Reason::EdgesFull => 12,
            Reason::Image => 13,
            Reason::LostCell => 14,
            Reason::Counters => 15,
            Reason::Entry => 16,
            Reason::NodeNotCore(_) => 18,
            Reason::NodeOrder(_) => 19,
        }
    }

    // The node that is told with it.
    pub fn node(self) -> Option<Node>
        ensures { result ≡ node_told self }
    {
        match self {
            Reason::UnreachableNode(node) => Some(node),
            Reason::NodeNotCore(node) => Some(node),
            Reason::NodeOrder(node) => Some(node),
            _ => None,
        }
    }

    // The refusal for this reason at a place.
    pub fn at(self, place: usize) -> Refusal
        ensures { result ≡ refusal_for self place }
    {
        Refusal {
            reason: self,
            place,
        }
    }
}

// A refusal with its place.
#[derive(Clone, Copy, PartialEq, Eq)]
pub struct Refusal {
    pub reason: Reason,
    pub place: usize,
}

// Where a call tells no place, it is 0.
impl From<Reason> for Refusal {
    ghost from_gives = { λ reason refusal. refusal ≡ refusal_for reason 0 };

    fn from(reason: Reason) -> Refusal {
        Refusal { reason, place: 0 }
    }
}

// That there is no record with the number that is asked for: the part that is handed out is empty.
#[derive(Clone, Copy, PartialEq, Eq)]
pub struct NoRecord<'a> {
    pub part: &'a [u8],
}

impl<'a> NoRecord<'a> {
    pub fn number(self) -> u8
        ensures { result ≡ no_record_number }
    {
        17
    }
}

// Why a move is refused: something is wrong with the tables, the configuration or the edge; or a counter would pass 32
// bits.
#[derive(Clone, Copy, PartialEq, Eq)]
pub enum MoveRefusal {
    NotMade = 20,
    CounterTooLarge = 21,
}

impl MoveRefusal {
    pub fn number(self) -> u8
        ensures { result ≡ move_refusal_number self }
    {
        self as u8
    }
}

// Why nothing is said of ranges: the range of a counter is none; or the tables, the start or the path are wrong, the
// path from a position on.
#[derive(Clone, Copy, PartialEq, Eq)]
pub enum RangeRefusal {
    Range { counter: usize },
    Path { position: usize },
}

impl RangeRefusal {
    pub fn number(self) -> u8
        ensures { result ≡ range_refusal_number self }
    {
        match self {
            RangeRefusal::Range { counter: _ } => 22,
            RangeRefusal::Path { position: _ } => 23,
        }
    }

    pub fn place(self) -> usize
        ensures { result ≡ range_refusal_place self }
    {
        match self {
            RangeRefusal::Range { counter } => counter,
            RangeRefusal::Path { position } => position,
        }
    }
}
