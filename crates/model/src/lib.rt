// The types that the code shares, and the definitions that every contract cites (specs/).
// Numbers of three kinds that must not be mixed up, each a type of its own.
#![tactic(auto)]

pub mod codes;
pub mod tables;

pub use codes::{Fault, MoveRefusal, NoRecord, Op, RangeRefusal, Reason, Refusal};
pub use tables::{Tables, record_at};

// The sizes that the request names.
pub const POINTERS: usize = 6;

pub const MOST_NODES: usize = 12;

pub const RECORD: usize = 32;

pub const MOST_STATEMENTS: usize = 64;

pub const MOST_SHAPES: usize = 16;

pub const MOST_LOCATIONS: usize = 1024;

pub const MOST_EDGES: usize = 2048;

pub const MOST_CELLS: usize = 240;

pub const MOST_MOVES: usize = 4096;

pub const OPS: u8 = 14;

// The bytes of values that name no node or cell, and of a cell that is not in use: bytes, since images and records are
// lent by callers in C.
pub const UNUSED: u8 = 0xfd;

pub const NULL: u8 = 0xfe;

pub const UNDEFINED: u8 = 0xff;

// A pointer's number, 0 to 5.
#[derive(Clone, Copy, PartialEq, Eq)]
pub struct Pointer(pub u8);

// A node's number; in a shape 0 to 11.
#[derive(Clone, Copy, PartialEq, Eq)]
pub struct Node(pub u8);

// A statement's number, 0 to 63.
#[derive(Clone, Copy, PartialEq, Eq)]
pub struct Statement(pub u8);

// What `fold` makes of a heap image: the H record and the counters.
#[derive(Clone, Copy)]
pub struct Folded {
    pub shape: [u8; 32],
    pub counters: [u32; 12],
}

// How a plain step ends that is not refused.
#[derive(Clone, Copy)]
pub enum Stepped {
    Went { branch: u8, next: Statement },
    Faulted(Fault),
    Stopped,
}

// A statement's record, decoded: the op and the byte that says it, which may be no op's, its pointers and its targets.
#[derive(Clone, Copy)]
pub struct Decoded {
    pub op: Op,
    pub code: u8,
    pub u: Pointer,
    pub w: Pointer,
    pub first: Statement,
    pub second: Statement,
}

// A guard on the counter of a node: 0 for none, 1 for = 1, 2 for at least 2.
#[derive(Clone, Copy)]
pub struct Guard {
    pub test: u8,
    pub node: Node,
}

// The guards of a way or an edge: as many as an E record holds. Without a first there is no second.
#[derive(Clone, Copy)]
pub struct Guards {
    pub first: Guard,
    pub second: Guard,
}

// What a way makes beside the target's record and the updates: the branch, the guards, and how many new nodes there
// are.
#[derive(Clone, Copy)]
pub struct EdgeMade {
    pub branch: u8,
    pub guards: Guards,
    pub nodes: usize,
}

// How many locations and edges a listing has.
#[derive(Clone, Copy)]
pub struct Counts {
    pub locations: usize,
    pub edges: usize,
}

// An edge's fields beside its updates: its branch, its ends, its guards, and how many new nodes there are.
#[derive(Clone, Copy)]
pub struct EdgeFields {
    pub branch: u8,
    pub from: usize,
    pub to: usize,
    pub guards: Guards,
    pub nodes: usize,
}

// A configuration of the automaton, as the caller keeps it: a location's number and twelve counters.
#[repr(C)]
#[derive(Clone, Copy)]
pub struct Configuration {
    pub location: u32,
    pub counters: [u32; 12],
}

// How far a walk came: how many moves were made, where it stands then, and why the next one is refused, if one is.
#[derive(Clone, Copy)]
pub struct Walked {
    pub made: usize,
    pub configuration: Configuration,
    pub refused: Option<MoveRefusal>,
}

// What is said of a path and ranges for its start: how many of its edges some start follows, where none follows all; or
// where it leads, and the lowest and the highest values of the counters there, 0 past the last.
#[derive(Clone, Copy)]
pub enum Ranged {
    Stuck {
        position: usize,
    },
    Reached {
        location: usize,
        lows: [u32; 12],
        highs: [u32; 12],
    },
}
