// A statement's record decoded, the statement after it, and what kind of op it has.
#![tactic(auto)]

ghost use Rattle.std.specs.Prelude.{◌≡◌, length};
ghost use Rattle.model.specs.Base.{record_size};
ghost use Rattle.model.specs.Codes.{op_number};
ghost use Rattle.model.specs.Machine.{target};
ghost use Rattle.model.specs.Structs.{cuts_at, decoded, keeps_at, stmt_in};

use model::{Decoded, Op, Pointer, Statement};

// The fields of an S record.
pub fn decode(rec: &[u8]) -> Decoded
    requires { length rec.now ≡ record_size }
    ensures { result ≡ decoded rec.now }
{
    Decoded {
        op: Op::at(rec[1]),
        code: rec[1],
        u: Pointer(rec[2]),
        w: Pointer(rec[3]),
        first: Statement(rec[4]),
        second: Statement(rec[5]),
    }
}

// The next statement: the first target for branch 0, else the second.
pub fn next_of(d: Decoded, branch: u8) -> Statement
    ensures { result.0 ≡ target (stmt_in d) branch }
{
    if branch == 0 { d.first } else { d.second }
}

// Whether the op takes the next of u's cell away: u.next := null, u.next := w, free u, u.next := w.next.
pub fn cuts_next(op: Op) -> bool
    ensures { result ≡ cuts_at (op_number op) }
{
    matches!(op, Op::Clear | Op::Store | Op::Free | Op::Relink)
}

// Whether the op leaves the heap: stop, the tests, choose and skip.
pub fn leaves_heap(op: Op) -> bool
    ensures { result ≡ keeps_at (op_number op) }
{
    matches!(op, Op::Stop | Op::IsNull | Op::Same | Op::Choose | Op::Skip)
}
