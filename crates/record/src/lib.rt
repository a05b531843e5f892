// L, H and E records of 32 bytes: a writer is lent the part of a table that starts at its record, or a record of its
// own that is entered later.
#![tactic(auto)]

ghost use Rattle.std.specs.Prelude.{◌≡◌, ◌∷◌, ◌++◌, ◌+◌, ◌*◌, ◌≤◌, length, take, drop, replicate};
ghost use Rattle.model.specs.Base.{most_nodes, record_size};
ghost use Rattle.model.specs.Records.{branch_byte};
ghost use Rattle.model.specs.Structs.{code_in};
ghost use Rattle.record.specs.Written.{BranchFits, fault_bytes, location_bytes, edge_bytes, update_bytes, placed, EdgeFits};

use model::{EdgeFields, Guard, Statement};

// Makes the first 32 bytes zero.
pub fn blank(part: &mut [u8])
    requires { record_size ≤ length part.old }
    ensures { part.new ≡ replicate record_size 0 ++ drop record_size part.old }
{
    part[..model::RECORD].fill(0);
}

// The first four bytes of an L or H record without fault: its tag, the statement, no fault, the number of nodes.
pub fn write_head(part: &mut [u8], tag: u8, statement: Statement, k: usize)
    requires { (4 ≤ length part.old) × (k ≤ most_nodes) }
    ensures { part.new ≡ tag ∷ statement.0 ∷ 0 ∷ k ∷ drop 4 part.old }
{
    part[..4].copy_from_slice(&[tag, statement.0, 0, k as u8]);
}

// An L record with a fault: the statement that faulted.
pub fn write_fault(part: &mut [u8], statement: Statement, fault: u8)
    requires { record_size ≤ length part.old }
    ensures { part.new ≡ fault_bytes statement.0 fault ++ drop record_size part.old }
{
    blank(part);
    // the first eight bytes at once, since they are read as words soon after
    word::put_eight(
        part,
        b'L' as u64 + 0x100 * (statement.0 as u64) + 0x1_0000 * (fault as u64),
    );
}

// An L record with the shape that the record rec has: the part is that of the location table from 32 times its number
// on. The fault is a byte of a record and no `Fault`: callers copy it, and it may be none.
pub fn write_location(part: &mut [u8], statement: Statement, fault: u8, rec: &[u8])
    requires { (record_size ≤ length part.old) × (length rec.now ≡ record_size) }
    ensures { part.new ≡ location_bytes statement.0 fault rec.now
        ++ drop record_size part.old }
{
    part[..model::RECORD].copy_from_slice(rec);
    part[..3].copy_from_slice(&[b'L', statement.0, fault]);
}

// The updates, two bytes each, the low byte first, from byte 8 on.
fn write_updates(part: &mut [u8], updates: &[u16])
    requires { 8 + 2 * length updates.now ≤ length part.old }
    ensures { part.new ≡ take 8 part.old
        ++ (update_bytes updates.now (length updates.now) ++ drop (8 + 2 * length updates.now) part.old) }
{
    for (j, update) in updates.iter().enumerate() {
        part[8 + 2 * j..10 + 2 * j].copy_from_slice(&update.to_le_bytes());
    }
}

// Byte 1 of an E record: the branch in bit 0, a second guard in bits 1 and 2, its node in bits 3 to 6.
fn branch_byte(branch: u8, second: Guard) -> u8
    requires { BranchFits branch second }
    ensures { result ≡ branch_byte branch (code_in second) }
{
    branch + 2 * second.test + 8 * second.node.0
}

// An E record: its fields, and an update for each new node.
pub fn write_edge(part: &mut [u8], fields: EdgeFields, updates: &[u16])
    requires { (record_size ≤ length part.old) × EdgeFits fields updates.now }
    ensures { part.new ≡ edge_bytes fields updates.now
        ++ drop record_size part.old }
{
    let head = branch_byte(fields.branch, fields.guards.second);
    let from = (fields.from as u16).to_le_bytes();
    let to = (fields.to as u16).to_le_bytes();
    let first = fields.guards.first;
    blank(part);
    part[..8].copy_from_slice(&[
        b'E',
        head,
        from[0],
        from[1],
        to[0],
        to[1],
        first.test,
        first.node.0,
    ]);
    write_updates(part, &updates[..fields.nodes]);
}

// An E record in its place: the part of the table from 32 times the record number on is lent to the writer.
pub fn put_edge(table: &mut [u8], n: usize, fields: EdgeFields, updates: &[u16])
    requires { (record_size * n + record_size ≤ length table.old) × EdgeFits fields updates.now }
    ensures { table.new ≡ placed table.old n (edge_bytes fields updates.now) }
{
    let at = model::RECORD * n;
    write_edge(&mut table[at..], fields, updates);
}
