// S and H records of 32 bytes: which refusal a statement has, whether a shape keeps the layout, and what fails of its
// nodes.
#![tactic(auto)]

pub mod fields;

ghost use Rattle.std.specs.Prelude.{◌≡◌, true, length};
ghost use Rattle.model.specs.Base.{record_size};
ghost use Rattle.model.specs.Records.{checks_nodes, checks_s, layout_h, shape_fields, shape_of};
ghost use Rattle.model.specs.Structs.{Tells, failed_in};

use fields::{all_values, all_zero, fields_ok, head_ok, targets_ok};
use model::Reason;

// The refusal of an S record among n statements.
pub fn statement_refusal(rec: &[u8], n: usize) -> Result<(), Reason>
    requires { length rec.now ≡ record_size }
    ensures { Tells (checks_s n rec.now) (failed_in result) }
{
    if model::OPS <= rec[1] {
        return Err(Reason::UnknownOp);
    }
    if !fields_ok(rec) {
        return Err(Reason::StatementFields);
    }
    if !targets_ok(n, rec) {
        return Err(Reason::Target);
    }
    Ok(())
}

// Whether bytes 3 to 31 of a record are those of a shape.
pub fn shape_ok(rec: &[u8]) -> bool
    requires { length rec.now ≡ record_size }
    ensures { result ≡ shape_fields rec.now }
{
    let k = rec[3];
    if 12 < k {
        return false;
    }
    let end = 10 + k as usize;
    all_values(&rec[4..end], k) & all_zero(&rec[end..])
}

// Whether an H record keeps the layout.
pub fn layout_ok(rec: &[u8]) -> bool
    requires { length rec.now ≡ record_size }
    ensures { result ≡ layout_h rec.now }
{
    head_ok(rec[0], rec[1], rec[2]) && shape_ok(rec)
}

// What fails of the nodes of an H record, which keeps the layout, with the first node concerned.
pub fn shape_failure(rec: &[u8]) -> Result<(), Reason>
    requires { (length rec.now ≡ record_size) × (layout_h rec.now ≡ true) }
    ensures { Tells (checks_nodes (shape_of rec.now)) (failed_in result) }
{
    let end = 10 + rec[3] as usize;
    canonical::node_failure(&rec[4..10], &rec[10..end])
}
