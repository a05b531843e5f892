// The plain step on an image that passed the checks. The image is kept aside, so that a run with a fault leaves it.
#![tactic(auto)]

ghost use Rattle.std.specs.Prelude.{◌≡◌};
ghost use Rattle.model.specs.Answers.{stepping_of};
ghost use Rattle.model.specs.Codes.{fault_in};
ghost use Rattle.model.specs.Image.{checks_statement, step_image};
ghost use Rattle.model.specs.Records.{first_failed};
ghost use Rattle.image_run.specs.Run.{StepReady, Finished};

use image_checks::entry_ok;
use model::{Decoded, Fault, Op, Reason, Refusal, Stepped};

// Runs a statement so that a fault leaves the image.
fn run_statement(d: Decoded, x: usize, pointers: &mut [u8], cells: &mut [u8]) -> Result<(), Fault>
    requires { StepReady d x pointers.old cells.old }
    ensures { Finished d x pointers.old cells.old
        (fault_in result) pointers.new cells.new }
{
    let n = cells.len();
    let mut ps = [0u8; model::POINTERS];
    let mut cs = [0u8; model::MOST_CELLS];
    ps.copy_from_slice(&pointers[..]);
    cs[..n].copy_from_slice(&cells[..]);
    image_run::run_saved(d, x, pointers, cells, &ps, &cs[..n])
}

// Takes a step whose image and record passed the checks.
pub fn take_step(
    pointers: &mut [u8],
    cells: &mut [u8],
    rec: &[u8],
    pick: u8,
    cell: usize,
) -> Result<Stepped, Refusal>
    requires { first_failed (checks_statement rec.now pointers.old cells.old) ≡ 0 }
    ensures { stepping_of result pointers.new cells.new
        ≡ step_image rec.now pick cell pointers.old cells.old }
{
    let d = statement::decode(rec);
    if !entry_ok(d.op, pick, cell, &cells[..]) {
        return Err(Reason::Entry.at(0));
    }
    if d.op == Op::Stop {
        return Ok(Stepped::Stopped);
    }
    let branch = branch::branch_of(d, pick, &pointers[..]);
    match run_statement(d, cell, pointers, cells) {
        Ok(()) => Ok(Stepped::Went {
            branch,
            next: statement::next_of(d, branch),
        }),
        Err(fault) => Ok(Stepped::Faulted(fault)),
    }
}
