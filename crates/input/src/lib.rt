// The checks of the translator's input: S records, then H records, 32 bytes each. The first that fails gives the
// refusal.
#![tactic(auto)]

ghost use Rattle.std.specs.Prelude.{◌≡◌, true, false, [], ◌+◌, ◌*◌, ◌≤◌, eqb, length, Ok, IfErr};
ghost use Rattle.model.specs.Answers.{found_of};
ghost use Rattle.model.specs.Base.{any, count, mem, same_list, record_size};
ghost use Rattle.model.specs.Codes.{reason_number};
ghost use Rattle.model.specs.Records.{is_s, checks_h};
ghost use Rattle.model.specs.Structs.{Tells, failed_in};
ghost use Rattle.model.specs.Translate.{between, first_bad_kind, first_bad_record, check};
ghost use Rattle.model.specs.Listings.{numbers_input, records_of};
ghost use Rattle.input.specs.Input.{checked_of, refused_in, GoodCounts};
ghost use Rattle.input.specs.RecordChecks.{kind_fits, earlier, record_checks};

use layout::{layout_ok, shape_failure, statement_refusal};
use model::{Reason, Refusal};

// How many statements and starting shapes a routine has: its records are as many statements, and then as many shapes.
#[derive(Clone, Copy)]
pub struct Routine {
    pub statements: usize,
    pub shapes: usize,
}

// ---- the kinds of the records, by their tags

// Whether a tag may stand here: H anywhere, S only before the first H.
fn kind_fits(after: bool, tag: u8) -> bool
    ensures { result ≡ kind_fits after tag }
{
    (tag == b'H') | ((tag == b'S') & !after)
}

// The first record of a wrong kind.
fn wrong_kind(input: &[u8], records: usize) -> Option<usize>
    requires { record_size * records ≡ length input.now }
    ensures { found_of result ≡ first_bad_kind false 0 (records_of input.now) }
{
    let mut after = false;
    for i in 0..records {
        let tag = input[model::RECORD * i];
        if !kind_fits(after, tag) {
            return Some(i);
        }
        after = tag == b'H';
    }
    None
}

// How many records are statements.
fn count_statements(input: &[u8], records: usize) -> usize
    requires { record_size * records ≡ length input.now }
    ensures { result ≡ count is_s (records_of input.now) }
{
    let mut n = 0;
    for i in 0..records {
        if input[model::RECORD * i] == b'S' {
            n += 1;
        }
    }
    n
}

// ---- a single record

// Whether a record equals one of the first i records of the input.
fn repeats(input: &[u8], i: usize, rec: &[u8]) -> bool
    requires { (record_size * i ≤ length input.now) × (length rec.now ≡ record_size) }
    ensures { result ≡ any (same_list eqb rec.now) (earlier input.now i) }
{
    search::find(input, i, rec).is_some()
}

// What fails of an H record after the first i records of the input.
fn shape_refusal(input: &[u8], i: usize, rec: &[u8]) -> Result<(), Reason>
    requires { (record_size * i ≤ length input.now) × (length rec.now ≡ record_size) }
    ensures { Tells (checks_h (earlier input.now i) rec.now) (failed_in result) }
{
    if !layout_ok(rec) {
        return Err(Reason::ShapeLayout);
    }
    shape_failure(rec)?;
    if repeats(input, i, rec) {
        return Err(Reason::RepeatedShape);
    }
    Ok(())
}

// What fails of record i where there are so many statements.
fn record_refusal(input: &[u8], i: usize, statements: usize) -> Result<(), Reason>
    requires { record_size * (i + 1) ≤ length input.now }
    ensures { Tells (record_checks statements input.now i) (failed_in result) }
{
    let rec = model::record_at(input, i);
    if rec[0] == b'S' {
        return statement_refusal(rec, statements);
    }
    shape_refusal(input, i, rec)
}

// ---- the whole input

// The records one after the other.
fn check_records(input: &[u8], routine: Routine) -> Result<(), Refusal>
    requires { GoodCounts (Ok routine) input.now }
    ensures first { refused_in result
        ≡ first_bad_record routine.statements 0 [] (records_of input.now) }
    ensures known { IfErr result (λ r. mem (reason_number r.reason) numbers_input ≡ true) }
{
    for i in 0..routine.statements + routine.shapes {
        record_refusal(input, i, routine.statements).map_err(|reason| reason.at(i))?;
    }
    Ok(())
}

// Whether n lies between two bounds.
fn within(low: usize, high: usize, n: usize) -> bool
    ensures { result ≡ between low high n }
{
    (low <= n) & (n <= high)
}

// The whole check of an input: the length, the kinds of the records, the numbers of statements and of shapes, and the
// records.
pub fn check(input: &[u8]) -> Result<Routine, Refusal>
    ensures outcome { checked_of result input.now ≡ check input.now }
    ensures counts { GoodCounts result input.now }
{
    let length = input.len();
    if length == 0 || length % model::RECORD != 0 {
        return Err(Reason::InputLength.at(0));
    }
    let records = length / model::RECORD;
    if let Some(place) = wrong_kind(input, records) {
        return Err(Reason::RecordKind.at(place));
    }
    let statements = count_statements(input, records);
    if !within(1, model::MOST_STATEMENTS, statements) {
        return Err(Reason::StatementCount.at(0));
    }
    let shapes = records - statements;
    if !within(1, model::MOST_SHAPES, shapes) {
        return Err(Reason::ShapeCount.at(0));
    }
    let routine = Routine { statements, shapes };
    check_records(input, routine)?;
    Ok(routine)
}
