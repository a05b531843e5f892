// One record out of two tables, as a part of whichever table was meant.
#![tactic(auto)]

ghost use Rattle.std.specs.Prelude.{◌≡◌};
ghost use Rattle.model.specs.Answers.{refusal_of};
ghost use Rattle.model.specs.Part.{answerable, meant, onward, part_bytes, record_part};
ghost use Rattle.model.specs.Structs.{tables_lent};
ghost use Rattle.answers.specs.Numbers.{told};
ghost use Rattle.part.specs.Ended.{ended_by, part_in};

use location_table::in_places;
use model::{MOST_EDGES, MOST_LOCATIONS, NoRecord, RECORD, Tables};

// Of two things, the one that the mark means. The mark is a number, and no enum: one above 1 may be given to the call,
// which docs/DECISIONS.md names, and is refused there.
fn meant<T: Copy>(mark: usize, of_locations: T, of_edges: T) -> T
    ensures { result ≡ meant mark of_locations of_edges }
{
    if mark == 0 { of_locations } else { of_edges }
}

// Whether there is such a record. Both counts are looked at, whichever table is meant.
fn answerable(tables: Tables, mark: usize, number: usize) -> bool
    ensures { result ≡ answerable (tables_lent tables.entry) mark number }
{
    let counts = tables.counts;
    let fit = in_places(MOST_LOCATIONS, counts.locations, tables.locations.len())
        & in_places(MOST_EDGES, counts.edges, tables.edges.len());
    (mark <= 1) & fit & (number < meant(mark, counts.locations, counts.edges))
}

// The record with a number, as a part of the table that the mark means: 0 for locations, 1 for edges. It is no copy:
// it lies in that table, where the record begins. Where it is refused the part is empty, at the start of that table.
pub fn record_part<'a>(
    tables: Tables<'a>,
    mark: usize,
    number: usize,
) -> Result<&'a [u8], NoRecord<'a>>
    ensures part { (part_in result).now ≡ part_bytes (tables_lent tables.entry) mark number }
    ensures stands { (part_in result).ref_ptr
        ≡ onward (meant mark tables.entry.locations.ref_ptr tables.entry.edges.ref_ptr)
        (record_part (tables_lent tables.entry) mark number).begins }
    ensures ended { ended_by result ≡ (record_part (tables_lent tables.entry) mark number).verdict }
{
    let table = meant(mark, tables.locations, tables.edges);
    if !answerable(tables, mark, number) {
        return Err(NoRecord { part: &table[..0] });
    }
    let begin = RECORD * number;
    Ok(&table[begin..begin + RECORD])
}

// The same in numbers: answers the refusal's number, 0 for none, and writes its place, where the record begins in its
// table, and its length over the start of `answer`.
pub fn tell_part(tables: Tables, mark: usize, number: usize, answer: &mut [usize]) -> u8
    ensures number { result ≡ (refusal_of (record_part (tables_lent tables.entry) mark number).verdict).number }
    ensures tells { answer.new ≡ told answer.old
        (refusal_of (record_part (tables_lent tables.entry) mark number).verdict).place
        (record_part (tables_lent tables.entry) mark number).begins
        (record_part (tables_lent tables.entry) mark number).size }
{
    match record_part(tables, mark, number) {
        Ok(part) => {
            answers::tell(answer, 0, RECORD * number, part.len());
            0
        }
        Err(refusal) => {
            answers::tell(answer, 0, 0, refusal.part.len());
            refusal.number()
        }
    }
}
