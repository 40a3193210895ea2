// Each element is asked the procedures that can be found at it, and marked with those that are broken there.
#![tactic(auto)]

ghost use Rattle.std.specs.Prelude.{◌≡◌, ◌/◌, ◌≤◌, eqb, length};
ghost use Rattle.std.proofs.lemmas.List.Edits.{sets};
ghost use Rattle.text_scan.specs.Choice.{◌and◌};
ghost use Rattle.xml_reader.specs.Limits.{elements_limit};
ghost use Rattle.judge_draft.specs.Drafts.{lent};
ghost use Rattle.judge_listed.specs.Listed.{breaks3};
ghost use Rattle.judge_operations.specs.Operations.{has_establishment};
ghost use Rattle.judge_answers.specs.Answers.{tables_at};
ghost use Rattle.judge_answers.specs.Served.{Served};
ghost use Rattle.judge_findings.specs.Listed.{broken, listed};
ghost use Rattle.judge_marks.specs.Marks.{mark_of, marks_of};

use judge_answers::{Places, is_broken};
use judge_asked::{MOST, asked_row, is_plain};
use judge_draft::Draft;
use judge_header::Header;
use judge_marks::push;
use judge_procedures::{Met, demand};

// Whether a place of a role's row is behind its last procedure: it has none, and no digit was pushed before.
fn is_behind(p: u32, m: u64) -> bool
    ensures { result ≡ eqb p 0 and eqb m 0 }
{
    p == 0 && m == 0
}

// The mark of element n: the procedures that can be found at it, asked from the last to the first.
fn mark(
    draft: Draft,
    header: Header,
    tables: &[u8],
    places: Places,
    index: &[u32],
    met: Met,
    n: usize,
) -> u64
    requires { (met.held ≡ has_establishment (lent draft) met.entity) × (met.three ≡ breaks3 (lent draft) n) × Served (lent draft) tables.now places index.now }
    ensures { result ≡ mark_of (lent draft.entry) (broken (lent draft.entry) header (tables_at tables.now places)) n }
{
    let row = asked_row(draft.role_at(n));
    let mut m = 0;
    for i in (0..MOST).rev() {
        let p = row[i] as u32;
        if is_behind(p, m) {
            continue;
        }
        let demanded = demand(draft, header, met, p, n);
        let broken = is_broken(draft, tables, places, index, demanded);
        m = push(m, broken);
    }
    m
}

// The same: 0 at once where nothing but 3 and 4 can be found, and neither is broken.
fn mark_at(
    draft: Draft,
    header: Header,
    tables: &[u8],
    places: Places,
    index: &[u32],
    met: Met,
    n: usize,
) -> u64
    requires { (met.held ≡ has_establishment (lent draft) met.entity) × (met.three ≡ breaks3 (lent draft) n) × Served (lent draft) tables.now places index.now }
    ensures { result ≡ mark_of (lent draft.entry) (broken (lent draft.entry) header (tables_at tables.now places)) n }
{
    if met.three {
        return mark(draft, header, tables, places, index, met, n);
    }
    if is_plain(draft.role_at(n)) {
        return 0;
    }
    mark(draft, header, tables, places, index, met, n)
}

// Stores the marks of all elements from the front of a run, and answers how many findings they tell of.
pub fn fill(
    draft: Draft,
    header: Header,
    tables: &[u8],
    places: Places,
    index: &[u32],
    marks: &mut [u64],
) -> usize
    requires { (length draft.notes.now / 4 ≤ length marks.old) × (length marks.old ≤ elements_limit) × Served (lent draft) tables.now places index.now }
    ensures { (result ≡ length (listed (lent draft.entry) (broken (lent draft.entry) header (tables_at tables.now places)))) × (marks.new ≡ sets marks.old 0 (marks_of (lent draft.entry) (broken (lent draft.entry) header (tables_at tables.now places)) 0 (length draft.entry.notes.now / 4))) }
{
    let mut total = 0;
    let mut entity = 0;
    let mut held = judge_operations::has_establishment(draft, 0);
    for n in 0..draft.notes.len() / 4 {
        let at = judge_operations::entity_at(draft, entity, n);
        held = judge_operations::held_at(draft, entity, held, at);
        entity = at;
        let three = judge_listed::breaks_3(draft, n);
        let m = mark_at(
            draft,
            header,
            tables,
            places,
            index,
            Met {
                entity,
                held,
                three,
            },
            n,
        );
        marks[n] = m;
        total += judge_marks::how_many(m);
    }
    total
}
