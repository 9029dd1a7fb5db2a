// The check of a table: refusals 1 to 7 of document 01, a file for each subject. Test 3 is crate label_check.
#![tactic(auto)]

mod entries;
mod goal;
mod header;
mod hypotheses;
mod statements;

ghost use Rattle.std.specs.Prelude.{◌≡◌};
ghost use Rattle.answers.specs.Refused.{answer_number};
ghost use Rattle.defs.specs.Check.{table_refusal};

use answers::Refusal;
use entries::{children_wrong, entries_wrong};
use goal::goal_wrong;
use header::header_wrong;
use hypotheses::hypotheses_wrong;
use label_check::labels_wrong;
use statements::statements_wrong;
use table::header::read_header;
use table::sections::{child_section, entry_section, hyp_section, statement_section};

// Why a table is refused, if it is. Takes any words and any label bytes.
pub fn check(words: &[u32], labels: &[u8]) -> Result<(), Refusal>
    ensures { answer_number result ≡ table_refusal words.now labels.now }
{
    if header_wrong(words) {
        return Err(Refusal::Header);
    }
    let header = read_header(words);
    let s = header.statements;
    let n = header.entries;
    let statements = statement_section(words);
    let hyps = hyp_section(words);
    let entries = entry_section(words);
    let children = child_section(words);
    if statements_wrong(statements, s, hyps.len(), labels.len()) {
        return Err(Refusal::Statements);
    }
    if labels_wrong(statements, s, labels) {
        return Err(Refusal::Labels);
    }
    if hypotheses_wrong(statements, s, hyps) {
        return Err(Refusal::Hypotheses);
    }
    if entries_wrong(statements, s, entries, n, children.len()) {
        return Err(Refusal::Entries);
    }
    if children_wrong(entries, n, children) {
        return Err(Refusal::Children);
    }
    if goal_wrong(words, statements) {
        return Err(Refusal::Goal);
    }
    Ok(())
}
