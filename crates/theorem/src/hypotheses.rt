// The theorem's list is a part of the hypothesis section.
ghost use Rattle.std.specs.Prelude.{◌≡◌, map};
ghost use Rattle.defs.specs.Table.{kind_in, mandatory};
ghost use Rattle.defs.specs.Refusals.{mixed};
ghost use Rattle.theorem.specs.Goal.{TheoremOk, InStatements};

use table::header::read_header;
use table::sections::{hyp_section, statement_section};
use table::statements::{hyp_count, hyp_start, kind_of};
use table::{Kind, StatementNo};

pub fn theorem_list(words: &[u32]) -> &[u32]
    requires { TheoremOk words.now }
    ensures { result.now ≡ mandatory words.now }
{
    let theorem = read_header(words).theorem;
    let statements = statement_section(words);
    let hyps = hyp_section(words);
    let start = hyp_start(statements, theorem);
    let end = start + hyp_count(statements, theorem);
    &hyps[start..end]
}

// Refusal 10: a floating stands after an essential.
pub fn mixed(statements: &[u32], list: &[u32]) -> bool
    requires { InStatements statements.now list.now }
    ensures { result ≡ mixed (map (kind_in statements.now) list.now) }
{
    let mut essential = false;
    for k in list {
        let kind = kind_of(statements, StatementNo(*k));
        if essential && kind == Some(Kind::Floating) {
            return true;
        }
        if kind == Some(Kind::Essential) {
            essential = true;
        }
    }
    false
}
