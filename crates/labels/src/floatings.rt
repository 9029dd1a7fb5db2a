// The block rule starts from the theorem's floating count, not from the length of its list.
ghost use Rattle.std.specs.Prelude.{◌≡◌, length, eqb};
ghost use Rattle.laws.specs.Tools.{keep};
ghost use Rattle.defs.specs.Table.{kind_in};
ghost use Rattle.theorem.specs.Goal.{InStatements};

use table::statements::kind_of;
use table::{Kind, StatementNo};

pub fn count_floatings(statements: &[u32], list: &[u32]) -> usize
    requires { InStatements statements.now list.now }
    ensures { result ≡ length (keep (λ k. eqb (kind_in statements.now k) 1) list.now) }
{
    list.iter()
        .filter(|k| kind_of(statements, StatementNo(**k)) == Some(Kind::Floating))
        .count()
}
