// What the compressed form asks of the listed statements.
ghost use Rattle.std.specs.Prelude.{◌≡◌, eqb, ltb};
ghost use Rattle.laws.specs.Tools.{any};
ghost use Rattle.defs.specs.Table.{kind_in, label_length_in};
ghost use Rattle.theorem.specs.Goal.{InStatements};

use table::statements::{kind_of, label_length};
use table::{Kind, StatementNo};

// 11: a reachable essential not in the theorem's list. The listed statements are those reachable and not in that list.
pub fn has_essential(statements: &[u32], list: &[u32]) -> bool
    requires { InStatements statements.now list.now }
    ensures { result ≡ any (λ k. eqb (kind_in statements.now k) 2) list.now }
{
    list.iter().any(|k| kind_of(statements, StatementNo(*k)) == Some(Kind::Essential))
}

// 12: a label to be listed longer than line width minus indent, which is `most`.
pub fn has_longer(statements: &[u32], list: &[u32], most: usize) -> bool
    requires { InStatements statements.now list.now }
    ensures { result ≡ any (λ k. ltb most (label_length_in statements.now k)) list.now }
{
    list.iter()
        .any(|k| most < label_length(statements, StatementNo(*k)))
}
