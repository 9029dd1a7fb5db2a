// Parents of an entry: child references to it over ALL entries, repeats and unreachable parents included.
ghost use Rattle.std.specs.Prelude.{[], ◌≡◌, length};
ghost use Rattle.answers.specs.Refused.{answer_number, answer_length};
ghost use Rattle.defs.specs.Outcome.{answer_one, parents_outcome};
ghost use Rattle.counts.specs.Parents.{Within, times_each};

use answers::Refusal;
use table::header::read_header;
use table::sections::child_section;
use table_check::check;

// The child lists of all entries, one after another, are the child section: one pass over it counts every reference.
pub fn count_parents(children: &[u32], counts: &mut [u32])
    requires { Within children.now (length counts.old) }
    ensures { counts.new ≡ times_each children.now (length counts.old) }
{
    counts.fill(0);
    for e in children {
        counts[*e as usize] += 1;
    }
}

// The parents of every entry of a table, n of them: tests 1 to 7 and 15.
pub fn parents(words: &[u32], labels: &[u8], out: &mut [u32]) -> Result<usize, Refusal>
    ensures { answer_one (answer_number result) (answer_length result) [] out.new ≡ parents_outcome words.now labels.now out.old }
{
    check(words, labels)?;
    let n = read_header(words).entries as usize;
    if out.len() < n {
        return Err(Refusal::ShortOutput);
    }
    count_parents(child_section(words), &mut out[..n]);
    Ok(n)
}
