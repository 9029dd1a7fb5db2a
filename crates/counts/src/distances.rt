// Distance: fewest child edges from QED; QED 0, unreachable 65535.
ghost use Rattle.std.specs.Prelude.{[], ◌≡◌, ◌<◌, length};
ghost use Rattle.answers.specs.Refused.{answer_number, answer_length};
ghost use Rattle.defs.specs.Graph.{graph_in};
ghost use Rattle.defs.specs.Counts.{lower, distances};
ghost use Rattle.defs.specs.Outcome.{answer_one, distances_outcome};
ghost use Rattle.defs.specs.Sections.{EntriesOk};

use answers::Refusal;
use table::EntryNo;
use table::entries::children_of;
use table::header::read_header;
use table::sections::{child_section, entry_section};
use table_check::check;

// The distance of what cannot be reached.
pub const UNREACHED: u16 = 65535;

// Each child of entry e has distance d where it had more.
fn hand_down(entries: &[u32], children: &[u32], e: EntryNo, d: u16, out: &mut [u16])
    requires entries_ok { EntriesOk entries.now children.now (length out.old) }
    requires e_in_bounds { e.0 < length out.old }
    ensures { out.new ≡ lower d ((graph_in entries.now children.now).kids e.0) out.old }
{
    let kids = children_of(entries, children, e);
    for c in kids {
        let at = *c as usize;
        out[at] = d.min(out[at]);
    }
}

// The distance of every entry. One descending pass suffices, since children lie below their parents: once an entry's turn comes,
// its distance stands. What cannot be reached hands nothing down, so the pass starts at QED: what stands above it is not reached.
pub fn all_distances(entries: &[u32], children: &[u32], qed: EntryNo, out: &mut [u16])
    requires entries_ok { EntriesOk entries.now children.now (length out.old) }
    requires qed_in_bounds { qed.0 < length out.old }
    ensures { out.new ≡ distances (graph_in entries.now children.now) (length out.old) qed.0 }
{
    out.fill(UNREACHED);
    let at = qed.0 as usize;
    out[at] = 0;
    for e in (0..at + 1).rev() {
        let distance = out[e];
        if distance < UNREACHED {
            hand_down(entries, children, EntryNo(e as u32), distance + 1, out);
        }
    }
}

// The distances of every entry of a table, n of them: tests 1 to 7 and 15.
pub fn distances(words: &[u32], labels: &[u8], out: &mut [u16]) -> Result<usize, Refusal>
    ensures { answer_one (answer_number result) (answer_length result) [] out.new ≡ distances_outcome words.now labels.now out.old }
{
    check(words, labels)?;
    let header = read_header(words);
    let n = header.entries as usize;
    if out.len() < n {
        return Err(Refusal::ShortOutput);
    }
    all_distances(
        entry_section(words),
        child_section(words),
        header.qed,
        &mut out[..n],
    );
    Ok(n)
}
