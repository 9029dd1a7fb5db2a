// Refusal 16 of decoding: a list item not below s, in the theorem's list, or repeated.
ghost use Rattle.std.specs.Prelude.{◌≡◌};
ghost use Rattle.std.specs.List.{list_any};
ghost use Rattle.decode.specs.Labels.{bad_item, bad_list};

use theorem::lists::repeats;

// The item is not below s, or stands in the theorem's list.
#[tactic(auto, using(laws::specs::Library::list_any_member), unfolding(crate::specs::Labels::bad_item))]
fn item_wrong(s: u32, hypotheses: &[u32], k: u32) -> bool
    ensures { result ≡ bad_item s hypotheses.now k }
{
    s <= k || hypotheses.contains(&k)
}

fn some_wrong(s: u32, hypotheses: &[u32], list: &[u32]) -> bool
    ensures { result ≡ list_any (bad_item s hypotheses.now) list.now }
{
    list.iter().any(|&k| item_wrong(s, hypotheses, k))
}

// A list of more than s numbers below s repeats one of them. So the search over pairs is never longer than s allows.
pub fn list_wrong(s: u32, hypotheses: &[u32], list: &[u32]) -> bool
    ensures { result ≡ bad_list s hypotheses.now list.now }
{
    if some_wrong(s, hypotheses, list) {
        return true;
    }
    list.len() > s as usize || repeats(list)
}
