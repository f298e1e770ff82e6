// The place of a part: found by halving, judged by the runs beside it, and moved on run by run.
ghost use Rattle.std.specs.Prelude.{◌≡◌, ◌+◌, ◌-◌, ◌≤◌, max};
ghost use Rattle.lift_record.specs.Halving.{precedes, halved, halved_place};
ghost use Rattle.lift_record.specs.Neighbours.{First, is_first, is_place};
ghost use Rattle.lift_record.specs.Record.{runs, part_at};
ghost use Rattle.lift_record.specs.declared.Edge.TheVariants as edge;

use crate::{END, Edge, Place, RUN_WORDS, START};

// Whether a run of the list lies before what is sought: it ended at a time or before, or it started before it.
// (List, edge and time go together through four functions. In a struct they would have to be put together twice in each
// of three callers, by functions with contracts of their own, which is no plainer.)
#[tactic(auto, using(crate::specs::PlacingLaws::edges))]
fn precedes(list: &[u64], side: Edge, time: u64, i: usize) -> bool
    ensures { result ≡ precedes list.now side time i }
{
    let (runs, _) = list.as_chunks::<RUN_WORDS>();
    i < runs.len()
        && match side {
            Edge::Start => runs[i][START] < time,
            Edge::End => runs[i][END] <= time,
        }
}

// The first run from run `lo` on that does not precede, by halving: no index is counted, and a list whose first runs
// are in no order has the answer of these very steps (`search_from`), of which `partition_point` says nothing.
#[tactic(auto, using(crate::specs::PlacingLaws::halvings))]
fn halve(list: &[u64], side: Edge, time: u64, mut lo: usize) -> usize
    ensures { result ≡ halved (precedes list.now side time) lo (runs list.now) }
{
    let mut hi = list.len() / RUN_WORDS;
    while lo < hi {
        let middle = lo + (hi - lo) / 2;
        if precedes(list, side, time, middle) {
            lo = middle + 1;
        } else {
            hi = middle;
        }
    }
    lo
}

// The place of the runs that end after now less the width and start before now, by halving.
#[tactic(auto, using(crate::specs::PlacingLaws::halved_places))]
pub(crate) fn halved_place(list: &[u64], now_ns: u64, width_ns: u64) -> Place
    ensures value { result ≡ halved_place list.now now_ns width_ns }
    ensures count_bound { result.first + result.count ≤ runs list.now }
{
    let first = halve(list, Edge::End, now_ns.saturating_sub(width_ns), 0);
    let behind = halve(list, Edge::Start, now_ns, first);
    Place {
        first,
        count: behind - first,
    }
}

// The first run from run `from` on that does not precede, run by run.
#[tactic(auto, using(crate::specs::PlacingLaws::walking))]
fn walk(list: &[u64], side: Edge, time: u64, from: usize) -> usize
    requires { from ≤ runs list.now }
    ensures { First (precedes list.now side time) from result }
{
    let runs = list.len() / RUN_WORDS;
    for i in from..runs {
        if !precedes(list, side, time, i) {
            return i;
        }
    }
    runs
}

// The place that a reading not before the one of this place names.
#[tactic(auto, using(crate::specs::PlacingLaws::walks))]
pub(crate) fn walk_on(list: &[u64], place: Place, now_ns: u64, width_ns: u64) -> Place
    requires { place.first + place.count ≤ runs list.now }
    ensures first { First (precedes list.now edge.End (now_ns - width_ns)) place.first result.first }
    ensures first_2 { First (precedes list.now edge.Start now_ns)
        (max result.first (place.first + place.count)) (result.first + result.count) }
    ensures count_bound { result.first + result.count ≤ runs list.now }
{
    let first = walk(
        list,
        Edge::End,
        now_ns.saturating_sub(width_ns),
        place.first,
    );
    let from = first.max(place.first + place.count);
    let behind = walk(list, Edge::Start, now_ns, from);
    Place {
        first,
        count: behind - first,
    }
}

// Whether a run is the first from `from` on that does not precede, by itself and the run before it.
#[tactic(auto, using(refusal::specs::Cases::cases), unfolding(crate::specs::Neighbours::is_first))]
fn is_first(list: &[u64], side: Edge, time: u64, from: usize, at: usize) -> bool
    ensures { result ≡ is_first (precedes list.now side time) from at }
{
    !precedes(list, side, time, at) && (at <= from || precedes(list, side, time, at - 1))
}

// Whether a place, which may be any two numbers, is a reading's, by the four runs beside its ends. The two are added
// only where their sum is known to fit.
#[tactic(auto, using(refusal::specs::Cases::cases), unfolding(crate::specs::Neighbours::is_place))]
pub(crate) fn is_place(list: &[u64], place: Place, now_ns: u64, width_ns: u64) -> bool
    ensures { result ≡ is_place list.now place now_ns width_ns }
{
    let count = list.len() / RUN_WORDS;
    let since = now_ns.saturating_sub(width_ns);
    if count < place.first || count - place.first < place.count {
        return false;
    }
    is_first(list, Edge::End, since, 0, place.first)
        && is_first(
            list,
            Edge::Start,
            now_ns,
            place.first,
            place.first + place.count,
        )
}

// The words of a place of the list.
#[tactic(auto, using(crate::specs::PlacingLaws::part_words))]
pub(crate) fn part<'a>(list: &'a [u64], place: Place) -> &'a [u64]
    requires { place.first + place.count ≤ runs list.now }
    ensures { result.now ≡ part_at list.now place }
{
    let start = RUN_WORDS * place.first;
    let end = start + RUN_WORDS * place.count;
    &list[start..end]
}
