// The labels of a log, by level and those of one name brought together, handed to a lent table if it has room: over scratch of the
// labels' number.
#![tactic(auto)]

ghost use Rattle.std.specs.Prelude.{◌≡◌, ◌+◌, ◌≤◌, ◌<◌, length, set, take};
ghost use Rattle.events.specs.Log.{Holds};
ghost use Rattle.entries.specs.Entries.{label_word};
ghost use Rattle.entries.specs.Levels.{LabelFits};
ghost use Rattle.labels.specs.Labels.{Merged};
ghost use Rattle.grouping.specs.Grouping.{grouped};
ghost use Rattle.labelling.specs.Naming.{acts, naming, here, by, Collects, Few};
ghost use Rattle.labelling.specs.Putting.{Asked, LabelsAsked, Puts};

use entries::{Label, label_in, put_label};
use events::{Event, event_of};
use tables::copy_front;

// The level that is open, how many levels and labels there are, and how many actions the open level has so far.
#[derive(Clone, Copy)]
pub struct Namer {
    pub level: usize,
    pub levels: usize,
    pub labels: usize,
    pub actions: usize,
}

// 1 for an action, else 0.
fn acts(event: Event) -> usize
    ensures { (result ≡ acts event) × (result ≤ 1) }
{
    usize::from(matches!(event, Event::Action(_)))
}

// Puts where a label, or a level, stands in the open level.
fn put_here(table: &mut [u64], at: usize, n: Namer, token: usize)
    requires { LabelFits (here token n) }
    ensures { table.new ≡ set table.old at (label_word (here token n)) }
{
    let place = Label {
        level: n.level,
        token,
        position: n.actions,
    };
    put_label(table, at, place);
}

// `own` tells where each level opened: in which level, and behind how many of its actions, as a label's word does. Actions and operands
// have one answer, so that the processor need not guess between them.
fn name_event(event: Event, n: Namer, own: &mut [u64], named: &mut [u64]) -> Namer
    requires { Few 65536 own.old n × Holds event }
    ensures { naming own.new named.new result ≡ by event (naming own.old named.old n) }
{
    match event {
        Event::Action(_) | Event::Operand(_) => Namer {
            actions: n.actions + acts(event),
            ..n
        },
        Event::Label(token) => {
            put_here(named, n.labels, n, token as usize);
            Namer {
                labels: n.labels + 1,
                ..n
            }
        }
        Event::Opened(_) => {
            put_here(own, n.levels, n, 0);
            Namer {
                level: n.levels,
                levels: n.levels + 1,
                actions: 0,
                ..n
            }
        }
        Event::Closed => {
            let place = label_in(own, n.level);
            Namer {
                level: place.level,
                actions: place.position,
                ..n
            }
        }
    }
}

// Labels in the order of the text.
fn collect(log: &[u64], own: &mut [u64], named: &mut [u64])
    requires { length log.now ≤ 65536 }
    ensures { Collects log.now own.old named.old own.new named.new }
{
    let top = Label {
        level: 0,
        token: 0,
        position: 0,
    };
    put_label(own, 0, top);
    let mut n = Namer {
        level: 0,
        levels: 1,
        labels: 0,
        actions: 0,
    };
    for word in log {
        let event = event_of(*word);
        n = name_event(event, n, own, named);
    }
}

// Labels by level, those of one name brought together; how many they are.
fn arrange_labels(
    text: &[u8],
    s: &[u64],
    n: usize,
    levels: usize,
    labels: &mut [u64],
    sorted: &mut [u64],
    starts: &mut [u64],
) -> usize
    requires { LabelsAsked n levels labels.old sorted.old starts.old }
    ensures { Merged text.now s.now (grouped levels (take n labels.old)) labels.old labels.new result }
{
    let named = &labels[..n];
    grouping::group(named, levels, sorted, starts);
    labels::merge_labels(text, s, sorted, n, labels, starts)
}

// Over scratch of N places.
#[inline(never)]
fn put_over<const N: usize>(
    text: &[u8],
    s: &[u64],
    log: &[u64],
    n: usize,
    levels: usize,
    labels: &mut [u64],
) -> Option<usize>
    requires asked { Asked text.now s.now log.now n levels }
    requires roomy { (n ≤ N) × ((levels < N) × (N ≤ 65536)) }
    ensures { Puts text.now s.now log.now labels.old labels.new result }
{
    let mut named = [0u64; N];
    let mut sorted = [0u64; N];
    let mut starts = [0u64; N];
    collect(log, &mut starts, &mut named);
    let m = arrange_labels(text, s, n, levels, &mut named, &mut sorted, &mut starts);
    if labels.len() < m {
        return None;
    }
    copy_front(&named, m, labels);
    Some(m)
}

// The labels of a log that names n of them, in so many levels: how many the lent table got. None: it has too few places for so
// many, and is as it was. Scratch goes by their number, so that a call with few labels does not pay for that of many.
pub fn put_labels(
    text: &[u8],
    s: &[u64],
    log: &[u64],
    n: usize,
    levels: usize,
    labels: &mut [u64],
) -> Option<usize>
    requires { Asked text.now s.now log.now n levels }
    ensures { Puts text.now s.now log.now labels.old labels.new result }
{
    if n == 0 {
        return Some(0);
    }
    if n + levels <= 64 {
        return put_over::<66>(text, s, log, n, levels, labels);
    }
    if n + levels <= 512 {
        return put_over::<514>(text, s, log, n, levels, labels);
    }
    if n + levels <= 4096 {
        return put_over::<4098>(text, s, log, n, levels, labels);
    }
    put_over::<32770>(text, s, log, n, levels, labels)
}
