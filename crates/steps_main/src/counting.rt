//! The counts of a receiver's lines.
ghost use Rattle.std.specs.Prelude.{◌≡◌, ◌+◌, ◌-◌, ◌<◌, ◌^◌};
ghost use Rattle.receivers.specs.Counting.{with_class, AreFew};
ghost use Rattle.receivers.specs.Receiver.{no_counts};

use receivers::{Class, Counts};

/// No line yet.
pub(crate) fn no_counts() -> Counts
    ensures { result ≡ no_counts }
{
    Counts {
        lines: 0,
        own: 0,
        strangers: 0,
        unframed: 0,
        bad: 0,
    }
}

// One more, where a count can say it.
fn one_more(count: u32) -> u32
    ensures { count < 2 ^ 32 - 1 → result ≡ count + 1 }
{
    count.saturating_add(1)
}

/// One more line of a class. A receiver gives fewer lines than a count can say.
pub(crate) fn counted(counts: Counts, class: Class) -> Counts
    ensures { AreFew counts → result ≡ with_class counts class }
{
    let counts = Counts {
        lines: one_more(counts.lines),
        ..counts
    };
    match class {
        Class::Own => Counts {
            own: one_more(counts.own),
            ..counts
        },
        Class::Strange => Counts {
            strangers: one_more(counts.strangers),
            ..counts
        },
        Class::Unframed => Counts {
            unframed: one_more(counts.unframed),
            ..counts
        },
        Class::Bad => Counts {
            bad: one_more(counts.bad),
            ..counts
        },
    }
}
