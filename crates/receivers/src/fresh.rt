//! What fresh receivers show of their sources.
ghost use Rattle.std.specs.Prelude.{◌≡◌, [], None, IsTrue};
ghost use Rattle.lists.specs.Each.{Each};

use crate::receiver::Receiver;
use outer_io::{Sink, Source};

fn show_one<S: Source, K: Sink>(receiver: &Receiver<S, K>)
    requires { receiver.now.ended ≡ None }
    ensures { IsTrue S.tells → S.taken receiver.now.source ≡ [] }
{
    let _line = receiver.lines.line();
}

/// Nothing was taken yet from the sources of fresh receivers. Nothing is done: what is said of the bytes of their runs needs it.
pub fn show_untaken<S: Source, K: Sink>(receivers: &[Receiver<S, K>])
    requires { Each (λ r. r.ended ≡ None) receivers.now }
    ensures { Each (λ r. IsTrue S.tells → S.taken r.source ≡ []) receivers.now }
{
    if let [receiver, later @ ..] = receivers {
        show_one(receiver);
        show_untaken(later);
    }
}
