// The verdict of a test, where all that it needs is there.
ghost use Rattle.std.specs.Prelude.{◌≡◌};
ghost use Rattle.std.specs.Option.{option_map};
ghost use Rattle.kinds.specs.Judged.{judged as judged_of};

use crate::kind::Kind;
use bounds::line::Line;
use vocabulary::verdict::Verdict;

pub fn judged<K: Kind>(
    kind: &K,
    line: Option<Line>,
    reference: Option<K::Value>,
    offer: Option<K::Value>,
) -> Verdict
    ensures { result ≡ judged_of (K.Kind.test kind.now) line (option_map K.Kind.content reference) (option_map K.Kind.content offer) }
{
    let (Some(line), Some(reference), Some(offer)) = (line, reference, offer) else {
        return Verdict::NotTested;
    };
    if kind.passes(&line, &reference, &offer) {
        Verdict::Passed
    } else {
        Verdict::Failed
    }
}
