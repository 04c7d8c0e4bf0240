// Mitigation, for every kind of parameter.
ghost use Rattle.std.specs.Prelude.{◌≡◌, true, false, ◌&&◌};
ghost use Rattle.std.specs.Option.{option_map};
ghost use Rattle.vocabulary.specs.Verdicts.{failed};
ghost use Rattle.kinds.specs.Judged.{judged as judged_of, mitigated as mitigated_of, DifferWhen};

use crate::judged::judged;
use crate::kind::Kind;
use bounds::line::Line;
use vocabulary::verdict::Verdict;

// What an offer becomes: its substitute where its conduct fails and it may be replaced, else itself.
pub fn mitigated<K: Kind>(
    kind: &K,
    line: Option<Line>,
    replaceable: bool,
    reference: Option<K::Value>,
    offer: Option<K::Value>,
) -> Option<K::Value>
    ensures value { option_map K.Kind.content result ≡ mitigated_of (K.Kind.test kind.now) (K.Kind.substitute kind.now) line replaceable (option_map K.Kind.content reference) (option_map K.Kind.content offer) }
    ensures differs { DifferWhen (failed (judged_of (K.Kind.test kind.now) line (option_map K.Kind.content reference) (option_map K.Kind.content offer)) && replaceable) (option_map K.Kind.content result) (option_map K.Kind.content offer) }
    ensures settled { replaceable ≡ true → failed (judged_of (K.Kind.test kind.now) line (option_map K.Kind.content reference) (option_map K.Kind.content result)) ≡ false }
    ensures steady { mitigated_of (K.Kind.test kind.now) (K.Kind.substitute kind.now) line replaceable (option_map K.Kind.content reference) (option_map K.Kind.content result) ≡ option_map K.Kind.content result }
{
    match (reference, offer) {
        (Some(level), Some(offered))
            if replaceable && judged(kind, line, reference, offer).is_failed() => {
            Some(kind.replace(&level, &offered))
        }
        _ => offer,
    }
}
