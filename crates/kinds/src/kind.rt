// What a kind of parameter is.
ghost use Rattle.std.specs.Prelude.{◌≡◌, Bool, true};
ghost use Rattle.bounds.specs.declared.line.Line.{Line};

use bounds::line::Line;

pub trait Kind {
    type Value: Copy;

    // what a value says, apart from how it is stored
    ghost Content: { Type 0 };

    ghost content: { Self.Value → Content };

    // whether conduct passes: line, reference, offer
    ghost test: { Self → Line → Content → Content → Bool };

    // what stands in for an offer: reference, offer
    ghost substitute: { Self → Content → Content → Content };

    fn passes(&self, line: &Line, reference: &Self::Value, offer: &Self::Value) -> bool
        ensures { result ≡ test self.now line.now (content reference.now) (content offer.now) };

    fn replace(&self, reference: &Self::Value, offer: &Self::Value) -> Self::Value
        ensures { content result ≡ substitute self.now (content reference.now) (content offer.now) };

    // a substitute passes the test
    ghost settled: { (k : Self) (l : Line) (r v : Self.Value) → test k l (content r) (substitute k (content r) (content v)) ≡ true };

    // substituting again gives the same
    ghost steady: { (k : Self) (r v : Self.Value) → substitute k (content r) (substitute k (content r) (content v)) ≡ substitute k (content r) (content v) };
}
