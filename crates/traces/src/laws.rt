//! Laws of traces.

ghost use Rattle.std.specs.Prelude.{◌≡◌, ℕ, List};
ghost use Rattle.values.specs.declared.content.Content.{Content};
ghost use Rattle.run_model.specs.Gathering.{Histories};
ghost use Rattle.traces.specs.Traces.{HasBadLine, IsTrace, LacksSetup};

/// Bytes are one trace at most.
pub fn one_trace()
    ensures { (bytes : List ℕ) (s t : List (List Content)) (hs ks : Histories)
        → IsTrace bytes s hs → IsTrace bytes t ks → (s ≡ t) × (hs ≡ ks) }
{}

/// A trace begins with a setup line and has no bad line.
pub fn no_fault_in_a_trace()
    ensures setup { (bytes : List ℕ) (s : List (List Content)) (hs : Histories)
        → IsTrace bytes s hs → LacksSetup bytes → ⊥ }
    ensures line { (bytes : List ℕ) (s : List (List Content)) (hs : Histories) (n : ℕ)
        → IsTrace bytes s hs → HasBadLine bytes n → ⊥ }
{}

/// Bytes have one fault at most: they lack the setup line, or have one bad line.
pub fn one_fault()
    ensures setup { (bytes : List ℕ) (n : ℕ) → HasBadLine bytes n → LacksSetup bytes → ⊥ }
    ensures line { (bytes : List ℕ) (m n : ℕ)
        → HasBadLine bytes m → HasBadLine bytes n → m ≡ n }
{}
