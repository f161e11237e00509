// Traces: where a page first stands.
#![tactic(auto)]

ghost use Rattle.std.specs.Prelude.{◌≡◌, ◌<◌, length, MatchOption};
ghost use Rattle.traces.specs.Depth.{depth};

// The place of the first word that is p, if one is.
pub fn find(s: &[u32], p: u32) -> Option<usize>
    ensures { MatchOption result (depth p s.now ≡ length s.now) (λ i. (depth p s.now ≡ i) × (i < length s.now)) }
{
    s.iter().position(|x| *x == p)
}
