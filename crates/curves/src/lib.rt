// The LRU curve: one walk over a trace gives the hits at every capacity from 1 to the largest.
#![tactic(auto)]

ghost use Rattle.std.specs.Prelude.{◌≡◌, false, ◌+◌, ◌≤◌, ◌<◌, length};
ghost use Rattle.meaning.specs.Base.{series, pad};
ghost use Rattle.meaning.specs.Neighbours.{NONE, has};
ghost use Rattle.traces.specs.Depth.{depth};
ghost use Rattle.curves.specs.PageList.{step, list_after, pages_of, hits_of};
ghost use Rattle.curves.specs.Curve.{CurvedAs, Paired, moved, bump, bumps, total, sums};

use meaning::Refusal;
use traces::find;

// The first e places move one down, over place e, and p goes first. No `copy_within`: the archive for C would ask for `memmove`.
#[tactic(auto, using(crate::proofs::Lists::shift_turn, crate::proofs::Lists::shift_next))]
fn shift(w: &mut [u32], e: usize, p: u32)
    requires { e < length w.old }
    ensures { w.new ≡ moved e p w.old }
{
    let mut carry = p;
    for x in w[..=e].iter_mut() {
        std::mem::swap(x, &mut carry);
    }
}

// One request: a hit is counted at its depth, and p goes to the front.
// The two buffers are two arguments, as the C interface lends two slices: a struct would be built for one call and taken apart in each.
#[tactic(auto, using(crate::proofs::Lists::total_get_le, crate::proofs::Lists::bump_out, crate::proofs::Counts::step_hit, crate::proofs::Counts::step_miss))]
fn visit(p: u32, res: &mut [u32], work: &mut [u32])
    requires { Paired res.old work.old × (total res.old < 4294967295) }
    ensures { (res.new ≡ bump res.old (depth p work.old)) × (work.new ≡ step (length work.old) p work.old) }
{
    match find(work, p) {
        Some(d) => {
            res[d] += 1;
            shift(work, d, p);
        }
        None => shift(work, work.len() - 1, p),
    }
}

// All requests in turn.
fn walk(trace: &[u32], res: &mut [u32], work: &mut [u32])
    requires { Paired res.old work.old × (total res.old + length trace.now ≤ 4294967295) }
    ensures { (res.new ≡ bumps (length work.old) res.old work.old trace.now) × (work.new ≡ list_after (length work.old) work.old trace.now) }
{
    for &p in trace {
        visit(p, res, work);
    }
}

// Each word becomes the sum of the words up to it.
#[tactic(auto, using(crate::proofs::Lists::sums_turn, crate::proofs::Lists::sums_end, crate::proofs::Lists::total_turn))]
fn add_up(s: &mut [u32])
    requires { total s.old ≤ 4294967295 }
    ensures { s.new ≡ sums 0 s.old }
{
    let mut sum: u32 = 0;
    for x in s.iter_mut() {
        sum += *x;
        *x = sum;
    }
}

// The curve into two buffers of exactly as many words as the largest capacity.
#[tactic(auto, using(crate::proofs::Counts::zeros, crate::proofs::Counts::total_bumps_le))]
fn curve_into(trace: &[u32], res: &mut [u32], work: &mut [u32])
    requires { Paired res.old work.old × (length trace.now ≤ 65535) × (has trace.now NONE ≡ false) }
    ensures { (res.new ≡ series (hits_of trace.now) (length work.old) 1) × (work.new ≡ pad NONE (length work.old) (pages_of (length work.old) trace.now)) }
{
    res.fill(0);
    work.fill(settings::NONE);
    walk(trace, res, work);
    add_up(res);
}

// The hits of LRU at each capacity from 1 to `largest`, into `res`, and the LRU list at `largest`, into `work`.
#[tactic(auto, using(crate::proofs::Answers::owed, traces::proofs::Depth::told))]
pub fn curve(largest: u32, trace: &[u32], res: &mut [u32], work: &mut [u32]) -> Result<(), Refusal>
    ensures { CurvedAs largest trace.now res.old work.old result res.new work.new }
{
    if largest < 1 {
        return Err(Refusal::CapacityOutside);
    }
    if 512 < largest {
        return Err(Refusal::CapacityOutside);
    }
    if 65535 < trace.len() {
        return Err(Refusal::TooLong);
    }
    if trace.contains(&settings::NONE) {
        return Err(Refusal::PageIsNone);
    }
    let n = largest as usize;
    if res.len() < n {
        return Err(Refusal::TooShort);
    }
    if work.len() < n {
        return Err(Refusal::TooShort);
    }
    curve_into(trace, &mut res[..n], &mut work[..n]);
    Ok(())
}
