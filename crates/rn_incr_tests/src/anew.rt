//! The numbers of kept lists against those of a search of everything.
ghost use Rattle.std.specs.Prelude.{◌≤◌};
ghost use Rattle.rn_model.specs.Limits.{most_steps};

use crate::nets::{options_of, system_of};
use rn_channel::Uplinks;
use rn_finder::all_bindings;
use rn_fire::SimState;
use rn_incr::run_counts;
use std::alloc::Global;
use std::test::Fail;

/// Two clocks, to each of which the first instance refers.
pub(crate) const CLOCKS: &[u8] = b"net main { var a, b: net; place go = []; place keep: net;
  trans t { in go; a: new clock; b: new clock; out keep: a; out keep: b; } }
net clock { place p = []; trans tick { in p; out p; } }";

/// What the first instance may do depends on one to which it refers by another.
pub(crate) const TWO_HOPS: &[u8] = b"channel up(int); channel get(int);
net main { var a: net; var k: int; place go = []; place held: net;
  trans make { in go; a: new middle; out held: a; }
  trans read { in held: a; a:up(k); guard k > 2; } }
net middle { var b: net; var k: int; place go = []; place leaf: net;
  trans make { in go; b: new bottom; out leaf: b; }
  trans up { :up(k); test leaf: b; b:get(k); } }
net bottom { var k: int; place n: int = 0;
  trans grow { in n: k; guard k < 3; out n: k + 1; }
  trans get { :get(k); test n: k; } }";

/// The first instance refers to another by a list in a tuple alone.
pub(crate) const PACKED: &[u8] = b"channel get(int);
net main { var a: net; var j, k: int; place go = []; place held: [int,{net}];
  trans make { in go; a: new bottom; out held: [1,{a}]; }
  trans read { in held: [k,{a}]; a:get(j); guard j > 2; } }
net bottom { var k: int; place n: int = 0;
  trans grow { in n: k; guard k < 3; out n: k + 1; }
  trans get { :get(k); test n: k; } }";

// References are passed on and let go of.
const PASSED: &[u8] = b"channel to(net); channel take();
net main { var n: int; var a, b: net; place left: int = 2; place first: net; place last: net; place go = [];
  trans begin { in go; a: new seat; out first: a; out last: a; }
  trans more { in left: n; guard n > 0; in last: a; b: new seat; b:to(a); out last: b; out left: n - 1; }
  trans close { in left: 0; in first: a; in last: b; a:to(b); b:take(); } }
net seat { var a: net; place next: net; place token;
  trans to { :to(a); out next: a; }
  trans take { :take(); out token; }
  trans pass { in token; in next: a; a:take(); } }";

/// A workload of two workers, which are given up one after the other.
pub(crate) const WORKLOAD: &[u8] = b"channel go(int); channel done();
net main { var n: int; var k: int; var w: net; place c: int = 2; place busy: net;
  trans make { in c: n; guard n > 0; w: new worker; out c: n - 1; out busy: w; }
  trans step { in busy: w; w:go(k); out busy: w; }
  trans finish { in busy: w; w:done(); } }
net worker { var k: int; place s: int = 0;
  trans go { :go(k); in s: k; guard k < 3; out s: k + 1; }
  trans done { :done(); in s: 3; } }";

// How many bindings are enabled at the end of a state, found by a search of everything.
fn count_anew(alloc: Global, state: &SimState) -> Result<usize, Fail> {
    let _length = state.length();
    let system = state.system();
    let uplinks = Uplinks::new(alloc, system)?;
    let found = all_bindings(alloc, system, &uplinks, state.table(), 4)?;
    Ok(found.len())
}

// Whether the last number of the least run of a net with so many firings at most is that of a search of
// everything, for each number of firings up to this one.
fn are_those_anew(alloc: Global, text: &[u8], steps: u32) -> Result<bool, Fail>
    requires { steps ≤ most_steps }
{
    for k in 0..steps {
        let counted = run_counts(alloc, system_of(alloc, text)?, options_of(k))?;
        let anew = count_anew(alloc, &counted.state)?;
        if counted.counts.as_slice().last() != Some(&(anew as u128)) {
            return Ok(false);
        }
    }
    Ok(true)
}

#[test]
fn counts_are_those_of_a_search_of_everything(rt: HostRuntime) -> Result<(), Fail> {
    let alloc = rt.alloc();
    let texts = [CLOCKS, TWO_HOPS, PACKED, PASSED, WORKLOAD];
    for text in texts {
        assert!(rt; are_those_anew(alloc, text, 12)?);
    }
    Ok(())
}

#[test]
fn counts_of_what_depends_on_others(rt: HostRuntime) -> Result<(), Fail> {
    let alloc = rt.alloc();
    let counted = run_counts(alloc, system_of(alloc, CLOCKS)?, options_of(3))?;
    assert_eq!(rt; counted.counts.as_slice(), [1, 2, 2, 2].as_slice());
    let counted = run_counts(alloc, system_of(alloc, TWO_HOPS)?, options_of(20))?;
    assert_eq!(rt; counted.counts.as_slice(), [1, 1, 1, 1, 1, 1, 0].as_slice());
    let counted = run_counts(alloc, system_of(alloc, PACKED)?, options_of(20))?;
    assert_eq!(rt; counted.counts.as_slice(), [1, 1, 1, 1, 1, 0].as_slice());
    Ok(())
}
