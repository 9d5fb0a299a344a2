//! How many bindings are enabled after each firing of least runs.
use crate::anew::WORKLOAD;
use crate::nets::{options_of, system_of};
use rn_incr::run_counts;
use rn_model::{Entry, Reason};
use std::test::Fail;

const TOKENS: &[u8] = b"net main { var x: int; place p: int = 2, 1; trans t { in p: x; } }";

#[test]
fn counts_of_least_runs(rt: HostRuntime) -> Result<(), Fail> {
    let alloc = rt.alloc();
    let counted = run_counts(alloc, system_of(alloc, TOKENS)?, options_of(1000))?;
    assert_eq!(rt; counted.counts.as_slice(), [2, 1, 0].as_slice());
    let counted = run_counts(alloc, system_of(alloc, WORKLOAD)?, options_of(1000))?;
    assert_eq!(rt;
        counted.counts.as_slice(),
        [1, 2, 2, 2, 2, 2, 2, 2, 2, 1, 0].as_slice()
    );
    assert!(rt;
        matches!(
            counted.state.entries().last(),
            Some(Entry::End(Reason::Dead))
        )
    );
    let counted = run_counts(alloc, system_of(alloc, WORKLOAD)?, options_of(2))?;
    assert_eq!(rt; counted.counts.as_slice(), [1, 2, 2].as_slice());
    Ok(())
}
