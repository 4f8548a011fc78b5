//! A trace with each budget that is less than its length, and with a read that fails after each of its bytes.
use crate::same::same;
use crate::verdicts::verdict_on;
use std::process::Abort;
use std::test::Fail;
use trace_check::Verdict;

// A trace with each kind of line. A function without a clause keeps the bytes out of the proofs.
fn whole() -> &'static [u8] {
    b"firefly-trace 1
threads 3 mutexes 2 conditions 1 semaphores 1
0 t0 acquire m0
1 t0 enqueue m0 c0
2 t1 acquire m0
3 t1 alert-enqueue m0 c0
4 t2 signal c0 left t1
5 t0 resume m0 c0
6 t2 alert t1
7 t0 release m0
8 t1 alert-resume m0 c0 raises
9 t1 release m0
10 t1 acquire m1
11 t1 alert-enqueue m1 c0
12 t2 broadcast c0
13 t1 alert-resume m1 c0 returns
14 t1 release m1
15 t0 p s0
16 t0 v s0
17 t0 alert-p s0 returns
18 t2 alert t0
19 t0 alert-p s0 raises
20 t1 test-alert no
21 t2 alert t2
22 t2 test-alert yes
end 23
value m0 0
value m1 18446744073709551615
"
}

#[test]
fn each_smaller_budget_is_too_long(rt: HostRuntime) -> Result<(), Fail> {
    for k in 0..whole().len() {
        let found = verdict_on(rt.alloc(), whole(), k as u64, None)?;
        same(&rt, &found, &Verdict::TooLong);
    }
    Ok(())
}

#[test]
fn a_read_that_fails_before_the_end_is_a_read_fault(rt: HostRuntime) -> Result<(), Fail> {
    for given in 0..whole().len() {
        let found = verdict_on(rt.alloc(), whole(), 100_000, Some(given))?;
        same(&rt, &found, &Verdict::ReadFault);
    }
    Ok(())
}
