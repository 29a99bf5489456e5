//! Streams that fail.

use crate::breaking::{Breaking, NEVER};
use crate::choppy::Choppy;
use crate::race_runs::run_into;
use bw_model::Limits;
use std::alloc::Global;
use std::io::ErrorKind;
use std::sync::Wait;
use std::thread::Threads;

const INPUT: &[u8] = b"1 insert k02 =\n\n0 insert k01 v01\n0 get k01\n1 upsert k02 v02\n2 tidy k09";

const OUTPUT: &[u8] =
    b"0 inserted\n0 value v01\n1 inserted\n1 replaced =\n2 tidied\npairs 2\nk01 v01\nk02 v02\n";

// The fourth line is refused; its LF is the 43rd byte.
const SPOILT: &[u8] = b"1 insert k02 =\n\n0 insert k01 v01\n0 got k01\n1 get k02\n2 get k03\n";

const REFUSAL: &[u8] = b"refused line 4: 11\n";

// Whether a race prints this where the read after so many fails, of seven bytes each, though the next ones wouldn't.
fn prints_after<R: Threads + Wait + Sync>(
    rt: &R,
    alloc: Global,
    limits: Limits,
    (input, reads): (&[u8], u32),
    fault: ErrorKind,
    output: &[u8],
) -> bool {
    let cut = Choppy {
        bytes: input,
        size: 7,
        before_fault: reads,
        fault,
    };
    run_into(rt, alloc, limits, cut, Breaking::taking(alloc, 4096, NEVER)).is(output, 1)
}

// Whether that goes for each read that fails: no job is run, and a refused line is told where it is whole. 11 reads take all of INPUT, 7 take
// the refused line, and one more meets the end.
fn reads_fail<R: Threads + Wait + Sync>(rt: &R, alloc: Global, fault: ErrorKind) -> bool {
    let Ok(limits) = Limits::new(2, 64, 256, 1) else {
        return false;
    };
    for reads in 0..11 {
        let told = if reads < 7 { b"".as_slice() } else { REFUSAL };
        if !prints_after(rt, alloc, limits, (INPUT, reads), fault, b"")
            || !prints_after(rt, alloc, limits, (SPOILT, reads), fault, told)
        {
            return false;
        }
    }
    true
}

#[test]
fn failed_reads(rt: HostRuntime) {
    for fault in [ErrorKind::Other, ErrorKind::Interrupted] {
        assert!(rt; reads_fail(&rt, rt.alloc(), fault), "{fault}");
    }
}

// Whether a race prints all, with so many bytes a read and a write.
fn prints_all<R: Threads + Wait + Sync>(rt: &R, alloc: Global, size: usize) -> bool {
    let Ok(limits) = Limits::new(2, 64, 256, 1) else {
        return false;
    };
    let input = Choppy::sound(INPUT, size);
    run_into(
        rt,
        alloc,
        limits,
        input,
        Breaking::taking(alloc, size, NEVER),
    )
    .is(OUTPUT, 0)
}

#[test]
fn few_bytes_at_a_time(rt: HostRuntime) {
    for size in [1, 5, 7] {
        assert!(rt; prints_all(&rt, rt.alloc(), size), "{size} bytes at a time");
    }
}

// Whether a race over a writer that fails, of five bytes a write, leaves the beginning of the output that it could write.
fn leaves<R: Threads + Wait + Sync>(
    rt: &R,
    alloc: Global,
    limits: Limits,
    out: Breaking,
    written: usize,
) -> bool {
    let output = OUTPUT.split_at(written.min(OUTPUT.len())).0;
    run_into(rt, alloc, limits, Choppy::sound(INPUT, 7), out).is(output, 1)
}

// Whether each write that fails leaves a beginning of the output, though the next ones wouldn't fail, and a flush that fails leaves all.
fn writes_fail<R: Threads + Wait + Sync>(rt: &R, alloc: Global) -> bool {
    let Ok(limits) = Limits::new(3, 64, 256, 1) else {
        return false;
    };
    for n in 0..(OUTPUT.len() + 4) / 5 {
        let out = Breaking::taking(alloc, 5, u32::try_from(n).unwrap_or(NEVER));
        if !leaves(rt, alloc, limits, out, n.saturating_mul(5)) {
            return false;
        }
    }
    let mut out = Breaking::taking(alloc, 5, NEVER);
    out.flush_fails = true;
    leaves(rt, alloc, limits, out, OUTPUT.len())
}

#[test]
fn failed_writes(rt: HostRuntime) {
    assert!(rt;
        writes_fail(&rt, rt.alloc()),
        "what a write or the flush left"
    );
}
