//! Many commands.

use crate::race_runs::{add_parts, prints};
use crate::words::limits_of;
use std::alloc::Global;
use std::sync::Wait;
use std::thread::Threads;

// What is told of a key.
#[derive(Clone, Copy)]
enum Line {
    // The command that inserts it, of four jobs in turn.
    Insert,
    // The reply.
    Inserted,
    // The pair.
    Pair,
}

// A pair of a key of a job, of which the number stands in the key and is the value.
fn pair(job: u32, number: u32) -> [u8; 12] {
    let job = b'0' + (job % 10) as u8;
    let (hundreds, tens, ones) = (
        b'0' + (number / 100 % 10) as u8,
        b'0' + (number / 10 % 10) as u8,
        b'0' + (number % 10) as u8,
    );
    [
        job, b'k', b'1', hundreds, tens, ones, b' ', b'1', hundreds, tens, ones, b'\n',
    ]
}

// Adds the line of a place among 4,000, if there is memory for it.
fn add_line(text: &mut Vec<u8>, line: Line, place: u32) -> bool {
    match line {
        Line::Insert => {
            let pair = pair(place % 4, place / 4);
            add_parts(text, &[&pair[..1], b" insert ", &pair])
        }
        Line::Inserted => add_parts(text, &[&pair(place / 1000, place)[..1], b" inserted\n"]),
        Line::Pair => add_parts(text, &[&pair(place / 1000, place)]),
    }
}

// Adds a line for each of a thousand keys of four jobs, if there is memory for all.
fn add_lines(text: &mut Vec<u8>, line: Line) -> bool {
    for place in 0..4000 {
        if !add_line(text, line, place) {
            return false;
        }
    }
    true
}

// Whether four jobs insert a thousand keys each, of its own, into a tree of the limits that these words ask for.
fn are_inserted<R: Threads + Wait + Sync>(rt: &R, alloc: Global, line: &str) -> bool {
    let Some(limits) = limits_of(alloc, line) else {
        return false;
    };
    let mut input = Vec::new(alloc);
    let mut output = Vec::new(alloc);
    add_lines(&mut input, Line::Insert)
        && add_lines(&mut output, Line::Inserted)
        && add_parts(&mut output, &[b"pairs 4000\n"])
        && add_lines(&mut output, Line::Pair)
        && prints(rt, alloc, limits, input.as_slice(), (output.as_slice(), 0))
}

#[test]
fn thousands_of_inserts(rt: HostRuntime) {
    let line = "race --seats 4";
    assert!(rt; are_inserted(&rt, rt.alloc(), line), "{line}");
}

#[test]
fn thousands_of_inserts_by_keys(rt: HostRuntime) {
    let line = "race --seats 4 --keys 4000";
    assert!(rt; are_inserted(&rt, rt.alloc(), line), "{line}");
}

// Of a large tree, whose rows have three widths.
#[test]
fn thousands_of_inserts_in_a_large_tree(rt: HostRuntime) {
    let line = "race --seats 4 --large --keys 4000 --key-bytes 8 --value-bytes 8";
    assert!(rt; are_inserted(&rt, rt.alloc(), line), "{line}");
}
