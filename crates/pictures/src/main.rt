//! The program that draws the trees of docs/pictures: one picture for each part of its input. Between two parts stands an empty line.
//!
//! Look at `main`, which is all of it: each part is drawn by `draw` (`drawing`) on a small tree.
//!
//! Called by the gate, whose stored run is compared with what it prints; checks/copies compares docs/pictures with that. It knows no more
//! of a tree than `drawing` says.
#![tactic(auto)]

use bw_model::Limits;
use byte_streams::{Reader, Writer};
use drawing::draw;
use std::io;
use std::process::ExitCode;

fn main(rt: HostRuntime) -> ExitCode {
    let alloc = rt.alloc();
    let Ok(limits) = Limits::new(2, 64, 256, 1) else {
        return ExitCode::FAILURE;
    };
    let Ok(parts) = io::read_to_string(alloc, rt.reader()) else {
        return ExitCode::FAILURE;
    };
    for part in parts.split("\n\n") {
        let mut input = Reader::new(part.as_bytes());
        let mut output = Writer::new(io::writer(&rt));
        let status = draw(alloc, limits, &mut input, &mut output);
        if status != 0 {
            return ExitCode::from(status);
        }
    }
    ExitCode::SUCCESS
}
