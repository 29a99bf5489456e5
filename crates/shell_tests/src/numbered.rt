//! Scripts over keys that are numbered from 1 on.

use crate::runs::{prints, whole};
use bw_model::Limits;
use shell_lines::Language;
use std::alloc::{AllocError, Global};
use std::process::Abort;

/// Lines of a script, and what they are to print. In both each # stands for a number.
#[derive(Clone, Copy)]
pub enum Part<'a> {
    /// These lines, which print this.
    Adds(&'a str, &'a str),
    /// These lines so many times, which print this each time.
    Repeats(u32, &'a str, &'a str),
    /// Inserts of keys that are absent, from one number to another, each without a stop.
    Inserts(u32, u32),
    /// Deletes of keys that are there, from one number down to another, each without a stop.
    Deletes(u32, u32),
    /// Actor 0 takes so many turns, and isn't done by then; no line where there are none.
    Turns(u32),
    /// These lines for each number from the first to the last, which print this.
    Each(u32, u32, &'a str, &'a str),
    /// These lines for each number from the first of two down to the other, which print this.
    EachDown(u32, u32, &'a str, &'a str),
    /// A listing begins, with so many pairs: as many as a number of all digits.
    Lists(u32),
    /// The keys from one number to another are the next in a listing.
    Pairs(u32, u32),
}

/// How numbers are written: k01 and v01, and so on, or k001 and v001, or with more digits.
#[derive(Clone, Copy)]
pub enum Width {
    Two,
    Three,
    Four,
    Five,
}

impl Width {
    /// Adds a number.
    fn add(self, text: &mut String, number: u32) -> Result<(), AllocError> {
        match self {
            Width::Two => write!(text, "{number:02}"),
            Width::Three => write!(text, "{number:03}"),
            Width::Four => write!(text, "{number:04}"),
            Width::Five => write!(text, "{number:05}"),
        }
    }

    /// Adds a text, with a number in place of each #.
    pub fn put(self, text: &mut String, form: &str, number: u32) -> Result<(), AllocError> {
        for (place, piece) in form.split('#').enumerate() {
            if place > 0 {
                self.add(text, number)?;
            }
            text.push_str(piece)?;
        }
        Ok(())
    }
}

/// Lines, and what they are to print.
#[derive(Drop)]
struct Numbered {
    width: Width,
    lines: String,
    printed: String,
}

impl Numbered {
    /// Adds these for each number from the first to the last, or from the last down to the first.
    fn add_each(
        &mut self,
        (first, last, down): (u32, u32, bool),
        lines: &str,
        printed: &str,
    ) -> Result<(), AllocError> {
        for number in first..=last {
            let number = if down {
                last.wrapping_sub(number).wrapping_add(first)
            } else {
                number
            };
            self.width.put(&mut self.lines, lines, number)?;
            self.width.put(&mut self.printed, printed, number)?;
        }
        Ok(())
    }

    fn add(&mut self, part: &Part<'_>) -> Result<(), AllocError> {
        let (numbers, lines, printed) = match *part {
            Part::Adds(lines, printed) => ((1, 1, false), lines, printed),
            Part::Repeats(times, lines, printed) => ((1, times, false), lines, printed),
            Part::Inserts(first, last) => (
                (first, last, false),
                "begin 0 insert k# v#\nfinish 0\n",
                "0 inserted\n",
            ),
            Part::Deletes(last, first) => (
                (first, last, true),
                "begin 0 delete k#\nfinish 0\n",
                "0 deleted v#\n",
            ),
            Part::Turns(count) => ((count.max(1), count, false), "turn 0 #\n", ""),
            Part::Each(first, last, lines, printed) => ((first, last, false), lines, printed),
            Part::EachDown(last, first, lines, printed) => ((first, last, true), lines, printed),
            Part::Lists(count) => ((count, count, false), "list\n", "pairs #\n"),
            Part::Pairs(first, last) => ((first, last, false), "", "k# v#\n"),
        };
        self.add_each(numbers, lines, printed)
    }

    fn add_all(&mut self, parts: &[Part<'_>]) -> Result<(), AllocError> {
        for part in parts {
            self.add(part)?;
        }
        Ok(())
    }
}

/// Runs the parts one after another, which are to print what they say, and of which no line is refused. The limits are actors, PIDs, rows
/// and the epoch.
pub fn runs(
    rt: &impl Abort,
    alloc: Global,
    (actors, pids, rows, epoch): (u64, u64, u64, u64),
    width: Width,
    parts: &[Part<'_>],
) {
    let limits = Limits::new(actors, pids, rows, epoch).expect(rt, "limits");
    let mut script = Numbered {
        width,
        lines: String::new(alloc),
        printed: String::new(alloc),
    };
    let added = script.add_all(parts).is_ok();
    assert!(rt; added, "memory");
    let ran = whole(alloc, Language::Weave, limits, script.lines.as_bytes());
    prints(rt, 0, ran, script.printed.as_bytes(), 0);
}

/// The limits of most scripts.
pub const LIMITS: (u64, u64, u64, u64) = (2, 64, 256, 1);
