//! Films: a frame for each step, and what ends them early.

use crate::breaking::Breaking;
use crate::choppy::Choppy;
use crate::parts::count;
use crate::picture_runs::drawn;
use bw_model::Limits;
use byte_streams::{Reader, Writer};
use filming::film;
use std::alloc::{AllocError, Global};
use std::io::ErrorKind;
use std::test::Fail;

/// What is written, and the status.
#[derive(Drop)]
struct Film {
    status: u8,
    text: Vec<u8>,
}

/// The film of these lines.
fn filmed(alloc: Global, limits: Limits, lines: &[u8]) -> Film {
    let mut input = Reader::new(lines);
    let mut output = Writer::new(Vec::new(alloc));
    let status = film(alloc, limits, &mut input, &mut output);
    Film {
        status,
        text: output.inner,
    }
}

const INSERT: &[u8] = b"begin 0 insert k02 <\nfinish 0\n";

/// How often each text stands in the film of that insert, which takes ten steps; the ninth exchanges the slot.
const SHOWN: [(&[u8], usize); 12] = [
    (b"<section id=\"", 10),
    (b"<p class='why'>No lock: ", 10),
    (b"<svg ", 10),
    (
        b"<section id=\"1\">\n<h2>1: actor 0, insert k02 &lt;: read the epoch: 1</h2>\n",
        1,
    ),
    (
        b"<h2>5: actor 0, insert k02 &lt;: read row 1: base, items: 0</h2>\n<p>The map is unchanged by this step.</p>\n<p class='why'>No lock: a record that was linked never changes, ",
        1,
    ),
    (
        b"<h2>4: actor 0, insert k02 &lt;: read slot 1: row 1</h2>\n",
        1,
    ),
    (
        b"<h2>7: actor 0, insert k02 &lt;: take row 2: it was free</h2>\n",
        1,
    ),
    (
        b"<h2>9: actor 0, insert k02 &lt;: exchange slot 1 from row 1 to row 2: won, put: a key was given a value</h2>\n\
        <p class=\"changed\">This step changes the map: k02 has the value &lt; now.</p>\n<p class='why'>No lock: one compare-and-swap. Had another record ",
        1,
    ),
    (
        b"<section id=\"10\">\n<h2>10: actor 0, insert k02 &lt;: leave; done: inserted</h2>\n",
        1,
    ),
    (b"<p>The map is unchanged by this step.</p>", 9),
    (
        b"<h3>The map after this step (pairs: 0)</h3>\n<pre class=\"map\"></pre>\n<h3>The log after this step (updates: 0)</h3>\n<ol class=\"log\">\n</ol>\n</section>\n",
        8,
    ),
    (
        b"<pre class=\"map\">k02 &lt;\n</pre>\n<h3>The log after this step (updates: 1)</h3>\n<ol class=\"log\">\n<li>k02 = &lt;</li>\n</ol>\n</section>\n",
        2,
    ),
];

#[test]
fn each_step_has_a_frame(rt: HostRuntime) -> Result<(), Fail> {
    let limits = Limits::new(2, 64, 256, 1)?;
    let film = filmed(rt.alloc(), limits, INSERT);
    assert_eq!(rt; film.status, 0, "status");
    for (number, (part, times)) in SHOWN.iter().enumerate() {
        let found = count(film.text.as_slice(), part);
        assert!(rt; found == *times, "text {number}: {found} times");
    }
    Ok(())
}

/// Lines of which the last one ends an operation without an update, and its place in the order: after how many of how many updates the map is as its reply
/// tells, and no later one. A reader that has read its leaf's slot doesn't see what is linked afterwards; and what is changed outside of its page's range
/// doesn't matter.
const PLACES: [(&[u8], &[u8]); 8] = [
    (
        b"begin 0 insert a 1\nfinish 0\nbegin 0 insert c 3\nfinish 0\nbegin 1 page a\nturn 1 4\nbegin 0 insert b 2\nfinish 0\nfinish 1\n",
        b"the first 2 of the 3 updates, and of no later one.</p>\n<svg ",
    ),
    (
        b"begin 0 insert a 1\nfinish 0\nbegin 0 insert c 3\nfinish 0\nbegin 1 page b\nturn 1 4\nbegin 0 delete a\nfinish 0\nfinish 1\n",
        b"the first 3 of the 3 updates, and of no later one.</p>\n<svg ",
    ),
    (
        b"begin 0 insert a 1\nfinish 0\nbegin 0 insert c 3\nfinish 0\n\
        begin 1 page a\nturn 1 4\nbegin 0 upsert a 1\nfinish 0\nbegin 0 delete c\nfinish 0\nfinish 1\n",
        b"the first 3 of the 4 updates, and of no later one.</p>\n<svg ",
    ),
    (
        b"begin 0 insert a 1\nfinish 0\nbegin 0 insert c 3\nfinish 0\nbegin 1 back c\nturn 1 4\nbegin 0 insert b 2\nfinish 0\nfinish 1\n",
        b"the first 2 of the 3 updates, and of no later one.</p>\n<svg ",
    ),
    (
        b"begin 0 insert a 1\nfinish 0\nbegin 0 insert c 3\nfinish 0\n\
        begin 1 back b\nturn 1 4\nbegin 0 insert d 4\nfinish 0\nbegin 0 delete c\nfinish 0\nfinish 1\n",
        b"the first 4 of the 4 updates, and of no later one.</p>\n<svg ",
    ),
    (
        b"begin 0 insert a 1\nfinish 0\nbegin 0 insert c 3\nfinish 0\nbegin 1 back c\nturn 1 4\nbegin 0 upsert c 4\nfinish 0\nfinish 1\n",
        b"the first 2 of the 3 updates, and of no later one.</p>\n<svg ",
    ),
    (
        b"begin 1 page a\nturn 1 4\nbegin 0 insert a 1\nfinish 0\nfinish 1\n",
        b"the first 0 of the 1 updates, and of no later one.</p>\n<svg ",
    ),
    (
        b"begin 0 insert a 1\nfinish 0\nbegin 1 get a\nturn 1 4\nbegin 0 delete a\nfinish 0\nfinish 1\n",
        b"the first 1 of the 2 updates, and of no later one.</p>\n<svg ",
    ),
];

#[test]
fn readers_have_a_place(rt: HostRuntime) -> Result<(), Fail> {
    let limits = Limits::new(2, 64, 256, 1)?;
    for (number, (lines, place)) in PLACES.iter().enumerate() {
        let text = filmed(rt.alloc(), limits, lines).text;
        let told = b"<p>The place of this operation in the order is known only now: ";
        let found = count(text.as_slice(), told);
        assert!(rt; found == 1, "lines {number}: {found} places");
        assert!(rt; count(text.as_slice(), place) == 1, "place {number}");
    }
    Ok(())
}

// One of two who insert loses its exchange, and begins anew.
#[test]
fn a_lost_exchange_is_explained(rt: HostRuntime) -> Result<(), Fail> {
    let limits = Limits::new(2, 64, 256, 1)?;
    let lines = b"begin 0 insert a 1\nturn 0 8\nbegin 1 insert b 2\nfinish 1\nfinish 0\n";
    let text = filmed(rt.alloc(), limits, lines).text;
    let lost =
        b": lost, the slot has another row by now</h2>\n<p>The map is unchanged by this step.</p>\n<p class='why'>No lock: another actor was faster, ";
    assert_eq!(rt; count(text.as_slice(), lost), 1, "lost exchanges");
    Ok(())
}

// The last frame has the picture that is drawn of the same lines, and no other frame has it.
#[test]
fn the_last_frame_is_the_picture(rt: HostRuntime) -> Result<(), Fail> {
    let limits = Limits::new(2, 64, 256, 1)?;
    let film = filmed(rt.alloc(), limits, INSERT);
    let picture = drawn(rt.alloc(), limits, INSERT).ok_or("no picture")?;
    let found = count(film.text.as_slice(), picture.as_slice());
    assert_eq!(rt; found, 1, "pictures");
    Ok(())
}

// A refused line is the last frame.
#[test]
fn a_refused_line_ends_a_film(rt: HostRuntime) -> Result<(), Fail> {
    let limits = Limits::new(2, 64, 256, 1)?;
    let lines = b"begin 0 get a\nturn 0 2\nturn 1 1\nturn 0 1\n";
    let film = filmed(rt.alloc(), limits, lines);
    let text = film.text.as_slice();
    assert_eq!(rt; film.status, 1, "status");
    assert_eq!(rt; count(text, b"<section id=\""), 3, "frames");
    let last =
        b"</section>\n<section id=\"refused\">\n<h2>refused line 3: 6\n</h2>\n</section>\n</main>\n";
    assert_eq!(rt; count(text, last), 1, "refusals");
    Ok(())
}

/// So many lookups in an empty tree, of six steps each, and three steps of one more.
fn lookups(alloc: Global, many: u32) -> Result<Vec<u8>, AllocError> {
    let mut lines = Vec::new(alloc);
    for _ in 0..many {
        lines.extend_from_slice(b"begin 0 get a\nfinish 0\n")?;
    }
    lines.extend_from_slice(b"begin 0 get a\nturn 0 3\n")?;
    Ok(lines)
}

// 2,001 steps are one too many.
#[test]
fn long_films_are_refused(rt: HostRuntime) -> Result<(), Fail> {
    let limits = Limits::new(2, 64, 256, 1)?;
    let lines = lookups(rt.alloc(), 333)?;
    let film = filmed(rt.alloc(), limits, lines.as_slice());
    let told =
        b"refused: a film has a frame for each step, 2000 at most, and these lines take 2001\n";
    assert_eq!(rt; film.status, 1, "status");
    assert_eq!(rt; film.text.as_slice(), told.as_slice(), "text");
    Ok(())
}

// A failed write leaves a beginning.
#[test]
fn failed_writes_leave_a_beginning(rt: HostRuntime) -> Result<(), Fail> {
    let limits = Limits::new(2, 64, 256, 1)?;
    let whole = filmed(rt.alloc(), limits, INSERT).text;
    for before_fault in [0, 1, 9] {
        let mut input = Reader::new(INSERT);
        let mut output = Writer::new(Breaking::taking(rt.alloc(), 1000, before_fault));
        let status = film(rt.alloc(), limits, &mut input, &mut output);
        let held = output.inner.held.as_slice();
        assert!(rt; status == 1, "before write {before_fault}: status {status}");
        assert!(rt;
            whole.as_slice().starts_with(held) && held.len() < whole.len(),
            "before write {before_fault}: no beginning"
        );
    }
    Ok(())
}

// After a failed read nothing is written.
#[test]
fn failed_reads_leave_nothing(rt: HostRuntime) -> Result<(), Fail> {
    let limits = Limits::new(2, 64, 256, 1)?;
    let mut input = Reader::new(Choppy {
        bytes: INSERT,
        size: 7,
        before_fault: 4,
        fault: ErrorKind::Other,
    });
    let mut output = Writer::new(Vec::new(rt.alloc()));
    let status = film(rt.alloc(), limits, &mut input, &mut output);
    assert_eq!(rt; status, 1, "status");
    assert!(rt; output.inner.is_empty(), "{} bytes", output.inner.len());
    Ok(())
}

// A film of no steps has no frames.
#[test]
fn films_of_nothing(rt: HostRuntime) -> Result<(), Fail> {
    let limits = Limits::new(2, 64, 256, 1)?;
    let film = filmed(rt.alloc(), limits, b"begin 0 get a\n");
    let text = film.text.as_slice();
    assert_eq!(rt; film.status, 0, "status");
    assert_eq!(rt; count(text, b"<section"), 0, "frames");
    let empty = b"</nav>\n<main>\n</main>\n<script>\n";
    assert_eq!(rt; count(text, empty), 1, "empty films");
    Ok(())
}
