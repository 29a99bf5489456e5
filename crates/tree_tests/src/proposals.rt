//! The limits that are proposed for so many keys.

use bw_model::{BadLimits, Limits};
use change_machine::MAX_SPARES;
use structure_changes::many_deltas;

/// PIDs and rows of limits.
fn numbers(limits: Result<Limits, BadLimits>) -> Option<(u64, u64)> {
    let limits = limits.ok()?;
    Some((limits.pids, limits.rows))
}

#[test]
fn limits_are_proposed(rt: HostRuntime) {
    for (actors, keys, limits) in [
        (1, 0, Some((64, 704))),
        (1, 351, Some((64, 704))),
        (1, 352, Some((128, 1_280))),
        (4, 1_000, Some((256, 2_816))),
        (1, 12_199, Some((1_792, 16_256))),
        (1, 12_200, None),
        (4, 11_535, Some((1_728, 16_064))),
        (4, 11_536, None),
        (16, 9_751, Some((1_600, 16_320))),
        (16, 9_752, None),
        (0, 1, None),
        (17, 1, None),
        (1, u64::MAX, None),
        (u64::MAX, u64::MAX, None),
    ] {
        let found = numbers(Limits::for_keys(actors, keys));
        assert!(rt; found == limits, "{actors} actors, {keys} keys: {found:?}");
    }
}

#[test]
fn limits_of_large_trees_are_proposed(rt: HostRuntime) {
    for (actors, keys, limits) in [
        (1, 0, Some((64, 576))),
        (1, 1_000, Some((192, 960))),
        (2, 1_000, Some((8_448, 26_048))),
        (16, 1_000, Some((8_704, 30_144))),
        (4, 100_000, Some((22_912, 70_080))),
        (4, 1_000_000, Some((155_072, 468_608))),
        (4, 10_000_000, Some((1_549_632, 4_674_112))),
        (1, 27_068_967, Some((4_194_304, 12_648_768))),
        (1, 27_068_968, None),
        (16, 27_066_839, Some((4_194_304, 12_652_288))),
        (16, 27_066_840, None),
        (17, 1_000, Some((8_768, 30_656))),
        (63, 1_000, Some((9_728, 44_544))),
        (63, 27_060_167, Some((4_194_304, 12_663_616))),
        (63, 27_060_168, None),
        (0, 1, None),
        (64, 1, None),
        (1, u64::MAX, None),
        (u64::MAX, u64::MAX, None),
    ] {
        let found = numbers(Limits::for_many_keys(actors, keys));
        assert!(rt; found == limits, "{actors} actors, {keys} keys: {found:?}");
    }
}

/// How many rows are narrow, for pages, and wide, and how many words a narrow one and one for a page have.
#[derive(Clone, Copy, Debug, PartialEq)]
struct Rows {
    counts: [u64; 3],
    words: [u64; 2],
}

/// The rows of limits.
fn rows_of(limits: Result<Limits, BadLimits>) -> Option<Rows> {
    let limits = limits.ok()?;
    let counts = [
        limits.narrow_rows,
        limits.wide_from.checked_sub(limits.narrow_rows)?,
        limits.rows.checked_sub(limits.wide_from)?,
    ];
    let words = [limits.narrow_words, limits.page_words];
    Some(Rows { counts, words })
}

#[test]
fn limits_by_width_are_proposed(rt: HostRuntime) {
    let million = [310_784, 155_392, 2_432];
    for (key, value, words) in [
        (16, 8, Some([8, 88])),
        (8, 8, Some([8, 64])),
        (16, 16, Some([8, 104])),
        (16, 32, Some([16, 144])),
        (32, 16, Some([16, 144])),
        (64, 64, Some([24, 344])),
        (16, 0, Some([8, 64])),
        (0, 0, Some([8, 40])),
        (65, 8, None),
        (16, 65, None),
        (u64::MAX, 0, None),
    ] {
        let found = rows_of(Limits::for_pairs(4, 1_000_000, key, value));
        let expected = words.map(|words| Rows {
            counts: million,
            words,
        });
        assert!(rt; found == expected, "{key} and {value} bytes: {found:?}");
    }
    for (actors, keys, counts) in [
        (1, 0, [320, 192, 64]),
        (63, 1_000, [29_568, 14_784, 192]),
        (4, 1_000_000, million),
        (1, 27_068_967, [8_388_800, 4_194_432, 65_536]),
    ] {
        let found = rows_of(Limits::for_many_keys(actors, keys));
        let words = [24, 344];
        assert!(rt;
            found == Some(Rows { counts, words }),
            "{actors} actors, {keys} keys: {found:?}"
        );
    }
    let found = rows_of(Limits::large(1, 64, 64, 1));
    let expected = Rows {
        counts: [0, 0, 64],
        words: [512, 512],
    };
    assert!(rt; found == Some(expected), "a large tree: {found:?}");
}

/// PIDs and rows, and whether they are limits, and limits of a large tree.
const BORDERS: [((u64, u64), [bool; 2]); 16] = [
    ((64, 64), [true; 2]),
    ((0, 64), [false; 2]),
    ((63, 64), [false; 2]),
    ((65, 64), [false; 2]),
    ((64, 0), [false; 2]),
    ((64, 63), [false; 2]),
    ((64, 65), [false; 2]),
    ((4_096, 16_384), [true; 2]),
    ((4_160, 64), [false, true]),
    ((64, 16_448), [false, true]),
    ((4_097, 64), [false; 2]),
    ((64, 16_385), [false; 2]),
    ((4_194_304, 67_108_864), [false, true]),
    ((4_194_368, 64), [false; 2]),
    ((64, 67_108_928), [false; 2]),
    ((u64::MAX, u64::MAX), [false; 2]),
];

#[test]
fn limits_have_borders(rt: HostRuntime) {
    for ((pids, rows), are) in BORDERS {
        let taken = [
            Limits::new(1, pids, rows, 1),
            Limits::large(1, pids, rows, 1),
        ]
        .map(|limits| numbers(limits) == Some((pids, rows)));
        assert!(rt; taken == are, "{pids} PIDs, {rows} rows: {taken:?}");
    }
}

#[test]
fn actors_have_borders(rt: HostRuntime) {
    for (actors, are) in [
        (0, [false; 2]),
        (1, [true; 2]),
        (16, [true; 2]),
        (17, [false, true]),
        (63, [false, true]),
        (64, [false; 2]),
        (u64::MAX, [false; 2]),
    ] {
        let taken = [
            Limits::new(actors, 64, 64, 1),
            Limits::large(actors, 64, 64, 1),
        ]
        .map(|limits| numbers(limits) == Some((64, 64)));
        assert!(rt; taken == are, "{actors} actors: {taken:?}");
    }
}

#[test]
fn most_keys_have_limits(rt: HostRuntime) {
    for (actors, most) in [
        (0, None),
        (1, Some(12_199)),
        (4, Some(11_535)),
        (16, Some(9_751)),
        (17, None),
        (u64::MAX, None),
    ] {
        let found = Limits::most_keys(actors);
        assert!(rt; found == most, "{actors} actors: {found:?}");
    }
}

/// Whether the rows are enough for the longest chain of each PID, and for the spare rows of each seat.
fn suffices(limits: Limits) -> bool {
    let chain = many_deltas(&limits, 0) as u64 + 1;
    let spare = limits.actors.saturating_mul(MAX_SPARES as u64);
    limits.rows >= chain.saturating_mul(limits.pids).saturating_add(spare)
}

/// Whether they are for so many keys, in a tree of either kind that may have so many seats.
fn all_suffice(actors: u64, keys: u64) -> bool {
    let large = Limits::for_many_keys(actors, keys).is_ok_and(suffices);
    large && (actors > 16 || Limits::for_keys(actors, keys).is_ok_and(suffices))
}

#[test]
fn rows_suffice_for_the_longest_chains(rt: HostRuntime) {
    for actors in 1..=63u64 {
        for step in 0..100u64 {
            assert!(rt;
                all_suffice(actors, 96 * step),
                "{actors} actors, {step} steps of 96 keys"
            );
        }
    }
}
