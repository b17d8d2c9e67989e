// Which slots pair.
use crate::lists::{items, places, regions};
use std::alloc::Global;
use std::process::Abort;
use std::test::Fail;

type Lists = (&'static [(u32, i32)], &'static [(u32, i32)], &'static [i64]);

/// Numbers and keys of old and of new items, and the place of each new item's pair, or -1.
const LISTS: &[Lists] = &[
    (&[], &[], &[]),
    (&[], &[(1, 0)], &[-1]),
    (&[(1, 0)], &[(2, 0)], &[-1]),
    (&[(1, 0)], &[(1, 7)], &[-1]),
    // The k-th with the k-th.
    (&[(1, 0), (1, 0), (1, 0)], &[(1, 0), (1, 0)], &[0, 1]),
    (&[(1, 0), (2, 0)], &[(2, 0), (1, 0)], &[1, 0]),
    // By key.
    (
        &[(1, 1), (1, 2), (1, 3)],
        &[(1, 2), (1, 3), (1, 1)],
        &[1, 2, 0],
    ),
    (&[(1, 1), (1, 2), (1, 3)], &[(1, 2), (1, 3)], &[1, 2]),
    (&[(1, 1), (1, 2)], &[(1, 2), (1, 9), (1, 1)], &[1, -1, 0]),
    (&[(1, 1)], &[(2, 1)], &[-1]),
];

fn found_in_lists(
    alloc: Global,
    olds: &[(u32, i32)],
    news: &[(u32, i32)],
) -> Result<Vec<i64>, Fail> {
    let olds = items(alloc, olds)?;
    let news = items(alloc, news)?;
    places(alloc, olds.as_slice(), news.as_slice())
}

fn are_pairs(rt: &impl Abort, found: &[i64], expected: &[i64]) {
    assert!(rt; found == expected, "{found:?} for {expected:?}");
}

#[test]
fn pairs_by_number_and_key(rt: HostRuntime) -> Result<(), Fail> {
    for (olds, news, expected) in LISTS {
        are_pairs(&rt, &found_in_lists(rt.alloc(), olds, news)?, expected);
    }
    Ok(())
}

type Regions = (&'static [(i32, u32)], &'static [(i32, u32)], &'static [i64]);

/// Keys and lengths of old and of new regions, and the place of each new item's pair, or -1.
const REGIONS: &[Regions] = &[
    (&[(1, 2), (2, 1)], &[(2, 1), (1, 1)], &[2, 0]),
    (&[(1, 1)], &[(2, 1)], &[-1]),
    (&[(1, 1), (2, 0)], &[(2, 1), (1, 1)], &[-1, 0]),
];

fn found_in_regions(
    alloc: Global,
    olds: &[(i32, u32)],
    news: &[(i32, u32)],
) -> Result<Vec<i64>, Fail> {
    let olds = regions(alloc, olds)?;
    let news = regions(alloc, news)?;
    places(alloc, olds.as_slice(), news.as_slice())
}

#[test]
fn pairs_within_pairs_of_regions(rt: HostRuntime) -> Result<(), Fail> {
    for (olds, news, expected) in REGIONS {
        are_pairs(&rt, &found_in_regions(rt.alloc(), olds, news)?, expected);
    }
    Ok(())
}
