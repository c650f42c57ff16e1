// What no clause says: that plans mean what was meant, and that the calls succeed. What is expected was worked out by hand.
use crate::driver::{Drive, Step, fit, gives};
use crate::plans::{
    CHAIN, FIVE, FOUR, JOIN, JOIN_TEXT, Lists, PACKS, PACKS_TEXT, SEVEN, SHARED, SHARED_TEXT,
    SPLITS, SPLITS_TEXT, SUMS, SUMS_TEXT, TWO,
};
use std::test::Fail;

#[test]
fn runs_by_hand(rt: HostRuntime) -> Result<(), Fail> {
    let cases: [(&[u8], Lists<'_>, &[Step], &[u8]); 7] = [
        (
            SUMS,
            FOUR,
            &[(0, 0, true), (0, 0, true), (1, 0, true), (1, 0, true)],
            SUMS_TEXT,
        ),
        (
            SUMS,
            FOUR,
            &[(0, 0, true), (1, 0, true), (0, 0, true), (1, 0, true)],
            SUMS_TEXT,
        ),
        // An operator without an item, two that are not there, a port that is not there; later one whose items are all taken.
        (
            SUMS,
            FOUR,
            &[
                (1, 0, false),
                (2, 0, false),
                (7, 0, false),
                (0, 1, false),
                (0, 0, true),
                (0, 0, true),
                (0, 0, false),
                (1, 0, true),
                (1, 0, true),
            ],
            SUMS_TEXT,
        ),
        (
            JOIN,
            FIVE,
            &[
                (0, 0, true),
                (0, 0, true),
                (0, 1, true),
                (0, 1, true),
                (0, 1, true),
            ],
            JOIN_TEXT,
        ),
        (
            JOIN,
            FIVE,
            &[
                (0, 1, true),
                (0, 1, true),
                (0, 1, true),
                (0, 0, true),
                (0, 0, true),
            ],
            JOIN_TEXT,
        ),
        (
            JOIN,
            FIVE,
            &[
                (0, 1, true),
                (0, 0, true),
                (0, 0, true),
                (0, 1, true),
                (0, 1, true),
            ],
            JOIN_TEXT,
        ),
        // The items of the second port wait for one of the first.
        (
            JOIN,
            FIVE,
            &[(0, 1, true), (0, 1, true)],
            b"# out\n## firings\njoin,2\n",
        ),
    ];
    for (text, lists, steps, wanted) in cases {
        gives(rt.alloc(), text, lists, Drive::By(steps), wanted)?;
    }
    Ok(())
}

#[test]
fn runs_in_any_order(rt: HostRuntime) -> Result<(), Fail> {
    let cases: [(&[u8], Lists<'_>, &[u8]); 3] = [
        (SPLITS, SEVEN, SPLITS_TEXT),
        (PACKS, TWO, PACKS_TEXT),
        (SHARED, TWO, SHARED_TEXT),
    ];
    for (text, lists, wanted) in cases {
        for seed in [1, 2, 3, 77, 123456789] {
            gives(rt.alloc(), text, lists, Drive::At(seed), wanted)?;
        }
    }
    Ok(())
}

#[test]
fn inputs_that_do_not_fit(rt: HostRuntime) -> Result<(), Fail> {
    // An input; none; one too many; one whose row is too wide.
    let cases: [(Lists<'_>, bool); 4] = [
        (&[&[&[1]]], true),
        (&[], false),
        (&[&[&[1]], &[&[2]]], false),
        (&[&[&[1, 2]]], false),
    ];
    for (lists, wanted) in cases {
        let fits = fit(rt.alloc(), CHAIN, lists)?;
        assert_eq!(rt; fits, wanted);
    }
    Ok(())
}
