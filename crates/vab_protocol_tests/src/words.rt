// Words that are taken and words that aren't.

use std::alloc::{AllocError, Global};
use std::test::*;
use vab_words::{Verb, WordsFault, parse_words};

fn words_of(alloc: Global, texts: &[&str]) -> Result<Vec<String>, AllocError> {
    let mut words = Vec::new(alloc);
    for text in texts {
        words.push(String::from_str(alloc, text)?)?;
    }
    Ok(words)
}

#[test]
fn words_that_are_taken(rt: HostRuntime) -> Result<(), Fail> {
    let alloc = rt.alloc();
    for (texts, verb) in [
        (
            ["serve"].as_slice(),
            Verb::Serve {
                fresh: false,
                turns: 0,
            },
        ),
        (&["adopt", "a"], Verb::Adopt(0)),
        (&["adopt", "b"], Verb::Adopt(1)),
        (
            &["serve", "--fresh"],
            Verb::Serve {
                fresh: true,
                turns: 0,
            },
        ),
        (
            &["serve", "--turns", "0"],
            Verb::Serve {
                fresh: false,
                turns: 0,
            },
        ),
        (
            &["serve", "--turns=4294967295", "--fresh"],
            Verb::Serve {
                fresh: true,
                turns: 4294967295,
            },
        ),
        (&["install"], Verb::Install),
        (&["boot"], Verb::Boot),
        (&["mark"], Verb::Mark),
        (&["begin-merge"], Verb::BeginMerge),
        (&["merge", "1"], Verb::Merge(1)),
        (&["merge", "00000000000000000007"], Verb::Merge(7)),
        (&["merge", "4294967295"], Verb::Merge(4294967295)),
        (&["cancel"], Verb::Cancel),
        (&["activate", "a"], Verb::Activate(0)),
        (&["activate", "b"], Verb::Activate(1)),
        (&["print", "misc"], Verb::Print("misc")),
        (&["print", ""], Verb::Print("")),
        (&["print", "--", "--help"], Verb::Print("--help")),
        (&["digest", "system_a"], Verb::Digest("system_a")),
        (&["digest", "help"], Verb::Digest("help")),
        (&["status"], Verb::Status),
        (&["demo", "7"], Verb::Demo { seed: 7, scale: 1 }),
        (
            &["demo", "18446744073709551615", "--scale", "64"],
            Verb::Demo {
                seed: u64::MAX,
                scale: 64,
            },
        ),
    ] {
        let words = words_of(alloc, texts)?;
        assert!(rt;
            parse_words(alloc, words.as_slice()) == Ok(verb),
            "{texts:?}"
        );
    }
    Ok(())
}

#[test]
fn options_of_make(rt: HostRuntime) -> Result<(), Fail> {
    let alloc = rt.alloc();
    for (texts, limit, metadata_max) in [
        (["make"].as_slice(), 0, 65536),
        (&["make", "--limit", "0"], 0, 65536),
        (
            &["make", "--limit", "17592186044416"],
            17592186044416,
            65536,
        ),
        (&["make", "--limit=4096"], 4096, 65536),
        (&["make", "--limit", "00000000000000000001"], 1, 65536),
        (&["make", "--metadata-max", "512"], 0, 512),
        (&["make", "--metadata-max", "65536"], 0, 65536),
        (&["make", "--metadata-max", "1024", "--limit", "7"], 7, 1024),
        (&["make", "--limit", "7", "--metadata-max=1024"], 7, 1024),
    ] {
        let words = words_of(alloc, texts)?;
        let verb = Verb::Make {
            limit,
            metadata_max,
        };
        assert!(rt;
            parse_words(alloc, words.as_slice()) == Ok(verb),
            "{texts:?}"
        );
    }
    Ok(())
}

#[test]
fn words_that_ask_for_nothing(rt: HostRuntime) -> Result<(), Fail> {
    let alloc = rt.alloc();
    for texts in [
        [].as_slice(),
        &[""],
        &["--help"],
        &["-h"],
        &["help"],
        &["help", "make"],
        &["--version"],
        &["-V"],
        &["--"],
        &["--", "boot"],
        &["Boot"],
        &["boo"],
        &["boot", "mark"],
        &["install", "system_a"],
        &["status", "a"],
        &["demo", "18446744073709551616"],
        &["demo", "7", "--scale", "65"],
        &["boot", "--help"],
        &["begin-merge", "x"],
        &["begin"],
        &["merge"],
        &["merge", ""],
        &["merge", "x"],
        &["merge", "0"],
        &["merge", "-1"],
        &["merge", "4294967296"],
        &["merge", "18446744073709551616"],
        &["merge", "000000000000000000001"],
        &["merge", "1", "2"],
        &["cancel", "b"],
        &["serve", "fresh"],
        &["serve", "--fresh", "--fresh"],
        &["serve", "--fresh=true"],
        &["serve", "--turns"],
        &["serve", "--turns", "x"],
        &["serve", "--turns", "4294967296"],
        &["serve", "--turns", "1", "--turns", "1"],
        &["--fresh", "serve"],
        &["make", "--limit"],
        &["make", "--limit", "x"],
        &["make", "--limit", ""],
        &["make", "--limit", "+1"],
        &["make", "--limit", "1", "--limit", "1"],
        &["make", "--limit", "17592186044417"],
        &["make", "--limit", "18446744073709551616"],
        &["make", "--limit", "000000000000000000001"],
        &["make", "--metadata-max", "0"],
        &["make", "--metadata-max", "513"],
        &["make", "--metadata-max", "66048"],
        &["make", "1"],
        &["activate"],
        &["activate", "c"],
        &["activate", "A"],
        &["activate", "_a"],
        &["activate", "a", "b"],
        &["adopt"],
        &["adopt", "c"],
        &["adopt", "a", "b"],
        &["print"],
        &["print", "-x"],
        &["print", "--help"],
        &["digest", "a", "b"],
    ] {
        let words = words_of(alloc, texts)?;
        assert!(rt;
            parse_words(alloc, words.as_slice()) == Err(WordsFault::Usage),
            "{texts:?}"
        );
    }
    Ok(())
}
