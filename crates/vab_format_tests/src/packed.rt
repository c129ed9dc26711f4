// What words ask for, and the images that are made.

ghost use Rattle.std.specs.Prelude.{All};
ghost use Rattle.vab_pack.specs.Asked.{IsAsked};

use std::alloc::Global;
use std::test::*;
use vab_names::MAX_PARTITIONS;
use vab_pack::{Entry, WordFault, parse_word, parse_words, set_image};

// A word more than a set has images.
const MORE: usize = MAX_PARTITIONS + 1;

fn words_of(alloc: Global, texts: &[&str]) -> Result<Vec<String>, Fail> {
    let mut words = Vec::new(alloc);
    for text in texts {
        words.push(String::from_str(alloc, text)?)?;
    }
    Ok(words)
}

fn fault_of(alloc: Global, texts: &[&str]) -> Result<Option<WordFault>, Fail> {
    let words = words_of(alloc, texts)?;
    Ok(parse_words(alloc, &words).err())
}

#[test]
fn a_word_is_split_at_its_first_equals_sign(rt: HostRuntime) -> Result<(), Fail> {
    for (word, name, path) in [
        ("x=y", "x", "y"),
        ("system=out/system.img", "system", "out/system.img"),
        ("x=a=b=", "x", "a=b="),
        ("x==", "x", "="),
        ("=y", "", "y"),
    ] {
        let (front, back) = parse_word(word).ok_or("a name and a path")?;
        assert_eq!(rt; front, name);
        assert_eq!(rt; back, path);
    }
    for word in ["", "x", "=", "x="] {
        assert!(rt; parse_word(word).is_none());
    }
    Ok(())
}

#[test]
fn words_ask_for_images_in_their_order(rt: HostRuntime) -> Result<(), Fail> {
    let words = words_of(rt.alloc(), &["system=system.img", "vendor=a=b"])?;
    let entries = parse_words(rt.alloc(), &words).ok().ok_or("images")?;
    let wants = [("system", "system.img"), ("vendor", "a=b")];
    assert_eq!(rt; entries.len(), 2);
    for (entry, (name, path)) in entries.iter().zip(wants) {
        assert!(rt; entry.name().text() == name.as_bytes());
        assert_eq!(rt; entry.path(), path);
    }
    assert_eq!(rt; fault_of(rt.alloc(), &[])?, None);
    assert_eq!(rt; fault_of(rt.alloc(), &["A.9_z=abc.img"])?, None);
    Ok(())
}

#[test]
fn sizes_and_stores_stand_behind_the_name(rt: HostRuntime) -> Result<(), Fail> {
    let cases = [
        ("x=f", None, 0),
        ("x:4096=f", Some(4096), 0),
        ("x:0=f:1", Some(0), 0),
        ("x:1K=f", Some(1024), 0),
        ("x:3M:64K=f", Some(3_145_728), 65536),
        ("x::5=f", None, 5),
        ("x:2G:0=f", Some(2_147_483_648), 0),
        ("x:1024G=f", Some(1_099_511_627_776u64), 0),
        ("x:00000000000000000007=f", Some(7), 0),
        (
            "x::18446744073709551615=f",
            None,
            18_446_744_073_709_551_615u64,
        ),
    ];
    for (text, size, store) in cases {
        let words = words_of(rt.alloc(), &[text])?;
        let entries = parse_words(rt.alloc(), &words).ok().ok_or("an image")?;
        assert_eq!(rt; entries.len(), 1);
        for entry in &entries {
            assert!(rt; entry.name().text() == b"x".as_slice());
            assert_eq!(rt; entry.size(), size, "of {text}");
            assert_eq!(rt; entry.store(), store, "of {text}");
        }
    }
    Ok(())
}

#[test]
fn bad_sizes_and_stores_are_told(rt: HostRuntime) -> Result<(), Fail> {
    let cases = [
        ("x:=f", WordFault::BadSize(0)),
        ("x:K=f", WordFault::BadSize(0)),
        ("x:1T=f", WordFault::BadSize(0)),
        ("x:1k=f", WordFault::BadSize(0)),
        ("x:+1=f", WordFault::BadSize(0)),
        ("x:1025G=f", WordFault::BadSize(0)),
        ("x:000000000000000000001=f", WordFault::BadSize(0)),
        ("x:q:q=f", WordFault::BadSize(0)),
        ("x::=f", WordFault::BadStore(0)),
        ("x:4K:=f", WordFault::BadStore(0)),
        ("x:1:2:3=f", WordFault::BadStore(0)),
        ("x::18446744073709551616=f", WordFault::BadStore(0)),
        ("x::18014398509481984K=f", WordFault::BadStore(0)),
        (":1=f", WordFault::BadName(0)),
        ("x:1=", WordFault::BadWord(0)),
    ];
    for (text, want) in cases {
        assert_eq!(rt; fault_of(rt.alloc(), &[text])?, Some(want), "of {text}");
    }
    assert_eq!(rt;
        fault_of(rt.alloc(), &["x=f", "x:q=f"])?,
        Some(WordFault::Repeated(0, 1))
    );
    Ok(())
}

#[test]
fn the_first_bad_word_is_told(rt: HostRuntime) -> Result<(), Fail> {
    let alloc = rt.alloc();
    let cases = [
        ("", "y=b", "z=c", WordFault::BadWord(0)),
        ("x=a", "y", "x=c", WordFault::BadWord(1)),
        ("x=a", "y=", "-", WordFault::BadWord(1)),
        ("a-b=a", "y", "z=c", WordFault::BadName(0)),
        ("x=a", "y=b", "=c", WordFault::BadName(2)),
        ("x=a", "x=b", "z", WordFault::Repeated(0, 1)),
        ("x=a", "y=b", "y=c", WordFault::Repeated(1, 2)),
    ];
    for (first, second, third, want) in cases {
        assert_eq!(rt;
            fault_of(alloc, &[first, second, third])?,
            Some(want),
            "at {second}"
        );
    }
    assert_eq!(rt;
        fault_of(alloc, &["x"; MAX_PARTITIONS])?,
        Some(WordFault::BadWord(0))
    );
    assert_eq!(rt;
        fault_of(alloc, &["x"; MORE])?,
        Some(WordFault::TooMany(MORE))
    );
    Ok(())
}

fn sevens(alloc: Global, len: usize) -> Result<Vec<u8>, Fail> {
    let mut bytes = Vec::new(alloc);
    for _ in 0..len {
        bytes.push(7)?;
    }
    Ok(bytes)
}

// The sizes and stores of the entries' images with so many bytes, where they hold them.
fn spaces_of(
    alloc: Global,
    entries: &[Entry<'_>],
    len: usize,
) -> Result<Vec<Option<(u64, u64)>>, Fail>
    requires { All IsAsked entries.now }
{
    let mut spaces = Vec::new(alloc);
    for entry in entries {
        let bytes = sevens(alloc, len)?;
        if bytes.len() > 1 << 40 {
            return Err("a short file")?;
        }
        spaces.push(set_image(entry, bytes).map(|image| (image.size, image.store)))?;
    }
    Ok(spaces)
}

#[test]
fn an_image_takes_whole_blocks(rt: HostRuntime) -> Result<(), Fail> {
    let cases = [
        ("x=f", 0usize, Some((0u64, 0u64))),
        ("x=f", 1, Some((4096, 0))),
        ("x=f", 4096, Some((4096, 0))),
        ("x=f", 4097, Some((8192, 0))),
        ("x:5K:9=f", 1, Some((8192, 9))),
        ("x:5=f", 6, Some((4096, 0))),
        ("x:4096=f", 4097, None),
        ("x:0=f", 1, None),
        ("x:0=f", 0, Some((0, 0))),
    ];
    for (text, len, want) in cases {
        let words = words_of(rt.alloc(), &[text])?;
        let entries = parse_words(rt.alloc(), &words).ok().ok_or("an image")?;
        let spaces = spaces_of(rt.alloc(), &entries, len)?;
        assert_eq!(rt; spaces.as_slice(), [want].as_slice(), "of {text}");
    }
    Ok(())
}
