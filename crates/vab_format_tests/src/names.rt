// Names of slots and what is none.

use std::test::*;
use vab_bytes::Name36;
use vab_names::{
    base_of, default_group, full_name, in_slot, is_full, is_of_slot, is_store, parse_base,
    store_group, store_of,
};

fn name(text: &[u8]) -> Result<Name36, Fail> {
    Ok(Name36::parse(text).ok().ok_or("a name")?)
}

#[test]
fn base_names(rt: HostRuntime) -> Result<(), Fail> {
    let longest = [b'x'; 30];
    for text in [b"x".as_slice(), b"system", b"vendor_boot.2", &longest] {
        let base = parse_base(text).ok_or("a base name")?;
        assert!(rt; base.text() == text);
    }
    let longer = [b'x'; 31];
    for text in [b"".as_slice(), b"a-b", b"a b", b"a/b", &longer] {
        assert!(rt; parse_base(text).is_none());
    }
    Ok(())
}

#[test]
fn names_of_a_slot(rt: HostRuntime) -> Result<(), Fail> {
    for (text, of_a, of_b) in [
        (b"system_a".as_slice(), true, false),
        (b"system_b", false, true),
        (b"_a", true, false),
        (b"system_a-cow", false, false),
        (b"system", false, false),
        (b"a", false, false),
        (b"", false, false),
    ] {
        assert!(rt; [is_of_slot(text, 0), is_of_slot(text, 1)] == [of_a, of_b]);
    }
    for (text, full) in [
        (b"system_b".as_slice(), true),
        (b"system_a", false),
        (b"_b", false),
        (b"a-b_b", false),
        (b"system_b-cow", false),
    ] {
        assert!(rt; is_full(text, 1) == full);
    }
    Ok(())
}

// The full name of a base name in slot b, with its twin in slot a and the name of its store.
fn made_of(base: &Name36) -> Option<[Name36; 3]> {
    if base.text().len() > 30 {
        return None;
    }
    let full = full_name(base, 1);
    if full.text().len() < 2 || full.text().len() > 32 {
        return None;
    }
    Some([full, in_slot(&full, 0), store_of(&full)])
}

// The base name in a full name.
fn base_in(full: &[u8]) -> &[u8] {
    if full.len() < 2 { b"" } else { base_of(full) }
}

#[test]
fn names_made_of_names(rt: HostRuntime) -> Result<(), Fail> {
    let [full, twin, store] = made_of(&name(b"system")?).ok_or("they are short")?;
    assert!(rt;
        full.text() == b"system_b".as_slice() && base_in(full.text()) == b"system".as_slice()
    );
    assert!(rt; twin.text() == b"system_a".as_slice());
    assert!(rt; store.text() == b"system_b-cow".as_slice());
    assert!(rt; is_store(store.text(), 1) && !is_store(store.text(), 0));
    assert!(rt; !is_store(full.text(), 1));
    assert!(rt; default_group().text() == b"default".as_slice());
    assert!(rt; store_group().text() == b"cow".as_slice());
    Ok(())
}
