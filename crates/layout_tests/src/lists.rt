//! What no clause says: that a copy is made with ample memory, and the text of want of memory.
use std::test::Fail;
use units::{Members, Memory, Name, Sequence};

#[test]
fn members_are_copied(rt: HostRuntime) -> Result<(), Fail> {
    let name = Name::of(b"start").ok_or("a name")?;
    let other = Name::of(b"b_2").ok_or("a name")?;
    let members = Members::of(vec![in rt.alloc(); name, other]?).ok_or("two members")?;
    let copy = members.copy(rt.alloc())?;
    assert_eq!(rt; copy.list(), [name, other].as_slice());
    assert!(rt; copy == members);
    Ok(())
}

#[test]
fn an_item_is_added(rt: HostRuntime) -> Result<(), Fail> {
    let mut list = Sequence::new(rt.alloc());
    list.push(7u8)?;
    assert_eq!(rt; list.as_slice(), [7].as_slice());
    Ok(())
}

#[test]
fn want_of_memory_has_a_text(rt: HostRuntime) -> Result<(), Fail> {
    assert_eq!(rt; Memory.to_string(rt.alloc())?.as_str(), "no memory");
    Ok(())
}
