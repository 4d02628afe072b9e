//! What no clause says: that a script is made with ample memory.
use made_script::made;
use script_text::print;
use std::test::Fail;

/// The first lines of the script, its length and its last lines, as another program drew them.
#[test]
fn first_script_is_made(rt: HostRuntime) -> Result<(), Fail> {
    let script = made(rt.alloc(), 1).ok().ok_or("a script")?;
    assert_eq!(rt; script.lines().len(), 344);
    let bytes = print(rt.alloc(), &script)?;
    let first =
        b"dunnart 1\n1 box b1 -416 455 59 36\n1 box b2 356 -356 97 43\n1 box b3 -109 780 50 46\n";
    let last = b"1 move b86 538 293\n1 layout\n1 undo\n1 undo\n1 undo\n1 layout\nend\n";
    assert!(rt; bytes.starts_with(first.as_slice()));
    assert!(rt; bytes.ends_with(last.as_slice()));
    assert_eq!(rt; bytes.len(), 7788);
    Ok(())
}
