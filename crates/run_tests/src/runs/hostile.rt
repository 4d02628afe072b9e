//! Bytes that spell no script: each kind of fault, as near to a script as it can be. A number that is read and then
//! refused is among the worked scripts.
use super::*;

/// A script whose second line is one byte longer than a line may be.
fn long_line(alloc: Global) -> Result<Vec<u8>, AllocError> {
    let mut script = Vec::from_slice(alloc, b"dunnart 1\n1 where ")?;
    for _ in 0..2_041 {
        script.push(b'a')?;
    }
    script.push(b'\n')?;
    Ok(script)
}

/// A script of one line more than a script may have.
fn many_lines(alloc: Global) -> Result<Vec<u8>, AllocError> {
    let mut script = Vec::from_slice(alloc, b"dunnart 1\n")?;
    for _ in 0..2_001 {
        script.extend_from_slice(b"1 undo\n")?;
    }
    Ok(script)
}

#[test]
fn hostile_scripts(rt: HostRuntime) -> Result<(), Fail> {
    let alloc = rt.alloc();
    for (script, text) in [
        (b"".as_slice(), "3 line 1: Missing"),
        (b"dunnart 1\r\n", "3 line 1: Header"),
        (b"dunnart 1\n9 undo\n", "3 line 2: Session"),
        (b"dunnart 1\n1  undo\n", "3 line 2: Command"),
        (b"dunnart 1\n1 undo \n", "3 line 2: Fields"),
        (b"dunnart 1\n1 box a 0 0 10 -0\n", "3 line 2: Fields"),
        (
            b"dunnart 1\n1 box a 0 0 10 1000000000\n",
            "3 line 2: Fields",
        ),
        (b"dunnart 1\nend", "3 line 2: Cut"),
        (b"dunnart 1\nend\nx", "3 line 3: After"),
    ] {
        fails(&rt, script.to_vec(alloc)?, text)?;
    }
    fails(&rt, many_lines(alloc)?, "3 line 2002: TooMany")?;
    fails(&rt, long_line(alloc)?, "3 line 2: Long")
}
