//! A table of words, read and printed.
ghost use Rattle.std.specs.Prelude.{◌≡◌};

use keyword_table::{Words, arms};
use std::alloc::AllocError;
use std::test::Fail;

#[derive(Clone, Copy, Debug, PartialEq, Eq)]
enum Corner {
    Round,
    Cut,
    Square,
}

// The one table of corners.
macro_rules! corners {
    ($($ask:tt)*) => {
        arms!(($($ask)*)
            b"round" => Corner::Round,
            b"cut" => Corner::Cut,
            b"square" => Corner::Square,
        )
    };
}

fn read_corner(word: &[u8]) -> Option<Corner> {
    let words = Words::<3>::new(&corners!(words));
    corners!(read words.find(word))
}

fn print_corner(corner: Corner, text: &mut Vec<u8>) -> Result<(), AllocError> {
    let words = Words::<3>::new(&corners!(words));
    text.extend_from_slice(words.word(corners!(print corner)))?;
    Ok(())
}

// What is printed is read back.
fn read_back(corner: Corner) -> Option<Corner>
    ensures { result ≡ Some corner }
{
    let words = Words::<3>::new(&corners!(words));
    corners!(read words.find(words.word(corners!(print corner))))
}

#[test]
fn one_table_reads_and_prints(rt: HostRuntime) -> Result<(), Fail> {
    let alloc = rt.alloc();
    for (corner, spelling) in [
        (Corner::Round, b"round".as_slice()),
        (Corner::Cut, b"cut".as_slice()),
        (Corner::Square, b"square".as_slice()),
    ] {
        let mut text = Vec::new(alloc);
        print_corner(corner, &mut text)?;
        assert_eq!(rt; text.as_slice(), spelling);
        assert_eq!(rt; read_corner(spelling), Some(corner));
        assert_eq!(rt; read_back(corner), Some(corner));
    }
    for unknown in [b"".as_slice(), b"roun", b"rounds", b"Round", b"squarf"] {
        assert_eq!(rt; read_corner(unknown), None);
    }
    Ok(())
}

#[test]
fn finds_every_row(rt: HostRuntime) {
    let words = Words::<22>::new(&[
        b"box", b"oval", b"diamond", b"size", b"move", b"shift", b"hold", b"free", b"remove",
        b"link", b"unlink", b"guide", b"align", b"spread", b"rank", b"apart", b"group", b"page",
        b"drop", b"undo", b"layout", b"where",
    ]);
    for (word, want) in [
        (b"box".as_slice(), Some(0)),
        (b"unlink", Some(10)),
        (b"where", Some(21)),
        (b"", None),
        (b"boxes", None),
        (b"bo", None),
        (b"Box", None),
    ] {
        assert_eq!(rt; words.find(word), want);
    }
    for row in 0..22 {
        assert_eq!(rt; words.find(words.word(row)), Some(row));
    }
}
