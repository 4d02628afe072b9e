//! Worked scripts and their listings.

// A box, laid out twice: the second layout finds nothing to do.
pub const FIRST_BOX: &[u8] = b"\
dunnart 1
1 box a 3 4 40 20
1 layout
1 layout
end
";

pub const FIRST_BOX_LISTING: &[u8] = b"\
listing 1
0 1 2 box a 3 4 40 20
1 1 3 frame
x a 3 3
y a 4 4
2 0 0 end
3 0 0 frame
x a 3 3
y a 4 4
replies
1 2 box a 3 4 40 20 = accepted 0
1 3 layout = published 1
1 4 layout = idle 2
done
";

// A script without lines ends with one frame.
pub const EMPTY: &[u8] = b"\
dunnart 1
end
";

pub const EMPTY_LISTING: &[u8] = b"\
listing 1
0 0 0 end
1 0 0 frame
replies
done
";

// Session 2 puts and lays out, then session 1 finds nothing left to do: its layout comes last, so it sees all.
pub const TWO_SESSIONS: &[u8] = b"\
dunnart 1
1 box a 0 0 10 10
2 box b 20 0 10 10
2 layout
1 layout
end
";

pub const TWO_SESSIONS_LISTING: &[u8] = b"\
listing 1
0 1 2 box a 0 0 10 10
1 2 3 box b 20 0 10 10
2 2 4 frame
x a 0 0
x b 20 20
y a 0 0
y b 0 0
3 0 0 end
4 0 0 frame
x a 0 0
x b 20 20
y a 0 0
y b 0 0
replies
1 2 box a 0 0 10 10 = accepted 0
1 5 layout = idle 3
2 3 box b 20 0 10 10 = accepted 1
2 4 layout = published 2
done
";

// A name that doesn't stand yet, then one that another session put.
pub const ASKED_TWICE: &[u8] = b"\
dunnart 1
2 where a
1 box a 3 -4 40 20
2 where a
end
";

pub const ASKED_TWICE_LISTING: &[u8] = b"\
listing 1
0 1 3 box a 3 -4 40 20
1 0 0 end
2 0 0 frame
x a 3 3
y a -4 -4
replies
1 3 box a 3 -4 40 20 = accepted 0
2 2 where a = refused 0 unknown a
2 4 where a = at 3 -4 1
done
";

// The front shows that the answer saw the move.
pub const READ_BACK: &[u8] = b"\
dunnart 1
1 box a 0 0 10 10
1 move a 5 5
1 where a
end
";

pub const READ_BACK_LISTING: &[u8] = b"\
listing 1
0 1 2 box a 0 0 10 10
1 1 3 move a 5 5
2 0 0 end
3 0 0 frame
x a 5 5
y a 5 5
replies
1 2 box a 0 0 10 10 = accepted 0
1 3 move a 5 5 = accepted 1
1 4 where a = at 5 5 2
done
";

// A number that the grammar has, and no shape may have.
pub const OUT_OF_RANGE: &[u8] = b"\
dunnart 1
1 box a 0 0 10 999999999
end
";

pub const OUT_OF_RANGE_LISTING: &[u8] = b"\
listing 1
0 0 0 end
1 0 0 frame
replies
1 2 box a 0 0 10 999999999 = refused 0 range 999999999
done
";

// Shapes and guidelines are made, changed and removed, by four sessions.
pub const EACH_EDIT: &[u8] = b"\
dunnart 1
1 oval a 0 0 10 10
2 guide g x 40
3 diamond b 20 0 6 8
1 size a 12 14
2 shift g -7
8 where g
1 hold a
3 layout
1 free a
2 move g 0 0
3 remove b
1 hold b
3 layout
1 where a
end
";

pub const EACH_EDIT_LISTING: &[u8] = b"\
listing 1
0 1 2 oval a 0 0 10 10
1 2 3 guide g x 40
2 3 4 diamond b 20 0 6 8
3 1 5 size a 12 14
4 2 6 shift g -7
5 1 8 hold a
6 3 9 frame
x a 0 0
x b 20 20
x g -7 -7
y a 0 0
y b 0 0
7 1 10 free a
8 3 12 remove b
9 3 14 frame
x a 0 0
x g -7 -7
y a 0 0
10 0 0 end
11 0 0 frame
x a 0 0
x g -7 -7
y a 0 0
replies
1 2 oval a 0 0 10 10 = accepted 0
1 5 size a 12 14 = accepted 3
1 8 hold a = accepted 5
1 10 free a = accepted 7
1 13 hold b = refused 9 unknown b
1 15 where a = at 0 0 10
2 3 guide g x 40 = accepted 1
2 6 shift g -7 = accepted 4
2 11 move g 0 0 = refused 8 kind g
3 4 diamond b 20 0 6 8 = accepted 2
3 9 layout = published 6
3 12 remove b = accepted 8
3 14 layout = published 9
8 7 where g = guide x -7 5
done
";

// Without a budget each layout is spent, and the one frame is that behind End.
pub const NO_FRAMES_LISTING: &[u8] = b"\
listing 1
0 1 2 box a 3 4 40 20
1 0 0 end
2 0 0 frame
x a 3 3
y a 4 4
replies
1 2 box a 3 4 40 20 = accepted 0
1 3 layout = spent 1
1 4 layout = spent 1
done
";

// The first box, with no line behind its commands.
pub const FIRST_BOX_WITHOUT_END: &[u8] = b"\
dunnart 1
1 box a 3 4 40 20
1 layout
1 layout
";

// A number of more than nine digits.
pub const LARGE_NUMBER: &[u8] = b"\
dunnart 1
1 box a 0 0 10 1000000000
end
";

/// The picture of the first box.
pub const FIRST_BOX_PICTURE: &[u8] = b"\
<svg xmlns=\"http://www.w3.org/2000/svg\" viewBox=\"-7 -6 60 40\">
<rect class=\"shape\" x=\"3\" y=\"4\" width=\"40\" height=\"20\" fill=\"white\" stroke=\"black\"/>
<text x=\"23\" y=\"14\" text-anchor=\"middle\">a</text>
</svg>
";

pub const MADE_ONE: &[u8] = b"\
made 1
lines 344
accepted 335
refused 0
frames 73
span 1507 1227
";

pub const MADE_TWO: &[u8] = b"\
made 2
lines 344
accepted 335
refused 0
frames 73
span 815 1776
";

pub const MADE_THREE: &[u8] = b"\
made 3
lines 344
accepted 333
refused 2
frames 73
span 1226 1900
";
