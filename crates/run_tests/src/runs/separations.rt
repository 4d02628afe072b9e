//! Worked layouts and their listings, of scripts with compounds.

// Two boxes that are to stand 20 apart; the stored run of the program.
pub const TWO_APART: &[u8] = b"\
dunnart 1
1 box a 0 0 10 10
1 box b 4 0 10 10
1 apart s x a b 20 least
1 layout
end
";

pub const TWO_APART_LISTING: &[u8] = b"\
listing 1
0 1 2 box a 0 0 10 10
1 1 3 box b 4 0 10 10
2 1 4 apart s x a b 20 least
3 1 5 frame
x a 0 -8
x b 4 12
x #0 16
y a 0 0
y b 0 0
4 0 0 end
5 0 0 frame
x a -8 -8
x b 12 12
y a 0 0
y b 0 0
replies
1 2 box a 0 0 10 10 = accepted 0
1 3 box b 4 0 10 10 = accepted 1
1 4 apart s x a b 20 least = accepted 2
1 5 layout = published 3
done
";

// Three boxes in a chain: places that are no whole numbers.
pub const CHAIN_OF_THREE: &[u8] = b"\
dunnart 1
1 box a 0 0 10 10
1 box b 0 0 10 10
1 box c 1 0 10 10
1 apart s x a b 5 least
1 apart t x b c 5 least
1 layout
end
";

pub const CHAIN_OF_THREE_LISTING: &[u8] = b"\
listing 1
0 1 2 box a 0 0 10 10
1 1 3 box b 0 0 10 10
2 1 4 box c 1 0 10 10
3 1 5 apart s x a b 5 least
4 1 6 apart t x b c 5 least
5 1 7 frame
x a 0 -14/3
x b 0 1/3
x c 1 16/3
x #0 28/3
x #1 26/3
y a 0 0
y b 0 0
y c 0 0
6 0 0 end
7 0 0 frame
x a -5 -5
x b 0 0
x c 5 5
y a 0 0
y b 0 0
y c 0 0
replies
1 2 box a 0 0 10 10 = accepted 0
1 3 box b 0 0 10 10 = accepted 1
1 4 box c 1 0 10 10 = accepted 2
1 5 apart s x a b 5 least = accepted 3
1 6 apart t x b c 5 least = accepted 4
1 7 layout = published 5
done
";

// The second separation makes the first one slack again.
pub const DROPPED_SEPARATION: &[u8] = b"\
dunnart 1
1 box a 0 0 10 10
1 box b 0 0 10 10
1 box c 0 0 10 10
1 apart s x a b 4 least
1 apart t x c b 10 least
1 layout
end
";

pub const DROPPED_SEPARATION_LISTING: &[u8] = b"\
listing 1
0 1 2 box a 0 0 10 10
1 1 3 box b 0 0 10 10
2 1 4 box c 0 0 10 10
3 1 5 apart s x a b 4 least
4 1 6 apart t x c b 10 least
5 1 7 frame
x a 0 0
x b 0 5
x c 0 -5
x #1 10
y a 0 0
y b 0 0
y c 0 0
6 0 0 end
7 0 0 frame
x a 0 0
x b 5 5
x c -5 -5
y a 0 0
y b 0 0
y c 0 0
replies
1 2 box a 0 0 10 10 = accepted 0
1 3 box b 0 0 10 10 = accepted 1
1 4 box c 0 0 10 10 = accepted 2
1 5 apart s x a b 4 least = accepted 3
1 6 apart t x c b 10 least = accepted 4
1 7 layout = published 5
done
";

// The first of the two alone.
pub const FIRST_SEPARATION_ALONE: &[u8] = b"\
dunnart 1
1 box a 0 0 10 10
1 box b 0 0 10 10
1 box c 0 0 10 10
1 apart s x a b 4 least
1 layout
end
";

pub const FIRST_SEPARATION_ALONE_LISTING: &[u8] = b"\
listing 1
0 1 2 box a 0 0 10 10
1 1 3 box b 0 0 10 10
2 1 4 box c 0 0 10 10
3 1 5 apart s x a b 4 least
4 1 6 frame
x a 0 -2
x b 0 2
x c 0 0
x #0 4
y a 0 0
y b 0 0
y c 0 0
5 0 0 end
6 0 0 frame
x a -2 -2
x b 2 2
x c 0 0
y a 0 0
y b 0 0
y c 0 0
replies
1 2 box a 0 0 10 10 = accepted 0
1 3 box b 0 0 10 10 = accepted 1
1 4 box c 0 0 10 10 = accepted 2
1 5 apart s x a b 4 least = accepted 3
1 6 layout = published 4
done
";

// A shape that is held weighs more than the others.
pub const HELD_SHAPE: &[u8] = b"\
dunnart 1
1 box a 0 0 10 10
1 hold a
1 box b 4 0 10 10
1 apart s x a b 20 least
1 layout
end
";

pub const HELD_SHAPE_LISTING: &[u8] = b"\
listing 1
0 1 2 box a 0 0 10 10
1 1 3 hold a
2 1 4 box b 4 0 10 10
3 1 5 apart s x a b 20 least
4 1 6 frame
x a 0 -16/1001
x b 4 20004/1001
x #0 32000/1001
y a 0 0
y b 0 0
5 0 0 end
6 0 0 frame
x a -1 -1
x b 19 19
y a 0 0
y b 0 0
replies
1 2 box a 0 0 10 10 = accepted 0
1 3 hold a = accepted 1
1 4 box b 4 0 10 10 = accepted 2
1 5 apart s x a b 20 least = accepted 3
1 6 layout = published 4
done
";

// Three boxes whose mid lines follow a guideline; one of them is in use.
pub const ALIGN_MID: &[u8] = b"\
dunnart 1
1 box a 0 0 5 10
1 box b 20 0 6 10
1 box c 40 0 10 10
1 guide g x 30
1 align r g mid a b c
1 layout
1 remove b
end
";

pub const ALIGN_MID_LISTING: &[u8] = b"\
listing 1
0 1 2 box a 0 0 5 10
1 1 3 box b 20 0 6 10
2 1 4 box c 40 0 10 10
3 1 5 guide g x 30
4 1 6 align r g mid a b c
5 1 7 frame
x a 0 23
x b 20 22
x c 40 20
x g 30 25
x #0 -46
x #1 -4
x #2 40
y a 0 0
y b 0 0
y c 0 0
6 0 0 end
7 0 0 frame
x a 23 23
x b 22 22
x c 20 20
x g 25 25
y a 0 0
y b 0 0
y c 0 0
replies
1 2 box a 0 0 5 10 = accepted 0
1 3 box b 20 0 6 10 = accepted 1
1 4 box c 40 0 10 10 = accepted 2
1 5 guide g x 30 = accepted 3
1 6 align r g mid a b c = accepted 4
1 7 layout = published 5
1 8 remove b = refused 6 inuse r
done
";
