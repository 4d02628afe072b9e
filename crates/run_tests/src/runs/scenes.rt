//! Worked layouts and their listings, of scripts with links, groups, pages, moves and undos.

// A link draws two boxes together.
pub const LINKED_PAIR: &[u8] = b"\
dunnart 1
1 box a 0 0 10 10
1 box b 200 0 10 10
1 link l a b
1 layout
end
";

pub const LINKED_PAIR_LISTING: &[u8] = b"\
listing 1
0 1 2 box a 0 0 10 10
1 1 3 box b 200 0 10 10
2 1 4 link l a b
3 1 5 frame
x a 50 50
x b 150 150
y a 0 0
y b 0 0
4 0 0 end
5 0 0 frame
x a 50 50
x b 150 150
y a 0 0
y b 0 0
replies
1 2 box a 0 0 10 10 = accepted 0
1 3 box b 200 0 10 10 = accepted 1
1 4 link l a b = accepted 2
1 5 layout = published 3
done
";

// A link between two boxes at one place takes them apart.
pub const COINCIDENT_PAIR: &[u8] = b"\
dunnart 1
1 box a 0 0 10 10
1 box b 0 0 10 10
1 link l a b
1 layout
end
";

pub const COINCIDENT_PAIR_LISTING: &[u8] = b"\
listing 1
0 1 2 box a 0 0 10 10
1 1 3 box b 0 0 10 10
2 1 4 link l a b
3 1 5 frame
x a -49 -49
x b 49 49
y a 0 0
y b 0 0
4 0 0 end
5 0 0 frame
x a -50 -50
x b 50 50
y a 0 0
y b 0 0
6 0 0 frame
x a -50 -50
x b 50 50
y a 0 0
y b 0 0
replies
1 2 box a 0 0 10 10 = accepted 0
1 3 box b 0 0 10 10 = accepted 1
1 4 link l a b = accepted 2
1 5 layout = published 3
done
";

// A group encloses its members.
pub const GROUP: &[u8] = b"\
dunnart 1
1 box a 0 0 10 10
1 box b 30 0 10 10
1 group g 5 a b
1 layout
end
";

pub const GROUP_LISTING: &[u8] = b"\
listing 1
0 1 2 box a 0 0 10 10
1 1 3 box b 30 0 10 10
2 1 4 group g 5 a b
3 1 5 frame
x a 0 0
x b 30 30
x g.low -5 -5
x g.high 45 45
y a 0 0
y b 0 0
y g.low -5 -5
y g.high 15 15
4 0 0 end
5 0 0 frame
x a 0 0
x b 30 30
x g.low -5 -5
x g.high 45 45
y a 0 0
y b 0 0
y g.low -5 -5
y g.high 15 15
replies
1 2 box a 0 0 10 10 = accepted 0
1 3 box b 30 0 10 10 = accepted 1
1 4 group g 5 a b = accepted 2
1 5 layout = published 3
done
";

// A soft page gives way to a box that stands outside of it.
pub const SOFT_PAGE: &[u8] = b"\
dunnart 1
1 box a -10 0 10 10
1 page p 0 0 50 50 0 soft
1 layout
end
";

pub const SOFT_PAGE_LISTING: &[u8] = b"\
listing 1
0 1 2 box a -10 0 10 10
1 1 3 page p 0 0 50 50 0 soft
2 1 4 frame
x a -10 -10/101
x p.low 0 -10/101
x p.high 50 50
x #0 2000/101
y a 0 0
y p.low 0 0
y p.high 50 50
3 0 0 end
4 0 0 frame
x a -1 -1/101
x p.low 0 -1/101
x p.high 50 50
x #0 200/101
y a 0 0
y p.low 0 0
y p.high 50 50
replies
1 2 box a -10 0 10 10 = accepted 0
1 3 page p 0 0 50 50 0 soft = accepted 1
1 4 layout = published 2
done
";

// A shape stands where it was moved to, and not where the frame before the move drew it.
pub const MOVED_AFTER_FRAME: &[u8] = b"\
dunnart 1
1 box a 0 0 10 10
1 box b 4 0 10 10
1 apart s x a b 20 least
1 layout
1 move a 0 0
1 where a
end
";

pub const MOVED_AFTER_FRAME_LISTING: &[u8] = b"\
listing 1
0 1 2 box a 0 0 10 10
1 1 3 box b 4 0 10 10
2 1 4 apart s x a b 20 least
3 1 5 frame
x a 0 -8
x b 4 12
x #0 16
y a 0 0
y b 0 0
4 1 6 move a 0 0
5 0 0 end
6 0 0 frame
x a 0 -4
x b 12 16
x #0 8
y a 0 0
y b 0 0
7 0 0 frame
x a -4 -4
x b 16 16
y a 0 0
y b 0 0
replies
1 2 box a 0 0 10 10 = accepted 0
1 3 box b 4 0 10 10 = accepted 1
1 4 apart s x a b 20 least = accepted 2
1 5 layout = published 3
1 6 move a 0 0 = accepted 4
1 7 where a = at 0 0 5
done
";

// Each undo takes the last standing edit off, until none stands.
pub const UNDO: &[u8] = b"\
dunnart 1
1 box a 0 0 10 10
1 move a 30 0
1 layout
1 undo
1 where a
1 undo
1 where a
1 undo
end
";

pub const UNDO_LISTING: &[u8] = b"\
listing 1
0 1 2 box a 0 0 10 10
1 1 3 move a 30 0
2 1 4 frame
x a 30 30
y a 0 0
3 1 5 undo
4 1 7 undo
5 0 0 end
6 0 0 frame
replies
1 2 box a 0 0 10 10 = accepted 0
1 3 move a 30 0 = accepted 1
1 4 layout = published 2
1 5 undo = accepted 3
1 6 where a = at 0 0 4
1 7 undo = accepted 4
1 8 where a = refused 5 unknown a
1 9 undo = refused 5 nothing
done
";

// A link has no place.
pub const ASKED_OF_A_LINK: &[u8] = b"\
dunnart 1
1 box a 0 0 10 10
1 box b 0 0 10 10
1 link l a b
1 where l
end
";

pub const ASKED_OF_A_LINK_LISTING: &[u8] = b"\
listing 1
0 1 2 box a 0 0 10 10
1 1 3 box b 0 0 10 10
2 1 4 link l a b
3 0 0 end
4 0 0 frame
x a -49 -49
x b 49 49
y a 0 0
y b 0 0
5 0 0 frame
x a -50 -50
x b 50 50
y a 0 0
y b 0 0
6 0 0 frame
x a -50 -50
x b 50 50
y a 0 0
y b 0 0
replies
1 2 box a 0 0 10 10 = accepted 0
1 3 box b 0 0 10 10 = accepted 1
1 4 link l a b = accepted 2
1 5 where l = refused 3 kind l
done
";
