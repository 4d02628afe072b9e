//! Scripts that are run beside workers, whose outcomes are judged.

// Two sessions of 20 edits each.
pub const SESSIONS_AND_WORKERS: &[u8] = b"\
dunnart 1
1 box s1b1 100 50 20 10
1 move s1b1 70 80
1 guide s1g x 40
1 align s1a s1g mid s1b1
2 box s2b1 100 100 20 10
2 move s2b1 70 160
2 guide s2g x 80
2 align s2a s2g mid s2b1
1 box s1b2 200 50 20 10
1 move s1b2 140 80
1 link s1l2 s1b1 s1b2
1 apart s1d2 y s1b1 s1b2 30 least
2 box s2b2 200 100 20 10
2 move s2b2 140 160
2 link s2l2 s2b1 s2b2
2 apart s2d2 y s2b1 s2b2 30 least
1 box s1b3 300 50 20 10
1 move s1b3 210 80
1 link s1l3 s1b2 s1b3
1 apart s1d3 y s1b2 s1b3 30 least
2 box s2b3 300 100 20 10
2 move s2b3 210 160
2 link s2l3 s2b2 s2b3
2 apart s2d3 y s2b2 s2b3 30 least
1 box s1b4 400 50 20 10
1 move s1b4 280 80
1 link s1l4 s1b3 s1b4
1 apart s1d4 y s1b3 s1b4 30 least
2 box s2b4 400 100 20 10
2 move s2b4 280 160
2 link s2l4 s2b3 s2b4
2 apart s2d4 y s2b3 s2b4 30 least
1 box s1b5 500 50 20 10
1 move s1b5 350 80
1 link s1l5 s1b4 s1b5
1 apart s1d5 y s1b4 s1b5 30 least
2 box s2b5 500 100 20 10
2 move s2b5 350 160
2 link s2l5 s2b4 s2b5
2 apart s2d5 y s2b4 s2b5 30 least
end
";

// Eight sessions, of which each sets a box down, links it to that of the session before it, and moves it.
pub const EIGHT_SESSIONS: &[u8] = b"\
dunnart 1
1 box b1 100 0 20 10
2 box b2 200 0 20 10
3 box b3 300 0 20 10
4 box b4 400 0 20 10
5 box b5 500 0 20 10
6 box b6 600 0 20 10
7 box b7 700 0 20 10
8 box b8 800 0 20 10
1 link l1 b8 b1
2 link l2 b1 b2
3 link l3 b2 b3
4 link l4 b3 b4
5 link l5 b4 b5
6 link l6 b5 b6
7 link l7 b6 b7
8 link l8 b7 b8
1 move b1 10 10
2 move b2 20 20
3 move b3 30 30
4 move b4 40 40
5 move b5 50 50
6 move b6 60 60
7 move b7 70 70
8 move b8 80 80
2 layout
4 layout
6 layout
8 layout
1 undo
3 undo
5 undo
7 undo
1 where b1
2 where b2
3 where b3
4 where b4
5 where b5
6 where b6
7 where b7
8 where b8
end
";
