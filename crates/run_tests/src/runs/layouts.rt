//! Worked layouts whose listings have a free part, and a long one.

// Two separations that leave no play: any two multipliers whose difference is 10 show the projection.
pub const TIGHT_CYCLE: &[u8] = b"\
dunnart 1
1 box a 0 0 10 10
1 box b 0 0 10 10
1 apart s x a b 10 least
1 apart t x b a -10 least
1 layout
end
";

// Two separations that no placement meets.
pub const POSITIVE_CYCLE: &[u8] = b"\
dunnart 1
1 box a 0 0 10 10
1 box b 0 0 10 10
1 apart s x a b 10 least
1 apart t x b a -9 least
1 layout
end
";

// A page that is too small, and one that is just wide enough.
pub const RIGID_PAGE: &[u8] = b"\
dunnart 1
1 box a 0 0 40 10
1 box b 40 0 40 10
1 box c 80 0 40 10
1 rank r x 40 a b c
1 page p 0 0 100 100 0 rigid
1 page p 0 0 120 100 0 rigid
end
";

// A flow chart of twelve shapes.
pub const FLOW_CHART: &[u8] = b"\
dunnart 1
1 oval start 160 0 80 40
1 box read 150 70 100 40
1 diamond check 150 160 100 60
1 box ask 380 150 90 40
1 box fix 390 240 90 40
1 box parse 150 250 100 40
1 box plan 150 330 100 40
1 box run 150 400 100 40
1 diamond test 140 500 110 60
1 box log 380 420 90 40
1 oval done 170 620 80 40
1 oval fail 380 610 80 40
1 link l1 start read
1 link l2 read check
1 link l3 check ask
1 link l4 ask fix
1 link l5 fix read
1 link l6 check parse
1 link l7 parse plan
1 link l8 plan run
1 link l9 run test
1 link l10 test done
1 link l11 test log
1 link l12 log fail
1 link l13 run log
1 guide main x 200
1 guide side x 430
1 guide base y 640
1 align c1 main mid start read check parse plan run test
1 align c2 side mid ask fix log fail
1 align c3 base mid done fail
1 spread s1 y 80 start read check parse plan run
1 group g1 15 parse plan run
1 page p1 0 0 600 800 20 soft
1 layout
1 layout
1 move done 240 700
1 layout
1 undo
end
";
