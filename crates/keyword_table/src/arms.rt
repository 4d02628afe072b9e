// One table for a reader and a printer.

/// What a table of words and values says, in one of three directions. The table is written once, in a macro of its
/// user, which passes on what is asked:
///
/// ```text
/// macro_rules! axes {
///     ($($ask:tt)*) => { arms!(($($ask)*) b"x" => Axis::X, b"y" => Axis::Y) };
/// }
/// ```
///
/// - `axes!(words)` is the array of its spellings, for `Words::<2>::new(&axes!(words))`.
/// - `axes!(read words.find(word))` is the value of the row that was found, and `None` where none was.
/// - `axes!(print axis)` is the row of a value, for `words.word(axes!(print axis))`.
///
/// The values are paths of variants without fields. A table has at most 32 rows.
#[macro_export]
macro_rules! arms {
    ((words) $($word:literal => $variant:path),+ $(,)?) => {
        [$($word),+]
    };
    ((read $row:expr) $($table:tt)+) => {
        $crate::arms!(@read ($row) [] [0 1 2 3 4 5 6 7 8 9 10 11 12 13 14 15 16 17 18 19 20 21 22 23 24 25 26 27 28 29 30 31] $($table)+)
    };
    ((print $value:expr) $($table:tt)+) => {
        $crate::arms!(@print ($value) [] [0 1 2 3 4 5 6 7 8 9 10 11 12 13 14 15 16 17 18 19 20 21 22 23 24 25 26 27 28 29 30 31] $($table)+)
    };
    // Each row gets its number.
    (@$ask:ident $of:tt [$($done:tt)*] [$number:tt $($more:tt)*] $word:literal => $variant:path $(, $($rest:tt)*)?) => {
        $crate::arms!(@$ask $of [$($done)* ($number, $variant)] [$($more)*] $($($rest)*)?)
    };
    (@read ($row:expr) [$(($number:tt, $variant:path))*] [$($more:tt)*]) => {
        match $row {
            $(Some($number) => Some($variant),)*
            _ => None,
        }
    };
    (@print ($value:expr) [$(($number:tt, $variant:path))*] [$($more:tt)*]) => {
        match $value {
            $($variant => $number,)*
        }
    };
}
