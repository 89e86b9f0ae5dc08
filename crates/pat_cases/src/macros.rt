//! How tables are written.

/// A table: each row has the facts that are to hold, those that are not to hold, and the answer. A table that ends with a row `0, 0` is
/// closed.
#[macro_export]
macro_rules! cases {
    ($($holds:expr, $fails:expr => $answer:expr);+ $(;)?) => {
        $crate::CaseTable {
            rows: [$($crate::Case { mask: $holds | $fails, wanted: $holds, answer: $answer }),+],
        }
    };
}
