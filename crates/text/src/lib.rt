//! Lines, blanks, words and decimals of bytes (C11 5.1.1.2, 6.4.2.1, 6.4.4.1, 6.10.6; OpenMP 5.2, 3.1).
#![tactic(auto)]

mod byte;
mod decimal;
mod line;

pub use byte::{is_blank, is_digit, is_letter, is_word_byte};
pub use decimal::{is_decimal, value};
pub use line::{behind, behind_omp, first_line, skip_blanks};
