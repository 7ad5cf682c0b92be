//! Tokens and numbers of one line.

mod digits;
mod number_tokens;
mod short_numbers;
mod tokens;
mod windows;

pub(crate) use digits::{TokenNumber, digits_value, number_in_token};
pub(crate) use number_tokens::{first_token_number, next_token_number};
pub(crate) use short_numbers::{short_integer, short_number};
pub(crate) use tokens::{after_blanks, next_token};
pub(crate) use windows::{WINDOW, number_of_digits, number_within, others_in, spaces_in};
