//! Tests of the crates that read text: tokens, directive lines and the parsers.
#![tactic(auto)]

#[cfg(test)]
mod cparse_expr_rows;
#[cfg(test)]
mod cparse_printf_rows;
#[cfg(test)]
mod cparse_rows;
#[cfg(test)]
mod cparse_stmt_rows;
#[cfg(test)]
mod ctoken_rows;
#[cfg(test)]
mod outcome;
#[cfg(test)]
mod pragma_attach_rows;
#[cfg(test)]
mod pragma_clause_rows;
#[cfg(test)]
mod pragma_rows;
