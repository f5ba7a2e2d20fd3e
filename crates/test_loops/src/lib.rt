//! Tests of what is judged of loops and of their data.
#![tactic(auto)]

#[cfg(test)]
mod affine_expr_rows;
#[cfg(test)]
mod flow_doacross_rows;
#[cfg(test)]
mod flow_ordered_rows;
#[cfg(test)]
mod flow_reduction_rows;
#[cfg(test)]
mod flow_rows;
#[cfg(test)]
mod flow_scan_rows;
#[cfg(test)]
mod nest_lines_rows;
#[cfg(test)]
mod nest_loop_rows;
#[cfg(test)]
mod nest_rows;
#[cfg(test)]
mod nest_space_rows;
#[cfg(test)]
mod texts;
#[cfg(test)]
mod told;
#[cfg(test)]
mod waves_rows;
