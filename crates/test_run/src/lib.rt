//! Tests of what runs a kernel: expressions, statements, input and output, chunks and teams.
#![tactic(auto)]

#[cfg(test)]
mod draw_rows;
#[cfg(test)]
mod lowering;
#[cfg(test)]
mod printed_rows;
#[cfg(test)]
mod scan_rows;
#[cfg(test)]
mod seqrun_io_rows;
#[cfg(test)]
mod seqrun_rows;
#[cfg(test)]
mod seqrun_value_rows;
#[cfg(test)]
mod single_chunks;
#[cfg(test)]
mod stores;
#[cfg(test)]
mod team_chunks;
#[cfg(test)]
mod team_rows;
