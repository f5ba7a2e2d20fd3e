//! Tests of lowered code: texts of C that are parsed, lowered and run.
#![tactic(auto)]

#[cfg(test)]
mod branch_rows;
#[cfg(test)]
mod codes;
#[cfg(test)]
mod flat_cells;
#[cfg(test)]
mod fold_rows;
#[cfg(test)]
mod greatest_rows;
#[cfg(test)]
mod lane_digests;
#[cfg(test)]
mod lane_rows_rows;
#[cfg(test)]
mod lower_block_rows;
#[cfg(test)]
mod lower_lanes_rows;
#[cfg(test)]
mod lowering;
#[cfg(test)]
mod outcome;
#[cfg(test)]
mod overlay_pages_rows;
#[cfg(test)]
mod overlay_rows;
#[cfg(test)]
mod role_rows;
#[cfg(test)]
mod scan_rows;
#[cfg(test)]
mod stores;
#[cfg(test)]
mod text_rows;
#[cfg(test)]
mod turns_rows;
#[cfg(test)]
mod update_rows;
