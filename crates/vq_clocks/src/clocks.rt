//! Vector clocks: a row for each job, with two numbers for each lane.
pub(crate) mod before;
pub(crate) mod parts;
pub(crate) mod rows;
pub(crate) mod table;
