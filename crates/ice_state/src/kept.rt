//! What a state keeps of the manifests that it took: files by numbers, row by row, and the index of delete files.

pub mod deletes;
pub mod gathering;
pub mod halves;
pub mod handing;
pub mod indexed;
pub mod merging;
pub mod ordered;
pub mod patterns;
pub mod row_runs;
pub mod segments;
pub mod slots;
pub mod sorting;
pub mod taken;
