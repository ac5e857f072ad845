// The questions to a table: the tile at a point and its neighbours, the squares and tiles of an area; and the handle, which asks a tested table again without a test.
#![tactic(auto)]

pub mod handle;
pub mod query;
pub mod side;
