//! The separations of a scene: what its compounds, groups and page ask on an axis, as a list.
#![tactic(auto)]

mod adding;
mod areas;
mod compiler;
mod compiling;
mod counting;
mod index;
mod law;
mod rules;

pub use adding::{
    count_with_align, count_with_apart, count_with_group, count_with_page, count_with_row,
    count_with_shape,
};
pub use compiling::compile;
pub use counting::count;
pub use law::compilation_law;
